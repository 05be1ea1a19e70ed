//! The intervals for which the index is queried: those of the cells of areas and of their
//! ancestors.
ghost use Rattle.std.specs.Prelude.{IfOk, OnOk};
ghost use Rattle.std.specs.List.{AllByRecursion};
ghost use Rattle.space_sql_search.specs.SearchRanges.{AreEachOnce, AsksFor, AsksForAll, HasAncestors, IsSubset, KeepsRanges};

use crate::interval::{Interval, interval_of};
use grid_core::cell::CellId;
use grid_core::volume::Area;
use std::alloc::{AllocError, Global};

/// Intervals of cells, and of their ancestors of levels below 13.
#[derive(Debug, Drop)]
pub(crate) struct SearchRanges {
    pub ranges: Vec<Interval>,
    pub ancestors: Vec<Interval>,
}

fn add_ancestors(out: &mut Vec<Interval>, cell: CellId) -> Result<(), AllocError>
    ensures keeps { OnOk result (IsSubset out.old.items out.new.items) }
    ensures each { OnOk result (HasAncestors out.new.items cell) }
{
    let levels = cell.level().min(13);
    for level in 0..levels {
        out.push(interval_of(cell.parent(level)))?;
    }
    Ok(())
}

fn add_cells(searched: &mut SearchRanges, cells: &[CellId]) -> Result<(), AllocError>
    ensures keeps { OnOk result (KeepsRanges searched.old searched.new) }
    ensures each { OnOk result (AllByRecursion (AsksFor searched.new) cells.now) }
{
    for cell in cells {
        let _number = cell.raw();
        searched.ranges.push(interval_of(*cell))?;
        add_ancestors(&mut searched.ancestors, *cell)?;
    }
    Ok(())
}

fn order_intervals(intervals: &mut Vec<Interval>)
    ensures keeps { IsSubset intervals.old.items intervals.new.items }
    ensures once { AreEachOnce intervals.new.items }
{
    intervals.sort_unstable();
    intervals.dedup();
}

/// Returns the intervals of the cells of areas and of their ancestors, each once.
pub(crate) fn ranges_of(alloc: Global, areas: &[Area]) -> Result<SearchRanges, AllocError>
    ensures each { IfOk result (λ searched. AsksForAll searched areas.now) }
    ensures once { IfOk result (λ searched. AreEachOnce searched.ranges.items
        × AreEachOnce searched.ancestors.items) }
{
    let mut searched = SearchRanges {
        ranges: Vec::new(alloc),
        ancestors: Vec::new(alloc),
    };
    for area in areas {
        add_cells(&mut searched, area.cells())?;
    }
    order_intervals(&mut searched.ranges);
    order_intervals(&mut searched.ancestors);
    Ok(searched)
}
