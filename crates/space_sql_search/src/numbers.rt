//! The numbers of items with a matching cell, found by the index on `lo` and `hi` of a table of
//! cells.
ghost use Rattle.std.specs.Prelude.{◌≡◌, ℤ, [], ◌∷◌, OnOk, IfOk};
ghost use Rattle.std.specs.List.{AllByRecursion};
ghost use Rattle.std.specs.List.Sorted.{IsStrictlySortedBy};
ghost use Rattle.std.specs.Ordering.{int_cmp};
ghost use Rattle.sqlite_value.specs.declared.value.Value.TheVariants.{Int};
ghost use Rattle.sqlite_rules.specs.Lists.{Has};
ghost use Rattle.space_sql_schema.specs.Within.{SameConnection, Within};
ghost use Rattle.space_sql_select.specs.Reading.{Reads};
ghost use Rattle.space_sql_search.specs.SearchRanges.{IsSubset};
ghost use Rattle.space_sql_search.specs.Numbers.{ShowsNumbers, HasNumbers, FindsNumbers};

use crate::cell_table::{CellTable, RangeMatch};
use crate::interval::Interval;
use crate::search_ranges::SearchRanges;
use space_sql_select::select::query;
use sqlite::{Alter, Error, Row, Transaction, params};
use std::alloc::Global;

fn query_numbers<S: Alter>(
    tx: &mut Transaction<'_, S>,
    table: CellTable,
    range: RangeMatch,
    interval: &Interval,
) -> Result<Vec<Row>, Error>
    ensures same_reference { SameConnection tx.old tx.new }
    ensures reads { Within S.Store tx.old tx.new
        (Reads (λ db rows. ShowsNumbers table range interval.now db rows.items)) result }
{
    query(tx, table.text(range), params![interval.lo, interval.hi])
}

fn number_in(row: &Row) -> Result<i64, Error>
    ensures { IfOk result (λ n. (m : ℤ) → row.now ≡ Int m ∷ [] → n ≡ m) }
{
    row.get(0)
}

fn add_numbers(found: &mut Vec<i64>, rows: &[Row]) -> Result<(), Error>
    ensures keeps { OnOk result (IsSubset found.old.items found.new.items) }
    ensures each { OnOk result ((n : ℤ) → Has rows.now (Int n ∷ []) → Has found.new.items n) }
{
    for row in rows {
        let number = number_in(row)?;
        found.push(number)?;
    }
    Ok(())
}

fn find<S: Alter>(
    tx: &mut Transaction<'_, S>,
    table: CellTable,
    range: RangeMatch,
    interval: &Interval,
    found: &mut Vec<i64>,
) -> Result<(), Error>
    ensures same_reference { SameConnection tx.old tx.new }
    ensures keeps { OnOk result (IsSubset found.old.items found.new.items) }
    ensures finds { Within S.Store tx.old tx.new
        (Reads (λ db _. HasNumbers table range db found.new.items interval.now)) result }
{
    let rows = query_numbers(tx, table, range, interval)?;
    add_numbers(found, rows.as_slice())
}

fn find_each<S: Alter>(
    tx: &mut Transaction<'_, S>,
    table: CellTable,
    range: RangeMatch,
    intervals: &[Interval],
    found: &mut Vec<i64>,
) -> Result<(), Error>
    ensures same_reference { SameConnection tx.old tx.new }
    ensures keeps { OnOk result (IsSubset found.old.items found.new.items) }
    ensures finds { Within S.Store tx.old tx.new
        (Reads (λ db _. AllByRecursion (HasNumbers table range db found.new.items) intervals.now))
        result }
{
    for interval in intervals {
        find(tx, table, range, interval, found)?;
    }
    Ok(())
}

fn order_numbers(numbers: &mut Vec<i64>)
    ensures keeps { IsSubset numbers.old.items numbers.new.items }
    ensures once { IsStrictlySortedBy int_cmp numbers.new.items }
{
    numbers.sort_unstable();
    numbers.dedup();
}

/// Returns the numbers of the items with a cell that starts in one of the ranges, or that has the
/// interval of one of the ancestors. Each number occurs once.
pub(crate) fn find_numbers<S: Alter>(
    alloc: Global,
    tx: &mut Transaction<'_, S>,
    table: CellTable,
    searched: &SearchRanges,
) -> Result<Vec<i64>, Error>
    ensures same_reference { SameConnection tx.old tx.new }
    ensures once { IfOk result (λ found. IsStrictlySortedBy int_cmp found.items) }
    ensures finds { Within S.Store tx.old tx.new
        (Reads (λ db found. FindsNumbers table searched.now db found.items)) result }
{
    let mut found = Vec::new(alloc);
    find_each(
        tx,
        table,
        RangeMatch::Within,
        searched.ranges.as_slice(),
        &mut found,
    )?;
    find_each(
        tx,
        table,
        RangeMatch::Exactly,
        searched.ancestors.as_slice(),
        &mut found,
    )?;
    order_numbers(&mut found);
    Ok(found)
}
