//! Areas prepared for searching.
ghost use Rattle.std.specs.Prelude.{◌≡◌, ◌↔◌, ◌+◌, ◌<◌, ◌≤◌, length, map, IsTrue, IfOk};
ghost use Rattle.std.specs.List.{All, list_any};
ghost use Rattle.std.specs.List.Sorted.{IsNonDecreasingBy, IsPartitionPoint, IsPermutation};
ghost use Rattle.grid_core.specs.Cell.{IsCell};
ghost use Rattle.grid_core.specs.Extent.{any_meet, any_touch, meets, region_of, touches};
ghost use Rattle.grid_core.specs.SortedArea.{interval_of, overlap, AreApart, HaveSamePlaces, IsOrdered};
ghost use Rattle.grid_core.specs.Volumes.{meets_some};

use crate::cell::CellId;
use crate::range::{share_altitude, share_time};
use crate::volume::{Area, Volume};
use crate::volumes::Volumes;
use std::alloc::{AllocError, Global};
use std::marker::Model;

// The indexes of the first and the last cell of a range of level-13 cells.
#[derive(Clone, Copy, Debug)]
struct Interval {
    lo: u32,
    hi: u32,
}

/// An area prepared for searching.
///
/// Besides its cells it has their intervals at level 13, sorted and merged, so that a cell is
/// compared with few of them. Contracts see a `Region`, as of an `Area`.
#[derive(Debug, Drop)]
pub struct SortedArea {
    cells: Vec<CellId>,
    intervals: Vec<Interval>,
    altitude: (Option<i64>, Option<i64>),
    time: (Option<u64>, Option<u64>),
}

impl Model for SortedArea {
    ghost use Rattle.grid_core.specs.Extent.{Region, region_with};

    ghost Value = { Region };

    ghost use Rattle.grid_core.specs.SortedArea.{IsSorted};

    ghost view = { λ a. region_with a.cells.items a.altitude a.time };

    ghost invariant = { λ a. IsSorted a.cells.items a.intervals.items };
}

fn interval_of(cell: CellId) -> Interval
    ensures value { result ≡ interval_of cell }
    ensures valid { IsCell cell }
{
    let _number = cell.raw();
    Interval {
        lo: cell.lo(),
        hi: cell.hi(),
    }
}

// Returns the intervals of cells, in their order.
fn intervals_of(alloc: Global, cells: &[CellId]) -> Result<Vec<Interval>, AllocError>
    ensures items { IfOk result (λ v. v.items ≡ map interval_of cells.now) }
    ensures valid { IfOk result (λ _. All IsCell cells.now) }
{
    let mut intervals = Vec::new(alloc);
    for cell in cells {
        intervals.push(interval_of(*cell))?;
    }
    Ok(intervals)
}

fn sort(intervals: &mut Vec<Interval>)
    ensures same { IsPermutation intervals.old.items intervals.new.items }
    ensures order { IsNonDecreasingBy (λ i. i.lo) intervals.new.items }
{
    intervals.sort_unstable_by_key(|interval| interval.lo);
}

// Returns true if `next`, which begins no sooner than `interval`, overlaps it or follows it without
// a gap.
fn is_next(interval: Interval, next: Interval) -> bool
    ensures { IsTrue result ↔ next.lo ≤ interval.hi + 1 }
{
    next.lo.saturating_sub(interval.hi) <= 1
}

// Merges sorted intervals. The result has the same positions, and no two of its intervals touch.
fn joined(alloc: Global, intervals: &[Interval]) -> Result<Vec<Interval>, AllocError>
    requires ordered { All IsOrdered intervals.now }
    requires sorted { IsNonDecreasingBy (λ i. i.lo) intervals.now }
    ensures same { IfOk result (λ v. HaveSamePlaces v.items intervals.now) }
    ensures ordered { IfOk result (λ v. All IsOrdered v.items) }
    ensures apart { IfOk result (λ v. AreApart v.items) }
{
    let mut joined = Vec::new(alloc);
    let Some((first, rest)) = intervals.split_first() else {
        return Ok(joined);
    };
    let mut last = *first;
    for next in rest {
        if is_next(last, *next) {
            last.hi = last.hi.max(next.hi);
        } else {
            joined.push(last)?;
            last = *next;
        }
    }
    joined.push(last)?;
    Ok(joined)
}

// Returns the index of the first interval that does not end before `lo`.
fn first_from(intervals: &[Interval], lo: u32) -> usize
    requires ordered { All IsOrdered intervals.now }
    requires apart { AreApart intervals.now }
    ensures { IsPartitionPoint (λ i. i.hi < lo) (λ i. lo ≤ i.hi) intervals.now result }
{
    intervals.partition_point(|interval| interval.hi < lo)
}

fn overlaps_one_of(own: Interval, intervals: &[Interval]) -> bool
    requires ordered { All IsOrdered intervals.now }
    requires apart { AreApart intervals.now }
    ensures { result ≡ list_any (overlap own) intervals.now }
{
    match intervals.get(first_from(intervals, own.lo)) {
        Some(first) => first.lo <= own.hi,
        None => false,
    }
}

impl SortedArea {
    /// Prepares an area for searching.
    ///
    /// Returns `AllocError` if memory runs out.
    pub fn new(alloc: Global, area: &Area) -> Result<SortedArea, AllocError>
        ensures { IfOk result (λ s. s ≡ area.now) }
    {
        let mut intervals = intervals_of(alloc, area.cells())?;
        sort(&mut intervals);
        Ok(SortedArea {
            cells: area.cells().to_vec(alloc)?,
            intervals: joined(alloc, &intervals)?,
            altitude: area.altitude(),
            time: area.time(),
        })
    }

    /// Returns the cells, in the order in which they were given.
    pub fn cells(&self) -> &[CellId]
        ensures { result.now ≡ self.now.cells }
    {
        self.cells.as_slice()
    }

    fn touches(&self, cell: CellId) -> bool
        ensures { result ≡ list_any (λ d. touches cell d) self.now.cells }
    {
        overlaps_one_of(interval_of(cell), &self.intervals)
    }

    fn touches_some(&self, cells: &[CellId]) -> bool
        ensures { result ≡ any_touch cells.now self.now.cells }
    {
        cells.iter().any(|cell| self.touches(*cell))
    }
}

/// Prepares each area for searching, in their order.
pub fn sorted(alloc: Global, areas: &[Area]) -> Result<Vec<SortedArea>, AllocError>
    ensures { IfOk result (λ s. s.items ≡ areas.now) }
{
    let mut sorted = Vec::new(alloc);
    for area in areas {
        sorted.push(SortedArea::new(alloc, area)?)?;
    }
    Ok(sorted)
}

impl Volume {
    /// Returns true if this volume meets the area, as `meets` does.
    ///
    /// Searches each cell of the volume among the area's intervals. Allocates nothing.
    pub fn meets_sorted(&self, area: &SortedArea) -> bool
        ensures { result ≡ meets (region_of self.now) area.now }
    {
        let altitude = self.altitude();
        let time = self.time();
        let shares_bounds = share_altitude(
            Some(altitude.0),
            Some(altitude.1),
            area.altitude.0,
            area.altitude.1,
        ) && share_time(Some(time.0), Some(time.1), area.time.0, area.time.1);
        // The cells are compared last, since there can be many.
        shares_bounds && area.touches_some(self.cells())
    }
}

/// Returns true if a volume meets some area.
pub fn meets_some_sorted(volume: &Volume, areas: &[SortedArea]) -> bool
    ensures { result ≡ meets_some volume.now areas.now }
{
    areas.iter().any(|area| volume.meets_sorted(area))
}

fn any_meet_sorted(volumes: &[Volume], areas: &[SortedArea]) -> bool
    ensures { result ≡ any_meet volumes.now areas.now }
{
    volumes
        .iter()
        .any(|volume| meets_some_sorted(volume, areas))
}

impl Volumes {
    /// Returns true if some volume meets some area, as `meets_any` does.
    pub fn meets_any_sorted(&self, areas: &[SortedArea]) -> bool
        ensures { result ≡ any_meet self.now areas.now }
    {
        any_meet_sorted(self.items(), areas)
    }
}
