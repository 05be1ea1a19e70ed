//! Volumes and areas: positions and times, and tests of whether two of them meet.
ghost use Rattle.std.specs.Prelude.{◌≡◌, ◌↔◌, ◌≤◌, ◌*◌, ℕ, int_le, nat_le, length, IsTrue, IfOk, MatchResult, Option, Some, None};
ghost use Rattle.std.specs.List.{list_any};
ghost use Rattle.grid_core.specs.Cell.{Cell};
ghost use Rattle.grid_core.specs.Extent.{Extent, Region, Meet, extent_of, region_of, region_with, region_fault, touches, any_touch, meets, covers, covered_by};

use crate::cell::CellId;
use crate::range::{are_altitudes, are_times, share_altitude, share_time};
use crate::volume_fault::VolumeFault;
use std::alloc::AllocError;
use std::marker::Model;

/// A part of the space during a time: 1 to 512 cells, altitudes in decimetres, times in Unix
/// seconds.
///
/// All ranges are closed (this project's profile). Contracts see an `Extent`.
#[derive(Debug, Drop)]
pub struct Volume {
    cells: Vec<CellId>,
    altitude: (i64, i64),
    time: (u64, u64),
}

impl Model for Volume {
    ghost use Rattle.std.specs.Prelude.{◌≡◌, None};
    ghost use Rattle.grid_core.specs.Extent.{Extent, extent_of, region_of, region_fault};

    ghost Value = { Extent };

    ghost view = { λ a. extent_of a.cells.items a.altitude a.time };

    ghost invariant = { λ a. region_fault (region_of (extent_of a.cells.items a.altitude a.time))
        ≡ None };
}

/// An area to search: like a volume, but each of the four bounds can be absent.
///
/// An absent bound does not restrict. Contracts see a `Region`.
#[derive(Debug, Drop)]
pub struct Area {
    cells: Vec<CellId>,
    altitude: (Option<i64>, Option<i64>),
    time: (Option<u64>, Option<u64>),
}

impl Model for Area {
    ghost use Rattle.std.specs.Prelude.{◌≡◌, None};
    ghost use Rattle.grid_core.specs.Extent.{Region, region_with, region_fault};

    ghost Value = { Region };

    ghost view = { λ a. region_with a.cells.items a.altitude a.time };

    ghost invariant = { λ a. region_fault (region_with a.cells.items a.altitude a.time) ≡ None };
}

// Returns the first fault of these cells and bounds, or `None`.
fn fault_of(
    cells: &[CellId],
    altitude: (Option<i64>, Option<i64>),
    time: (Option<u64>, Option<u64>),
) -> Option<VolumeFault>
    ensures { result ≡ region_fault (region_with cells.now altitude time) }
{
    if cells.is_empty() {
        return Some(VolumeFault::Empty);
    }
    if cells.len() > 512 {
        return Some(VolumeFault::TooMany);
    }
    if !are_altitudes(altitude.0, altitude.1) {
        return Some(VolumeFault::Altitude);
    }
    if !are_times(time.0, time.1) {
        return Some(VolumeFault::Time);
    }
    None
}

fn bound(altitude: i64) -> Option<i64>
    ensures { result ≡ Some altitude }
{
    Some(altitude)
}

fn is_touching(cell: CellId, other: CellId) -> bool
    ensures { result ≡ touches cell other }
{
    cell.touches(other)
}

fn touches_one_of(cell: CellId, others: &[CellId]) -> bool
    ensures { result ≡ list_any (λ d. touches cell d) others.now }
{
    others.iter().any(|other| is_touching(cell, *other))
}

fn are_touching(cells: &[CellId], others: &[CellId]) -> bool
    ensures { result ≡ any_touch cells.now others.now }
{
    cells.iter().any(|cell| touches_one_of(*cell, others))
}

fn covers(cell: CellId) -> u64
    ensures count { result ≡ covers cell }
    ensures most { result ≤ 67108864 }
{
    let level = cell.level();
    if level >= 13 {
        return 1;
    }
    1 << (26 - 2 * u32::from(level))
}

fn covered_by(cells: &[CellId]) -> u64
    requires { length cells.now ≤ 512 }
    ensures count { result ≡ covered_by cells.now }
    ensures most { result ≤ 34359738368 }
{
    let mut total = 0u64;
    for cell in cells {
        total += covers(*cell);
    }
    total
}

impl Volume {
    /// Creates a volume of these cells and bounds.
    ///
    /// Returns the first fault, checked in the order of their numbers, and drops the cells.
    /// Allocates nothing.
    pub fn new(
        cells: Vec<CellId>,
        altitude: (i64, i64),
        time: (u64, u64),
    ) -> Result<Volume, VolumeFault>
        ensures { MatchResult result (λ v. (v ≡ extent_of cells.items altitude time)
            × (region_fault (region_of v) ≡ None))
            (λ e. region_fault (region_of (extent_of cells.items altitude time)) ≡ Some e) }
    {
        let bounds = (Some(altitude.0), Some(altitude.1));
        match fault_of(&cells, bounds, (Some(time.0), Some(time.1))) {
            Some(fault) => Err(fault),
            None => Ok(Volume {
                cells,
                altitude,
                time,
            }),
        }
    }

    /// Returns the cells, in the order in which they were given.
    pub fn cells(&self) -> &[CellId]
        ensures { result.now ≡ self.now.cells }
    {
        self.cells.as_slice()
    }

    /// Returns the lower and the upper altitude, in decimetres.
    pub fn altitude(&self) -> (i64, i64)
        ensures bounds { result ≡ self.now.altitude }
        ensures limits { region_fault (region_of self.now) ≡ None }
    {
        self.altitude
    }

    /// Returns the first and the last time, in Unix seconds.
    pub fn time(&self) -> (u64, u64)
        ensures { result ≡ self.now.time }
    {
        self.time
    }

    /// Returns the number of level-13 cells that its cells cover, each cell counted.
    ///
    /// Allocates nothing.
    pub fn covered(&self) -> u64
        ensures count { result ≡ covered_by self.now.cells }
        ensures most { result ≤ 34359738368 }
    {
        covered_by(&self.cells)
    }

    /// Returns an area with the same cells and bounds.
    ///
    /// Returns `AllocError` if memory runs out.
    pub fn as_area(&self) -> Result<Area, AllocError>
        ensures { IfOk result (λ area. area ≡ region_of self.now) }
    {
        Ok(Area {
            cells: self.cells.clone()?,
            altitude: (bound(self.altitude.0), bound(self.altitude.1)),
            time: (Some(self.time.0), Some(self.time.1)),
        })
    }

    /// Returns a copy of the volume.
    ///
    /// Returns `AllocError` if memory runs out.
    pub fn clone(&self) -> Result<Volume, AllocError>
        ensures { IfOk result (λ v. v ≡ self.now) }
    {
        Ok(Volume {
            cells: self.cells.clone()?,
            altitude: self.altitude,
            time: self.time,
        })
    }

    /// Returns true if a cell of the volume touches a cell of the area, and they share an altitude
    /// and a time.
    ///
    /// Allocates nothing.
    pub fn meets(&self, area: &Area) -> bool
        ensures test { result ≡ meets (region_of self.now) area.now }
        ensures relation { IsTrue result ↔ Meet (region_of self.now) area.now }
    {
        self.is_meeting(area)
    }

    fn is_meeting(&self, area: &Area) -> bool
        ensures { result ≡ meets (region_of self.now) area.now }
    {
        let shares_bounds = share_altitude(
            Some(self.altitude.0),
            Some(self.altitude.1),
            area.altitude.0,
            area.altitude.1,
        ) && share_time(
            Some(self.time.0),
            Some(self.time.1),
            area.time.0,
            area.time.1,
        );
        // The cells are compared last, since there can be many.
        shares_bounds && are_touching(&self.cells, &area.cells)
    }
}

impl Area {
    /// Creates an area of these cells and bounds.
    ///
    /// Returns the first fault, checked in the order of their numbers, and drops the cells.
    /// Allocates nothing.
    pub fn new(
        cells: Vec<CellId>,
        altitude: (Option<i64>, Option<i64>),
        time: (Option<u64>, Option<u64>),
    ) -> Result<Area, VolumeFault>
        ensures { MatchResult result (λ a. (a ≡ region_with cells.items altitude time)
            × (region_fault a ≡ None))
            (λ e. region_fault (region_with cells.items altitude time) ≡ Some e) }
    {
        match fault_of(&cells, altitude, time) {
            Some(fault) => Err(fault),
            None => Ok(Area {
                cells,
                altitude,
                time,
            }),
        }
    }

    /// Returns the cells, in the order in which they were given.
    pub fn cells(&self) -> &[CellId]
        ensures { result.now ≡ self.now.cells }
    {
        self.cells.as_slice()
    }

    /// Returns the lower and the upper altitude, in decimetres.
    pub fn altitude(&self) -> (Option<i64>, Option<i64>)
        ensures lower { result.0 ≡ self.now.lowest }
        ensures upper { result.1 ≡ self.now.highest }
        ensures limits { region_fault self.now ≡ None }
    {
        self.altitude
    }

    /// Returns the first and the last time, in Unix seconds.
    pub fn time(&self) -> (Option<u64>, Option<u64>)
        ensures first { result.0 ≡ self.now.first }
        ensures last { result.1 ≡ self.now.last }
    {
        self.time
    }

    /// Returns the number of level-13 cells that its cells cover, each cell counted.
    ///
    /// Allocates nothing.
    pub fn covered(&self) -> u64
        ensures count { result ≡ covered_by self.now.cells }
        ensures most { result ≤ 34359738368 }
    {
        covered_by(&self.cells)
    }

    /// Returns true if a cell of one area touches a cell of the other, and they share an altitude
    /// and a time.
    ///
    /// Allocates nothing.
    pub fn meets(&self, area: &Area) -> bool
        ensures test { result ≡ meets self.now area.now }
        ensures relation { IsTrue result ↔ Meet self.now area.now }
    {
        self.is_meeting(area)
    }

    fn is_meeting(&self, area: &Area) -> bool
        ensures { result ≡ meets self.now area.now }
    {
        let shares_bounds = share_altitude(
            self.altitude.0,
            self.altitude.1,
            area.altitude.0,
            area.altitude.1,
        ) && share_time(self.time.0, self.time.1, area.time.0, area.time.1);
        // The cells are compared last, since there can be many.
        shares_bounds && are_touching(&self.cells, &area.cells)
    }
}
