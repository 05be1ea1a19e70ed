//! Intervals of cells.
ghost use Rattle.std.specs.Prelude.{◌≡◌};
ghost use Rattle.space_sql_search.specs.SearchRanges.{interval_of};

use grid_core::cell::CellId;

/// The positions of the first and of the last cell of level 13 in a cell, among all of that level.
#[derive(Clone, Copy, Debug, PartialEq, Eq, PartialOrd, Ord)]
pub(crate) struct Interval {
    pub lo: i64,
    pub hi: i64,
}

/// Returns the interval of a cell.
pub(crate) fn interval_of(cell: CellId) -> Interval
    ensures { result ≡ interval_of cell }
{
    Interval {
        lo: i64::from(cell.lo()),
        hi: i64::from(cell.hi()),
    }
}
