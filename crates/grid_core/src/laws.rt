//! Laws of cells and extents. Each is the contract of a function that does nothing.
ghost use Rattle.grid_core.specs.Laws.{MeetsIsMeet, AnyMeetIsRelation, TouchByInterval, ApartOrNested, FoundByIndex};
ghost use Rattle.grid_core.specs.Token.{NamesCell};

/// States that the test `meets` of two areas agrees with the relation `Meet`.
///
/// Two areas meet if a cell of one touches a cell of the other, and they share an altitude and a
/// time.
pub fn meets_is_meet()
    ensures { MeetsIsMeet }
{}

/// States that the test `any_meet` agrees with the relation `AnyMeet`: some volume of one list
/// meets some area of the other.
pub fn any_meet_is_relation()
    ensures { AnyMeetIsRelation }
{}

/// States that two cells touch exactly if their intervals `lo..=hi` share a number.
pub fn touch_by_interval()
    ensures { TouchByInterval }
{}

/// States that the intervals of two cells are apart or one lies in the other.
pub fn apart_or_nested()
    ensures { ApartOrNested }
{}

/// States what an index on `(lo, hi)` finds.
///
/// A cell d touches a cell c exactly if one of two conditions holds. Either `d.lo` is from `c.lo`
/// to `c.hi`, or d has the interval of a cell at a level below 13 that contains c.
pub fn found_by_index()
    ensures { FoundByIndex }
{}

/// States that the cell that a token names is the cell that it represents.
pub fn names_cell()
    ensures { NamesCell }
{}
