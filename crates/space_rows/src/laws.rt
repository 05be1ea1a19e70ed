//! Laws of rows, each stated by a function that does nothing.
ghost use Rattle.space_rows.specs.Laws.{OneEntity, OneSub};

/// States that rows represent at most one entity.
pub fn one_entity()
    ensures { OneEntity }
{}

/// States that rows represent at most one subscription.
pub fn one_sub()
    ensures { OneSub }
{}
