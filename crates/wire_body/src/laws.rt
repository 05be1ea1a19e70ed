//! Laws of bodies. Each is the contract of a function that does nothing.
ghost use Rattle.wire_body.specs.Laws.{AsksForOne, KeepsKind, KeepsLimits, IgnoresOthers, IgnoresOthersOfSubs, IsZeroText};

/// States that path parameters and a body give at most one operation of a kind.
pub fn asks_for_one()
    ensures { AsksForOne }
{}

/// States that the operation is of that kind.
pub fn keeps_kind()
    ensures { KeepsKind }
{}

/// States that the operation is within all limits.
pub fn keeps_limits()
    ensures { KeepsLimits }
{}

/// States that only the members of its kind affect the put of an entity.
pub fn ignores_others()
    ensures { IgnoresOthers }
{}

/// States that only its own members affect the put of a subscription.
pub fn ignores_others_of_subs()
    ensures { IgnoresOthersOfSubs }
{}

/// States that the id for no subscription is the same when read and when printed.
pub fn zero_text()
    ensures { IsZeroText }
{}
