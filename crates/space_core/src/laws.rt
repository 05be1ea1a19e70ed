//! Laws of spaces. Each is the contract of a function that does nothing.
ghost use Rattle.entity_core.specs.Airspace.{Airspace, IsAirspace, NotifiedOnce};
ghost use Rattle.entity_core.specs.Search.{FoundInOrder};

/// States that searches return their results by ascending id, and so each only once.
///
/// The searches are for entities by area, for all entities of a kind, for the intents that
/// reference a subscription, and for subscriptions.
pub fn found_in_order()
    ensures { (a : Airspace) → IsAirspace a → FoundInOrder a }
{}

/// States that a notification increments the index of each notified subscription by one and changes
/// nothing else.
pub fn notified_once()
    ensures { NotifiedOnce }
{}
