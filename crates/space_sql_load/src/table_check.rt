//! The result of checking the tables.
ghost use Rattle.entity_maps.specs.Subscriptions.{AllNotified};

use entity_maps::availabilities::Availabilities;
use entity_maps::entities::Entities;
use entity_maps::subscriptions::Subscriptions;

/// An airspace that was loaded from the tables.
#[derive(Debug, Drop)]
pub struct LoadedAirspace {
    pub entities: Entities,
    pub subscriptions: Subscriptions,
    pub availabilities: Availabilities,
    pub serial: u64,
    ghost told: { AllNotified subscriptions serial },
}

/// The result of checking tables of format 2.
#[derive(Debug, Drop)]
pub enum TableCheck {
    /// The tables represent this airspace.
    Valid(LoadedAirspace),
    /// The tables represent no airspace: `meta` has one row, with another format.
    OtherFormat,
    /// The tables represent no airspace, and `meta` gives no other format.
    Invalid,
}
