//! The trait of storage backends that offer snapshots.
ghost use Rattle.std.specs.Prelude.{◌≡◌, IfOk};
ghost use Rattle.entity_core.specs.Airspace.{Airspace};
ghost use Rattle.entity_maps.specs.Lists.{airspace_of};

use crate::counts::EntityCounts;
use entity_maps::availabilities::Availabilities;
use entity_maps::entities::Entities;
use entity_maps::subscriptions::Subscriptions;
use space_core::space::Space;

/// A snapshot of an in-memory mirror: its maps, borrowed, its serial, and the number of entities of
/// each kind.
#[derive(Clone, Copy)]
pub struct Snapshot<'a> {
    pub entities: &'a Entities,
    pub subscriptions: &'a Subscriptions,
    pub availabilities: &'a Availabilities,
    pub serial: u64,
    pub counts: EntityCounts,
}

/// The reason why there is no in-memory mirror.
#[derive(Clone, Copy, Debug, PartialEq, Eq)]
pub enum NoMirror {
    /// Memory ran out, or the space could not be read. The mirror is not built again.
    None,
    /// The mirror was dropped with changes that were not committed. It can be rebuilt.
    Dropped,
}

/// A storage backend that offers snapshots.
pub trait SnapshotSource: Space {
    /// Returns a snapshot of the visible airspace, if the space has an in-memory mirror of it.
    ///
    /// Allocates nothing and changes nothing, not even the count of refusals.
    fn snapshot(&self) -> Result<Snapshot<'_>, NoMirror>
        ensures { Self.is_sound self.now → IfOk result (λ shown. (a : Airspace)
            → Self.holds self.now a → a ≡ airspace_of shown.entities.now
            shown.subscriptions.now shown.availabilities.now shown.serial) };
}
