//! Snapshots of an in-memory space.
ghost use Rattle.std.specs.Prelude.{◌≡◌};
ghost use Rattle.entity_maps.specs.Lists.{airspace_of};
ghost use Rattle.space_memory.specs.Memory.{content_of};

use crate::memory::MemorySpace;
use space_snapshot::snapshot::{NoMirror, Snapshot, SnapshotSource};

impl MemorySpace {
    /// Returns a snapshot of the content, borrowed.
    ///
    /// Allocates nothing.
    pub fn snapshot(&self) -> Snapshot<'_>
        ensures { airspace_of result.entities.now result.subscriptions.now
            result.availabilities.now result.serial ≡ content_of self.now }
    {
        Snapshot {
            entities: self.entities.entities(),
            subscriptions: self.subscriptions.subscriptions(),
            availabilities: &self.availabilities,
            serial: self.serial,
            counts: self.entities.counts(),
        }
    }
}

impl SnapshotSource for MemorySpace {
    /// Returns a snapshot of the content.
    fn snapshot(&self) -> Result<Snapshot<'_>, NoMirror> {
        Ok(MemorySpace::snapshot(self))
    }
}
