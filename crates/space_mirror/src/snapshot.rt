//! Snapshots of a mirrored space.
ghost use Rattle.std.specs.Prelude.{◌≡◌, IfOk};
ghost use Rattle.entity_core.specs.Airspace.{Airspace};
ghost use Rattle.entity_maps.specs.Lists.{airspace_of};
ghost use Rattle.space_mirror.specs.Mirrored.{MirrorAgrees, pending_if_mirrored, mirrored_model, holds_in};

use crate::mirror_state::MirrorState;
use space_core::batch::BatchChange;
use space_core::space::Space;
use space_memory::memory::MemorySpace;
use space_snapshot::snapshot::{NoMirror, Snapshot};

// Returns the reason why there is no mirror.
fn why_none(state: MirrorState) -> NoMirror {
    match state {
        MirrorState::Steady | MirrorState::Full => NoMirror::None,
        MirrorState::Dropped | MirrorState::RebuildDue => NoMirror::Dropped,
    }
}

/// Returns a snapshot of the mirror, if any.
#[tactic(auto, using(crate::proofs::Mirrors::list_shows))]
pub(crate) fn snapshot_of<'a, S: Space>(
    store: &S,
    mirror: &'a Option<MemorySpace>,
    state: MirrorState,
    batch: &[BatchChange],
) -> Result<Snapshot<'a>, NoMirror>
    requires { MirrorAgrees S.Space store.now mirror.now state batch.now }
    ensures { S.is_sound store.now → IfOk result (λ snapshot_of. (a : Airspace)
        → holds_in S.Space (mirrored_model store.now (pending_if_mirrored mirror.now batch.now) 0) a
        → a ≡ airspace_of snapshot_of.entities.now snapshot_of.subscriptions.now
        snapshot_of.availabilities.now
        snapshot_of.serial) }
{
    match mirror {
        Some(mirror) => Ok(mirror.snapshot()),
        None => Err(why_none(state)),
    }
}
