//! A space with an in-memory mirror, which commits its changes in batches.
ghost use Rattle.std.specs.Prelude.{◌≡◌, [], Some, None};
ghost use Rattle.space_mirror.specs.Mirrored.{IsMirrorAhead, IsSoundIn, mirrored_model};

use crate::mirror_state::MirrorState;
use crate::{changes, purges, reads, snapshot};
use entity_core::availability::Availability;
use entity_core::entity::Entity;
use entity_core::entity_id::EntityId;
use entity_core::nature::Kind;
use entity_core::ovn::Ovn;
use entity_core::subscription::Sub;
use entity_core::uss_id::UssId;
use entity_purge::purge_item::PurgeItem;
use grid_core::volume::Area;
use space_core::batch::{ApplyBatch, BatchChange};
use space_core::group_commit::GroupCommit;
use space_core::met::Met;
use space_core::purge::Purge;
use space_core::purge_ended::PurgeEnded;
use space_core::space::{Change, Space, SpaceFault};
use space_memory::memory::MemorySpace;
use space_memory::to_memory::ToMemory;
use space_snapshot::snapshot::{NoMirror, Snapshot, SnapshotSource};
use std::alloc::Global;
use std::marker::Model;

/// A storage backend (the store) with an in-memory mirror that is ahead of it by a batch of
/// changes.
///
/// Calls use the mirror. It applies each change, which is pending until `commit` makes the store
/// apply all pending changes as one. A crash loses pending changes and leaves what the store holds.
/// If memory runs out in the mirror, the call returns `Unchanged`. If that call was a change, the
/// next `commit` drops the mirror for good. Without a mirror, calls use only the store, which
/// applies each change at once.
///
/// If the store fails to apply the pending changes, for example because the disk is full, the
/// mirror is dropped. Once the store has applied a change again, the next `commit` loads the store
/// and rebuilds the mirror. If memory runs out for that, the mirror stays dropped for good.
#[derive(Drop)]
pub struct Mirrored<S: ApplyBatch + ToMemory> {
    store: S,
    mirror: Option<MemorySpace>,
    state: MirrorState,
    batch: Vec<BatchChange>,
    refusals: u64,
    alloc: Global,
}

impl<S: ApplyBatch + ToMemory> Model for Mirrored<S> {
    ghost use Rattle.space_mirror.specs.Mirrored.{MirrorAgrees, MirroredModel, pending_if_mirrored, mirrored_code};

    ghost Value = { MirroredModel S };

    ghost coded = { mirrored_code S.code };

    ghost view = { λ s. record {
      store = s.store;
      ahead = pending_if_mirrored s.mirror s.batch.items;
      refusals = s.refusals;
    } };

    ghost invariant = { λ s. MirrorAgrees S.Space s.store s.mirror s.state s.batch.items };
}

impl<S: ApplyBatch + ToMemory + Drop> Mirrored<S> {
    /// Creates a mirrored space. The mirror must hold the same airspace as the store.
    ///
    /// It has no pending changes and has not returned `Unchanged` yet.
    pub fn new(alloc: Global, store: S, mirror: MemorySpace) -> Self
        requires { IsMirrorAhead S.Space store mirror [] }
        ensures { result ≡ mirrored_model store (Some []) 0 }
    {
        Mirrored {
            store,
            mirror: Some(mirror),
            state: MirrorState::Steady,
            batch: Vec::new(alloc),
            refusals: 0,
            alloc,
        }
    }

    /// Creates a space without a mirror. The store applies each change at once.
    ///
    /// It has not returned `Unchanged` yet.
    pub fn without_mirror(alloc: Global, store: S) -> Self
        ensures { result ≡ mirrored_model store None 0 }
    {
        Mirrored {
            store,
            mirror: None,
            state: MirrorState::Steady,
            batch: Vec::new(alloc),
            refusals: 0,
            alloc,
        }
    }

    /// Returns the store, without the pending changes.
    ///
    /// If the store is sound, the mirrored space was sound, since the pending changes fit whatever
    /// the store holds.
    pub fn into_store(self) -> S
        ensures store { result ≡ self.store }
        ensures sound { S.is_sound result → IsSoundIn S.Space self }
    {
        let Mirrored {
            store,
            mirror: _,
            state: _,
            batch: _,
            refusals: _,
            alloc: _,
        } = self;
        store
    }
}

impl<S: ApplyBatch + ToMemory + Drop> GroupCommit for Mirrored<S> {
    ghost use Rattle.space_mirror.specs.Mirrored.{persists_in, is_pending_in};
    ghost use Rattle.space_mirror.specs.Laws.{durable_while_pending, visible_is_durable};
    ghost use Rattle.space_mirror.specs.Laws.{works_while_pending};

    ghost persists = { λ s a. persists_in S.Space s a };

    ghost is_pending = { λ s. is_pending_in s };

    ghost persists_held = { λ s a calm. visible_is_durable (λ x c. S.holds x c) s a calm };

    ghost persists_while_pending = { λ s t a same waits.
        durable_while_pending (λ x c. S.holds x c) S.row.coded s t a same waits };

    ghost unbroken_while_pending = { λ s t same waits.
        works_while_pending (λ x. S.is_broken x) S.row.coded s t same waits };

    ghost pending_is_unbroken = { λ s sound waits. sound.live waits };

    fn has_pending(&self) -> bool {
        !self.batch.is_empty()
    }

    fn commit(&mut self) -> Result<(), SpaceFault> {
        let alloc = self.alloc;
        changes::commit(
            alloc,
            &mut self.store,
            &mut self.mirror,
            &mut self.state,
            &mut self.batch,
            &mut self.refusals,
        )
    }
}

impl<S: ApplyBatch + ToMemory + Drop> Space for Mirrored<S> {
    ghost use Rattle.space_mirror.specs.Mirrored.{fixed_in, holds_in, is_whole_in, pending};
    ghost use Rattle.space_mirror.specs.Laws.{visible_unique, visible_valid, visible_exists};

    ghost holds = { λ s a. holds_in S.Space s a };

    ghost is_sound = { λ s. IsSoundIn S.Space s };

    ghost is_whole = { λ s. is_whole_in S.Space s };

    ghost refusals = { λ s. s.refusals };

    ghost is_broken = { λ s. S.is_broken s.store };

    ghost fixed = { λ s. fixed_in S.row.coded s };

    ghost content_unique = { λ s a b sound unbroken h k.
        visible_unique (λ c. S.holds s.store c) (pending s.ahead)
        (λ c d. S.content_unique s.store c d sound.store unbroken) a b h k };

    ghost content_whole = { λ s a sound unbroken h. S.content_whole s.store h.0 sound.store
        unbroken h.1 };

    ghost content_exists = { λ s sound whole.
        visible_exists (λ c. S.holds s.store c) (pending s.ahead)
        (S.content_exists s.store sound.store whole) };

    ghost content_valid = { λ s a sound h.
        visible_valid (λ c. S.holds s.store c) (pending s.ahead) a sound.fits
        (λ c. S.content_valid s.store c sound.store) h };

    fn entity(&mut self, kind: Kind, id: EntityId) -> Result<Option<Entity>, SpaceFault> {
        reads::entity(
            &mut self.store,
            &mut self.mirror,
            &mut self.refusals,
            kind,
            id,
        )
    }

    fn meeting(
        &mut self,
        kind: Kind,
        areas: &[Area],
        except: Option<EntityId>,
    ) -> Result<Vec<Met>, SpaceFault> {
        reads::meeting(
            &mut self.store,
            &mut self.mirror,
            &mut self.refusals,
            kind,
            areas,
            except,
        )
    }

    fn all(&mut self, kind: Kind) -> Result<Vec<Entity>, SpaceFault> {
        reads::all(&mut self.store, &mut self.mirror, &mut self.refusals, kind)
    }

    fn availability(&mut self, uss: &UssId) -> Result<Option<(Availability, Ovn)>, SpaceFault> {
        reads::availability(&mut self.store, &mut self.mirror, &mut self.refusals, uss)
    }

    fn subscription(&mut self, id: EntityId) -> Result<Option<Sub>, SpaceFault> {
        reads::subscription(&mut self.store, &mut self.mirror, &mut self.refusals, id)
    }

    fn subscriptions_of(&mut self, uss: &UssId, area: &Area) -> Result<Vec<Sub>, SpaceFault> {
        reads::subscriptions_of(
            &mut self.store,
            &mut self.mirror,
            &mut self.refusals,
            uss,
            area,
        )
    }

    fn subscribers(&mut self, kind: Kind, areas: &[Area]) -> Result<Vec<Sub>, SpaceFault> {
        reads::subscribers(
            &mut self.store,
            &mut self.mirror,
            &mut self.refusals,
            kind,
            areas,
        )
    }

    fn dependents(&mut self, id: EntityId) -> Result<Vec<EntityId>, SpaceFault> {
        reads::dependents(&mut self.store, &mut self.mirror, &mut self.refusals, id)
    }

    fn serial(&mut self) -> Result<u64, SpaceFault> {
        reads::serial(&mut self.store, &mut self.mirror, &mut self.refusals)
    }

    fn apply(&mut self, change: Change, notify: &[EntityId]) -> Result<(), SpaceFault> {
        let alloc = self.alloc;
        changes::apply(
            alloc,
            &mut self.store,
            &mut self.mirror,
            &mut self.state,
            &mut self.batch,
            &mut self.refusals,
            change,
            notify,
        )
    }
}

impl<S: ApplyBatch + ToMemory + Drop> SnapshotSource for Mirrored<S> {
    /// Returns a snapshot of the mirror, if any. It includes the pending changes.
    fn snapshot(&self) -> Result<Snapshot<'_>, NoMirror> {
        snapshot::snapshot_of(&self.store, &self.mirror, self.state, &self.batch)
    }
}

impl<S: ApplyBatch + ToMemory + Purge + Drop> PurgeEnded for Mirrored<S> {
    /// Returns what the mirror finds.
    ///
    /// Without a mirror, returns `Unchanged`, or `Broken` if the store is broken.
    fn find_ended(&mut self, until: u64, most: usize) -> Result<Vec<PurgeItem>, SpaceFault> {
        purges::ended(
            &mut self.store,
            &self.mirror,
            &mut self.refusals,
            until,
            most,
        )
    }

    fn purge(&mut self, gone: &[PurgeItem]) -> Result<(), SpaceFault> {
        purges::purge_both(
            &mut self.store,
            &mut self.mirror,
            &mut self.state,
            &self.batch,
            &mut self.refusals,
            gone,
        )
    }
}
