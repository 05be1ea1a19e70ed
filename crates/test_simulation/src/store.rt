//! A store whose changes fail now and then.
ghost use Rattle.std.specs.Prelude.{◌≡◌, ◌+◌, min};
ghost use Rattle.space_core.specs.Space.{max_count};

use crate::draws::Draws;
use entity_core::availability::Availability;
use entity_core::entity::Entity;
use entity_core::entity_id::EntityId;
use entity_core::nature::Kind;
use entity_core::ovn::Ovn;
use entity_core::subscription::Sub;
use entity_core::uss_id::UssId;
use entity_purge::purge_item::PurgeItem;
use grid_core::volume::Area;
use space_core::batch::{ApplyBatch, BatchChange};
use space_core::met::Met;
use space_core::purge::Purge;
use space_core::space::{Change, Space, SpaceFault};
use space_memory::memory::MemorySpace;
use space_memory::to_memory::ToMemory;
use std::alloc::Global;

/// A store that returns `Unchanged` for some changes and batches, which it does not pass to the
/// inner one.
#[derive(Drop)]
pub(crate) struct FailingStore<S: Space> {
    space: S,
    draws: Draws,
    // How often of a hundred changes it fails, and how often it has failed.
    percent: u64,
    failed: u64,
}

impl<S: Space + Drop> FailingStore<S> {
    /// Creates a store that fails so often of a hundred changes.
    pub(crate) fn new(space: S, draws: Draws, percent: u64) -> Self
        ensures space { result.space ≡ space }
    {
        FailingStore {
            space,
            draws,
            percent,
            failed: 0,
        }
    }

    /// Returns how often it has failed.
    pub(crate) fn failed(&self) -> u64 {
        self.failed
    }

    // Returns true if the next change fails.
    fn fails(&mut self) -> bool
        ensures space { self.new.space ≡ self.old.space }
        ensures failed { self.new.failed ≡ self.old.failed }
    {
        self.draws.chance(self.percent)
    }

    // Counts a failure.
    fn refuse(&mut self) -> SpaceFault
        ensures space { self.new.space ≡ self.old.space }
        ensures failed { self.new.failed ≡ min (self.old.failed + 1) max_count }
        ensures fault { result ≡ SpaceFault.Unchanged }
    {
        self.failed = self.failed.saturating_add(1);
        SpaceFault::Unchanged
    }
}

impl<S: Space + Drop> Space for FailingStore<S> {
    ghost use Rattle.std.specs.Prelude.{◌+◌, min};
    ghost use Rattle.space_core.specs.Space.{max_count};

    ghost holds = { λ s a. S.holds s.space a };

    ghost is_sound = { λ s. S.is_sound s.space };

    ghost is_whole = { λ s. S.is_whole s.space };

    ghost refusals = { λ s. min (S.refusals s.space + s.failed) max_count };

    ghost is_broken = { λ s. S.is_broken s.space };

    ghost fixed = { λ s. S.fixed s.space };

    ghost content_unique = { λ s a b sound unbroken h k. S.content_unique s.space a b sound
        unbroken h k };

    ghost content_whole = { λ s a sound unbroken h. S.content_whole s.space a sound unbroken h };

    ghost content_exists = { λ s sound whole. S.content_exists s.space sound whole };

    ghost content_valid = { λ s a sound h. S.content_valid s.space a sound h };

    fn entity(&mut self, kind: Kind, id: EntityId) -> Result<Option<Entity>, SpaceFault> {
        self.space.entity(kind, id)
    }

    fn meeting(
        &mut self,
        kind: Kind,
        areas: &[Area],
        except: Option<EntityId>,
    ) -> Result<Vec<Met>, SpaceFault> {
        self.space.meeting(kind, areas, except)
    }

    fn all(&mut self, kind: Kind) -> Result<Vec<Entity>, SpaceFault> {
        self.space.all(kind)
    }

    fn availability(&mut self, uss: &UssId) -> Result<Option<(Availability, Ovn)>, SpaceFault> {
        self.space.availability(uss)
    }

    fn subscription(&mut self, id: EntityId) -> Result<Option<Sub>, SpaceFault> {
        self.space.subscription(id)
    }

    fn subscriptions_of(&mut self, uss: &UssId, area: &Area) -> Result<Vec<Sub>, SpaceFault> {
        self.space.subscriptions_of(uss, area)
    }

    fn subscribers(&mut self, kind: Kind, areas: &[Area]) -> Result<Vec<Sub>, SpaceFault> {
        self.space.subscribers(kind, areas)
    }

    fn dependents(&mut self, id: EntityId) -> Result<Vec<EntityId>, SpaceFault> {
        self.space.dependents(id)
    }

    fn serial(&mut self) -> Result<u64, SpaceFault> {
        self.space.serial()
    }

    fn apply(&mut self, change: Change, notify: &[EntityId]) -> Result<(), SpaceFault> {
        if !self.fails() {
            return self.space.apply(change, notify);
        }
        let _serial = self.space.serial()?;
        Err(self.refuse())
    }
}

impl<S: ApplyBatch + Drop> ApplyBatch for FailingStore<S> {
    fn apply_batch(&mut self, batch: &[BatchChange]) -> Result<(), SpaceFault> {
        if batch.is_empty() || !self.fails() {
            return self.space.apply_batch(batch);
        }
        let _serial = self.space.serial()?;
        Err(self.refuse())
    }
}

impl<S: ToMemory + Drop> ToMemory for FailingStore<S> {
    fn to_memory(&mut self, alloc: Global) -> Result<MemorySpace, SpaceFault> {
        self.space.to_memory(alloc)
    }
}

impl<S: Purge + Drop> Purge for FailingStore<S> {
    fn purge(&mut self, gone: &[PurgeItem]) -> Result<(), SpaceFault> {
        self.space.purge(gone)
    }
}
