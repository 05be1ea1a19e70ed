//! A space that enforces a quota for each USS.
ghost use Rattle.std.specs.Prelude.{◌≡◌, IfOk, false};
ghost use Rattle.std.specs.FinMap.{get};
ghost use Rattle.entity_core.specs.Airspace.{Airspace};
ghost use Rattle.entity_core.specs.Search.{all_in, dependents_in, subscribers_in, subscriptions_in};
ghost use Rattle.space_core.specs.Met.{met_in};
ghost use Rattle.space_core.specs.GroupCommit.{CommitEffect};
ghost use Rattle.space_core.specs.Space.{Changes, Fits, Reads, ReportsFault, changed};
ghost use Rattle.space_quota.specs.QuotaSpace.{IsPut, quota_model, is_some, refusals_in};

use crate::usage_table::UsageTable;
use crate::{changes, purges};
use entity_core::availability::Availability;
use entity_core::entity::Entity;
use entity_core::entity_id::EntityId;
use entity_core::nature::Kind;
use entity_core::ovn::Ovn;
use entity_core::subscription::Sub;
use entity_core::uss_id::UssId;
use entity_purge::purge_item::PurgeItem;
use grid_core::volume::Area;
use space_core::group_commit::GroupCommit;
use space_core::met::Met;
use space_core::purge_ended::PurgeEnded;
use space_core::space::{Change, Space, SpaceFault};
use space_snapshot::snapshot::{NoMirror, Snapshot, SnapshotSource};
use std::marker::Model;

/// A space with an optional table of the usage of each USS.
///
/// The visible and the durable airspace are those of the inner space. With a table, it returns
/// `Unchanged` for a put that would raise the usage of its USS above the quota. An update that does
/// not raise the usage passes, and so does each removal. Without a table, every change is passed to
/// the inner space.
#[derive(Drop)]
pub struct QuotaSpace<S: GroupCommit> {
    space: S,
    tally: Option<UsageTable>,
    // The number of `Unchanged` results for changes and purges that were not passed to the inner
    // space.
    over: u64,
}

impl<S: GroupCommit> Model for QuotaSpace<S> {
    ghost use Rattle.space_quota.specs.QuotaSpace.{QuotaModel, bound_code, is_some};

    ghost Value = { QuotaModel S };

    ghost coded = { bound_code S.code };

    ghost view = { λ s. record { space = s.space; over = s.over; is_bounded = is_some s.tally } };
}

impl<S: GroupCommit + Drop> QuotaSpace<S> {
    /// Creates a space with a usage table of its content, or with none.
    ///
    /// It has not returned `Unchanged` itself yet.
    pub fn new(space: S, tally: Option<UsageTable>) -> Self
        ensures { result ≡ quota_model space 0 (is_some tally) }
    {
        QuotaSpace {
            space,
            tally,
            over: 0,
        }
    }

    /// Returns the inner space.
    pub fn into_inner(self) -> S
        ensures { result ≡ self.space }
    {
        let QuotaSpace {
            space,
            tally: _,
            over: _,
        } = self;
        space
    }
}

impl<S: GroupCommit + Drop> GroupCommit for QuotaSpace<S> {
    ghost persists = { λ s a. S.persists s.space a };

    ghost is_pending = { λ s. S.is_pending s.space };

    ghost persists_held = { λ s a calm. S.persists_held s.space a calm };

    ghost persists_while_pending = { λ s t a same waits. S.persists_while_pending s.space t.space
        a same waits };

    ghost unbroken_while_pending = { λ s t same waits. S.unbroken_while_pending s.space t.space
        same waits };

    ghost pending_is_unbroken = { λ s sound waits. S.pending_is_unbroken s.space sound waits };

    fn has_pending(&self) -> bool {
        self.space.has_pending()
    }

    fn commit(&mut self) -> Result<(), SpaceFault> {
        let answer = self.space.commit();
        if let Some(tally) = &mut self.tally {
            match answer {
                Ok(()) => tally.commit(),
                Err(_) => tally.rollback(),
            }
        }
        answer
    }
}

impl<S: GroupCommit + Drop> Space for QuotaSpace<S> {
    ghost holds = { λ s a. S.holds s.space a };

    ghost is_sound = { λ s. S.is_sound s.space };

    ghost is_whole = { λ s. S.is_whole s.space };

    ghost refusals = { λ s. refusals_in S.Space s };

    ghost is_broken = { λ s. S.is_broken s.space };

    ghost fixed = { λ s. S.fixed s.space };

    ghost content_unique = { λ s a b sound unbroken h k. S.content_unique s.space a b sound
        unbroken h k };

    ghost content_whole = { λ s a sound unbroken h. S.content_whole s.space a sound unbroken h };

    ghost content_exists = { λ s sound whole. S.content_exists s.space sound whole };

    ghost content_valid = { λ s a sound h. S.content_valid s.space a sound h };

    fn entity(&mut self, kind: Kind, id: EntityId) -> Result<Option<Entity>, SpaceFault> {
        self.space.entity(kind, id)
    }

    fn meeting(
        &mut self,
        kind: Kind,
        areas: &[Area],
        except: Option<EntityId>,
    ) -> Result<Vec<Met>, SpaceFault> {
        self.space.meeting(kind, areas, except)
    }

    fn all(&mut self, kind: Kind) -> Result<Vec<Entity>, SpaceFault> {
        self.space.all(kind)
    }

    fn availability(&mut self, uss: &UssId) -> Result<Option<(Availability, Ovn)>, SpaceFault> {
        self.space.availability(uss)
    }

    fn subscription(&mut self, id: EntityId) -> Result<Option<Sub>, SpaceFault> {
        self.space.subscription(id)
    }

    fn subscriptions_of(&mut self, uss: &UssId, area: &Area) -> Result<Vec<Sub>, SpaceFault> {
        self.space.subscriptions_of(uss, area)
    }

    fn subscribers(&mut self, kind: Kind, areas: &[Area]) -> Result<Vec<Sub>, SpaceFault> {
        self.space.subscribers(kind, areas)
    }

    fn dependents(&mut self, id: EntityId) -> Result<Vec<EntityId>, SpaceFault> {
        self.space.dependents(id)
    }

    fn serial(&mut self) -> Result<u64, SpaceFault> {
        self.space.serial()
    }

    /// Applies a change as the inner space does.
    ///
    /// With a usage table, returns `Unchanged` for a put that exceeds the quota and does not call
    /// the inner space for it.
    fn apply(&mut self, change: Change, notify: &[EntityId]) -> Result<(), SpaceFault>
        requires fits { S.is_sound self.old.space → (a : Airspace) → S.holds self.old.space a
            → Fits change notify.now a }
        ensures fixed { S.fixed self.new.space ≡ S.fixed self.old.space }
        ensures tells { ReportsFault (refusals_in S.Space self.old) (refusals_in S.Space self.new)
            (S.is_broken self.old.space) (S.is_broken self.new.space) result }
        ensures changes { Changes (λ s a. S.holds s.space a) (λ s. S.is_sound s.space)
            (λ s. S.is_whole s.space) (S.is_broken self.old.space) self.old self.new result
            (changed change notify.now) }
        ensures unbounded { self.old.is_bounded ≡ false → self.new.over ≡ self.old.over }
        ensures puts { ¬ IsPut change → self.new.over ≡ self.old.over }
    {
        changes::apply(
            &mut self.space,
            &mut self.tally,
            &mut self.over,
            change,
            notify,
        )
    }
}

impl<S: GroupCommit + SnapshotSource + Drop> SnapshotSource for QuotaSpace<S> {
    /// Returns the snapshot of the inner space.
    fn snapshot(&self) -> Result<Snapshot<'_>, NoMirror> {
        self.space.snapshot()
    }
}

impl<S: PurgeEnded + SnapshotSource + Drop> PurgeEnded for QuotaSpace<S> {
    fn find_ended(&mut self, until: u64, most: usize) -> Result<Vec<PurgeItem>, SpaceFault> {
        self.space.find_ended(until, most)
    }

    /// Purges items as the inner space does, and reduces the usage of their USSs.
    ///
    /// Looks up the items in the snapshot of the inner space. With a usage table but without a
    /// snapshot, purges nothing.
    fn purge(&mut self, items: &[PurgeItem]) -> Result<(), SpaceFault> {
        purges::purge_with_quota(&mut self.space, &mut self.tally, &mut self.over, items)
    }
}
