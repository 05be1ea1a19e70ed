//! The in-memory space.
//!
//! It has a tree of entities, a tree of subscriptions and a sorted vector of availabilities.
//! Entities and subscriptions are indexed by cell.
ghost use Rattle.std.specs.Prelude.{◌≡◌, ◌≤◌, ℕ, false, ◌+◌, Ok, OnOk, OnErr, min, IfOk, IsOk, IsNone, IsTrue};
ghost use Rattle.std.specs.FinMap.{get};
ghost use Rattle.entity_core.specs.Airspace.{Airspace, IsAirspace, empty_at};
ghost use Rattle.entity_core.specs.Serial.{max_serial};
ghost use Rattle.space_core.specs.Space.{Fits, IsRemoval, ReportsFault, changed, max_count, nothing_fixed};
ghost use Rattle.entity_maps.specs.Subscriptions.{AllNotified};
ghost use Rattle.space_core.specs.declared.space.SpaceFault.TheVariants.{Unchanged};
ghost use Rattle.std.proofs.Common.{sym, ◌∙◌, refl, subst};

use crate::indexed::IndexedEntities;
use crate::indexed_subscriptions::IndexedSubscriptions;
use crate::maps::{make, met_among};
use entity_core::availability::Availability;
use entity_core::entity::Entity;
use entity_core::entity_id::EntityId;
use entity_core::nature::Kind;
use entity_core::ovn::Ovn;
use entity_core::serial::MAX_SERIAL;
use entity_core::subscription::Sub;
use entity_core::uss_id::UssId;
use entity_maps::availabilities::Availabilities;
use entity_purge::purge_item::PurgeItem;
use grid_core::volume::Area;
use space_core::met::Met;
use space_core::space::{Change, Space, SpaceFault};
use std::alloc::Global;

/// An airspace in memory.
///
/// As a `Space`, it returns `Unchanged` only if memory runs out, and never `Broken`.
#[derive(Debug, Drop)]
pub struct MemorySpace {
    pub(crate) alloc: Global,
    pub(crate) entities: IndexedEntities,
    pub(crate) subscriptions: IndexedSubscriptions,
    pub(crate) availabilities: Availabilities,
    pub(crate) serial: u64,
    pub(crate) refusals: u64,
    // The item that was purged last. The next search for items to purge starts there.
    pub(crate) last_removed: Option<PurgeItem>,
    ghost told: { AllNotified subscriptions serial },
}

impl MemorySpace {
    ghost use Rattle.space_memory.specs.Memory.{CanFollow, IsOver, content_of, refusals_of};
    ghost use Rattle.space_core.specs.Space.{IsContent};

    /// Creates an empty space with serial 0. It has not returned `Unchanged` yet.
    pub fn new(alloc: Global) -> Self
        ensures content { IsContent ⟦<MemorySpace as Space>⟧.holds result (empty_at 0) }
        ensures fresh { ⟦<MemorySpace as Space>⟧.refusals result ≡ 0 }
    {
        MemorySpace::at_serial(alloc, 0)
    }

    /// Creates an empty space with this serial. It has not returned `Unchanged` yet.
    pub fn at_serial(alloc: Global, serial: u64) -> Self
        requires { serial ≤ max_serial }
        ensures content { IsContent ⟦<MemorySpace as Space>⟧.holds result (empty_at serial) }
        ensures fresh { ⟦<MemorySpace as Space>⟧.refusals result ≡ 0 }
    {
        MemorySpace {
            alloc,
            entities: IndexedEntities::new(alloc),
            subscriptions: IndexedSubscriptions::new(alloc),
            availabilities: Availabilities::new(alloc),
            serial,
            refusals: 0,
            last_removed: None,
        }
    }

    // Counts an `Unchanged` result and changes nothing else.
    pub(crate) fn refuse(&mut self) -> SpaceFault
        ensures fault { result ≡ Unchanged }
        ensures content { content_of self.new ≡ content_of self.old }
        ensures counted { self.new.refusals ≡ min (self.old.refusals + 1) max_count }
    {
        self.refusals = self.refusals.saturating_add(1);
        SpaceFault::Unchanged
    }

    // Returns true if the serial can be incremented and no index exceeds it then.
    fn can_follow(&self, change: &Change) -> bool
        ensures { IsTrue result → CanFollow change.now (content_of self.now) }
    {
        if self.serial >= MAX_SERIAL {
            return false;
        }
        match change {
            Change::PutSub(sub) => sub.index.number() <= self.serial + 1,
            _ => true,
        }
    }

    // Applies a change and increments the serial by one. If memory runs out, changes nothing and
    // counts an `Unchanged` result.
    fn apply_change(&mut self, change: Change, notify: &[EntityId]) -> Result<(), SpaceFault>
        requires { CanFollow change (content_of self.old) }
        ensures done { OnOk result
            (content_of self.new ≡ changed change notify.now (content_of self.old)) }
        ensures refused { OnErr result (content_of self.new ≡ content_of self.old) }
        ensures tells { ReportsFault (refusals_of self.old)
            (refusals_of self.new) false false result }
        ensures removed { IsRemoval change → IsOk result }
        ensures over { IsOver change (content_of self.old) → IsOk result }
    {
        match make(
            &mut self.entities,
            &mut self.subscriptions,
            &mut self.availabilities,
            change,
            notify,
        ) {
            Ok(()) => {
                self.serial += 1;
                Ok(())
            }
            Err(_) => Err(self.refuse()),
        }
    }

    /// Applies a change that another space has made, and notifies these subscriptions.
    ///
    /// Returns `Unchanged` if the serial is at its maximum, if an index would exceed it, or if
    /// memory runs out.
    pub fn replicate(&mut self, change: Change, notify: &[EntityId]) -> Result<(), SpaceFault>
        ensures done { OnOk result
            (content_of self.new ≡ changed change notify.now (content_of self.old)) }
        ensures refused { OnErr result (content_of self.new ≡ content_of self.old) }
    {
        if !self.can_follow(&change) {
            return Err(self.refuse());
        }
        self.apply_change(change, notify)
    }
}

impl Space for MemorySpace {
    ghost use Rattle.space_memory.specs.Memory.{content_of, refusals_of, IsOver};
    ghost use Rattle.space_memory.specs.Proper.{content_is_proper};

    ghost holds = { λ s a. a ≡ content_of s };

    ghost is_sound = { λ _. Unit {0} };

    ghost is_whole = { λ _. Unit {0} };

    ghost refusals = { refusals_of };

    ghost is_broken = { λ _. false };

    ghost fixed = { λ _. nothing_fixed };

    ghost content_unique = { λ s a b sound unbroken h k. h ∙ sym k };

    ghost content_whole = { λ s a sound unbroken h. tt };

    ghost content_exists = { λ s sound whole. ∣ (content_of s, refl) ∣₁ };

    ghost content_valid = { λ s a sound h. subst IsAirspace (sym h) (content_is_proper s) };

    fn entity(&mut self, kind: Kind, id: EntityId) -> Result<Option<Entity>, SpaceFault>
        ensures tells { ReportsFault (refusals_of self.old)
            (refusals_of self.new) false false result }
        ensures kept { content_of self.new ≡ content_of self.old }
        ensures found { IfOk result (λ found.
            found ≡ get (content_of self.old).entities (kind, id)) }
        ensures none { IsNone (get (content_of self.old).entities (kind, id)) → IsOk result }
    {
        match self.entities.entity(self.alloc, kind, id) {
            Ok(found) => Ok(found),
            Err(_) => Err(self.refuse()),
        }
    }

    fn meeting(
        &mut self,
        kind: Kind,
        areas: &[Area],
        except: Option<EntityId>,
    ) -> Result<Vec<Met>, SpaceFault> {
        match met_among(
            self.alloc,
            &self.entities,
            &self.availabilities,
            kind,
            areas,
            except,
        ) {
            Ok(found) => Ok(found),
            Err(_) => Err(self.refuse()),
        }
    }

    fn all(&mut self, kind: Kind) -> Result<Vec<Entity>, SpaceFault> {
        match self.entities.all(self.alloc, kind) {
            Ok(found) => Ok(found),
            Err(_) => Err(self.refuse()),
        }
    }

    fn availability(&mut self, uss: &UssId) -> Result<Option<(Availability, Ovn)>, SpaceFault>
        ensures tells { ReportsFault (refusals_of self.old)
            (refusals_of self.new) false false result }
        ensures kept { content_of self.new ≡ content_of self.old }
        ensures found { IfOk result (λ found.
            found ≡ get (content_of self.old).availabilities uss.now) }
        ensures none { IsNone (get (content_of self.old).availabilities uss.now) → IsOk result }
    {
        match self.availabilities.availability(uss) {
            Ok(found) => Ok(found),
            Err(_) => Err(self.refuse()),
        }
    }

    fn subscription(&mut self, id: EntityId) -> Result<Option<Sub>, SpaceFault>
        ensures tells { ReportsFault (refusals_of self.old)
            (refusals_of self.new) false false result }
        ensures kept { content_of self.new ≡ content_of self.old }
        ensures found { IfOk result (λ found.
            found ≡ get (content_of self.old).subscriptions id) }
        ensures none { IsNone (get (content_of self.old).subscriptions id) → IsOk result }
    {
        match self.subscriptions.subscription(id) {
            Ok(found) => Ok(found),
            Err(_) => Err(self.refuse()),
        }
    }

    fn subscriptions_of(&mut self, uss: &UssId, area: &Area) -> Result<Vec<Sub>, SpaceFault> {
        match self.subscriptions.own(self.alloc, uss, area) {
            Ok(found) => Ok(found),
            Err(_) => Err(self.refuse()),
        }
    }

    fn subscribers(&mut self, kind: Kind, areas: &[Area]) -> Result<Vec<Sub>, SpaceFault> {
        match self.subscriptions.for_kind(self.alloc, kind, areas) {
            Ok(found) => Ok(found),
            Err(_) => Err(self.refuse()),
        }
    }

    fn dependents(&mut self, id: EntityId) -> Result<Vec<EntityId>, SpaceFault> {
        match self.entities.dependents(self.alloc, id) {
            Ok(found) => Ok(found),
            Err(_) => Err(self.refuse()),
        }
    }

    fn serial(&mut self) -> Result<u64, SpaceFault>
        ensures done { result ≡ Ok (content_of self.old).serial }
        ensures same { self.new ≡ self.old }
    {
        Ok(self.serial)
    }

    fn apply(&mut self, change: Change, notify: &[EntityId]) -> Result<(), SpaceFault>
        requires fits { (a : Airspace) → a ≡ content_of self.old → Fits change notify.now a }
        ensures done { OnOk result
            (content_of self.new ≡ changed change notify.now (content_of self.old)) }
        ensures refused { OnErr result (content_of self.new ≡ content_of self.old) }
        ensures tells { ReportsFault (refusals_of self.old)
            (refusals_of self.new) false false result }
        ensures removed { IsRemoval change → IsOk result }
        ensures over { IsOver change (content_of self.old) → IsOk result }
    {
        self.apply_change(change, notify)
    }
}
