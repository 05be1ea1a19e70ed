//! The trait of storage backends: results, reads and changes of its calls.
ghost use Rattle.std.specs.Prelude.{◌≡◌, ℕ, Bool, false, IfOk};
ghost use Rattle.entity_core.specs.Airspace.{Airspace, IsAirspace};
ghost use Rattle.entity_core.specs.Search.{all_in, dependents_in, subscribers_in, subscriptions_in};
ghost use Rattle.std.specs.FinMap.{get};
ghost use Rattle.space_core.specs.Met.{met_in};
ghost use Rattle.space_core.specs.Space.{Code, ReportsFaultBy, Reads, Changes, Fits, changed};

use crate::met::Met;
use entity_core::availability::Availability;
use entity_core::entity::Entity;
use entity_core::entity_id::EntityId;
use entity_core::nature::Kind;
use entity_core::ovn::Ovn;
use entity_core::subscription::Sub;
use entity_core::uss_id::UssId;
use grid_core::volume::Area;
use std::alloc::{AllocError, Global};

/// The reason why a call of a space failed.
#[derive(Clone, Copy, Debug, PartialEq, Eq)]
pub enum SpaceFault {
    /// Nothing was changed. The space remains usable.
    Unchanged,
    /// The content of the space is unknown. Every later call returns this fault.
    Broken,
}

/// A change of an airspace.
#[derive(Debug, Drop)]
pub enum Change {
    /// Stores the entity, replacing the one with the same kind and id. It must have the next
    /// serial, and the subscription that it references must exist.
    Put(Entity),
    /// Removes the entity with this kind and id, which must exist.
    Remove(Kind, EntityId),
    /// Sets the availability of the USS, with this version.
    Avail(UssId, Availability, Ovn),
    /// Stores the subscription, replacing the one with the same id. It must have the next serial,
    /// and its index must not exceed it.
    PutSub(Sub),
    /// Removes the subscription with this id. It must exist, and no intent may reference it.
    RemoveSub(EntityId),
}

impl Change {
    /// Returns a copy of the change.
    ///
    /// Returns `AllocError` if memory runs out.
    pub fn clone(&self, alloc: Global) -> Result<Change, AllocError>
        ensures { IfOk result (λ change. change ≡ self.now) }
    {
        match self {
            Change::Put(entity) => Ok(Change::Put(entity.clone(alloc)?)),
            Change::Remove(kind, id) => Ok(Change::Remove(*kind, *id)),
            Change::Avail(uss, availability, version) => {
                Ok(Change::Avail(uss.clone()?, *availability, version.clone()?))
            }
            Change::PutSub(sub) => Ok(Change::PutSub(sub.clone()?)),
            Change::RemoveSub(id) => Ok(Change::RemoveSub(*id)),
        }
    }
}

/// A storage backend, which holds an airspace (all state of the service).
///
/// The visible airspace is a relation (`holds`), because a fault can leave open which of two
/// airspaces is visible. A constructor returns a space with one content (`IsContent`), and each
/// call states its effect. A space that is broken before its first call has no single content.
/// Unless stated otherwise, a crash leaves the visible airspace.
pub trait Space {
    /// Relates the space to the airspaces that can be visible. There is only one until the space is
    /// broken.
    ghost holds: { Self → Airspace → Type 0 };

    /// Whether the statements about the content apply.
    ghost is_sound: { Self → Type 0 };

    /// Whether the space holds an airspace in every possible case.
    ghost is_whole: { Self → Type 0 };

    /// The number of times that the space returned `Unchanged`. It stops at the maximum 64-bit
    /// number.
    ghost refusals: { Self → ℕ };

    /// Whether the space has returned `Broken`.
    ghost is_broken: { Self → Bool };

    /// The part of the space that no call changes. Most spaces have none (`nothing_fixed`).
    ghost fixed: { Self → Code };

    /// Returns the entity with this kind and id, if any.
    fn entity(&mut self, kind: Kind, id: EntityId) -> Result<Option<Entity>, SpaceFault>
        ensures fixed { fixed self.new ≡ fixed self.old }
        ensures tells { ReportsFaultBy refusals is_broken self.old self.new result }
        ensures reads { Reads holds is_sound is_whole self.old self.new result
            (λ a found. found ≡ get a.entities (kind, id)) };

    /// Returns the entities of a kind of which some volume meets some area, except the one with the
    /// excluded id.
    ///
    /// Each occurs once, by ascending id, with the current availability of its manager.
    fn meeting(
        &mut self,
        kind: Kind,
        areas: &[Area],
        except: Option<EntityId>,
    ) -> Result<Vec<Met>, SpaceFault>
        ensures fixed { fixed self.new ≡ fixed self.old }
        ensures tells { ReportsFaultBy refusals is_broken self.old self.new result }
        ensures reads { Reads holds is_sound is_whole self.old self.new result
            (λ a found. found.items ≡ met_in a kind areas.now except) };

    /// Returns the entities of a kind, each once, by ascending id.
    fn all(&mut self, kind: Kind) -> Result<Vec<Entity>, SpaceFault>
        ensures fixed { fixed self.new ≡ fixed self.old }
        ensures tells { ReportsFaultBy refusals is_broken self.old self.new result }
        ensures reads { Reads holds is_sound is_whole self.old self.new result
            (λ a found. found.items ≡ all_in a.entities kind) };

    /// Returns the availability and version that a USS has set, if any.
    fn availability(&mut self, uss: &UssId) -> Result<Option<(Availability, Ovn)>, SpaceFault>
        ensures fixed { fixed self.new ≡ fixed self.old }
        ensures tells { ReportsFaultBy refusals is_broken self.old self.new result }
        ensures reads { Reads holds is_sound is_whole self.old self.new result
            (λ a found. found ≡ get a.availabilities uss.now) };

    /// Returns the subscription with this id, if any.
    fn subscription(&mut self, id: EntityId) -> Result<Option<Sub>, SpaceFault>
        ensures fixed { fixed self.new ≡ fixed self.old }
        ensures tells { ReportsFaultBy refusals is_broken self.old self.new result }
        ensures reads { Reads holds is_sound is_whole self.old self.new result
            (λ a found. found ≡ get a.subscriptions id) };

    /// Returns a USS's subscriptions whose volumes meet an area, each once, by ascending id.
    fn subscriptions_of(&mut self, uss: &UssId, area: &Area) -> Result<Vec<Sub>, SpaceFault>
        ensures fixed { fixed self.new ≡ fixed self.old }
        ensures tells { ReportsFaultBy refusals is_broken self.old self.new result }
        ensures reads { Reads holds is_sound is_whole self.old self.new result
            (λ a found. found.items ≡ subscriptions_in a.subscriptions uss.now area.now) };

    /// Returns the subscriptions that are for a kind and whose volumes meet some area, each once,
    /// by ascending id.
    ///
    /// Their manager does not matter.
    fn subscribers(&mut self, kind: Kind, areas: &[Area]) -> Result<Vec<Sub>, SpaceFault>
        ensures fixed { fixed self.new ≡ fixed self.old }
        ensures tells { ReportsFaultBy refusals is_broken self.old self.new result }
        ensures reads { Reads holds is_sound is_whole self.old self.new result
            (λ a found. found.items ≡ subscribers_in a.subscriptions kind areas.now) };

    /// Returns the ids of the intents that reference a subscription, ascending.
    fn dependents(&mut self, id: EntityId) -> Result<Vec<EntityId>, SpaceFault>
        ensures fixed { fixed self.new ≡ fixed self.old }
        ensures tells { ReportsFaultBy refusals is_broken self.old self.new result }
        ensures reads { Reads holds is_sound is_whole self.old self.new result
            (λ a found. found.items ≡ dependents_in a.entities id) };

    /// Returns the number of changes so far.
    fn serial(&mut self) -> Result<u64, SpaceFault>
        ensures fixed { fixed self.new ≡ fixed self.old }
        ensures tells { ReportsFaultBy refusals is_broken self.old self.new result }
        ensures reads { Reads holds is_sound is_whole self.old self.new result
            (λ a serial. serial ≡ a.serial) };

    /// Applies a change that fits and increments the serial by one.
    ///
    /// In the same change, increments the notification index of each subscription to notify. Their
    /// ids must be ascending and their subscriptions must exist. Only a change of an entity
    /// notifies any.
    fn apply(&mut self, change: Change, notify: &[EntityId]) -> Result<(), SpaceFault>
        requires fits { is_sound self.old → (a : Airspace) → holds self.old a
            → Fits change notify.now a }
        ensures fixed { fixed self.new ≡ fixed self.old }
        ensures tells { ReportsFaultBy refusals is_broken self.old self.new result }
        ensures changes { Changes holds is_sound is_whole
            (is_broken self.old) self.old self.new result
            (changed change notify.now) };

    /// A sound space that is not broken does not hold two different airspaces.
    ghost content_unique: { (s : Self) (a b : Airspace) → is_sound s → is_broken s ≡ false
        → holds s a
        → holds s b → a ≡ b };

    /// A sound space that is not broken and holds an airspace is whole.
    ghost content_whole: { (s : Self) (a : Airspace) → is_sound s → is_broken s ≡ false → holds s a
        → is_whole s };

    /// A sound space that is whole holds some airspace, even if it is broken.
    ghost content_exists: { (s : Self) → is_sound s → is_whole s
        → ∥ ((a : Airspace) × holds s a) ∥₁ };

    /// Every airspace that a sound space holds is valid.
    ghost content_valid: { (s : Self) (a : Airspace) → is_sound s → holds s a → IsAirspace a };
}
