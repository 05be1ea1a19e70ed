//! A space that breaks at one of its calls, unlike a space in memory.
ghost use Rattle.std.specs.Prelude.{◌≡◌, ◌||◌, false};

use entity_core::availability::Availability;
use entity_core::entity::Entity;
use entity_core::entity_id::EntityId;
use entity_core::nature::Kind;
use entity_core::ovn::Ovn;
use entity_core::subscription::Sub;
use entity_core::uss_id::UssId;
use grid_core::volume::Area;
use space_core::met::Met;
use space_core::space::{Change, Space, SpaceFault};

/// A space that answers a number of calls. It returns `Broken` from the next call and from each
/// after it.
#[derive(Drop)]
pub struct Breaking<S: Space> {
    space: S,
    left: u64,
    broken: bool,
}

impl<S: Space + Drop> Breaking<S> {
    /// Creates a space that answers so many calls.
    pub fn after(space: S, left: u64) -> Self {
        Breaking {
            space,
            left,
            broken: false,
        }
    }

    /// Returns the inner space.
    pub fn into_space(self) -> S {
        let Breaking {
            space,
            left: _,
            broken: _,
        } = self;
        space
    }

    // Returns true if the space is broken at this call.
    fn breaks(&mut self) -> bool
        ensures space { self.new.space ≡ self.old.space }
        ensures broken { self.new.broken ≡ result }
        ensures whole { result ≡ false → self.old.broken ≡ false }
    {
        if self.left == 0 {
            self.broken = true;
        } else {
            self.left -= 1;
        }
        self.broken
    }
}

impl<S: Space + Drop> Space for Breaking<S> {
    ghost use Rattle.test_libraries.specs.Breaking.{unbroken_inside};

    ghost holds = { λ s a. S.holds s.space a };

    ghost is_sound = { λ s. S.is_sound s.space };

    ghost is_whole = { λ s. S.is_whole s.space };

    ghost refusals = { λ s. S.refusals s.space };

    ghost is_broken = { λ s. s.broken || S.is_broken s.space };

    ghost fixed = { λ s. S.fixed s.space };

    ghost content_unique = { λ s a b sound unbroken h k.
        S.content_unique s.space a b sound (unbroken_inside s.broken (S.is_broken s.space) unbroken) h k };

    ghost content_whole = { λ s a sound unbroken h.
        S.content_whole s.space a sound (unbroken_inside s.broken (S.is_broken s.space) unbroken) h };

    ghost content_exists = { λ s sound whole. S.content_exists s.space sound whole };

    ghost content_valid = { λ s a sound h. S.content_valid s.space a sound h };

    fn entity(&mut self, kind: Kind, id: EntityId) -> Result<Option<Entity>, SpaceFault> {
        if self.breaks() {
            return Err(SpaceFault::Broken);
        }
        self.space.entity(kind, id)
    }

    fn meeting(
        &mut self,
        kind: Kind,
        areas: &[Area],
        except: Option<EntityId>,
    ) -> Result<Vec<Met>, SpaceFault> {
        if self.breaks() {
            return Err(SpaceFault::Broken);
        }
        self.space.meeting(kind, areas, except)
    }

    fn all(&mut self, kind: Kind) -> Result<Vec<Entity>, SpaceFault> {
        if self.breaks() {
            return Err(SpaceFault::Broken);
        }
        self.space.all(kind)
    }

    fn availability(&mut self, uss: &UssId) -> Result<Option<(Availability, Ovn)>, SpaceFault> {
        if self.breaks() {
            return Err(SpaceFault::Broken);
        }
        self.space.availability(uss)
    }

    fn subscription(&mut self, id: EntityId) -> Result<Option<Sub>, SpaceFault> {
        if self.breaks() {
            return Err(SpaceFault::Broken);
        }
        self.space.subscription(id)
    }

    fn subscriptions_of(&mut self, uss: &UssId, area: &Area) -> Result<Vec<Sub>, SpaceFault> {
        if self.breaks() {
            return Err(SpaceFault::Broken);
        }
        self.space.subscriptions_of(uss, area)
    }

    fn subscribers(&mut self, kind: Kind, areas: &[Area]) -> Result<Vec<Sub>, SpaceFault> {
        if self.breaks() {
            return Err(SpaceFault::Broken);
        }
        self.space.subscribers(kind, areas)
    }

    fn dependents(&mut self, id: EntityId) -> Result<Vec<EntityId>, SpaceFault> {
        if self.breaks() {
            return Err(SpaceFault::Broken);
        }
        self.space.dependents(id)
    }

    fn serial(&mut self) -> Result<u64, SpaceFault> {
        if self.breaks() {
            return Err(SpaceFault::Broken);
        }
        self.space.serial()
    }

    fn apply(&mut self, change: Change, notify: &[EntityId]) -> Result<(), SpaceFault> {
        if self.breaks() {
            return Err(SpaceFault::Broken);
        }
        self.space.apply(change, notify)
    }
}
