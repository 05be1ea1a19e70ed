//! The number of entities of each kind.
use entity_core::nature::Kind;

/// The number of entities of each kind, updated as entities are added and removed.
///
/// Counts stop at their maximum.
#[derive(Clone, Copy, Debug)]
pub struct EntityCounts {
    intents: u64,
    constraints: u64,
}

impl EntityCounts {
    /// Returns counts of zero.
    pub fn nothing() -> EntityCounts {
        EntityCounts {
            intents: 0,
            constraints: 0,
        }
    }

    /// Returns the number of entities of a kind.
    pub fn of(self, kind: Kind) -> u64 {
        match kind {
            Kind::Intent => self.intents,
            Kind::Constraint => self.constraints,
        }
    }

    /// Counts one more entity of a kind.
    pub fn add(&mut self, kind: Kind) {
        match kind {
            Kind::Intent => self.intents = self.intents.saturating_add(1),
            Kind::Constraint => self.constraints = self.constraints.saturating_add(1),
        }
    }

    /// Counts one entity less of a kind.
    pub fn take(&mut self, kind: Kind) {
        match kind {
            Kind::Intent => self.intents = self.intents.saturating_sub(1),
            Kind::Constraint => self.constraints = self.constraints.saturating_sub(1),
        }
    }
}
