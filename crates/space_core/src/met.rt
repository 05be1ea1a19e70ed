//! Results of a search of a space.

use entity_core::availability::Availability;
use entity_core::entity::Entity;

/// An entity that a search found, and the current availability of its manager.
#[derive(Debug, Drop)]
pub struct Met {
    pub entity: Entity,
    pub availability: Availability,
}
