//! The items of a purge.

use entity_core::entity_id::EntityId;
use entity_core::nature::Kind;

/// One item that is purged.
#[derive(Clone, Copy, Debug, PartialEq, Eq)]
pub enum PurgeItem {
    /// The entity with this kind and id.
    Entity(Kind, EntityId),
    /// The subscription with this id.
    Subscription(EntityId),
}
