//! What the tables of a copy have.
use entity_core::entity::Entity;
use entity_core::entity_id::EntityId;
use entity_core::nature::Kind;
use entity_core::subscription::Sub;
use entity_maps::entities::{OrderKey, kind_index};
use std::alloc::{AllocError, Global};
use std::collections::BTreeMap;

/// An entity that the tables have, by the serial of its last change.
#[derive(Clone, Copy, Debug)]
pub(crate) struct StoredEntity {
    pub(crate) kind: Kind,
    pub(crate) id: EntityId,
    serial: u64,
}

/// A subscription that the tables have, by the serial of its last change and its notification
/// index.
#[derive(Clone, Copy, Debug)]
pub(crate) struct StoredSub {
    pub(crate) id: EntityId,
    serial: u64,
    index: u64,
}

/// What the tables of a copy have.
#[derive(Drop)]
pub(crate) struct Stored {
    pub(crate) entities: BTreeMap<OrderKey, StoredEntity>,
    pub(crate) subs: BTreeMap<u128, StoredSub>,
}

// Returns the key of an entity.
fn key_of(kind: Kind, id: EntityId) -> OrderKey {
    (kind_index(kind), id.number())
}

impl Stored {
    /// Returns what empty tables have.
    pub(crate) fn new(alloc: Global) -> Stored {
        Stored {
            entities: BTreeMap::new(alloc),
            subs: BTreeMap::new(alloc),
        }
    }

    /// Returns true if the tables have this entity.
    pub(crate) fn has_entity(&self, entity: &Entity) -> bool {
        match self.entities.get(&key_of(entity.nature.kind(), entity.id)) {
            Some(stored) => stored.serial == entity.serial.number(),
            None => false,
        }
    }

    /// Returns true if the tables have this subscription.
    pub(crate) fn has_sub(&self, sub: &Sub) -> bool {
        match self.subs.get(&sub.id.number()) {
            Some(stored) => {
                stored.serial == sub.serial.number() && stored.index == sub.index.number()
            }
            None => false,
        }
    }

    /// Returns true if the tables have a subscription with this id.
    pub(crate) fn has_sub_id(&self, id: EntityId) -> bool {
        self.subs.contains_key(&id.number())
    }

    /// Records that the tables have an entity.
    pub(crate) fn put_entity(&mut self, entity: &Entity) -> Result<(), AllocError> {
        let stored = StoredEntity {
            kind: entity.nature.kind(),
            id: entity.id,
            serial: entity.serial.number(),
        };
        self.entities
            .insert(key_of(stored.kind, stored.id), stored)?;
        Ok(())
    }

    /// Records that the tables have a subscription.
    pub(crate) fn put_sub(&mut self, sub: &Sub) -> Result<(), AllocError> {
        let stored = StoredSub {
            id: sub.id,
            serial: sub.serial.number(),
            index: sub.index.number(),
        };
        self.subs.insert(sub.id.number(), stored)?;
        Ok(())
    }

    /// Records that the tables do not have an entity any more.
    pub(crate) fn remove_entity(&mut self, entity: StoredEntity) {
        let _ = self.entities.remove(&key_of(entity.kind, entity.id));
    }

    /// Records that the tables do not have a subscription any more.
    pub(crate) fn remove_sub(&mut self, sub: StoredSub) {
        let _ = self.subs.remove(&sub.id.number());
    }
}
