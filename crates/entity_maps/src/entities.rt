//! Entities ordered by kind and id.
ghost use Rattle.std.specs.Prelude.{◌≡◌, [], filter, OnOk, OnErr, IfOk, IfErr, IsOk, IsNone};
ghost use Rattle.std.specs.Map.{values_of};
ghost use Rattle.std.specs.Option.{option_copied};
ghost use Rattle.std.specs.FinMap.{get, insert, remove};
ghost use Rattle.entity_core.specs.Airspace.{key_of};
ghost use Rattle.entity_core.specs.Entity.{kind_index};
ghost use Rattle.entity_core.specs.Search.{is_naming, is_not, is_sought, meeting_in, all_in, dependents_in};
ghost use Rattle.entity_maps.specs.Entities.{comes_from, numbers_of, pair_of, entity_map, was_put_at, InOrder};

use entity_core::entity::Entity;
use entity_core::entity_id::EntityId;
use entity_core::nature::Kind;
use grid_core::sorted_area::{SortedArea, sorted};
use grid_core::volume::Area;
use std::alloc::{AllocError, AllocFailed, Global};
use std::collections::BTreeMap;
use std::collections::btree_map::{Range, Values};
use std::marker::Model;

/// The key of an entity as numbers: the index of its kind, and the number of its id.
pub type OrderKey = (u8, u128);

/// Entities ordered by kind and id, one for each kind and id.
///
/// They are stored in a tree, so that inserting or removing an entity does not move the others.
/// Contracts see their list.
#[derive(Debug, Drop)]
pub struct Entities {
    tree: BTreeMap<OrderKey, Entity>,
}

impl Model for Entities {
    ghost use Rattle.std.specs.Prelude.{List};
    ghost use Rattle.std.specs.BTreeMap.{values};
    ghost use Rattle.entity_core.specs.declared.entity.Entity.{Entity};
    ghost use Rattle.entity_maps.specs.Entities.{AreKeyed};

    ghost Value = { List Entity };

    ghost view = { λ a. values a.tree };

    ghost invariant = { λ a. AreKeyed a.tree.entries };
}

/// Returns the index of a kind in the order of kinds.
pub fn kind_index(kind: Kind) -> u8
    ensures { result ≡ kind_index kind }
{
    match kind {
        Kind::Intent => 0,
        Kind::Constraint => 1,
    }
}

fn key(kind: Kind, number: u128) -> OrderKey
    ensures { result ≡ numbers_of (kind, number) }
{
    (kind_index(kind), number)
}

fn own_key(entity: &Entity) -> OrderKey
    ensures { result ≡ numbers_of (key_of entity.now) }
{
    key(entity.nature.kind(), entity.id.number())
}

/// Returns true if the id is not the excluded one.
pub fn is_other(except: Option<EntityId>, kind: Kind, id: EntityId) -> bool
    ensures { result ≡ is_not except (kind, id) }
{
    match except {
        None => true,
        Some(other) => !id.is(other),
    }
}

fn is_wanted(entity: &Entity, kind: Kind, areas: &[SortedArea], except: Option<EntityId>) -> bool
    ensures { result ≡ is_sought kind areas.now except (pair_of entity.now) }
{
    let own = entity.nature.kind();
    own.is(kind) && (is_other(except, own, entity.id) && entity.volumes.meets_any_sorted(areas))
}

fn is_naming(entity: &Entity, id: EntityId) -> bool
    ensures { result ≡ is_naming id (pair_of entity.now) }
{
    match entity.nature.subscription() {
        Some(named) => named.is(id),
        None => false,
    }
}

impl Entities {
    /// Returns an empty map.
    ///
    /// Allocates nothing.
    pub fn new(alloc: Global) -> Entities
        ensures { result ≡ [] }
    {
        Entities {
            tree: BTreeMap::new(alloc),
        }
    }

    /// Returns an iterator over the entities, in their order.
    pub fn iter(&self) -> Values<'_, OrderKey, Entity>
        ensures items { result ≡ self.now }
        ensures order { InOrder self.now }
    {
        self.tree.values()
    }

    /// Returns an iterator over the entities with their keys, in their order.
    pub fn entries(&self) -> Range<'_, OrderKey, Entity>
        ensures items { values_of result ≡ self.now }
        ensures order { InOrder self.now }
    {
        self.tree.range(..)
    }

    /// Returns an iterator over the entities from this key on, with their keys, in their order.
    pub fn range_from(&self, kind: Kind, id: EntityId) -> Range<'_, OrderKey, Entity>
        ensures items { values_of result ≡ filter (comes_from (kind, id)) self.now }
        ensures order { InOrder self.now }
    {
        self.tree.range(key(kind, id.number())..)
    }

    /// Returns the entity with this kind and the number of its id.
    ///
    /// An index stores only the number.
    pub fn get(&self, kind: Kind, number: u128) -> Option<&Entity>
        ensures { option_copied result ≡ get (entity_map self.now) (kind, number) }
    {
        self.tree.get(&key(kind, number))
    }

    /// Returns a copy of the entity with this kind and id, if any.
    ///
    /// Returns `AllocError` if memory runs out. Allocates nothing if there is none.
    pub fn entity(
        &self,
        alloc: Global,
        kind: Kind,
        id: EntityId,
    ) -> Result<Option<Entity>, AllocError>
        ensures found { IfOk result (λ found. found ≡ get (entity_map self.now) (kind, id)) }
        ensures none { IsNone (get (entity_map self.now) (kind, id)) → IsOk result }
    {
        match self.get(kind, id.number()) {
            Some(entity) => Ok(Some(entity.clone(alloc)?)),
            None => Ok(None),
        }
    }

    /// Returns copies of the entities of a kind, by ascending id.
    ///
    /// Returns `AllocError` if memory runs out.
    pub fn all(&self, alloc: Global, kind: Kind) -> Result<Vec<Entity>, AllocError>
        ensures { IfOk result (λ found. found.items ≡ all_in (entity_map self.now) kind) }
    {
        let index = kind_index(kind);
        let mut found = Vec::new(alloc);
        for (_, entity) in self.tree.range((index, 0)..(index + 1, 0)) {
            found.push(entity.clone(alloc)?)?;
        }
        Ok(found)
    }

    /// Returns copies of the entities of a kind of which some volume meets some area, by ascending
    /// id.
    ///
    /// Leaves out the entity with the excluded id. Returns `AllocError` if memory runs out.
    pub fn meeting(
        &self,
        alloc: Global,
        kind: Kind,
        areas: &[Area],
        except: Option<EntityId>,
    ) -> Result<Vec<Entity>, AllocError>
        ensures { IfOk result (λ found. found.items
            ≡ meeting_in (entity_map self.now) kind areas.now except) }
    {
        let sorted_areas = sorted(alloc, areas)?;
        self.meeting_sorted(alloc, kind, &sorted_areas, except)
    }

    fn meeting_sorted(
        &self,
        alloc: Global,
        kind: Kind,
        areas: &[SortedArea],
        except: Option<EntityId>,
    ) -> Result<Vec<Entity>, AllocError>
        ensures { IfOk result (λ found. found.items
            ≡ meeting_in (entity_map self.now) kind areas.now except) }
    {
        let mut found = Vec::new(alloc);
        for entity in self.tree.values() {
            if is_wanted(entity, kind, areas, except) {
                found.push(entity.clone(alloc)?)?;
            }
        }
        Ok(found)
    }

    /// Returns the ids of the intents that reference a subscription, ascending.
    ///
    /// Returns `AllocError` if memory runs out.
    pub fn dependents(&self, alloc: Global, id: EntityId) -> Result<Vec<EntityId>, AllocError>
        ensures { IfOk result (λ found. found.items ≡ dependents_in (entity_map self.now) id) }
    {
        let mut found = Vec::new(alloc);
        for entity in self.tree.values() {
            if is_naming(entity, id) {
                found.push(entity.id)?;
            }
        }
        Ok(found)
    }

    /// Returns true if it has an entity with the same kind, id and serial.
    pub fn has_put(&self, entity: &Entity) -> bool
        ensures { result ≡ was_put_at entity.now.serial
            (get (entity_map self.now) (key_of entity.now)) }
    {
        match self.get(entity.nature.kind(), entity.id.number()) {
            Some(kept) => kept.serial.number() == entity.serial.number(),
            None => false,
        }
    }

    /// Puts an entity and returns the one that it replaces, if any.
    ///
    /// Returns the entity with the error and changes nothing if memory runs out.
    pub fn replace(&mut self, entity: Entity) -> Result<Option<Entity>, AllocFailed<Entity>>
        ensures was { IfOk result (λ was. was ≡ get (entity_map self.old) (key_of entity)) }
        ensures ok { OnOk result (entity_map self.new
            ≡ insert (entity_map self.old) (key_of entity) entity) }
        ensures err { OnErr result (self.new ≡ self.old) }
        ensures given_back { IfErr result (λ failed. failed.value ≡ entity) }
    {
        match self.tree.insert(own_key(&entity), entity) {
            Ok(was) => Ok(was),
            Err(failed) => Err(AllocFailed {
                value: failed.value.1,
            }),
        }
    }

    /// Puts an entity and drops the one that it replaces, if any.
    ///
    /// Returns `AllocError` and changes nothing if memory runs out.
    pub fn put(&mut self, entity: Entity) -> Result<(), AllocError>
        ensures ok { OnOk result (entity_map self.new
            ≡ insert (entity_map self.old) (key_of entity) entity) }
        ensures err { OnErr result (self.new ≡ self.old) }
    {
        match self.replace(entity) {
            Ok(_) => Ok(()),
            Err(failed) => Err(AllocError::from(failed)),
        }
    }

    /// Removes the entity with this kind and id and returns it.
    ///
    /// Changes nothing and returns `None` if it does not exist.
    pub fn take(&mut self, kind: Kind, id: EntityId) -> Option<Entity>
        ensures was { result ≡ get (entity_map self.old) (kind, id) }
        ensures left { entity_map self.new ≡ remove (entity_map self.old) (kind, id) }
    {
        self.tree.remove(&key(kind, id.number()))
    }

    /// Converts the map into a vector of its entities, in their order.
    ///
    /// Returns `AllocError` if memory runs out.
    pub fn into_vec(self, alloc: Global) -> Result<Vec<Entity>, AllocError>
        ensures items { IfOk result (λ items. items.items ≡ self) }
        ensures order { IfOk result (λ _. InOrder self) }
    {
        let Entities { tree } = self;
        let mut items = Vec::new(alloc);
        for (_, entity) in tree {
            items.push(entity)?;
        }
        Ok(items)
    }
}
