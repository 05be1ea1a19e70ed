//! Entities with two indexes: by the cells of their volumes, and by the subscriptions that intents
//! reference.
//!
//! The cost of a search depends on what it finds.
ghost use Rattle.std.specs.Prelude.{◌≡◌, [], OnOk, OnErr, IfOk, IsOk, IsNone};
ghost use Rattle.std.specs.FinMap.{get, insert, remove};
ghost use Rattle.entity_core.specs.Airspace.{key_of};
ghost use Rattle.entity_core.specs.Search.{meeting_in, all_in, dependents_in};
ghost use Rattle.entity_maps.specs.Entities.{entity_map};
ghost use Rattle.entity_purge.specs.Purge.{is_referenced_in};
ghost use Rattle.space_memory.specs.CellIndex.{AllMarked, Grows, IsIndexOf};
ghost use Rattle.space_memory.specs.Names.{IsEntered, IsNameIndex, NamesMore};

use crate::cell_index::{Mark, mark_entity, unmark_entity};
use crate::found::{entities_of, found_ids};
use crate::names::{Naming, add_reference, dependents_of, is_named, remove_reference};
use crate::near::near;
use entity_core::entity::Entity;
use entity_core::entity_id::EntityId;
use entity_core::nature::Kind;
use entity_maps::entities::Entities;
use grid_core::sorted_area::sorted;
use grid_core::volume::Area;
use space_snapshot::counts::EntityCounts;
use std::alloc::{AllocError, Global};
use std::collections::BTreeSet;
use std::marker::Model;

/// Entities ordered by kind and id, with an index of their cells and an index of their references.
///
/// Contracts see their list.
#[derive(Debug, Drop)]
pub(crate) struct IndexedEntities {
    entities: Entities,
    marks: BTreeSet<Mark>,
    names: BTreeSet<Naming>,
    counts: EntityCounts,
}

impl Model for IndexedEntities {
    ghost use Rattle.std.specs.Prelude.{List};
    ghost use Rattle.entity_core.specs.declared.entity.Entity.{Entity};
    ghost use Rattle.entity_maps.specs.Entities.{entity_map};
    ghost use Rattle.space_memory.specs.CellIndex.{IsIndexOf};
    ghost use Rattle.space_memory.specs.Names.{IsNameIndex};

    ghost Value = { List Entity };

    ghost view = { λ a. a.entities };

    ghost invariant = { λ a. IsIndexOf (entity_map a.entities) a.marks
        × IsNameIndex (entity_map a.entities) a.names };
}

// Removes an entity from both indexes, except what belongs to a stored entity.
fn forget_entity(
    marks: &mut BTreeSet<Mark>,
    names: &mut BTreeSet<Naming>,
    entities: &Entities,
    gone: &Entity,
)
    ensures cells { IsIndexOf (entity_map entities.now) marks.old
        → IsIndexOf (entity_map entities.now) marks.new }
    ensures names { IsNameIndex (entity_map entities.now) names.old
        → IsNameIndex (entity_map entities.now) names.new }
{
    remove_reference(names, entities, gone);
    if !entities.has_put(gone) {
        unmark_entity(marks, gone);
    }
}

// Adds an entity to both indexes. On an error some of it can remain there.
fn add_entity(
    marks: &mut BTreeSet<Mark>,
    names: &mut BTreeSet<Naming>,
    entity: &Entity,
) -> Result<(), AllocError>
    ensures more_cells { Grows marks.old marks.new }
    ensures more_names { NamesMore names.old names.new }
    ensures marked { OnOk result (AllMarked marks.new entity.now) }
    ensures entered { OnOk result (IsEntered names.new entity.now) }
{
    add_reference(names, entity)?;
    mark_entity(marks, entity)
}

// Adds an entity that is about to be put to both indexes. On an error it removes what it added.
fn enter_entity(
    marks: &mut BTreeSet<Mark>,
    names: &mut BTreeSet<Naming>,
    entities: &Entities,
    entity: &Entity,
) -> Result<(), AllocError>
    ensures cells { IsIndexOf (entity_map entities.now) marks.old
        → IsIndexOf (entity_map entities.now) marks.new }
    ensures names { IsNameIndex (entity_map entities.now) names.old
        → IsNameIndex (entity_map entities.now) names.new }
    ensures marked { OnOk result (AllMarked marks.new entity.now) }
    ensures entered { OnOk result (IsEntered names.new entity.now) }
{
    match add_entity(marks, names, entity) {
        Ok(()) => Ok(()),
        Err(fault) => {
            forget_entity(marks, names, entities, entity);
            Err(fault)
        }
    }
}

// Puts an entity. Updates the indexes first, and undoes that if memory runs out for the entity.
fn put_entity(
    entities: &mut Entities,
    marks: &mut BTreeSet<Mark>,
    names: &mut BTreeSet<Naming>,
    entity: Entity,
) -> Result<(), AllocError>
    requires cells { IsIndexOf (entity_map entities.old) marks.old }
    requires names { IsNameIndex (entity_map entities.old) names.old }
    ensures cells { IsIndexOf (entity_map entities.new) marks.new }
    ensures names { IsNameIndex (entity_map entities.new) names.new }
    ensures ok { OnOk result (entity_map entities.new
        ≡ insert (entity_map entities.old) (key_of entity) entity) }
    ensures err { OnErr result (entities.new ≡ entities.old) }
{
    enter_entity(marks, names, entities, &entity)?;
    match entities.replace(entity) {
        Ok(Some(gone)) => {
            forget_entity(marks, names, entities, &gone);
            Ok(())
        }
        Ok(None) => Ok(()),
        Err(failed) => {
            forget_entity(marks, names, entities, &failed.value);
            Err(AllocError::from(failed))
        }
    }
}

fn remove_entity(
    entities: &mut Entities,
    marks: &mut BTreeSet<Mark>,
    names: &mut BTreeSet<Naming>,
    kind: Kind,
    id: EntityId,
)
    requires cells { IsIndexOf (entity_map entities.old) marks.old }
    requires names { IsNameIndex (entity_map entities.old) names.old }
    ensures cells { IsIndexOf (entity_map entities.new) marks.new }
    ensures names { IsNameIndex (entity_map entities.new) names.new }
    ensures removed { entity_map entities.new ≡ remove (entity_map entities.old) (kind, id) }
{
    if let Some(gone) = entities.take(kind, id) {
        forget_entity(marks, names, entities, &gone);
    }
}

// Finds entities that meet areas. Checks only the volumes that have a cell near some area.
fn meeting_in(
    alloc: Global,
    entities: &Entities,
    marks: &BTreeSet<Mark>,
    kind: Kind,
    areas: &[Area],
    except: Option<EntityId>,
) -> Result<Vec<Entity>, AllocError>
    requires { IsIndexOf (entity_map entities.now) marks.now }
    ensures { IfOk result (λ found. found.items
        ≡ meeting_in (entity_map entities.now) kind areas.now except) }
{
    let areas = sorted(alloc, areas)?;
    let near = near(alloc, marks, &areas)?;
    let ids = found_ids(alloc, entities, &near, kind, &areas, &except)?;
    entities_of(alloc, entities, kind, &ids)
}

impl IndexedEntities {
    /// Returns an empty map.
    ///
    /// Allocates nothing.
    pub(crate) fn new(alloc: Global) -> IndexedEntities
        ensures { result ≡ [] }
    {
        IndexedEntities {
            entities: Entities::new(alloc),
            marks: BTreeSet::new(alloc),
            names: BTreeSet::new(alloc),
            counts: EntityCounts::nothing(),
        }
    }

    /// Indexes the entities of a tree.
    ///
    /// Returns `AllocError` if memory runs out.
    pub(crate) fn of(alloc: Global, entities: Entities) -> Result<IndexedEntities, AllocError>
        ensures { IfOk result (λ indexed. indexed ≡ entities) }
    {
        let mut marks = BTreeSet::new(alloc);
        let mut names = BTreeSet::new(alloc);
        let mut counts = EntityCounts::nothing();
        for entity in entities.iter() {
            add_entity(&mut marks, &mut names, entity)?;
            counts.add(entity.nature.kind());
        }
        Ok(IndexedEntities {
            entities,
            marks,
            names,
            counts,
        })
    }

    /// Returns the entities, in their order.
    pub(crate) fn entities(&self) -> &Entities
        ensures { result.now ≡ self.now }
    {
        &self.entities
    }

    /// Returns the number of entities of each kind.
    pub(crate) fn counts(&self) -> EntityCounts {
        self.counts
    }

    /// Returns a copy of the entity with this kind and id, if any.
    ///
    /// Returns `AllocError` if memory runs out. Allocates nothing if there is none.
    pub(crate) fn entity(
        &self,
        alloc: Global,
        kind: Kind,
        id: EntityId,
    ) -> Result<Option<Entity>, AllocError>
        ensures found { IfOk result (λ found. found ≡ get (entity_map self.now) (kind, id)) }
        ensures none { IsNone (get (entity_map self.now) (kind, id)) → IsOk result }
    {
        self.entities.entity(alloc, kind, id)
    }

    /// Returns copies of the entities of a kind of which some volume meets some area, by ascending
    /// id.
    ///
    /// Leaves out the entity with the excluded id. Returns `AllocError` if memory runs out.
    pub(crate) fn meeting(
        &self,
        alloc: Global,
        kind: Kind,
        areas: &[Area],
        except: Option<EntityId>,
    ) -> Result<Vec<Entity>, AllocError>
        ensures { IfOk result (λ found. found.items
            ≡ meeting_in (entity_map self.now) kind areas.now except) }
    {
        meeting_in(alloc, &self.entities, &self.marks, kind, areas, except)
    }

    /// Returns copies of the entities of a kind, by ascending id.
    ///
    /// Returns `AllocError` if memory runs out.
    pub(crate) fn all(&self, alloc: Global, kind: Kind) -> Result<Vec<Entity>, AllocError>
        ensures { IfOk result (λ found. found.items ≡ all_in (entity_map self.now) kind) }
    {
        self.entities.all(alloc, kind)
    }

    /// Returns the ids of the intents that reference a subscription, ascending.
    ///
    /// Returns `AllocError` if memory runs out.
    pub(crate) fn dependents(
        &self,
        alloc: Global,
        id: EntityId,
    ) -> Result<Vec<EntityId>, AllocError>
        ensures { IfOk result (λ found. found.items ≡ dependents_in (entity_map self.now) id) }
    {
        dependents_of(alloc, &self.entities, &self.names, id)
    }

    /// Returns true if some intent references the subscription.
    ///
    /// Allocates nothing.
    pub(crate) fn is_named(&self, id: EntityId) -> bool
        ensures { result ≡ is_referenced_in (entity_map self.now) id }
    {
        is_named(&self.entities, &self.names, id)
    }

    /// Puts an entity, replacing the one with the same kind and id.
    ///
    /// Returns `AllocError` and changes nothing if memory runs out.
    pub(crate) fn put(&mut self, entity: Entity) -> Result<(), AllocError>
        ensures ok { OnOk result (entity_map self.new
            ≡ insert (entity_map self.old) (key_of entity) entity) }
        ensures err { OnErr result (self.new ≡ self.old) }
    {
        let kind = entity.nature.kind();
        let is_new = self.entities.get(kind, entity.id.number()).is_none();
        put_entity(&mut self.entities, &mut self.marks, &mut self.names, entity)?;
        if is_new {
            self.counts.add(kind);
        }
        Ok(())
    }

    /// Removes the entity with this kind and id.
    ///
    /// Changes nothing if it does not exist.
    pub(crate) fn remove(&mut self, kind: Kind, id: EntityId)
        ensures { entity_map self.new ≡ remove (entity_map self.old) (kind, id) }
    {
        let is_there = self.entities.get(kind, id.number()).is_some();
        remove_entity(
            &mut self.entities,
            &mut self.marks,
            &mut self.names,
            kind,
            id,
        );
        if is_there {
            self.counts.take(kind);
        }
    }
}
