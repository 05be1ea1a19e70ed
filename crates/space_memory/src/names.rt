//! An index of the subscriptions that intents reference.
//!
//! It finds the intents that reference a subscription without looking at others.
ghost use Rattle.std.specs.Prelude.{◌≡◌, IfOk, OnOk};
ghost use Rattle.entity_core.specs.Search.{dependents_in};
ghost use Rattle.entity_maps.specs.Entities.{entity_map};
ghost use Rattle.entity_purge.specs.Purge.{is_referenced_in};
ghost use Rattle.space_memory.specs.Names.{ArePairsOf, IsEntered, IsNameIndex, NamesMore, dependent_at};

use entity_core::entity::Entity;
use entity_core::entity_id::EntityId;
use entity_core::nature::Kind;
use entity_maps::entities::Entities;
use std::alloc::{AllocError, Global};
use std::collections::BTreeSet;
use std::collections::btree_set::Range;

/// The number of a subscription's id, and the number of the id of an intent that references it.
pub(crate) type Naming = (u128, u128);

// ---- additions and removals

/// Adds the pair of an entity, if it references a subscription.
///
/// Returns `AllocError` and changes nothing if memory runs out.
pub(crate) fn add_reference(names: &mut BTreeSet<Naming>, entity: &Entity) -> Result<(), AllocError>
    ensures kept { NamesMore names.old names.new }
    ensures entered { OnOk result (IsEntered names.new entity.now) }
{
    if let Some(id) = entity.nature.subscription() {
        names.insert((id.number(), entity.id.number()))?;
    }
    Ok(())
}

// Returns the id of the intent with this number, if it exists and references the subscription.
fn dependent_at(entities: &Entities, id: EntityId, intent: u128) -> Option<EntityId>
    ensures { result ≡ dependent_at (entity_map entities.now) id intent }
{
    match entities.get(Kind::Intent, intent) {
        Some(entity) => match entity.nature.subscription() {
            Some(named) if named.is(id) => Some(entity.id),
            _ => None,
        },
        None => None,
    }
}

/// Removes the pair of an entity, unless the stored intent with its id references the same
/// subscription.
pub(crate) fn remove_reference(names: &mut BTreeSet<Naming>, entities: &Entities, gone: &Entity)
    ensures { IsNameIndex (entity_map entities.now) names.old
        → IsNameIndex (entity_map entities.now) names.new }
{
    if let Some(id) = gone.nature.subscription() {
        if dependent_at(entities, id, gone.id.number()).is_none() {
            names.remove(&(id.number(), gone.id.number()));
        }
    }
}

// ---- searches

// Returns the pairs of a subscription, by ascending ids of the intents.
fn pairs_of(names: &BTreeSet<Naming>, id: EntityId) -> Range<'_, Naming>
    ensures { ArePairsOf names.now id result }
{
    let number = id.number();
    names.range((number, 0)..=(number, u128::MAX))
}

/// Returns the ids of the intents that reference a subscription, ascending.
pub(crate) fn dependents_of(
    alloc: Global,
    entities: &Entities,
    names: &BTreeSet<Naming>,
    id: EntityId,
) -> Result<Vec<EntityId>, AllocError>
    requires { IsNameIndex (entity_map entities.now) names.now }
    ensures { IfOk result (λ found. found.items ≡ dependents_in (entity_map entities.now) id) }
{
    let mut found = Vec::new(alloc);
    for pair in pairs_of(names, id) {
        if let Some(intent) = dependent_at(entities, id, pair.1) {
            found.push(intent)?;
        }
    }
    Ok(found)
}

/// Returns true if some intent references the subscription.
///
/// Allocates nothing.
pub(crate) fn is_named(entities: &Entities, names: &BTreeSet<Naming>, id: EntityId) -> bool
    requires { IsNameIndex (entity_map entities.now) names.now }
    ensures { result ≡ is_referenced_in (entity_map entities.now) id }
{
    for pair in pairs_of(names, id) {
        if dependent_at(entities, id, pair.1).is_some() {
            return true;
        }
    }
    false
}
