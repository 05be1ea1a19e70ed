//! Checking the candidates that an index finds near areas.
ghost use Rattle.std.specs.Prelude.{◌≡◌, ℕ, ◌%◌, IfOk, IsTrue, OnOk, filter_map};
ghost use Rattle.std.specs.Int.{bit_at};
ghost use Rattle.std.specs.BTreeSet.{IsOrdered, keys};
ghost use Rattle.std.specs.Ordering.{nat_cmp};
ghost use Rattle.grid_core.specs.Extent.{Extent, Region, any_meet, meets, region_of};
ghost use Rattle.entity_maps.specs.Entities.{entity_map};
ghost use Rattle.space_memory.specs.Found.{entity_of, is_sought_of, AddsAt, AllPassing, Judges, OnlyPassing};
ghost use Rattle.space_memory.specs.Near.{IsAt};

use crate::near::{Near, Part, meets_one_of};
use entity_core::entity::Entity;
use entity_core::entity_id::EntityId;
use entity_core::nature::Kind;
use entity_maps::entities::{Entities, is_other};
use grid_core::sorted_area::SortedArea;
use std::alloc::{AllocError, Global};
use std::collections::BTreeSet;

/// Adds an id if the answer is true.
pub(crate) fn add_at(ids: &mut BTreeSet<u128>, id: u128, answer: bool) -> Result<(), AllocError>
    ensures { OnOk result (AddsAt answer id ids.old ids.new) }
{
    if answer {
        ids.insert(id)?;
    }
    Ok(())
}

// Returns true if the volume with this number meets an area whose bit is set.
fn meets_at(entity: &Entity, volume: u8, bits: u64, areas: &[SortedArea]) -> bool
    ensures sound { IsTrue result → IsTrue (any_meet entity.now.volumes areas.now) }
    ensures whole { (v : Extent) (j : ℕ) (a : Region) → IsAt entity.now.volumes volume v
        → IsAt areas.now j a → bit_at bits (j % 64) ≡ 1 → IsTrue (meets (region_of v) a)
        → IsTrue result }
{
    match entity.volumes.items().get(usize::from(volume)) {
        Some(volume) => meets_one_of(volume, bits, areas),
        None => false,
    }
}

// Returns true if the entity of a candidate is not excluded and its volume meets an area.
fn is_found(
    entities: &Entities,
    kind: Kind,
    part: Part,
    bits: u64,
    areas: &[SortedArea],
    except: &Option<EntityId>,
) -> bool
    ensures { Judges (entity_of (entity_map entities.now) kind) (λ e. e.volumes)
        (is_sought_of kind areas.now except.now) areas.now part bits result }
{
    match entities.get(kind, part.0) {
        Some(entity) => {
            is_other(*except, kind, entity.id) && meets_at(entity, part.1, bits, areas)
        }
        None => false,
    }
}

/// Returns the ids of the entities of a kind that match a search, given its candidates.
pub(crate) fn found_ids(
    alloc: Global,
    entities: &Entities,
    near: &Near,
    kind: Kind,
    areas: &[SortedArea],
    except: &Option<EntityId>,
) -> Result<BTreeSet<u128>, AllocError>
    ensures only { IfOk result (λ ids. OnlyPassing (entity_of (entity_map entities.now) kind)
        (is_sought_of kind areas.now except.now) ids) }
    ensures all { IfOk result (λ ids. AllPassing (entity_of (entity_map entities.now) kind)
        (λ e. e.volumes) (is_sought_of kind areas.now except.now) areas.now near.now ids) }
{
    let mut ids = BTreeSet::new(alloc);
    for (part, bits) in near {
        let answer = is_found(entities, kind, *part, *bits, areas, except);
        add_at(&mut ids, part.0, answer)?;
    }
    Ok(ids)
}

/// Returns copies of the entities with this kind and these ids, by ascending id.
pub(crate) fn entities_of(
    alloc: Global,
    entities: &Entities,
    kind: Kind,
    ids: &BTreeSet<u128>,
) -> Result<Vec<Entity>, AllocError>
    ensures found { IfOk result (λ found. found.items
        ≡ filter_map (entity_of (entity_map entities.now) kind) (keys ids.now)) }
    ensures rise { IsOrdered nat_cmp ids.now }
{
    let mut found = Vec::new(alloc);
    for id in ids {
        if let Some(entity) = entities.get(kind, *id) {
            found.push(entity.clone(alloc)?)?;
        }
    }
    Ok(found)
}
