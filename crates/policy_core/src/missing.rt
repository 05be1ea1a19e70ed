//! Entities that are missing from a key.
ghost use Rattle.std.specs.Prelude.{◌≡◌, IfOk};
ghost use Rattle.policy_core.specs.Missing.{is_missing_from, needs_key, places_where, spared};

use crate::key_index::KeyIndex;
use entity_core::availability::Availability;
use entity_core::entity::Entity;
use entity_core::nature::{Nature, State};
use entity_core::ovn::Ovn;
use std::alloc::{AllocError, Global};

/// Returns true if a put of this nature needs a key.
pub fn needs_key(nature: Nature) -> bool
    ensures { result ≡ needs_key nature }
{
    match nature {
        Nature::Intent(State::Accepted | State::Activated, _) => true,
        _ => false,
    }
}

/// Returns true if the entity is exempt, given the availability of its manager.
///
/// An `Accepted` intent of a USS that is down is exempt: no call needs to know it. Allocates
/// nothing.
pub fn spared(entity: &Entity, availability: Availability) -> bool
    ensures { result ≡ spared entity.now availability }
{
    match (entity.nature, availability) {
        (Nature::Intent(State::Accepted, _), Availability::Down) => true,
        _ => false,
    }
}

/// Returns the indexes of the entities whose OVNs are not in the key, ascending.
///
/// Takes O(k log k) comparisons for k OVNs, and O(log k) more for each entity. Returns `AllocError`
/// if memory runs out.
pub fn missing(alloc: Global, key: &[Ovn], needed: &[Entity]) -> Result<Vec<usize>, AllocError>
    ensures { IfOk result (λ places. places.items
        ≡ places_where (is_missing_from key.now) needed.now) }
{
    let index = KeyIndex::new(alloc, key)?;
    let mut places = Vec::new(alloc);
    for place in 0..needed.len() {
        if !index.has(&needed[place].ovn) {
            places.push(place)?;
        }
    }
    Ok(places)
}
