//! The put of an entity, from JSON.
ghost use Rattle.std.specs.Prelude.{◌≡◌, codes};
ghost use Rattle.serde_json.specs.View.{view, items_view};
ghost use Rattle.entity_core.specs.IdTexts.{ovn_fault, url_fault};
ghost use Rattle.wire_body.specs.Given.{Gives, GivesBy};
ghost use Rattle.wire_body.specs.Member.{each, list_of, required};
ghost use Rattle.wire_body.specs.Put.{text_in, are_few_cells, few_volumes, volumes_in, few_ovns, key_in, key_of, state_in, nature_of, volumes_of, url_of, put_of};
ghost use Rattle.wire_body.specs.Volume.{volume_in};

use crate::body_fault::BodyFault;
use crate::member::member;
use crate::naming::naming_of;
use crate::state::state_named;
use crate::volume::volume_in;
use entity_core::base_url::BaseUrl;
use entity_core::id_fault::IdFault;
use entity_core::nature::{Kind, Nature, State};
use entity_core::ovn::Ovn;
use grid_core::volume::Volume;
use grid_core::volumes::Volumes;
use policy_core::call::Put;
use policy_core::key::Key;
use serde_json::Value;
use std::alloc::Global;

fn each_volume(alloc: Global, items: &[Value]) -> Result<Vec<Volume>, BodyFault>
    ensures { GivesBy (λ v. v.items) result (each volume_in (items_view items.now)) }
{
    let mut volumes = Vec::new(alloc);
    for value in items {
        let volume = volume_in(alloc, value)?;
        if volumes.push(volume).is_err() {
            return Err(BodyFault::Memory);
        }
    }
    Ok(volumes)
}

// Returns true if the volumes have at most 2,048 cells in total.
fn are_few_cells(volumes: &[Volume]) -> bool
    ensures { result ≡ are_few_cells volumes.now }
{
    let mut left = 2048;
    for volume in volumes {
        let count = volume.cells().len();
        if count > left {
            return false;
        }
        left -= count;
    }
    true
}

// Returns the volumes if they are 1 to 32 with at most 2,048 cells in total.
fn few_volumes(alloc: Global, volumes: Vec<Volume>) -> Result<Volumes, BodyFault>
    ensures { Gives result (few_volumes volumes.items) }
{
    if !are_few_cells(&volumes) {
        return Err(BodyFault::Malformed);
    }
    match Volumes::from_vec(alloc, volumes) {
        Ok(Some(volumes)) => Ok(volumes),
        Ok(None) => Err(BodyFault::Malformed),
        Err(_) => Err(BodyFault::Memory),
    }
}

#[tactic(auto, unfolding(crate::specs::Put::volumes_in))]
fn volumes_in(alloc: Global, value: &Value) -> Result<Volumes, BodyFault>
    ensures { Gives result (volumes_in (view value.now)) }
{
    let Some(items) = value.as_array() else {
        return Err(BodyFault::Malformed);
    };
    let items = items.as_slice();
    // Do not copy a list that is too long.
    if items.len() > 32 {
        return Err(BodyFault::Malformed);
    }
    let volumes = each_volume(alloc, items)?;
    few_volumes(alloc, volumes)
}

#[tactic(auto, unfolding(crate::specs::Put::volumes_of))]
fn volumes_of(alloc: Global, value: &Value) -> Result<Volumes, BodyFault>
    ensures { Gives result (volumes_of (view value.now)) }
{
    match member(value, "extents") {
        Some(found) => volumes_in(alloc, found),
        None => Err(BodyFault::Malformed),
    }
}

fn ovn_in(alloc: Global, value: &Value) -> Result<Ovn, BodyFault>
    ensures { Gives result (text_in ovn_fault (view value.now)) }
{
    let Some(text) = value.as_str() else {
        return Err(BodyFault::Malformed);
    };
    match Ovn::read(alloc, text) {
        Ok(ovn) => Ok(ovn),
        Err(IdFault::Memory) => Err(BodyFault::Memory),
        Err(IdFault::Length) => Err(BodyFault::Malformed),
        Err(IdFault::Form) => Err(BodyFault::Malformed),
    }
}

fn each_ovn(alloc: Global, items: &[Value]) -> Result<Vec<Ovn>, BodyFault>
    ensures { GivesBy (λ v. v.items) result (each (text_in ovn_fault) (items_view items.now)) }
{
    let mut ovns = Vec::new(alloc);
    for value in items {
        let ovn = ovn_in(alloc, value)?;
        if ovns.push(ovn).is_err() {
            return Err(BodyFault::Memory);
        }
    }
    Ok(ovns)
}

#[tactic(auto, unfolding(crate::specs::Put::key_in))]
fn key_in(alloc: Global, value: &Value) -> Result<Key, BodyFault>
    ensures { Gives result (key_in (view value.now)) }
{
    let Some(items) = value.as_array() else {
        return Err(BodyFault::Malformed);
    };
    let items = items.as_slice();
    // Do not copy a list that is too long.
    if items.len() > 4096 {
        return Err(BodyFault::Malformed);
    }
    let ovns = each_ovn(alloc, items)?;
    Ok(Key::from_vec(ovns))
}

#[tactic(auto, unfolding(crate::specs::Put::key_of))]
fn key_of(alloc: Global, kind: Kind, value: &Value) -> Result<Key, BodyFault>
    ensures { Gives result (key_of kind (view value.now)) }
{
    match kind {
        Kind::Intent => match member(value, "key") {
            Some(found) => key_in(alloc, found),
            None => Ok(Key::from_vec(Vec::new(alloc))),
        },
        Kind::Constraint => Ok(Key::from_vec(Vec::new(alloc))),
    }
}

fn state_in(value: &Value) -> Option<State>
    ensures { result ≡ state_in (view value.now) }
{
    match value.as_str() {
        Some(text) => state_named(text),
        None => None,
    }
}

fn state_of(value: &Value) -> Option<State>
    ensures { result ≡ required state_in (codes "state") (view value.now) }
{
    match member(value, "state") {
        Some(found) => state_in(found),
        None => None,
    }
}

#[tactic(auto, unfolding(crate::specs::Put::nature_of))]
fn intent_of(value: &Value) -> Option<Nature>
    ensures { result ≡ nature_of Kind.Intent (view value.now) }
{
    let state = state_of(value)?;
    let named = naming_of(value)?;
    Some(Nature::Intent(state, named))
}

#[tactic(auto, unfolding(crate::specs::Put::nature_of))]
fn nature_of(kind: Kind, value: &Value) -> Option<Nature>
    ensures { result ≡ nature_of kind (view value.now) }
{
    match kind {
        Kind::Intent => intent_of(value),
        Kind::Constraint => Some(Nature::Constraint),
    }
}

fn url_in(alloc: Global, value: &Value) -> Result<BaseUrl, BodyFault>
    ensures { Gives result (text_in url_fault (view value.now)) }
{
    let Some(text) = value.as_str() else {
        return Err(BodyFault::Malformed);
    };
    match BaseUrl::read(alloc, text) {
        Ok(url) => Ok(url),
        Err(IdFault::Memory) => Err(BodyFault::Memory),
        Err(IdFault::Length) => Err(BodyFault::Malformed),
        Err(IdFault::Form) => Err(BodyFault::Malformed),
    }
}

/// Returns the base URL of a USS.
#[tactic(auto, unfolding(crate::specs::Put::url_of))]
pub(crate) fn url_of(alloc: Global, value: &Value) -> Result<BaseUrl, BodyFault>
    ensures { Gives result (url_of (view value.now)) }
{
    match member(value, "uss_base_url") {
        Some(found) => url_in(alloc, found),
        None => Err(BodyFault::Malformed),
    }
}

/// Returns the put of an entity of the kind.
#[tactic(auto, unfolding(crate::specs::Put::put_of))]
pub(crate) fn put_of(alloc: Global, kind: Kind, value: &Value) -> Result<Put, BodyFault>
    ensures { Gives result (put_of kind (view value.now)) }
{
    let Some(nature) = nature_of(kind, value) else {
        return Err(BodyFault::Malformed);
    };
    let volumes = volumes_of(alloc, value)?;
    let key = key_of(alloc, kind, value)?;
    let url = url_of(alloc, value)?;
    Ok(Put {
        nature,
        volumes,
        key,
        url,
    })
}
