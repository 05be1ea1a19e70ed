//! Entities that a put needs to know, and those that its key lacks.
ghost use Rattle.std.specs.Prelude.{◌≡◌, ◌<◌, [], IfOk, List, Some, length, map};
ghost use Rattle.std.specs.List.{All, filter_map, slice_get};
ghost use Rattle.grid_core.specs.Extent.{region_of};
ghost use Rattle.entity_core.specs.Airspace.{Airspace};
ghost use Rattle.entity_core.specs.Entity.{subscription_of};
ghost use Rattle.entity_core.specs.declared.entity.Entity.{Entity};
ghost use Rattle.policy_core.specs.Missing.{put_needs, is_for_constraints, excepted, needs_constraints, missing_from, unspared};
ghost use Rattle.policy_core.specs.View.{view_of};
ghost use Rattle.space_core.specs.Met.{met_of};
ghost use Rattle.service_step.specs.Looks.{LooksUp};
ghost use Rattle.service_step.specs.Needed.{ArePresent, IsNeededFor, IsPaired, manager_has};

use crate::call_fault::CallFault;
use crate::look_up::find_meeting;
use entity_core::availability::Availability;
use entity_core::entity::Entity;
use entity_core::entity_id::EntityId;
use entity_core::nature::Kind;
use entity_core::ovn::Ovn;
use entity_core::subscription::Sub;
use entity_core::uss_id::UssId;
use grid_core::volume::Area;
use policy_core::call::Put;
use policy_core::missing::{missing, needs_key, spared};
use policy_core::reference::{References, view};
use policy_core::scope::{Caller, Scope};
use space_core::met::Met;
use space_core::space::Space;
use std::alloc::{AllocError, Global};

/// A put that is evaluated: its id, its caller, and the subscription that it references, if that
/// one exists.
#[derive(Clone, Copy)]
pub struct EvaluatedPut<'c> {
    pub id: EntityId,
    pub put: &'c Put,
    pub sub: &'c Option<Sub>,
    pub caller: &'c Caller,
}

/// The entities that a put needs to know, in order, and the current availability of the manager of
/// each, at the same index.
#[derive(Debug, Drop)]
pub struct Needed {
    pub entities: Vec<Entity>,
    pub availabilities: Vec<Availability>,
}

impl Needed {
    fn nothing(alloc: Global) -> Needed
        ensures entities { result.entities.items ≡ [] }
        ensures availabilities { result.availabilities.items ≡ [] }
    {
        Needed {
            entities: Vec::new(alloc),
            availabilities: Vec::new(alloc),
        }
    }
}

fn is_for_constraints(sub: &Option<Sub>) -> bool
    ensures { result ≡ is_for_constraints sub.now }
{
    match sub {
        Some(sub) => sub.interest.wants(Kind::Constraint),
        None => false,
    }
}

// Returns true if the put needs to know constraints. The referenced subscription decides; without a
// reference, the caller's scopes decide.
fn needs_constraints(caller: &Caller, put: &Put, sub: &Option<Sub>) -> bool
    ensures { result ≡ needs_constraints (Some caller.now) (subscription_of put.now.nature)
        sub.now }
{
    match put.nature.subscription() {
        Some(_) => is_for_constraints(sub),
        None => caller.scopes.has(Scope::ConstraintProcessing),
    }
}

// Returns true if the put needs to know entities of the kind.
fn put_needs(kind: Kind, caller: &Caller, put: &Put, sub: &Option<Sub>) -> bool
    ensures { result ≡ put_needs kind (Some caller.now) put.now sub.now }
{
    match kind {
        Kind::Intent => needs_key(put.nature),
        Kind::Constraint => needs_key(put.nature) && needs_constraints(caller, put, sub),
    }
}

// Returns the id to leave out of the entities of a kind.
fn excepted(kind: Kind, id: EntityId) -> Option<EntityId>
    ensures { result ≡ excepted kind id }
{
    match kind {
        Kind::Intent => Some(id),
        Kind::Constraint => None,
    }
}

// Returns the met entities that are not spared, in the same order.
fn unspared(alloc: Global, met: Vec<Met>) -> Result<Needed, AllocError>
    ensures paired { IfOk result IsPaired }
    ensures needed { IfOk result (λ needed. (a : Airspace) (es : List Entity)
        → met.items ≡ map (met_of a) es
        → (needed.entities.items ≡ unspared a es) × ArePresent a needed) }
{
    let mut entities = Vec::new(alloc);
    let mut availabilities = Vec::new(alloc);
    for found in met {
        let Met {
            entity,
            availability,
        } = found;
        if !spared(&entity, availability) {
            entities.push(entity)?;
            availabilities.push(availability)?;
        }
    }
    Ok(Needed {
        entities,
        availabilities,
    })
}

/// Returns the entities of a kind that a put needs to know, ordered by id.
///
/// `areas` must be the areas of the put's volumes.
pub fn needed_with<S: Space>(
    space: &mut S,
    alloc: Global,
    kind: Kind,
    evaluated: &EvaluatedPut<'_>,
    areas: &[Area],
) -> Result<Needed, CallFault>
    requires areas { areas.now ≡ map region_of evaluated.now.put.now.volumes }
    ensures looks { LooksUp S.Space space.old space.new result (IsNeededFor kind evaluated.now) }
    ensures paired { IfOk result IsPaired }
{
    if !put_needs(kind, evaluated.caller, evaluated.put, evaluated.sub) {
        return Ok(Needed::nothing(alloc));
    }
    let met = find_meeting(space, kind, areas, excepted(kind, evaluated.id))?;
    Ok(unspared(alloc, met)?)
}

// Returns the references of the entities at some indexes, given the availabilities of the managers.
fn references_at(
    alloc: Global,
    uss: &UssId,
    entities: &[Entity],
    availabilities: &[Availability],
    places: &[usize],
) -> Result<References, AllocError>
    requires places { All (λ i. i < length entities.now) places.now }
    requires paired { length availabilities.now ≡ length entities.now }
    ensures { IfOk result (λ references. (a : Airspace)
        → availabilities.now ≡ map (manager_has a) entities.now
        → references ≡ map (view_of a uss.now)
        (filter_map (slice_get entities.now) places.now)) }
{
    let mut items = Vec::new(alloc);
    for place in places {
        let availability = availabilities[*place];
        items.push(view(uss, &entities[*place], availability)?)?;
    }
    Ok(References::from_vec(items))
}

/// Returns the references of the needed entities whose OVN is not in a key, in the same order.
///
/// They are the references that the USS sees if the managers have these availabilities.
pub fn missing_from(
    alloc: Global,
    uss: &UssId,
    key: &[Ovn],
    needed: &Needed,
) -> Result<References, AllocError>
    requires { IsPaired needed.now }
    ensures { IfOk result (λ references. (a : Airspace) → ArePresent a needed.now
        → references ≡ map (view_of a uss.now)
        (missing_from key.now needed.now.entities.items)) }
{
    let places = missing(alloc, key, &needed.entities)?;
    references_at(
        alloc,
        uss,
        &needed.entities,
        &needed.availabilities,
        &places,
    )
}
