//! Lookups in a space, before a call is evaluated and its answer prepared.
ghost use Rattle.std.specs.Prelude.{◌≡◌, ◌≢◌, Err, IfOk, IsErrOf, true, List, map, unwrap_or, []};
ghost use Rattle.std.specs.FinMap.{get};
ghost use Rattle.entity_core.specs.Airspace.{Airspace, availability_of};
ghost use Rattle.entity_core.specs.Search.{subscribers_in};
ghost use Rattle.entity_core.specs.declared.entity.Entity.{Entity};
ghost use Rattle.policy_core.specs.Call.{subject_of};
ghost use Rattle.policy_core.specs.Standing.{depended_of, found_of, is_some_of, stated_of, lent_entity, lent_facts, lent_stated, lent_sub, sub_under};
ghost use Rattle.policy_core.specs.View.{view_of};
ghost use Rattle.space_core.specs.Met.{met_in, met_of};
ghost use Rattle.service_step.specs.Looks.{LooksUp, AreFacts, facts_in};

use crate::call_fault::CallFault;
use entity_core::availability::Availability;
use entity_core::entity::Entity;
use entity_core::entity_id::EntityId;
use entity_core::nature::Kind;
use entity_core::ovn::Ovn;
use entity_core::subscription::Sub;
use entity_core::uss_id::UssId;
use grid_core::volume::Area;
use policy_core::call::Operation;
use policy_core::reference::{Reference, References, view};
use policy_core::standing::FactsRef;
use space_core::met::Met;
use space_core::space::{Space, SpaceFault};
use std::alloc::{AllocError, Global};

/// The facts that were looked up for an operation.
#[derive(Debug, Drop)]
pub struct OwnedFacts {
    pub found: Option<Entity>,
    pub stated: Option<(Availability, Ovn)>,
    pub serial: u64,
    pub sub: Option<Sub>,
    pub depended: bool,
}

impl OwnedFacts {
    /// Returns the facts, borrowed.
    pub fn lent(&self) -> FactsRef<'_>
        ensures { lent_facts result ≡ facts_in self.now }
    {
        FactsRef {
            found: self.entity(),
            stated: self.stated(),
            serial: self.serial,
            sub: self.subscription(),
            depended: self.depended,
        }
    }

    fn entity(&self) -> Option<&Entity>
        ensures { lent_entity result ≡ self.now.found }
    {
        match &self.found {
            Some(entity) => Some(entity),
            None => None,
        }
    }

    fn stated(&self) -> Option<(Availability, &Ovn)>
        ensures { lent_stated result ≡ self.now.stated }
    {
        match &self.stated {
            Some((availability, version)) => Some((*availability, version)),
            None => None,
        }
    }

    fn subscription(&self) -> Option<&Sub>
        ensures { lent_sub result ≡ self.now.sub }
    {
        match &self.sub {
            Some(sub) => Some(sub),
            None => None,
        }
    }
}

fn look_found<S: Space>(space: &mut S, op: &Operation) -> Result<Option<Entity>, CallFault>
    ensures looks { LooksUp S.Space space.old space.new result
        (λ a found. found ≡ found_of a op.now) }
    ensures memory { result ≢ Err CallFault.NoMemory }
{
    match op {
        Operation::Read(kind, id) => Ok(space.entity(*kind, *id)?),
        Operation::Create(id, put) => Ok(space.entity(put.nature.kind(), *id)?),
        Operation::Update(id, _, put) => Ok(space.entity(put.nature.kind(), *id)?),
        Operation::Delete(kind, id, _) => Ok(space.entity(*kind, *id)?),
        _ => Ok(None),
    }
}

fn look_stated<S: Space>(
    space: &mut S,
    op: &Operation,
) -> Result<Option<(Availability, Ovn)>, CallFault>
    ensures looks { LooksUp S.Space space.old space.new result
        (λ a stated. stated ≡ stated_of a op.now) }
    ensures memory { result ≢ Err CallFault.NoMemory }
{
    match op {
        Operation::ReadAvail(uss) => Ok(space.availability(uss)?),
        Operation::SetAvail(uss, _, _) => Ok(space.availability(uss)?),
        _ => Ok(None),
    }
}

fn look_serial<S: Space>(space: &mut S) -> Result<u64, CallFault>
    ensures looks { LooksUp S.Space space.old space.new result (λ a serial. serial ≡ a.serial) }
    ensures memory { result ≢ Err CallFault.NoMemory }
    ensures broken { S.is_broken space.old ≡ true
        → IsErrOf result (CallFault.Space SpaceFault.Broken) }
{
    Ok(space.serial()?)
}

fn subject_of(op: &Operation) -> Option<EntityId>
    ensures { result ≡ subject_of op.now }
{
    match op {
        Operation::ReadSub(id) => Some(*id),
        Operation::CreateSub(id, _) => Some(*id),
        Operation::UpdateSub(id, _, _) => Some(*id),
        Operation::DeleteSub(id, _) => Some(*id),
        Operation::Create(_, put) => put.nature.subscription(),
        Operation::Update(_, _, put) => put.nature.subscription(),
        _ => None,
    }
}

fn look_sub<S: Space>(space: &mut S, named: Option<EntityId>) -> Result<Option<Sub>, CallFault>
    ensures looks { LooksUp S.Space space.old space.new result (λ a sub. sub ≡ sub_under a named) }
    ensures memory { result ≢ Err CallFault.NoMemory }
{
    match named {
        Some(id) => Ok(space.subscription(id)?),
        None => Ok(None),
    }
}

fn are_some(ids: &[EntityId]) -> bool
    ensures { result ≡ is_some_of ids.now }
{
    !ids.is_empty()
}

fn look_depended<S: Space>(space: &mut S, op: &Operation) -> Result<bool, CallFault>
    ensures looks { LooksUp S.Space space.old space.new result
        (λ a depended. depended ≡ depended_of a op.now) }
    ensures memory { result ≢ Err CallFault.NoMemory }
{
    match op {
        Operation::DeleteSub(id, _) => {
            let dependents = space.dependents(*id)?;
            Ok(are_some(&dependents))
        }
        _ => Ok(false),
    }
}

/// Looks up the facts that the rules and the effect of an operation need.
///
/// Allocates nothing itself. Reads the serial first, so that a broken space is reported at once.
pub fn look_up<S: Space>(space: &mut S, op: &Operation) -> Result<OwnedFacts, CallFault>
    ensures looks { LooksUp S.Space space.old space.new result (AreFacts op.now) }
    ensures memory { result ≢ Err CallFault.NoMemory }
    ensures broken { S.is_broken space.old ≡ true
        → IsErrOf result (CallFault.Space SpaceFault.Broken) }
{
    let serial = look_serial(space)?;
    let found = look_found(space, op)?;
    let stated = look_stated(space, op)?;
    let sub = look_sub(space, subject_of(op))?;
    let depended = look_depended(space, op)?;
    Ok(OwnedFacts {
        found,
        stated,
        serial,
        sub,
        depended,
    })
}

/// Returns the entities of a kind that meet one of the areas, ordered by id, each with its
/// manager's availability. Leaves out the entity with the id `except`, if one is given.
pub fn find_meeting<S: Space>(
    space: &mut S,
    kind: Kind,
    areas: &[Area],
    except: Option<EntityId>,
) -> Result<Vec<Met>, CallFault>
    ensures { LooksUp S.Space space.old space.new result
        (λ a found. found.items ≡ met_in a kind areas.now except) }
{
    Ok(space.meeting(kind, areas, except)?)
}

/// Returns the subscriptions that are for a kind and meet one of the areas, ordered by id.
pub fn find_subscribers<S: Space>(
    space: &mut S,
    kind: Kind,
    areas: &[Area],
) -> Result<Vec<Sub>, CallFault>
    ensures { LooksUp S.Space space.old space.new result
        (λ a found. found.items ≡ subscribers_in a.subscriptions kind areas.now) }
{
    Ok(space.subscribers(kind, areas)?)
}

fn availability_in(stated: Option<(Availability, Ovn)>) -> Availability
    ensures { result ≡ (unwrap_or stated (Availability.Unknown, [])).0 }
{
    match stated {
        Some((availability, _)) => availability,
        None => Availability::Unknown,
    }
}

fn look_availability<S: Space>(space: &mut S, uss: &UssId) -> Result<Availability, CallFault>
    ensures { LooksUp S.Space space.old space.new result
        (λ a availability. availability ≡ (availability_of a uss.now).0) }
{
    Ok(availability_in(space.availability(uss)?))
}

/// Returns the reference of an entity as a USS sees it now.
#[tactic(auto, unfolding(policy_core::specs::View::view_of))]
pub fn reference<S: Space>(
    space: &mut S,
    uss: &UssId,
    entity: &Entity,
) -> Result<Reference, CallFault>
    ensures { LooksUp S.Space space.old space.new result
        (λ a reference. reference ≡ view_of a uss.now entity.now) }
{
    let availability = look_availability(space, &entity.manager)?;
    Ok(view(uss, entity, availability)?)
}

/// Returns the references of met entities as a USS sees them, in the same order.
pub fn references(alloc: Global, uss: &UssId, met: &[Met]) -> Result<References, AllocError>
    ensures { IfOk result (λ references. (a : Airspace) (es : List Entity)
        → met.now ≡ map (met_of a) es → references ≡ map (view_of a uss.now) es) }
{
    let mut items = Vec::new(alloc);
    for found in met {
        items.push(view(uss, &found.entity, found.availability)?)?;
    }
    Ok(References::from_vec(items))
}
