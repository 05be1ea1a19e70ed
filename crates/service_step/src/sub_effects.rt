//! Effects of the operations on subscriptions.
ghost use Rattle.std.specs.Prelude.{◌≡◌, IfOk, None, map, [], ◌∷◌};
ghost use Rattle.entity_core.specs.declared.nature.Kind.TheVariants as kinds;
ghost use Rattle.entity_core.specs.Search.{dependents_in, meeting_in, subscriptions_in};
ghost use Rattle.grid_core.specs.Extent.{region_of};
ghost use Rattle.policy_core.specs.View.{view_of};
ghost use Rattle.service_step.specs.Looks.{IsReading, NotifiesNobody, LooksUp, PutsSub};
ghost use Rattle.service_step.specs.Step.{seen_of, seen_sub, sub_stored_as};

use crate::call_fault::CallFault;
use crate::look_up::{find_meeting, references};
use crate::prepared::Prepared;
use crate::reply::Answer;
use entity_core::entity_id::EntityId;
use entity_core::nature::Kind;
use entity_core::notification_index::NotificationIndex;
use entity_core::ovn::ovn_of;
use entity_core::salt::Salt;
use entity_core::serial::Serial;
use entity_core::subscription::Sub;
use entity_core::uss_id::UssId;
use grid_core::volume::Area;
use policy_core::call::SubPut;
use policy_core::reference::References;
use policy_core::sub_view::{SubView, SubViews, sub_view};
use space_core::space::{Change, Space};
use std::alloc::{AllocError, Global};
use std::slice::from_ref;

// Returns the subscription that a put stores.
fn sub_of(
    alloc: Global,
    salt: &Salt,
    serial: Serial,
    manager: &UssId,
    index: NotificationIndex,
    id: EntityId,
    put: &SubPut,
) -> Result<Sub, AllocError>
    ensures { IfOk result (λ sub. sub ≡ sub_stored_as salt.now serial manager.now index id
        put.now) }
{
    Ok(Sub {
        id,
        manager: manager.clone()?,
        version: ovn_of(alloc, salt, serial.number())?,
        serial,
        index,
        volume: put.volume.clone()?,
        url: put.url.clone()?,
        interest: put.interest,
    })
}

fn look_dependents<S: Space>(space: &mut S, id: EntityId) -> Result<Vec<EntityId>, CallFault>
    ensures { LooksUp S.Space space.old space.new result
        (λ a found. found.items ≡ dependents_in a.entities id) }
{
    Ok(space.dependents(id)?)
}

// Returns the view of a subscription with its current dependents.
fn seen_sub<S: Space>(space: &mut S, alloc: Global, sub: &Sub) -> Result<SubView, CallFault>
    ensures { LooksUp S.Space space.old space.new result (λ a view. view ≡ seen_sub a sub.now) }
{
    let dependents = look_dependents(space, sub.id)?;
    Ok(sub_view(alloc, sub, &dependents)?)
}

fn sub_views_of<S: Space>(space: &mut S, alloc: Global, subs: &[Sub]) -> Result<SubViews, CallFault>
    ensures { LooksUp S.Space space.old space.new result
        (λ a views. views ≡ map (seen_sub a) subs.now) }
{
    let mut items = Vec::new(alloc);
    for sub in subs {
        items.push(seen_sub(space, alloc, sub)?)?;
    }
    Ok(SubViews::from_vec(items))
}

// Returns the references of the entities of a kind that meet the volume of a subscription.
fn near<S: Space>(
    space: &mut S,
    alloc: Global,
    kind: Kind,
    uss: &UssId,
    sub: &Sub,
) -> Result<References, CallFault>
    ensures { LooksUp S.Space space.old space.new result (λ a references. references
        ≡ map (view_of a uss.now)
        (meeting_in a.entities kind (region_of sub.now.volume ∷ []) None)) }
{
    let area = sub.volume.as_area()?;
    let met = find_meeting(space, kind, from_ref(&area), None)?;
    Ok(references(alloc, uss, &met)?)
}

// Returns the references of the entities of a kind that a subscription is for.
fn seen_of<S: Space>(
    space: &mut S,
    alloc: Global,
    kind: Kind,
    uss: &UssId,
    sub: &Sub,
) -> Result<References, CallFault>
    ensures { LooksUp S.Space space.old space.new result
        (λ a references. references ≡ seen_of kind a uss.now sub.now) }
{
    if !sub.interest.wants(kind) {
        return Ok(References::new(alloc));
    }
    near(space, alloc, kind, uss, sub)
}

// Returns the answer to a subscription's put: its view, and the references of what it is for.
fn store_sub<S: Space>(
    space: &mut S,
    alloc: Global,
    uss: &UssId,
    sub: &Sub,
) -> Result<Answer, CallFault>
    ensures { LooksUp S.Space space.old space.new result (λ a answer. answer
        ≡ Answer.SubStored (seen_sub a sub.now)
        (seen_of kinds.Intent a uss.now sub.now) (seen_of kinds.Constraint a uss.now sub.now)) }
{
    let view = seen_sub(space, alloc, sub)?;
    let intents = seen_of(space, alloc, Kind::Intent, uss, sub)?;
    let constraints = seen_of(space, alloc, Kind::Constraint, uss, sub)?;
    Ok(Answer::SubStored(view, intents, constraints))
}

fn look_own<S: Space>(space: &mut S, uss: &UssId, area: &Area) -> Result<Vec<Sub>, CallFault>
    ensures { LooksUp S.Space space.old space.new result
        (λ a found. found.items ≡ subscriptions_in a.subscriptions uss.now area.now) }
{
    Ok(space.subscriptions_of(uss, area)?)
}

/// Prepares the answer with the subscriptions of a USS that meet an area.
pub fn prepare_query_subs<S: Space>(
    space: &mut S,
    alloc: Global,
    uss: &UssId,
    area: &Area,
) -> Result<Prepared, CallFault>
    ensures { LooksUp S.Space space.old space.new result
        (λ a. IsReading (Answer.SubListed
        (map (seen_sub a) (subscriptions_in a.subscriptions uss.now area.now)))) }
{
    let own = look_own(space, uss, area)?;
    let shown = sub_views_of(space, alloc, &own)?;
    Ok(Prepared::read_only(alloc, Answer::SubListed(shown)))
}

/// Prepares the answer with the view of a subscription.
pub fn prepare_read_sub<S: Space>(
    space: &mut S,
    alloc: Global,
    sub: &Sub,
) -> Result<Prepared, CallFault>
    ensures { LooksUp S.Space space.old space.new result
        (λ a. IsReading (Answer.SubFound (seen_sub a sub.now))) }
{
    let shown = seen_sub(space, alloc, sub)?;
    Ok(Prepared::read_only(alloc, Answer::SubFound(shown)))
}

// Prepares the change that puts a subscription, and its answer.
fn sub_put<S: Space>(
    space: &mut S,
    alloc: Global,
    uss: &UssId,
    sub: Sub,
) -> Result<Prepared, CallFault>
    ensures { LooksUp S.Space space.old space.new result (λ a made. PutsSub sub a uss.now made) }
{
    let answer = store_sub(space, alloc, uss, &sub)?;
    Ok(Prepared::without_notices(alloc, Change::PutSub(sub), answer))
}

/// Prepares the creation of a subscription, and its answer.
pub fn prepare_create_sub<S: Space>(
    space: &mut S,
    alloc: Global,
    salt: &Salt,
    serial: Serial,
    uss: &UssId,
    id: EntityId,
    put: &SubPut,
) -> Result<Prepared, CallFault>
    ensures { LooksUp S.Space space.old space.new result
        (λ a made. PutsSub (sub_stored_as salt.now serial uss.now 0 id put.now) a uss.now made) }
{
    let sub = sub_of(alloc, salt, serial, uss, NotificationIndex::zero(), id, put)?;
    sub_put(space, alloc, uss, sub)
}

/// Prepares the update of a subscription of the USS, and its answer.
pub fn prepare_update_sub<S: Space>(
    space: &mut S,
    alloc: Global,
    salt: &Salt,
    serial: Serial,
    uss: &UssId,
    id: EntityId,
    put: &SubPut,
    old: &Sub,
) -> Result<Prepared, CallFault>
    ensures { LooksUp S.Space space.old space.new result
        (λ a made. PutsSub (sub_stored_as salt.now serial old.now.manager old.now.index id put.now)
        a uss.now made) }
{
    let sub = sub_of(alloc, salt, serial, &old.manager, old.index, id, put)?;
    sub_put(space, alloc, uss, sub)
}

/// Prepares the removal of a subscription, and the answer with its last view.
pub fn prepare_delete_sub<S: Space>(
    space: &mut S,
    alloc: Global,
    id: EntityId,
    sub: &Sub,
) -> Result<Prepared, CallFault>
    ensures { LooksUp S.Space space.old space.new result
        (λ a. NotifiesNobody (Change.RemoveSub id) (Answer.SubFound (seen_sub a sub.now))) }
{
    let shown = seen_sub(space, alloc, sub)?;
    Ok(Prepared::without_notices(alloc, Change::RemoveSub(id), Answer::SubFound(shown)))
}
