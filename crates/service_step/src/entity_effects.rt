//! Effects of the operations on entities.
ghost use Rattle.std.specs.Prelude.{◌≡◌, ◌+◌, ◌<◌, IfOk, None, map, [], ◌∷◌};
ghost use Rattle.entity_core.specs.Serial.{max_serial};
ghost use Rattle.entity_core.specs.Entity.{max_version};
ghost use Rattle.entity_core.specs.Search.{meeting_in, subscribers_in};
ghost use Rattle.policy_core.specs.View.{view_of};
ghost use Rattle.service_step.specs.Looks.{Announces, CanNotifyAll, IsReading, LooksUp, PutsEntity};
ghost use Rattle.service_notify.specs.Notices.{notices_in, notified_in, touched};
ghost use Rattle.service_step.specs.Step.{created, stored_as, updated};

use crate::call_fault::CallFault;
use crate::look_up::{find_meeting, find_subscribers, reference, references};
use crate::prepared::Prepared;
use crate::reply::Answer;
use entity_core::entity::Entity;
use entity_core::entity_id::EntityId;
use entity_core::nature::Kind;
use entity_core::ovn::ovn_of;
use entity_core::salt::Salt;
use entity_core::serial::Serial;
use entity_core::subscription::Sub;
use entity_core::uss_id::UssId;
use entity_core::version::Version;
use grid_core::volume::Area;
use grid_core::volumes::Volumes;
use policy_core::call::Put;
use policy_core::sub_view::EntityIds;
use service_notify::notice::{Notices, notices_of, notify_each, sub_ids};
use space_core::space::{Change, Space};
use std::alloc::{AllocError, Global};
use std::slice::from_ref;

/// Returns the serial of the next change. It is `serial + 1` if `serial` is below its maximum.
pub fn next_serial(serial: u64) -> Serial
    ensures { serial < max_serial → result ≡ serial + 1 }
{
    match Serial::next_after(serial) {
        Some(next) => next,
        None => Serial::max(),
    }
}

/// Returns the version after an update. It is `version + 1` if `version` is below its maximum.
pub fn next_version(version: Version) -> Version
    ensures { version < max_version → result ≡ version + 1 }
{
    match version.next() {
        Some(next) => next,
        None => version,
    }
}

// Returns the entity that a put stores.
fn entity_of(
    alloc: Global,
    salt: &Salt,
    serial: Serial,
    manager: &UssId,
    version: Version,
    id: EntityId,
    put: &Put,
) -> Result<Entity, AllocError>
    ensures { IfOk result (λ entity. entity
        ≡ stored_as salt.now serial manager.now version id put.now) }
{
    Ok(Entity {
        nature: put.nature,
        id,
        manager: manager.clone()?,
        version,
        serial,
        ovn: ovn_of(alloc, salt, serial.number())?,
        volumes: put.volumes.clone()?,
        url: put.url.clone()?,
    })
}

/// Prepares the answer with the references of the entities that meet an area.
pub fn prepare_query<S: Space>(
    space: &mut S,
    alloc: Global,
    uss: &UssId,
    kind: Kind,
    area: &Area,
) -> Result<Prepared, CallFault>
    ensures { LooksUp S.Space space.old space.new result
        (λ a. IsReading (Answer.Listed kind
        (map (view_of a uss.now) (meeting_in a.entities kind (area.now ∷ []) None)))) }
{
    let met = find_meeting(space, kind, from_ref(area), None)?;
    let shown = references(alloc, uss, &met)?;
    Ok(Prepared::read_only(alloc, Answer::Listed(kind, shown)))
}

/// Prepares the answer with the reference of an entity.
pub fn prepare_read<S: Space>(
    space: &mut S,
    alloc: Global,
    uss: &UssId,
    entity: &Entity,
) -> Result<Prepared, CallFault>
    ensures { LooksUp S.Space space.old space.new result
        (λ a. IsReading (Answer.Found (view_of a uss.now entity.now))) }
{
    let shown = reference(space, uss, entity)?;
    Ok(Prepared::read_only(alloc, Answer::Found(shown)))
}

// Returns the subscriptions that a change of these areas notifies, with their new indexes.
fn look_notified<S: Space>(space: &mut S, kind: Kind, areas: &[Area]) -> Result<Vec<Sub>, CallFault>
    ensures { LooksUp S.Space space.old space.new result (λ a found.
        CanNotifyAll a kind areas.now → found.items ≡ notified_in a kind areas.now) }
{
    let mut subs = find_subscribers(space, kind, areas)?;
    notify_each(subs.as_mut_slice());
    Ok(subs)
}

// Returns the ids of the subscriptions to notify, and their notices.
fn notify_subscribers<S: Space>(
    space: &mut S,
    alloc: Global,
    kind: Kind,
    areas: &[Area],
) -> Result<(EntityIds, Notices), CallFault>
    ensures { LooksUp S.Space space.old space.new result (λ a told. CanNotifyAll a kind areas.now
        → (told.0 ≡ map (λ s. s.id) (subscribers_in a.subscriptions kind areas.now))
        × (told.1 ≡ notices_in a kind areas.now)) }
{
    let subs = look_notified(space, kind, areas)?;
    Ok((sub_ids(alloc, &subs)?, notices_of(alloc, &subs)?))
}

// Returns the areas of the old volumes and of the new ones.
fn touched(alloc: Global, old: &Volumes, new: &Volumes) -> Result<Vec<Area>, AllocError>
    ensures { IfOk result (λ areas. areas.items ≡ touched old.now new.now) }
{
    let mut areas = old.areas(alloc)?;
    areas.append(&mut new.areas(alloc)?)?;
    Ok(areas)
}

/// Prepares the entity of a creation, its reference, and the notices.
pub fn prepare_create<S: Space>(
    space: &mut S,
    alloc: Global,
    salt: &Salt,
    serial: Serial,
    uss: &UssId,
    id: EntityId,
    put: &Put,
) -> Result<Prepared, CallFault>
    ensures { LooksUp S.Space space.old space.new result
        (PutsEntity Answer.Created uss.now [] (created salt.now serial uss.now id put.now)) }
{
    let entity = entity_of(alloc, salt, serial, uss, Version::first(), id, put)?;
    let shown = reference(space, uss, &entity)?;
    let areas = entity.volumes.areas(alloc)?;
    let (notify, told) = notify_subscribers(space, alloc, entity.nature.kind(), &areas)?;
    Ok(Prepared {
        change: Some(Change::Put(entity)),
        notify,
        answer: Answer::Created(shown, told),
    })
}

/// Prepares the entity that an update puts in the place of another one of the USS, its reference,
/// and the notices.
pub fn prepare_update<S: Space>(
    space: &mut S,
    alloc: Global,
    salt: &Salt,
    serial: Serial,
    uss: &UssId,
    id: EntityId,
    put: &Put,
    old: &Entity,
) -> Result<Prepared, CallFault>
    ensures { LooksUp S.Space space.old space.new result
        (λ a made. old.now.version < max_version
        → PutsEntity Answer.Changed uss.now old.now.volumes
        (updated salt.now serial id put.now old.now) a made) }
{
    let version = next_version(old.version);
    let entity = entity_of(alloc, salt, serial, &old.manager, version, id, put)?;
    let shown = reference(space, uss, &entity)?;
    let areas = touched(alloc, &old.volumes, &entity.volumes)?;
    let (notify, told) = notify_subscribers(space, alloc, entity.nature.kind(), &areas)?;
    Ok(Prepared {
        change: Some(Change::Put(entity)),
        notify,
        answer: Answer::Changed(shown, told),
    })
}

/// Prepares the removal of an entity, its last reference, and the notices.
pub fn prepare_delete<S: Space>(
    space: &mut S,
    alloc: Global,
    uss: &UssId,
    kind: Kind,
    id: EntityId,
    entity: &Entity,
) -> Result<Prepared, CallFault>
    ensures { LooksUp S.Space space.old space.new result
        (λ a made. Announces kind (touched entity.now.volumes []) (Change.Remove kind id)
        (Answer.Changed (view_of a uss.now entity.now)) a made) }
{
    let shown = reference(space, uss, entity)?;
    let areas = entity.volumes.areas(alloc)?;
    let (notify, told) = notify_subscribers(space, alloc, kind, &areas)?;
    Ok(Prepared {
        change: Some(Change::Remove(kind, id)),
        notify,
        answer: Answer::Changed(shown, told),
    })
}
