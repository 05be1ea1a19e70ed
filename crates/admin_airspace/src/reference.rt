//! An entity with its extents, as the admin port shows it.
ghost use Rattle.std.specs.Prelude.{◌≡◌, IfOk, codes};
ghost use Rattle.serde_json.specs.View.{view};
ghost use Rattle.wire_reply.specs.Built.{reference_data};
ghost use Rattle.serde_json.specs.Data.{no_members, object, put};
ghost use Rattle.admin_airspace.specs.Reference.{shown_of, IsShownAs};

use crate::members::put_id;
use crate::volume::volumes_json;
use entity_core::availability::Availability;
use entity_core::entity::Entity;
use serde_json::{Map, Value, put};
use std::alloc::{AllocError, Global};
use wire_body::availability::name_of;
use wire_reply::members::{put_number, put_text};
use wire_reply::reference::{put_nature, reference_name};

// Returns the reference, as responses to other USSs represent it.
fn reference_json(
    alloc: Global,
    entity: &Entity,
    availability: Availability,
) -> Result<Value, AllocError>
    ensures { IfOk result (λ v. view v ≡ reference_data (shown_of entity.now availability)) }
{
    let (time_start, time_end) = entity.times();
    let mut members = Map::new(alloc);
    put_id(&mut members, alloc, "id", entity.id)?;
    put_text(&mut members, alloc, "manager", entity.manager.text())?;
    put_nature(&mut members, alloc, entity.nature)?;
    put_number(&mut members, alloc, "time_end", time_end)?;
    put_number(&mut members, alloc, "time_start", time_start)?;
    put_text(
        &mut members,
        alloc,
        "uss_availability",
        name_of(availability),
    )?;
    put_text(&mut members, alloc, "uss_base_url", entity.url.text())?;
    let version = u64::from(entity.version.number());
    put_number(&mut members, alloc, "version", version)?;
    Ok(Value::from(members))
}

// Returns an object of extents and a reference under its name.
fn both_json(
    alloc: Global,
    extents: Value,
    name: &str,
    reference: Value,
) -> Result<Value, AllocError>
    ensures { IfOk result (λ v. view v ≡ object (put name.now (view reference)
        (put (codes "extents") (view extents) no_members))) }
{
    let mut members = Map::new(alloc);
    put(&mut members, alloc, "extents", extents)?;
    put(&mut members, alloc, name, reference)?;
    Ok(Value::from(members))
}

/// Returns an entity: its extents, and its reference under the name of its kind. Neither has its
/// OVN.
pub(crate) fn entity_json(
    alloc: Global,
    entity: &Entity,
    availability: Availability,
) -> Result<Value, AllocError>
    ensures { IfOk result (λ v. IsShownAs entity.now availability (view v)) }
{
    let extents = volumes_json(alloc, entity.volumes.items())?;
    let name = reference_name(entity.nature.kind());
    let reference = reference_json(alloc, entity, availability)?;
    both_json(alloc, extents, name, reference)
}
