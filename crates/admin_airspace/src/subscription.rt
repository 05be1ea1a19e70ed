//! A subscription with its extent, as the admin port shows it.
ghost use Rattle.std.specs.Prelude.{◌≡◌, IfOk};
ghost use Rattle.serde_json.specs.Data.{Data, object};
ghost use Rattle.serde_json.specs.View.{view};
ghost use Rattle.admin_airspace.specs.Page.{sub_members};

use crate::members::put_id;
use crate::volume::volume_json;
use entity_core::availability::Availability;
use entity_core::nature::Kind;
use entity_core::subscription::Sub;
use serde_json::{Map, Value, put};
use std::alloc::{AllocError, Global};
use wire_body::availability::name_of;
use wire_reply::members::{put_flag, put_number, put_text};

// Returns the members of a subscription, with that extent.
fn sub_members_json(
    alloc: Global,
    sub: &Sub,
    availability: Availability,
    extents: Value,
) -> Result<Value, AllocError>
    ensures { IfOk result (λ v.
        view v ≡ object (sub_members sub.now availability (view extents))) }
{
    let (time_start, time_end) = sub.volume.time();
    let mut members = Map::new(alloc);
    put(&mut members, alloc, "extents", extents)?;
    put_id(&mut members, alloc, "id", sub.id)?;
    put_text(&mut members, alloc, "manager", sub.manager.text())?;
    put_number(
        &mut members,
        alloc,
        "notification_index",
        sub.index.number(),
    )?;
    let constraints = sub.interest.wants(Kind::Constraint);
    put_flag(&mut members, alloc, "notify_for_constraints", constraints)?;
    let intents = sub.interest.wants(Kind::Intent);
    put_flag(
        &mut members,
        alloc,
        "notify_for_operational_intents",
        intents,
    )?;
    put_number(&mut members, alloc, "time_end", time_end)?;
    put_number(&mut members, alloc, "time_start", time_start)?;
    put_text(
        &mut members,
        alloc,
        "uss_availability",
        name_of(availability),
    )?;
    put_text(&mut members, alloc, "uss_base_url", sub.url.text())?;
    Ok(Value::from(members))
}

/// Returns a subscription: its extent, its manager, and what its manager sees of it, except its
/// version and the intents that reference it.
pub(crate) fn sub_json(
    alloc: Global,
    sub: &Sub,
    availability: Availability,
) -> Result<Value, AllocError>
    ensures { IfOk result (λ v. (extents : Data)
        × (view v ≡ object (sub_members sub.now availability extents))) }
{
    let extents = volume_json(alloc, &sub.volume)?;
    sub_members_json(alloc, sub, availability, extents)
}
