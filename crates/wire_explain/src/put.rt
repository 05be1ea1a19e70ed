//! The bodies of each kind of operation.
use crate::extent::{Extent, check_count, check_extent, check_volumes};
use crate::members::{is_object, optional, put_ignored, put_type, required};
use crate::place::Place;
use crate::problem::{JsonType, Problem};
use crate::report::Report;
use crate::texts::{check_id, check_ovn, check_url, text_in};
use entity_core::nature::Kind;
use policy_core::call::OpKind;
use serde_json::Value;
use std::alloc::{AllocError, Global};
use wire_body::availability::availability_named;

const QUERY: [&str; 1] = ["area_of_interest"];

const INTENT: [&str; 5] = ["extents", "key", "state", "subscription_id", "uss_base_url"];

const CONSTRAINT: [&str; 2] = ["extents", "uss_base_url"];

const SUBSCRIPTION: [&str; 4] = [
    "extents",
    "notify_for_constraints",
    "notify_for_operational_intents",
    "uss_base_url",
];

const SETTING: [&str; 2] = ["availability", "old_version"];

const MAX_KEY: usize = 4_096;

const MAX_OLD_VERSION_BYTES: usize = 128;

// Reports what is wrong with the body of a query.
fn check_query(alloc: Global, report: &mut Report, body: &Value) -> Result<(), AllocError> {
    let place = Place::named("area_of_interest");
    if let Some(area) = required(report, place, body, "area_of_interest")? {
        check_extent(alloc, report, place, area, Extent::Area)?;
    }
    put_ignored(alloc, report, None, body, QUERY.as_slice())
}

// Reports what is wrong with the base URL of a put.
fn check_base_url(alloc: Global, report: &mut Report, body: &Value) -> Result<(), AllocError> {
    let place = Place::named("uss_base_url");
    let Some(value) = required(report, place, body, "uss_base_url")? else {
        return Ok(());
    };
    match text_in(report, place, value)? {
        Some(text) => check_url(alloc, report, place, text),
        None => Ok(()),
    }
}

// Reports what is wrong with the state of an intent.
fn check_state(report: &mut Report, body: &Value) -> Result<(), AllocError> {
    let place = Place::named("state");
    let Some(value) = required(report, place, body, "state")? else {
        return Ok(());
    };
    match text_in(report, place, value)? {
        Some("Accepted" | "Activated" | "Nonconforming" | "Contingent") | None => Ok(()),
        Some(_) => report.problem(
            place,
            Problem::NoneOf("Accepted, Activated, Nonconforming, Contingent"),
        ),
    }
}

// Reports what is wrong with the subscription that an intent references.
fn check_reference(report: &mut Report, body: &Value) -> Result<(), AllocError> {
    let place = Place::named("subscription_id");
    let Some(value) = optional(body, "subscription_id") else {
        return Ok(());
    };
    match text_in(report, place, value)? {
        Some(text) => check_id(report, place, text),
        None => Ok(()),
    }
}

// Reports what is wrong with the key of an intent.
fn check_key(alloc: Global, report: &mut Report, body: &Value) -> Result<(), AllocError> {
    let place = Place::named("key");
    let Some(value) = optional(body, "key") else {
        return Ok(());
    };
    let Some(items) = value.as_array() else {
        return put_type(report, place, value, JsonType::Array);
    };
    check_count(report, place, items.len(), 0, MAX_KEY)?;
    for (index, item) in items.iter().enumerate() {
        if let Some(text) = text_in(report, place.item(index), item)? {
            check_ovn(alloc, report, place.item(index), text)?;
        }
    }
    Ok(())
}

// Reports what is wrong with the put of an entity of the kind.
fn check_entity(
    alloc: Global,
    report: &mut Report,
    kind: Kind,
    body: &Value,
) -> Result<(), AllocError> {
    let place = Place::named("extents");
    if let Some(volumes) = required(report, place, body, "extents")? {
        check_volumes(alloc, report, place, volumes)?;
    }
    check_base_url(alloc, report, body)?;
    match kind {
        Kind::Intent => {
            check_state(report, body)?;
            check_key(alloc, report, body)?;
            check_reference(report, body)?;
            put_ignored(alloc, report, None, body, INTENT.as_slice())
        }
        Kind::Constraint => put_ignored(alloc, report, None, body, CONSTRAINT.as_slice()),
    }
}

// Returns a flag of a subscription, if it is right. Reports what is wrong with it.
fn flag_at(report: &mut Report, body: &Value, name: &str) -> Result<Option<bool>, AllocError> {
    let Some(value) = optional(body, name) else {
        return Ok(Some(false));
    };
    let flag = value.as_bool();
    if flag.is_none() {
        put_type(report, Place::named(name), value, JsonType::Boolean)?;
    }
    Ok(flag)
}

// Reports what is wrong with the flags of a subscription.
fn check_flags(report: &mut Report, body: &Value) -> Result<(), AllocError> {
    let name = "notify_for_operational_intents";
    let intents = flag_at(report, body, name)?;
    let constraints = flag_at(report, body, "notify_for_constraints")?;
    match (intents, constraints) {
        (Some(false), Some(false)) => report.problem(Place::named(name), Problem::NoInterest),
        _ => Ok(()),
    }
}

// Reports what is wrong with the put of a subscription.
fn check_subscription(alloc: Global, report: &mut Report, body: &Value) -> Result<(), AllocError> {
    let place = Place::named("extents");
    if let Some(volume) = required(report, place, body, "extents")? {
        check_extent(alloc, report, place, volume, Extent::Volume)?;
    }
    check_base_url(alloc, report, body)?;
    check_flags(report, body)?;
    put_ignored(alloc, report, None, body, SUBSCRIPTION.as_slice())
}

// Reports what is wrong with the new availability of a USS.
fn check_availability(report: &mut Report, body: &Value) -> Result<(), AllocError> {
    let place = Place::named("availability");
    let Some(value) = required(report, place, body, "availability")? else {
        return Ok(());
    };
    let Some(text) = text_in(report, place, value)? else {
        return Ok(());
    };
    if availability_named(text).is_some() {
        return Ok(());
    }
    report.problem(place, Problem::NoneOf("Unknown, Normal, Down"))
}

// Reports what is wrong with the version that a setting replaces.
fn check_old_version(report: &mut Report, body: &Value) -> Result<(), AllocError> {
    let place = Place::named("old_version");
    let Some(value) = optional(body, "old_version") else {
        return Ok(());
    };
    let Some(text) = text_in(report, place, value)? else {
        return Ok(());
    };
    let found = text.len();
    if found <= MAX_OLD_VERSION_BYTES {
        return Ok(());
    }
    report.problem(
        place,
        Problem::Bytes {
            found,
            min: 0,
            max: MAX_OLD_VERSION_BYTES,
        },
    )
}

// Reports what is wrong with the setting of an availability.
fn check_setting(alloc: Global, report: &mut Report, body: &Value) -> Result<(), AllocError> {
    check_availability(report, body)?;
    check_old_version(report, body)?;
    put_ignored(alloc, report, None, body, SETTING.as_slice())
}

/// Reports what is wrong with a body, for an operation of this kind, and which members are ignored.
pub(crate) fn check_body(
    alloc: Global,
    report: &mut Report,
    kind: OpKind,
    body: &Value,
) -> Result<(), AllocError> {
    if !is_object(report, Place::body(), body)? {
        return Ok(());
    }
    match kind {
        OpKind::Query(_) | OpKind::QuerySub => check_query(alloc, report, body),
        OpKind::Create(kind) | OpKind::Update(kind) => check_entity(alloc, report, kind, body),
        OpKind::SetAvail => check_setting(alloc, report, body),
        OpKind::CreateSub | OpKind::UpdateSub => check_subscription(alloc, report, body),
        OpKind::Read(_)
        | OpKind::Delete(_)
        | OpKind::ReadAvail
        | OpKind::ReadSub
        | OpKind::DeleteSub => Ok(()),
    }
}
