//! The members of a JSON object.
use crate::distance::similar;
use crate::place::Place;
use crate::problem::{JsonType, Problem};
use crate::remark::{Remark, advice_for};
use crate::report::Report;
use serde_json::Value;
use std::alloc::{AllocError, Global};

/// Returns the member with this name. A null member counts as absent.
pub(crate) fn optional<'v>(value: &'v Value, name: &str) -> Option<&'v Value> {
    match value.get(name) {
        Some(Value::Null) | None => None,
        Some(found) => Some(found),
    }
}

/// Returns the member with this name. Reports a missing one.
pub(crate) fn required<'v>(
    report: &mut Report,
    place: Place<'_>,
    value: &'v Value,
    name: &str,
) -> Result<Option<&'v Value>, AllocError> {
    match value.get(name) {
        Some(Value::Null) => report.problem(place, Problem::Null)?,
        Some(found) => return Ok(Some(found)),
        None => report.problem(place, Problem::Missing)?,
    }
    Ok(None)
}

/// Returns true if the value is an object. Reports another type.
pub(crate) fn is_object(
    report: &mut Report,
    place: Place<'_>,
    value: &Value,
) -> Result<bool, AllocError> {
    if value.is_object() {
        return Ok(true);
    }
    put_type(report, place, value, JsonType::Object)?;
    Ok(false)
}

/// Reports that a value has another type than this one.
pub(crate) fn put_type(
    report: &mut Report,
    place: Place<'_>,
    value: &Value,
    wanted: JsonType,
) -> Result<(), AllocError> {
    let found = JsonType::of(value);
    report.problem(place, Problem::Type { found, wanted })
}

// Returns the remark about a member that the service ignores.
fn remark_on(alloc: Global, name: &str, known: &[&'static str]) -> Result<Remark, AllocError> {
    if let Some(advice) = advice_for(name) {
        return Ok(Remark::OfStandard(advice));
    }
    Ok(match similar(alloc, name, known)? {
        Some(other) => Remark::Similar(other),
        None => Remark::Unknown,
    })
}

// Returns true if the name is known.
fn is_known(name: &str, known: &[&'static str]) -> bool {
    known.iter().any(|other| *other == name)
}

/// Remarks on each member of an object whose name is not known.
pub(crate) fn put_ignored(
    alloc: Global,
    report: &mut Report,
    place: Option<Place<'_>>,
    value: &Value,
    known: &[&'static str],
) -> Result<(), AllocError> {
    let Some(members) = value.as_object() else {
        return Ok(());
    };
    for (name, _) in members {
        let name = name.as_str();
        if is_known(name, known) {
            continue;
        }
        let place = match place {
            Some(object) => object.member(name),
            None => Place::named(name),
        };
        report.ignore(place)?;
        // a name is compared with others only for a remark that is written
        if report.wants_remark() {
            report.remark(place, remark_on(alloc, name, known)?)?;
        }
    }
    Ok(())
}
