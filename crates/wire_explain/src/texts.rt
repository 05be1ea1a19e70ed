//! Texts in a request: ids, OVNs, URLs and names.
use crate::members::put_type;
use crate::place::Place;
use crate::problem::{JsonType, Problem};
use crate::report::Report;
use entity_core::base_url::BaseUrl;
use entity_core::entity_id::EntityId;
use entity_core::id_fault::IdFault;
use entity_core::ovn::Ovn;
use entity_core::uss_id::UssId;
use serde_json::Value;
use std::alloc::{AllocError, Global};

// The number of the id that means no subscription.
const ZERO: u128 = 0x4000_8000_0000_0000_0000;

// The form of a text: its length in bytes, and what is wrong if its length is right.
#[derive(Clone, Copy)]
struct Form {
    min: usize,
    max: usize,
    otherwise: Problem<'static>,
}

const OVN: Form = Form {
    min: 16,
    max: 128,
    otherwise: Problem::NotVisible,
};

const URL: Form = Form {
    min: 1,
    max: 255,
    otherwise: Problem::NotVisible,
};

const USS: Form = Form {
    min: 1,
    max: 64,
    otherwise: Problem::NotName,
};

// Reports the fault of a text of this form.
fn put_fault(
    report: &mut Report,
    place: Place<'_>,
    text: &str,
    form: Form,
    fault: IdFault,
) -> Result<(), AllocError> {
    let problem = match fault {
        IdFault::Memory => return Err(AllocError),
        IdFault::Length => Problem::Bytes {
            found: text.len(),
            min: form.min,
            max: form.max,
        },
        IdFault::Form => form.otherwise,
    };
    report.problem(place, problem)
}

/// Returns the text of a string. Reports another type.
pub(crate) fn text_in<'v>(
    report: &mut Report,
    place: Place<'_>,
    value: &'v Value,
) -> Result<Option<&'v str>, AllocError> {
    let Some(text) = value.as_str() else {
        put_type(report, place, value, JsonType::String)?;
        return Ok(None);
    };
    Ok(Some(text))
}

/// Reports the fault of an OVN.
pub(crate) fn check_ovn(
    alloc: Global,
    report: &mut Report,
    place: Place<'_>,
    text: &str,
) -> Result<(), AllocError> {
    match Ovn::read(alloc, text) {
        Ok(_) => Ok(()),
        Err(fault) => put_fault(report, place, text, OVN, fault),
    }
}

/// Reports the fault of a base URL.
pub(crate) fn check_url(
    alloc: Global,
    report: &mut Report,
    place: Place<'_>,
    text: &str,
) -> Result<(), AllocError> {
    match BaseUrl::read(alloc, text) {
        Ok(_) => Ok(()),
        Err(fault) => put_fault(report, place, text, URL, fault),
    }
}

/// Reports the fault of the id of a USS.
pub(crate) fn check_uss(
    alloc: Global,
    report: &mut Report,
    place: Place<'_>,
    text: &str,
) -> Result<(), AllocError> {
    match UssId::read(alloc, text) {
        Ok(_) => Ok(()),
        Err(fault) => put_fault(report, place, text, USS, fault),
    }
}

/// Reports the fault of the id of an entity or a subscription.
pub(crate) fn check_id(
    report: &mut Report,
    place: Place<'_>,
    text: &str,
) -> Result<(), AllocError> {
    match EntityId::read(text) {
        Ok(_) => Ok(()),
        Err(_) => report.problem(place, Problem::NotUuid),
    }
}

/// Reports the fault of the id of a subscription to put, which is not the zero id.
pub(crate) fn check_put_id(
    report: &mut Report,
    place: Place<'_>,
    text: &str,
) -> Result<(), AllocError> {
    match EntityId::read(text) {
        Ok(id) if id.number() == ZERO => report.problem(place, Problem::ZeroId),
        Ok(_) => Ok(()),
        Err(_) => report.problem(place, Problem::NotUuid),
    }
}
