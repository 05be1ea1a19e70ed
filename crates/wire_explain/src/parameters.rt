//! The parameters of a path.
use crate::place::Place;
use crate::report::Report;
use crate::texts::{check_id, check_ovn, check_put_id, check_uss};
use policy_core::call::OpKind;
use std::alloc::{AllocError, Global};
use wire_body::body::PathWords;

// Reports what is wrong with the second parameter: an OVN, or a version of a subscription.
fn check_second(
    alloc: Global,
    report: &mut Report,
    name: &str,
    words: &PathWords<'_>,
) -> Result<(), AllocError> {
    match words.second {
        Some(text) => check_ovn(alloc, report, Place::named(name), text),
        None => Ok(()),
    }
}

/// Reports what is wrong with the parameters of a path, for an operation of this kind.
pub(crate) fn check_parameters(
    alloc: Global,
    report: &mut Report,
    kind: OpKind,
    words: &PathWords<'_>,
) -> Result<(), AllocError> {
    let entity = Place::named("{entityid}");
    let subscription = Place::named("{subscriptionid}");
    match kind {
        OpKind::Query(_) | OpKind::QuerySub => Ok(()),
        OpKind::Read(_) | OpKind::Create(_) => check_id(report, entity, words.first),
        OpKind::Update(_) | OpKind::Delete(_) => {
            check_id(report, entity, words.first)?;
            check_second(alloc, report, "{ovn}", words)
        }
        OpKind::ReadAvail | OpKind::SetAvail => {
            check_uss(alloc, report, Place::named("{uss_id}"), words.first)
        }
        OpKind::ReadSub => check_id(report, subscription, words.first),
        OpKind::CreateSub => check_put_id(report, subscription, words.first),
        OpKind::UpdateSub => {
            check_put_id(report, subscription, words.first)?;
            check_second(alloc, report, "{version}", words)
        }
        OpKind::DeleteSub => {
            check_id(report, subscription, words.first)?;
            check_second(alloc, report, "{version}", words)
        }
    }
}
