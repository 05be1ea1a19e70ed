//! Information about a response, for metrics and logs.
ghost use Rattle.std.specs.Prelude.{◌≡◌, Some};
ghost use Rattle.wire_http.specs.RequestInfo.{noted_after, info_for, outcome_of};
ghost use Rattle.wire_http.specs.RequestInfo.{recorded_as, supplier_of, told_as};

use crate::call::RoutedOperation;
use crate::end::End;
use entity_core::entity_id::EntityId;
use entity_core::uss_id::UssId;
use policy_core::call::{Call, OpKind};
use policy_core::rule::Rule;
use policy_core::scope::Caller;
use service_step::reply::Reply;
use wire_head::rule::WireRule;

/// The outcome of a request, as its response says.
#[derive(Clone, Copy, Debug, PartialEq, Eq)]
pub enum Outcome {
    /// The call broke no rule and had its effect.
    Done,
    /// The call broke this rule first.
    Denied(Rule),
    /// The call failed: memory ran out, or the space failed.
    Fault,
    /// The service has stopped.
    Stopped,
    /// The request broke this protocol rule, and no call was made.
    Wire(WireRule),
}

/// Information about a response. It contains no part of a token, of an OVN or of a body.
#[derive(Debug, Drop)]
pub struct RequestInfo {
    /// The kind of operation of path and method. It is `None` without a route, if the endpoint does
    /// not allow the method, and if no call was made.
    pub operation: Option<OpKind>,
    /// The USS that made the call, if a token identifies it.
    pub supplier: Option<UssId>,
    /// The id of the entity or subscription in the path, if it has the form of one.
    pub entity: Option<EntityId>,
    /// The outcome of the request.
    pub outcome: Outcome,
}

/// Returns the outcome of a reply.
pub(crate) fn outcome_of(reply: &Reply) -> Outcome
    ensures { result ≡ outcome_of reply.now }
{
    match reply {
        Reply::Done(_) => Outcome::Done,
        Reply::Denied(rule, _) => Outcome::Denied(*rule),
        Reply::Fault => Outcome::Fault,
        Reply::Stopped => Outcome::Stopped,
    }
}

/// Returns the USS of a caller.
pub(crate) fn supplier_of(call: Call) -> Option<UssId>
    ensures { result ≡ supplier_of call }
{
    let Call { caller, op: _ } = call;
    match caller {
        Some(Caller { uss, scopes: _ }) => Some(uss),
        None => None,
    }
}

/// Returns the information about a routed operation with this outcome.
pub(crate) fn info_of(routed: RoutedOperation, outcome: Outcome) -> RequestInfo
    ensures { result ≡ info_for routed.kind routed.call routed.entity outcome }
{
    let RoutedOperation {
        endpoint: _,
        kind,
        entity,
        call,
    } = routed;
    RequestInfo {
        operation: kind,
        supplier: supplier_of(call),
        entity,
        outcome,
    }
}

/// Records how a stream ended, if a response says so.
pub(crate) fn record_end(noted: &mut Option<RequestInfo>, end: End)
    ensures { noted.new ≡ noted_after end noted.old }
{
    if let End::Wire(rule) = end {
        *noted = Some(RequestInfo {
            operation: None,
            supplier: None,
            entity: None,
            outcome: Outcome::Wire(rule),
        });
    }
}

/// Records that the request has this outcome instead of another.
pub(crate) fn record_outcome(noted: &mut Option<RequestInfo>, outcome: Outcome)
    ensures { noted.new ≡ recorded_as outcome noted.old }
{
    if let Some(noted) = noted {
        noted.outcome = outcome;
    }
}

/// Records that this reply is delivered instead of another.
pub(crate) fn record_reply(noted: &mut Option<RequestInfo>, reply: &Reply)
    ensures { noted.new ≡ told_as reply.now noted.old }
{
    record_outcome(noted, outcome_of(reply));
}
