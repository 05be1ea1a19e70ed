//! What the path and the method of a request name.
ghost use Rattle.std.specs.Prelude.{◌≡◌};
ghost use Rattle.wire_http.specs.RequestInfo.{IsEntityNamed, LeadsTo, requested_kind};
ghost use Rattle.wire_http.specs.Received.{IsKindIn, IsNamedIn, IsReceived, LeadsIn};

use crate::call::{Received, entity_named};
use entity_core::entity_id::EntityId;
use policy_core::call::OpKind;
use wire_head::target::path_of;
use wire_route::endpoint::Endpoint;
use wire_route::routes::{Route, Routes};

/// The endpoint of a path, the kind of operation of a method there, and the entity or subscription
/// that they name.
#[derive(Clone, Copy)]
pub(crate) struct RequestTarget {
    pub(crate) endpoint: Option<Endpoint>,
    pub(crate) kind: Option<OpKind>,
    pub(crate) entity: Option<EntityId>,
}

// Returns what a path and a method name.
fn target_at(routes: &Routes, path: &str, method: &[u8]) -> RequestTarget
    ensures leads { LeadsTo path.now result.endpoint }
    ensures kind { result.kind ≡ requested_kind result.endpoint method.now }
    ensures entity { IsEntityNamed path.now method.now result.endpoint result.entity }
{
    let Some(Route { endpoint, words }) = routes.find(path) else {
        return RequestTarget {
            endpoint: None,
            kind: None,
            entity: None,
        };
    };
    let Some(kind) = endpoint.kind(method) else {
        return RequestTarget {
            endpoint: Some(endpoint),
            kind: None,
            entity: None,
        };
    };
    RequestTarget {
        endpoint: Some(endpoint),
        kind: Some(kind),
        entity: entity_named(kind, &words),
    }
}

/// Returns what the path and the method of a request name. Allocates nothing.
pub(crate) fn find_target(routes: &Routes, received: Received<'_>) -> RequestTarget
    requires { IsReceived received }
    ensures leads { LeadsIn received.entry result.endpoint }
    ensures kind { IsKindIn received.entry result.endpoint result.kind }
    ensures entity { IsNamedIn received.entry result.endpoint result.entity }
{
    let Received {
        buffer,
        fields: _,
        spans,
        size: _,
    } = received;
    let Ok(target) = str::from_utf8(spans.path.of(buffer)) else {
        unreachable!();
    };
    let path = path_of(target);
    target_at(routes, path, spans.method.of(buffer))
}
