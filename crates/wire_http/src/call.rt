//! The call that a request makes.
ghost use Rattle.std.specs.Prelude.{◌≡◌, ℕ, length, map, take, if◌then◌else◌};
ghost use Rattle.std.specs.Prelude.{All, Err, IfOk, IfErr, OnOk, option_copied};
ghost use Rattle.httparse.specs.Spans.{IsHeaderWithin, header_bytes};
ghost use Rattle.token_conf.specs.TokenFile.{callers_of};
ghost use Rattle.wire_body.specs.Body.{words_of};
ghost use Rattle.wire_http.specs.Fault.{AbortedCall};
ghost use Rattle.wire_http.specs.Received.{IsKindIn, IsMadeForOne, IsNamedIn, IsReceived};
ghost use Rattle.wire_http.specs.RequestInfo.{IsEntityNamed, entity_named, requested_kind};
ghost use Rattle.wire_http.specs.Unread.{IsMadeAs, IsMadeFor};
ghost use Rattle.wire_head.specs.Close.{closes_by};
ghost use Rattle.wire_operation.specs.Asked.{caller_of, IsAsked};

use crate::fault::StreamFault;
use crate::moments::Moments;
use entity_core::entity_id::EntityId;
use httparse::spans::{HeaderSpan, RequestSpans};
use policy_core::call::{Call, OpKind, Operation};
use policy_core::early::early;
use policy_core::rule::Rule;
use policy_core::scope::Caller;
use std::alloc::{AllocError, Global};
use token_conf::token_table::TokenTable;
use wire_body::body::PathWords;
use wire_body::laws::keeps_kind;
use wire_head::bearer::bearer_token;
use wire_head::close::closes_connection;
use wire_head::target::path_of;
use wire_operation::operation::read_as;
use wire_route::endpoint::Endpoint;
use wire_route::routes::{Route, Routes};

// Returns the call of a kind. If P3 or P4 denies it whatever the body is, does not read the body.
fn call_as(
    alloc: Global,
    kind: OpKind,
    words: &PathWords<'_>,
    body: &[u8],
    caller: Option<Caller>,
) -> Result<Call, AllocError>
    ensures { IfOk result (IsMadeAs caller kind (words_of words.now) body.now) }
{
    keeps_kind();
    let unread = Call {
        caller,
        op: Operation::Malformed(kind),
    };
    match early(&unread) {
        Some(Rule::Token) => return Ok(unread),
        Some(Rule::Scope) => return Ok(unread),
        _ => {}
    }
    let Call { caller, op: _ } = unread;
    let op = read_as(alloc, kind, words, body)?;
    Ok(Call { caller, op })
}

/// Returns the id that the first path parameter represents, if operations of the kind have one.
pub(crate) fn entity_named(kind: OpKind, words: &PathWords<'_>) -> Option<EntityId>
    ensures { result ≡ entity_named kind (words_of words.now) }
{
    match kind {
        OpKind::Read(_)
        | OpKind::Create(_)
        | OpKind::Update(_)
        | OpKind::Delete(_)
        | OpKind::ReadSub
        | OpKind::CreateSub
        | OpKind::UpdateSub
        | OpKind::DeleteSub => match EntityId::read(words.first) {
            Ok(id) => Some(id),
            Err(_) => None,
        },
        OpKind::Query(_) | OpKind::ReadAvail | OpKind::SetAvail | OpKind::QuerySub => None,
    }
}

/// What a path, a method and a body give: the endpoint of the path, the kind of operation of the
/// method there, the entity or subscription that they name, and the call that is made.
#[derive(Drop)]
pub(crate) struct RoutedOperation {
    pub(crate) endpoint: Option<Endpoint>,
    pub(crate) kind: Option<OpKind>,
    pub(crate) entity: Option<EntityId>,
    pub(crate) call: Call,
}

// Returns what path, method and body of a caller's request give.
fn seek(
    alloc: Global,
    routes: &Routes,
    path: &str,
    method: &[u8],
    body: &[u8],
    caller: Option<Caller>,
) -> Result<RoutedOperation, AllocError>
    ensures asked { IfOk result (λ s. (op : Operation)
        × IsAsked path.now method.now body.now s.endpoint op
        × IsMadeFor s.call (record { caller = caller; op = op })) }
    ensures kind { IfOk result (λ s. s.kind ≡ requested_kind s.endpoint method.now) }
    ensures entity { IfOk result (λ s.
        IsEntityNamed path.now method.now s.endpoint s.entity) }
{
    let Some(Route { endpoint, words }) = routes.find(path) else {
        return Ok(RoutedOperation {
            endpoint: None,
            kind: None,
            entity: None,
            call: Call {
                caller,
                op: Operation::NoRoute,
            },
        });
    };
    let Some(kind) = endpoint.kind(method) else {
        return Ok(RoutedOperation {
            endpoint: Some(endpoint),
            kind: None,
            entity: None,
            call: Call {
                caller,
                op: Operation::NoMethod,
            },
        });
    };
    let call = call_as(alloc, kind, &words, body, caller)?;
    Ok(RoutedOperation {
        endpoint: Some(endpoint),
        kind: Some(kind),
        entity: entity_named(kind, &words),
        call,
    })
}

/// Returns the caller with the bearer token in the fields, in the table. Allocates nothing.
pub(crate) fn find_caller<'t>(
    tokens: &'t TokenTable,
    buffer: &[u8],
    fields: &[HeaderSpan],
) -> Option<&'t Caller>
    requires { All (IsHeaderWithin (length buffer.now)) fields.now }
    ensures { option_copied result
        ≡ caller_of (callers_of tokens.now) (map (header_bytes buffer.now) fields.now) }
{
    let Some(token) = bearer_token(buffer, fields) else {
        return None;
    };
    tokens.caller(token)
}

// Returns a copy of the caller with the bearer token in the fields.
fn caller_of(
    tokens: &TokenTable,
    buffer: &[u8],
    fields: &[HeaderSpan],
) -> Result<Option<Caller>, AllocError>
    requires { All (IsHeaderWithin (length buffer.now)) fields.now }
    ensures { IfOk result (λ caller. caller
        ≡ caller_of (callers_of tokens.now) (map (header_bytes buffer.now) fields.now)) }
{
    let Some(caller) = find_caller(tokens, buffer, fields) else {
        return Ok(None);
    };
    let uss = caller.uss.clone()?;
    Ok(Some(Caller {
        uss,
        scopes: caller.scopes,
    }))
}

/// A complete request as it was received: the bytes, where the parts of its head are in them, and
/// the size of the body after the head.
#[derive(Clone, Copy)]
pub(crate) struct Received<'b> {
    pub(crate) buffer: &'b [u8],
    pub(crate) fields: &'b [HeaderSpan],
    pub(crate) spans: RequestSpans,
    pub(crate) size: usize,
}

/// The call that is made for a request, with the endpoint of its path, the kind of operation of its
/// method there, the entity or subscription that it names, and its time.
///
/// The call is that of the request, or one with the same caller that is denied alike: the body is
/// not read if P3 or P4 denies the request.
#[derive(Drop)]
pub(crate) struct RoutedCall {
    pub(crate) endpoint: Option<Endpoint>,
    pub(crate) kind: Option<OpKind>,
    pub(crate) entity: Option<EntityId>,
    pub(crate) moment: u64,
    pub(crate) call: Call,
}

/// Returns what a request gives, with the call that is made for it.
pub(crate) fn route(
    alloc: Global,
    routes: &Routes,
    tokens: &TokenTable,
    received: Received<'_>,
) -> Result<RoutedOperation, AllocError>
    requires { IsReceived received }
    ensures made { IfOk result (λ p.
        IsMadeForOne (callers_of tokens.now) received.entry p.endpoint p.call) }
    ensures kind { IfOk result (λ p. IsKindIn received.entry p.endpoint p.kind) }
    ensures entity { IfOk result (λ p. IsNamedIn received.entry p.endpoint p.entity) }
{
    let Received {
        buffer,
        fields,
        spans,
        size,
    } = received;
    let Ok(target) = str::from_utf8(spans.path.of(buffer)) else {
        unreachable!();
    };
    let path = path_of(target);
    let body = &buffer[spans.len..spans.len + size];
    let caller = caller_of(tokens, buffer, &fields[..spans.headers])?;
    let routed = seek(alloc, routes, path, spans.method.of(buffer), body, caller)?;
    Ok(routed)
}

// Returns the call that is made for a request at a time.
fn call_of(
    alloc: Global,
    routes: &Routes,
    tokens: &TokenTable,
    received: Received<'_>,
    moment: u64,
) -> Result<RoutedCall, AllocError>
    requires { IsReceived received }
    ensures made { IfOk result (λ p.
        IsMadeForOne (callers_of tokens.now) received.entry p.endpoint p.call) }
    ensures kind { IfOk result (λ p. IsKindIn received.entry p.endpoint p.kind) }
    ensures entity { IfOk result (λ p. IsNamedIn received.entry p.endpoint p.entity) }
    ensures moment { IfOk result (λ p. p.moment ≡ moment) }
{
    let RoutedOperation {
        endpoint,
        kind,
        entity,
        call,
    } = route(alloc, routes, tokens, received)?;
    Ok(RoutedCall {
        endpoint,
        kind,
        entity,
        moment,
        call,
    })
}

/// Returns the number of requests that may follow this one: `count`, or zero if the connection
/// closes.
pub(crate) fn left_after(received: Received<'_>, count: u32) -> u32
    requires { IsReceived received }
    ensures { result ≡ (if closes_by received.entry.spans.version
        (map (header_bytes received.entry.buffer.now)
        (take received.entry.spans.headers received.entry.fields.now))
        then 0 else count) }
{
    let Received {
        buffer,
        fields,
        spans,
        size: _,
    } = received;
    if closes_connection(buffer, spans.version, &fields[..spans.headers]) {
        0
    } else {
        count
    }
}

/// Returns the call that is made for a request, at the next time of the clock.
pub(crate) fn ask<M: Moments>(
    alloc: Global,
    routes: &Routes,
    tokens: &TokenTable,
    moments: &mut M,
    received: Received<'_>,
) -> Result<RoutedCall, StreamFault>
    requires { IsReceived received }
    ensures made { IfOk result (λ p.
        IsMadeForOne (callers_of tokens.now) received.entry p.endpoint p.call) }
    ensures kind { IfOk result (λ p. IsKindIn received.entry p.endpoint p.kind) }
    ensures entity { IfOk result (λ p. IsNamedIn received.entry p.endpoint p.entity) }
    ensures moment { IfOk result (λ p. M.gives moments.old p.moment moments.new) }
    ensures good { OnOk result (M.failures moments.new ≡ M.failures moments.old) }
    ensures taken { result ≡ Err StreamFault.Memory
        → (moment : ℕ) × M.gives moments.old moment moments.new }
    ensures err { IfErr result (λ e.
        AbortedCall e (M.failures moments.old) (M.failures moments.new)) }
{
    let Ok(moment) = moments.next() else {
        return Err(StreamFault::Clock);
    };
    match call_of(alloc, routes, tokens, received, moment) {
        Ok(pending) => Ok(pending),
        Err(_) => Err(StreamFault::Memory),
    }
}
