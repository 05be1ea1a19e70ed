//! Calls to a service and to the rules that no stream reaches.
use entity_core::availability::Availability;
use entity_core::entity::Entity;
use entity_core::nature::Kind;
use entity_core::salt::Salt;
use entity_core::serial::Serial;
use entity_core::uss_id::UssId;
use entity_core::version::{MAX_VERSION, Version};
use policy_core::call::{Call, OpKind, Operation};
use policy_core::rule::Rule;
use policy_core::scope::{Caller, Scope, ScopeSet};
use policy_core::standing::{FactsRef, Findings, standing};
use service_calls::service::Service;
use service_step::reply::{Answer, Reply};
use space_core::space::Space;
use space_memory::memory::MemorySpace;
use std::alloc::Global;
use wire_body::body::{PathWords, read_body};

const PUT: &str =
    r#"{"extents":[{"cells":["89c25904"],"altitude_lower":0,"altitude_upper":1200,"time_start":900,"time_end":2000}],"state":"Accepted","uss_base_url":"https://a.example"}"#;

// Returns a USS that may plan and set availabilities.
fn caller(alloc: Global, uss: &str) -> Option<Caller> {
    let uss = UssId::read(alloc, uss).ok()?;
    let scopes = ScopeSet::empty().with(Scope::StrategicCoordination);
    Some(Caller {
        uss,
        scopes: scopes.with(Scope::AvailabilityArbitration),
    })
}

// Returns a call of that USS.
pub(crate) fn call(
    alloc: Global,
    uss: &str,
    kind: OpKind,
    words: &PathWords<'_>,
    body: &str,
) -> Option<Call> {
    let op = read_body(alloc, kind, words, body.as_bytes()).ok()?;
    Some(Call {
        caller: caller(alloc, uss),
        op,
    })
}

// Returns an entity as an update puts it, with that version.
fn kept(alloc: Global, op: &Operation, number: u32) -> Option<Entity> {
    let Operation::Update(id, ovn, put) = op else {
        return None;
    };
    let (version, serial) = (Version::from_number(number)?, Serial::next_after(0)?);
    let manager = UssId::read(alloc, "uss-a").ok()?;
    let ovn = ovn.clone().ok()?;
    let url = put.url.clone().ok()?;
    Some(Entity {
        nature: put.nature,
        id: *id,
        manager,
        version,
        serial,
        ovn,
        volumes: put.volumes.clone().ok()?,
        url,
    })
}

// Returns an update of an intent.
fn update(alloc: Global) -> Option<Call> {
    let words = PathWords {
        first: "00000000-0000-4000-8000-0000000000a1",
        second: Some("0123456789abcdef"),
    };
    call(alloc, "uss-a", OpKind::Update(Kind::Intent), &words, PUT)
}

// Evaluates an update of an intent that exists at that version, at a serial below the maximum.
fn found_at(alloc: Global, update: &Call, number: u32) -> Option<Findings> {
    let entity = kept(alloc, &update.op, number)?;
    let facts = FactsRef {
        found: Some(&entity),
        stated: None,
        serial: 7,
        sub: None,
        depended: false,
    };
    Some(standing(1000, update, &facts))
}

// Returns true if an update of the intent at that version breaks no rule, and the limit is met as
// expected.
fn is_limit(alloc: Global, update: &Call, number: u32, limit: bool) -> bool {
    match found_at(alloc, update, number) {
        Some(found) => found.first.is_none() && found.limit == limit,
        None => false,
    }
}

// Returns true if the maximum version is the first that meets the limit.
fn is_limit_met(alloc: Global) -> bool {
    match update(alloc) {
        Some(update) => {
            is_limit(alloc, &update, MAX_VERSION - 1, false)
                && is_limit(alloc, &update, MAX_VERSION, true)
        }
        None => false,
    }
}

#[test]
fn max_version(rt: HostRuntime) {
    assert!(rt; is_limit_met(rt.alloc()));
}

// Returns two availability settings, of which the second names no current version, and a read.
fn three(alloc: Global) -> Option<Vec<(u64, Call)>> {
    let words = PathWords {
        first: "uss-b",
        second: None,
    };
    let mut calls = Vec::new(alloc);
    for (now, kind, body) in [
        (1000, OpKind::SetAvail, r#"{"availability":"Down"}"#),
        (7, OpKind::SetAvail, r#"{"availability":"Normal"}"#),
        (8, OpKind::ReadAvail, ""),
    ] {
        calls
            .push((now, call(alloc, "uss-a", kind, &words, body)?))
            .ok()?;
    }
    Some(calls)
}

// Returns true if the reply says that uss-b is Down, with the OVN of serial 1.
fn tells_down(reply: &Reply) -> bool {
    let Reply::Done(Answer::Avail(uss, availability, version)) = reply else {
        return false;
    };
    let first = "0c8bab20c7aa631feb6e9d12df89abda74886cd1be999754333b0cbdafd072d7";
    uss.text() == "uss-b" && *availability == Availability::Down && version.text() == first
}

// Returns true if these are the expected replies to the three calls.
fn are_due(replies: &[Reply]) -> bool {
    replies.len() == 3
        && matches!(&replies[1], Reply::Denied(Rule::Version, _))
        && tells_down(&replies[2])
}

#[test]
fn a_run_answers_each_call(rt: HostRuntime) {
    let salt = Salt::read(rt.alloc(), "demo").ok().expect(&rt, "a salt");
    let mut service = Service::new(MemorySpace::new(rt.alloc()), salt);
    let calls = three(rt.alloc()).expect(&rt, "calls");
    let replies = service
        .run(rt.alloc(), calls.as_slice())
        .expect(&rt, "replies");
    assert!(rt; are_due(replies.as_slice()) && service.space().serial() == Ok(1));
    let mut space = service.into_space();
    let all = space.all(Kind::Intent).ok().expect(&rt, "an answer");
    assert!(rt; all.is_empty());
}
