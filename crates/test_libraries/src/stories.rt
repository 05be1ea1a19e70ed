//! A list of calls in which a response is lost and an OVN becomes outdated, and a space that breaks
//! among them.
use crate::breaking::Breaking;
use crate::calls::call;
use crate::told::told_after;
use entity_core::nature::Kind;
use entity_core::salt::Salt;
use policy_core::call::{Call, OpKind};
use policy_core::rule::Rule;
use service_calls::service::Service;
use service_step::reply::{Answer, Reply};
use space_core::space::Space;
use space_memory::memory::MemorySpace;
use std::alloc::Global;
use wire_body::body::PathWords;

const PLAN: PathWords<'static> = PathWords {
    first: "00000000-0000-4000-8000-0000000000a1",
    second: None,
};
// the plan with the OVN of serial 1
const FIRST_PLAN: PathWords<'static> = PathWords {
    first: "00000000-0000-4000-8000-0000000000a1",
    second: Some(FIRST),
};

const OTHER: PathWords<'static> = PathWords {
    first: "00000000-0000-4000-8000-0000000000b1",
    second: None,
};

// The OVNs of the serials 1, 3 and 4.
const FIRST: &str = "0c8bab20c7aa631feb6e9d12df89abda74886cd1be999754333b0cbdafd072d7";

const THIRD: &str = "bf5cb828bbf7e8b093f86a9fa7d1afb732b484fe5604d03890c3307fce15ece2";

const FOURTH: &str = "03e3ee156df8232c33493b4417edb57f8c466be3e105477716755007aaf5ae41";

// The bodies of puts in one volume: without a key, and with each of two OVNs as the key.
const PUT: &str =
    r#"{"extents":[{"cells":["89c25904"],"altitude_lower":0,"altitude_upper":1200,"time_start":900,"time_end":2000}],"state":"Accepted","uss_base_url":"https://a.example"}"#;

const WITH_FIRST: &str =
    r#"{"extents":[{"cells":["89c25904"],"altitude_lower":0,"altitude_upper":1200,"time_start":900,"time_end":2000}],"key":["0c8bab20c7aa631feb6e9d12df89abda74886cd1be999754333b0cbdafd072d7"],"state":"Accepted","uss_base_url":"https://a.example"}"#;

const WITH_THIRD: &str =
    r#"{"extents":[{"cells":["89c25904"],"altitude_lower":0,"altitude_upper":1200,"time_start":900,"time_end":2000}],"key":["bf5cb828bbf7e8b093f86a9fa7d1afb732b484fe5604d03890c3307fce15ece2"],"state":"Accepted","uss_base_url":"https://a.example"}"#;

// Returns the calls. A plan is created and deleted. The response is lost, so the plan is deleted
// once more and created again. A put of another USS then has the outdated OVN in its key.
fn story(alloc: Global) -> Option<Vec<(u64, Call)>> {
    let mut calls = Vec::new(alloc);
    for (uss, kind, words, body) in [
        ("uss-a", OpKind::Create(Kind::Intent), PLAN, PUT),
        ("uss-a", OpKind::Delete(Kind::Intent), FIRST_PLAN, ""),
        ("uss-a", OpKind::Delete(Kind::Intent), FIRST_PLAN, ""),
        ("uss-a", OpKind::Create(Kind::Intent), PLAN, PUT),
        ("uss-b", OpKind::Create(Kind::Intent), OTHER, WITH_FIRST),
    ] {
        calls
            .push((1000, call(alloc, uss, kind, &words, body)?))
            .ok()?;
    }
    Some(calls)
}

// Returns true if an entity was created with that OVN.
fn is_created(reply: &Reply, ovn: &str) -> bool {
    let Reply::Done(Answer::Created(seen, _)) = reply else {
        return false;
    };
    match &seen.ovn {
        Some(found) => found.text() == ovn,
        None => false,
    }
}

// Returns true if one intent is missing from a key.
fn lacks_an_intent(reply: &Reply) -> bool {
    match reply {
        Reply::Denied(Rule::Key, missing) => missing.intents.items().len() == 1,
        _ => false,
    }
}

// Returns true if that is the expected reply to the call at an index.
fn is_due(index: usize, reply: &Reply) -> bool {
    match index {
        0 => is_created(reply, FIRST),
        1 => matches!(reply, Reply::Done(Answer::Changed(_, _))),
        2 => matches!(reply, Reply::Denied(Rule::Found, _)),
        3 => is_created(reply, THIRD),
        4 => lacks_an_intent(reply),
        _ => false,
    }
}

// Returns how many replies come before the first `Stopped`, if each of them is as expected and all
// after it are `Stopped`.
fn before_the_stop(replies: &[Reply]) -> Option<usize> {
    let mut answered: usize = 0;
    let mut has_stopped = false;
    for reply in replies {
        if reply.is_stopped() {
            has_stopped = true;
        } else if has_stopped || !is_due(answered, reply) {
            return None;
        } else {
            answered = answered.saturating_add(1);
        }
    }
    Some(answered)
}

// Returns true if the replies to the calls are as expected, and a put with the current OVN succeeds
// after them.
fn is_story_right(alloc: Global) -> Option<bool> {
    let salt = Salt::read(alloc, "demo").ok()?;
    let calls = story(alloc)?;
    let next = call(
        alloc,
        "uss-b",
        OpKind::Create(Kind::Intent),
        &OTHER,
        WITH_THIRD,
    )?;
    let told = told_after(alloc, salt, calls.as_slice(), 1000, &next).ok()?;
    Some(before_the_stop(told.0.as_slice()) == Some(5) && is_created(&told.1, FOURTH))
}

#[test]
fn an_old_ovn_is_no_key(rt: HostRuntime) {
    assert!(rt; is_story_right(rt.alloc()) == Some(true));
}

// Returns how many of the calls a service answers over a space that answers so many calls itself,
// and the serial of the space afterwards.
fn answered_over(alloc: Global, left: u64) -> Option<(usize, u64)> {
    let salt = Salt::read(alloc, "demo").ok()?;
    let calls = story(alloc)?;
    let mut service = Service::new(Breaking::after(MemorySpace::new(alloc), left), salt);
    let replies = service.run(alloc, calls.as_slice()).ok()?;
    if replies.len() != calls.len() {
        return None;
    }
    let answered = before_the_stop(replies.as_slice())?;
    let mut space = service.into_space().into_space();
    Some((answered, space.serial().ok()?))
}

// Returns the serial after so many of the calls.
fn serial_after(answered: usize) -> u64 {
    match answered {
        0 => 0,
        1 => 1,
        2 | 3 => 2,
        _ => 3,
    }
}

// Returns true if a service stops at each of the calls in turn, as its space breaks one call later
// each time, until it no longer stops. The space must keep what was acknowledged.
fn each_call_stops(alloc: Global) -> bool {
    let mut reached: usize = 0;
    for left in 0..50 {
        let Some((answered, serial)) = answered_over(alloc, left) else {
            return false;
        };
        if left == 0 && answered > 0 {
            return false;
        }
        if answered < reached || answered - reached > 1 || serial != serial_after(answered) {
            return false;
        }
        reached = answered;
    }
    reached == 5
}

#[test]
fn a_space_that_breaks_stops_each_call(rt: HostRuntime) {
    assert!(rt; each_call_stops(rt.alloc()));
}
