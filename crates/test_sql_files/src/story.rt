//! Three calls: one creates an intent, one sets the availability of its manager, and one reads the
//! intent.
use crate::runs::{Replies, live_in_memory};
use entity_core::nature::Kind;
use entity_core::salt::Salt;
use entity_core::uss_id::UssId;
use policy_core::call::{Call, OpKind};
use policy_core::scope::{Caller, Scope, ScopeSet};
use std::alloc::Global;
use wire_body::body::{PathWords, read_body};

const PUT: &str =
    r#"{"extents":[{"cells":["89c25904"],"altitude_lower":0,"altitude_upper":1200,"time_start":900,"time_end":2000}],"state":"Accepted","uss_base_url":"https://a.example"}"#;

const PLAN: PathWords<'static> = PathWords {
    first: "00000000-0000-4000-8000-0000000000a1",
    second: None,
};

const USS: PathWords<'static> = PathWords {
    first: "uss-a",
    second: None,
};

// A call at a time.
struct Timed {
    call: (u64, Call),
}

// It is written out, so that a caller does not prove again how each part is dropped.
impl Drop for Timed {
    fn drop(self) {
        let Timed { call: _ } = self;
    }
}

// Returns a call of uss-a.
fn call(alloc: Global, kind: OpKind, words: &PathWords<'_>, body: &str) -> Option<Timed> {
    let op = read_body(alloc, kind, words, body.as_bytes()).ok()?;
    let uss = UssId::read(alloc, "uss-a").ok()?;
    let scopes = ScopeSet::empty().with(Scope::StrategicCoordination);
    let caller = Some(Caller {
        uss,
        scopes: scopes.with(Scope::AvailabilityArbitration),
    });
    Some(Timed {
        call: (1000, Call { caller, op }),
    })
}

/// Executes the calls in three runs over new files in memory, and returns the replies.
pub fn told(alloc: Global) -> Option<Replies> {
    let salt = Salt::read(alloc, "demo").ok()?;
    let down = r#"{"availability":"Down"}"#;
    let put = call(alloc, OpKind::Create(Kind::Intent), &PLAN, PUT)?;
    let set = call(alloc, OpKind::SetAvail, &USS, down)?;
    let read = call(alloc, OpKind::Read(Kind::Intent), &PLAN, "")?;
    let told = live_in_memory(alloc, &salt, &put.call, &set.call, &read.call)?;
    Some(told.into_replies())
}
