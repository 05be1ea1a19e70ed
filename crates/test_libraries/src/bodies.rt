//! Bodies and path parameters that no route gives.
use entity_core::nature::Kind;
use policy_core::call::OpKind;
use std::alloc::Global;
use wire_body::body::{PathWords, read_body};
use wire_body::body_fault::BodyFault;

fn is_malformed(alloc: Global, kind: OpKind, words: &PathWords<'_>, body: &str) -> bool {
    matches!(
        read_body(alloc, kind, words, body.as_bytes()),
        Err(BodyFault::Malformed)
    )
}

#[test]
fn paths_without_route(rt: HostRuntime) {
    let body = r#"{"area_of_interest":{"cells":["89c3"]}}"#;
    let setting = r#"{"availability":"Down"}"#;
    for (kind, first, second, body) in &[
        (OpKind::Query(Kind::Intent), "Query", None, body),
        (OpKind::SetAvail, "uss-b", Some("x"), setting),
        (OpKind::ReadAvail, "uss-b", Some("x"), ""),
        (
            OpKind::Read(Kind::Constraint),
            "00000000-0000-4000-8000-0000000000a1",
            Some("0123456789abcdef"),
            "",
        ),
    ] {
        let words = PathWords {
            first: *first,
            second: *second,
        };
        assert!(rt;
            is_malformed(rt.alloc(), *kind, &words, *body),
            "at {first}"
        );
    }
}
