//! The texts of replies that no stream over a space in memory gives.
use entity_core::availability::Availability;
use entity_core::base_url::BaseUrl;
use entity_core::entity_id::EntityId;
use entity_core::interest::Interest;
use entity_core::nature::{Nature, State};
use entity_core::notification_index::NotificationIndex;
use entity_core::ovn::Ovn;
use entity_core::serial::MAX_SERIAL;
use entity_core::uss_id::UssId;
use entity_core::version::Version;
use policy_core::reference::Reference;
use policy_core::sub_view::{EntityIds, SubView};
use service_step::reply::{Answer, Reply};
use std::alloc::Global;
use wire_reply::answer::{reply_text, status};

// Returns what others see of an intent that ends at the maximum number.
fn endless(alloc: Global) -> Option<Reply> {
    Some(Reply::Done(Answer::Found(Reference {
        nature: Nature::Intent(State::Activated, None),
        id: EntityId::read("F81D4FAE-7DEC-11D0-A765-00A0C91E6BF6").ok()?,
        manager: UssId::read(alloc, "uss_b.7").ok()?,
        availability: Availability::Down,
        version: Version::first(),
        ovn: None,
        time_start: 0,
        time_end: u64::MAX,
        url: BaseUrl::read(alloc, "https://b.example/\"x\"\\y").ok()?,
    })))
}

const ENDLESS: &str = "{\"operational_intent_reference\":\
    {\"id\":\"f81d4fae-7dec-11d0-a765-00a0c91e6bf6\",\"manager\":\"uss_b.7\",\"state\":\"Activated\",\
    \"subscription_id\":\"00000000-0000-4000-8000-000000000000\",\
    \"time_end\":18446744073709551615,\"time_start\":0,\"uss_availability\":\"Down\",\
    \"uss_base_url\":\"https://b.example/\\\"x\\\"\\\\y\",\"version\":1}}";

fn is_response(alloc: Global, reply: &Reply, code: u16, text: &str) -> bool {
    let Ok(found) = reply_text(alloc, reply) else {
        return false;
    };
    status(reply) == code && found.as_slice() == text.as_bytes()
}

// Returns what its manager sees of a subscription with the maximum number of notifications.
fn longest_reply(alloc: Global) -> Option<Reply> {
    Some(Reply::Done(Answer::SubFound(SubView {
        id: EntityId::read("F81D4FAE-7DEC-11D0-A765-00A0C91E6BF6").ok()?,
        version: Ovn::read(alloc, "0123456789abcdef").ok()?,
        index: NotificationIndex::from_number(MAX_SERIAL)?,
        interest: Interest::from_flags(false, true)?,
        time_start: 0,
        time_end: 1,
        url: BaseUrl::read(alloc, "https://b.example").ok()?,
        dependents: EntityIds::from_vec(Vec::new(alloc)),
    })))
}

const LONGEST_REPLY: &str = "{\"subscription\":{\"dependent_operational_intents\":[],\
    \"id\":\"f81d4fae-7dec-11d0-a765-00a0c91e6bf6\",\"implicit_subscription\":false,\
    \"notification_index\":9223372036854775807,\"notify_for_constraints\":true,\
    \"notify_for_operational_intents\":false,\"time_end\":1,\"time_start\":0,\
    \"uss_base_url\":\"https://b.example\",\"version\":\"0123456789abcdef\"}}";

fn is_longest_reply(alloc: Global) -> bool {
    let none = NotificationIndex::from_number(MAX_SERIAL + 1);
    match longest_reply(alloc) {
        Some(reply) => none.is_none() && is_response(alloc, &reply, 200, LONGEST_REPLY),
        None => false,
    }
}

fn is_unbounded_reply(alloc: Global) -> bool {
    match endless(alloc) {
        Some(reply) => is_response(alloc, &reply, 200, ENDLESS),
        None => false,
    }
}

#[test]
fn texts_of_replies(rt: HostRuntime) {
    let text = r#"{"message":"stopped"}"#;
    assert!(rt; is_response(rt.alloc(), &Reply::Stopped, 503, text));
    assert!(rt; is_unbounded_reply(rt.alloc()));
    assert!(rt; is_longest_reply(rt.alloc()));
}
