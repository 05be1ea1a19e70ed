//! The types of entities: the values that they accept at each limit.
use entity_core::base_url::BaseUrl;
use entity_core::entity_id::EntityId;
use entity_core::id_fault::IdFault;
use entity_core::ovn::Ovn;
use entity_core::salt::Salt;
use entity_core::serial::{MAX_SERIAL, Serial};
use entity_core::uss_id::UssId;
use entity_core::version::{MAX_VERSION, Version};
use std::alloc::Global;

const LONG: &str = "abcdefghijklmnopqrstuvwxyz-ABCDEFGHIJKLMNOPQRSTUVWXYZ_0123456789";

const LONGER: &str = "abcdefghijklmnopqrstuvwxyz-ABCDEFGHIJKLMNOPQRSTUVWXYZ_0123456789.";

// Returns true if a text is parsed as the id of a number, which is printed so.
fn is_id(alloc: Global, text: &str, number: u128, printed: &str) -> bool {
    let Ok(id) = EntityId::read(text) else {
        return false;
    };
    let Ok(again) = id.text(alloc) else {
        return false;
    };
    id.number() == number && again.as_str() == printed && EntityId::read(printed) == Ok(id)
}

#[test]
fn ids_of_entities(rt: HostRuntime) {
    // the examples of RFC 9562
    for (text, number, printed) in &[
        (
            "f81d4fae-7dec-11d0-a765-00a0c91e6bf6",
            0xf81d_4fae_7dec_11d0_a765_00a0_c91e_6bf6u128,
            "f81d4fae-7dec-11d0-a765-00a0c91e6bf6",
        ),
        (
            "017F22E2-79B0-7CC3-98C4-DC0C0C07398F",
            0x017f_22e2_79b0_7cc3_98c4_dc0c_0c07_398f,
            "017f22e2-79b0-7cc3-98c4-dc0c0c07398f",
        ),
    ] {
        assert!(rt; is_id(rt.alloc(), *text, *number, *printed), "of {text}");
    }
}

fn is_before(text: &str, other: &str) -> bool {
    match (EntityId::read(text), EntityId::read(other)) {
        (Ok(id), Ok(next)) => id < next,
        _ => false,
    }
}

#[test]
fn ids_are_in_order(rt: HostRuntime) {
    assert!(rt;
        is_before(
            "00000000-0000-4000-8000-000000000000",
            "00000000-0000-4000-8000-000000000001",
        )
    );
}

#[test]
fn texts_that_are_no_ids(rt: HostRuntime) {
    for (text, fault) in &[
        ("", IdFault::Length),
        ("f81d4fae7dec11d0a76500a0c91e6bf6", IdFault::Length),
        ("{f81d4fae-7dec-11d0-a765-00a0c91e6bf6}", IdFault::Length),
        ("f81d4fae-7dec-11d0-a765-00a0c91e6bf", IdFault::Length),
        ("f81d4fae-7dec-11d0-a765-00a0c91e6bg6", IdFault::Form),
        ("f81d4fae07dec-11d0-a765-00a0c91e6bf6", IdFault::Form),
    ] {
        assert!(rt; EntityId::read(*text) == Err(*fault), "of {text}");
    }
}

// Returns true if the name of a USS, and a salt, has that fault.
fn has_fault(alloc: Global, text: &str, fault: Option<IdFault>) -> bool {
    UssId::read(alloc, text).err() == fault && Salt::read(alloc, text).err() == fault
}

#[test]
fn names_of_suppliers_and_salts(rt: HostRuntime) {
    for (text, fault) in &[
        ("a", None),
        (LONG, None),
        ("", Some(IdFault::Length)),
        (LONGER, Some(IdFault::Length)),
        ("a b", Some(IdFault::Form)),
        ("é", Some(IdFault::Form)),
    ] {
        assert!(rt; has_fault(rt.alloc(), *text, *fault), "at {text}");
    }
}

#[test]
fn ovns(rt: HostRuntime) {
    for (text, fault) in &[
        ("0123456789abcde!", None),
        ("0123456789abcde", Some(IdFault::Length)),
        ("0123456789abcd e", Some(IdFault::Form)),
    ] {
        assert!(rt; Ovn::read(rt.alloc(), *text).err() == *fault, "at {text}");
    }
}

#[test]
fn addresses(rt: HostRuntime) {
    for (text, fault) in &[
        ("https://a.example", None),
        ("", Some(IdFault::Length)),
        ("https://a example", Some(IdFault::Form)),
    ] {
        assert!(rt;
            BaseUrl::read(rt.alloc(), *text).err() == *fault,
            "at {text}"
        );
    }
}

fn version_after(number: u32) -> Option<u32> {
    Some(Version::from_number(number)?.next()?.number())
}

fn next_serial(number: u64) -> Option<u64> {
    Some(Serial::next_after(number)?.number())
}

#[test]
fn versions_have_their_limit(rt: HostRuntime) {
    assert!(rt; Version::first().number() == 1);
    for (number, next) in &[(1, Some(2)), (MAX_VERSION, None)] {
        assert!(rt; version_after(*number) == *next, "after {number}");
    }
}

#[test]
fn serials_have_their_limit(rt: HostRuntime) {
    for (number, next) in &[
        (0, Some(1)),
        (9_223_372_036_854_775_806, Some(MAX_SERIAL)),
        (MAX_SERIAL, None),
    ] {
        assert!(rt; next_serial(*number) == *next, "after {number}");
    }
}
