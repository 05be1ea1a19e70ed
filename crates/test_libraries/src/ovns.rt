//! OVNs and digests, compared with those that another program computed.
use entity_core::ovn::ovn_of;
use entity_core::salt::Salt;
use sha2::{Digest, Sha256};
use std::alloc::Global;

fn is_ovn(alloc: Global, salt: &str, serial: u64, text: &str) -> bool {
    let Ok(salt) = Salt::read(alloc, salt) else {
        return false;
    };
    match ovn_of(alloc, &salt, serial) {
        Ok(ovn) => ovn.text() == text,
        Err(_) => false,
    }
}

#[test]
fn ovns_of_serials(rt: HostRuntime) {
    for (salt, serial, text) in &[
        (
            "demo",
            0,
            "5b024a8f4185d64824e065eaf97211e0bd4099111a36010e155d2b440ae91464",
        ),
        (
            "demo",
            1,
            "0c8bab20c7aa631feb6e9d12df89abda74886cd1be999754333b0cbdafd072d7",
        ),
        (
            "demo",
            2,
            "da593634114084d057e1bce055b4920dc51a3ec8588ec9ce3e9ca3aa843780b9",
        ),
        (
            "demo",
            9_223_372_036_854_775_807,
            "bec24f9ff872b851ce8df23fed0c9e6626b1b2760c2358888916a354292ff62f",
        ),
        (
            "A-b_c.9",
            10,
            "5c93fa701fb2d0d279a35408629ade2334f5f2e9e25b7a23c1ac200271dfb636",
        ),
        (
            "xxxxxxxxxxxxxxxxxxxxxxxxxxxxxxxxxxxxxxxxxxxxxxxxxxxxxxxxxxxxxxxx",
            1_234_567_890_123_456_789,
            "e2a4d0554c009fe8d307ec4f44313d4b487f913690ef28885d0e6be01bef3bdb",
        ),
    ] {
        assert!(rt; is_ovn(rt.alloc(), *salt, *serial, *text), "of {serial}");
    }
}

fn is_digest(alloc: Global, message: &str, digest: &str) -> bool {
    let found = Sha256::digest(message);
    match hex::encode(alloc, found.as_slice()) {
        Ok(text) => text.as_str() == digest,
        Err(_) => false,
    }
}

#[test]
fn digests_of_messages(rt: HostRuntime) {
    for (message, digest) in &[
        (
            "",
            "e3b0c44298fc1c149afbf4c8996fb92427ae41e4649b934ca495991b7852b855",
        ),
        (
            "abc",
            "ba7816bf8f01cfea414140de5dae2223b00361a396177a9cb410ff61f20015ad",
        ),
        (
            "abcdbcdecdefdefgefghfghighijhijkijkljklmklmnlmnomnopnopq",
            "248d6a61d20638b8e5c026930c3e6039a33ce45964ff2167f6ecedd419db06c1",
        ),
    ] {
        assert!(rt; is_digest(rt.alloc(), *message, *digest), "of {message}");
    }
}
