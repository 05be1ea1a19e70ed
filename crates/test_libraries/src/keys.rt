//! The OVNs missing from a key, compared with the plain search that defines them.
use entity_core::base_url::BaseUrl;
use entity_core::entity::Entity;
use entity_core::entity_id::EntityId;
use entity_core::nature::Nature;
use entity_core::ovn::Ovn;
use entity_core::serial::Serial;
use entity_core::uss_id::UssId;
use entity_core::version::Version;
use grid_core::token::parse_token;
use grid_core::volume::Volume;
use grid_core::volumes::Volumes;
use policy_core::missing::missing;
use std::alloc::Global;

// Returns the OVN of a number. The OVN of 1 is a prefix of those of 10 and of 100.
fn ovn(alloc: Global, number: u64) -> Option<Ovn> {
    let text = format!(in alloc; "0123456789abcdef{number}").ok()?;
    Ovn::read(alloc, text.as_str()).ok()
}

// Returns the OVNs of numbers.
fn key(alloc: Global, numbers: &[u64]) -> Option<Vec<Ovn>> {
    let mut key = Vec::new(alloc);
    for number in numbers {
        key.push(ovn(alloc, *number)?).ok()?;
    }
    Some(key)
}

// Returns one volume of one cell.
fn volumes(alloc: Global) -> Option<Volumes> {
    let mut cells = Vec::new(alloc);
    cells.push(parse_token("89c25904").ok()?).ok()?;
    let mut items = Vec::new(alloc);
    items
        .push(Volume::new(cells, (0, 1000), (900, 1500)).ok()?)
        .ok()?;
    Volumes::from_vec(alloc, items).ok()?
}

// Returns an entity with the OVN of a number.
fn entity(alloc: Global, number: u64) -> Option<Entity> {
    let id = EntityId::read("00000000-0000-4000-8000-0000000000a1").ok()?;
    let serial = Serial::next_after(0)?;
    Some(Entity {
        nature: Nature::Constraint,
        id,
        manager: UssId::read(alloc, "uss-a").ok()?,
        version: Version::first(),
        serial,
        ovn: ovn(alloc, number)?,
        volumes: volumes(alloc)?,
        url: BaseUrl::read(alloc, "https://a.example").ok()?,
    })
}

// Returns entities with the OVNs of numbers.
fn entities(alloc: Global, numbers: &[u64]) -> Option<Vec<Entity>> {
    let mut entities = Vec::new(alloc);
    for number in numbers {
        entities.push(entity(alloc, *number)?).ok()?;
    }
    Some(entities)
}

// Returns the indexes of the needed numbers whose OVNs are missing from the key of `own`.
fn missed(alloc: Global, own: &[u64], needed: &[u64]) -> Option<Vec<usize>> {
    let key = key(alloc, own)?;
    let entities = entities(alloc, needed)?;
    missing(alloc, key.as_slice(), entities.as_slice()).ok()
}

// Returns the indexes of the needed numbers that are not among `own`, by a plain search.
fn plainly_missed(alloc: Global, own: &[u64], needed: &[u64]) -> Option<Vec<usize>> {
    let mut places = Vec::new(alloc);
    for (place, number) in needed.iter().enumerate() {
        if !is_known(own, *number) {
            places.push(place).ok()?;
        }
    }
    Some(places)
}

fn is_known(own: &[u64], sought: u64) -> bool {
    let mut is_known = false;
    for number in own {
        is_known = is_known || *number == sought;
    }
    is_known
}

// Returns `count` of the numbers less than `below`: every 14th, modulo `below`.
fn numbers(alloc: Global, count: u64, below: u64) -> Option<Vec<u64>> {
    let mut numbers = Vec::new(alloc);
    let mut number = 0u64;
    for _ in 0..count {
        numbers.push(number).ok()?;
        number = number.wrapping_add(14).checked_rem(below).unwrap_or(0);
    }
    Some(numbers)
}

// Returns true if so many are missing from a key of `count` numbers less than `below`, and they are
// those that the plain search finds.
fn is_missing(alloc: Global, count: u64, below: u64, missing: usize) -> bool {
    let (Some(needed), Some(own)) = (numbers(alloc, 401, 401), numbers(alloc, count, below)) else {
        return false;
    };
    let quick = missed(alloc, own.as_slice(), needed.as_slice());
    let plain = plainly_missed(alloc, own.as_slice(), needed.as_slice());
    match (quick, plain) {
        (Some(quick), Some(plain)) => quick.len() == missing && quick == plain,
        _ => false,
    }
}

#[test]
fn missing_is_as_the_plain_search_says(rt: HostRuntime) {
    for (count, below, missing) in &[
        (0, 401, 401),
        (1, 401, 400),
        (200, 401, 201),
        // 50 OVNs, each of them eight times
        (400, 100, 351),
        (401, 401, 0),
        (4096, 4999, 58),
    ] {
        assert!(rt;
            is_missing(rt.alloc(), *count, *below, *missing),
            "of a key of {count}"
        );
    }
}

#[test]
fn an_ovn_that_begins_another_is_missing(rt: HostRuntime) {
    let places = missed(rt.alloc(), &[10, 200, 10], &[1, 10, 20, 100, 200]);
    assert!(rt; places.expect(&rt, "places").as_slice() == [0, 2, 3].as_slice());
}
