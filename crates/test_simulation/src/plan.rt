//! Drawn schedules.
use crate::draws::Draws;
use crate::peer::{Manner, Peer};
use crate::requests::{Script, Writer};
use crate::sockets::{Course, Operator};
use entity_core::salt::Salt;
use server_base::limits::Limits;
use std::alloc::{AllocError, Global};
use wire_http::Explaining;

// How many clients send many requests at once in some schedules, and how many each of them sends.
const FLOODS: usize = 4;

const FLOOD: usize = 40;

// How many clients of one USS there are in some schedules of a pool: more than the requests of one USS
// that wait for the log at once.
const CROWD: usize = 40;

// The most waits after which a client resets its connection in some schedules of a pool.
const HASTE: u64 = 12;

/// A drawn schedule.
#[derive(Drop)]
pub(crate) struct Plan {
    pub(crate) peers: Vec<Peer>,
    /// How many of the first clients are of one USS and many.
    pub(crate) crowd: usize,
    pub(crate) course: Course,
    pub(crate) limits: Limits,
    pub(crate) explaining: Explaining,
    /// How often of a hundred times the token file changes, the clock fails, and the store fails.
    pub(crate) reloads: u64,
    pub(crate) clock_faults: u64,
    pub(crate) store_faults: u64,
}

// How many numbers of changes a client has.
const MARKS: u64 = 1_000;

/// Returns a percentage: 0 in most cases.
pub(crate) fn percentage(draws: &mut Draws, often: u64, most: u64) -> u64 {
    if draws.chance(often) {
        draws.below(most)
    } else {
        0
    }
}

// Returns the manner of a client that sends all its requests and takes all its responses.
fn faithful(draws: &mut Draws) -> Manner {
    Manner {
        pipelines: draws.chance(50),
        stall: usize::MAX,
        ends: draws.chance(50),
        most: usize::MAX,
        is_slow: false,
        resets: u64::MAX,
        piece: if draws.chance(40) {
            usize::MAX
        } else {
            draws.up_to(400)
        },
        gulp: if draws.chance(50) {
            usize::MAX
        } else {
            draws.up_to(600)
        },
        closes: draws.chance(80),
    }
}

// Returns the manner of a client with a fault, which sends `size` bytes in all.
fn faulty(draws: &mut Draws, size: usize) -> Manner {
    let mut manner = faithful(draws);
    match draws.below(5) {
        0 => manner.stall = draws.below(size as u64) as usize,
        1 => {
            manner.most = draws.below(2_000) as usize;
            manner.gulp = draws.up_to(300);
        }
        2 => manner.resets = draws.below(40),
        3 => {
            manner.is_slow = true;
            manner.piece = draws.up_to(60);
            manner.gulp = draws.up_to(200);
        }
        _ => manner.stall = 0,
    }
    manner
}

// Returns a client with this script.
fn peer_of(alloc: Global, script: Script, manner: Manner) -> Peer {
    let Script {
        bytes,
        ends,
        is_last,
    } = script;
    let size = bytes.len();
    let mut manner = manner;
    manner.stall = manner.stall.min(size);
    // a large request arrives at a rate that the service accepts
    manner.piece = manner.piece.max(size / 200);
    Peer::new(alloc, bytes, ends, is_last, manner)
}

// Returns a drawn client. Its changes have numbers from `mark` on.
fn draw_peer(
    alloc: Global,
    salt: &Salt,
    draws: &mut Draws,
    faults: u64,
    mark: u64,
) -> Result<Peer, AllocError> {
    let token = draws.below(4) as usize;
    let count = draws.up_to(6);
    let mut writer = Writer {
        alloc,
        salt,
        draws: draws.split(),
        token,
        mark,
        script: Script::new(alloc),
    };
    writer.put_all(count)?;
    let script = writer.into_script();
    let manner = if draws.chance(faults) {
        faulty(draws, script.bytes.len())
    } else {
        faithful(draws)
    };
    Ok(peer_of(alloc, script, manner))
}

// Returns a client that sends many requests at once.
fn draw_flood(alloc: Global, salt: &Salt, draws: &mut Draws) -> Result<Peer, AllocError> {
    let mut writer = Writer {
        alloc,
        salt,
        draws: draws.split(),
        token: 0,
        mark: 0,
        script: Script::new(alloc),
    };
    writer.put_reads(FLOOD)?;
    let mut manner = faithful(draws);
    manner.pipelines = true;
    manner.piece = usize::MAX;
    manner.gulp = usize::MAX;
    Ok(peer_of(alloc, writer.into_script(), manner))
}

// Returns how the sockets behave.
fn course(draws: &mut Draws) -> Course {
    let quickest = draws.below(20_000);
    Course {
        quickest,
        slowest: quickest.saturating_add(draws.below(200_000)),
        accept_faults: percentage(draws, 15, 30),
        operator: if draws.chance(20) {
            Operator::Comes(draws.below(120))
        } else {
            Operator::Absent
        },
    }
}

// Returns how the sockets behave if one USS sends many requests at once: the times of two requests
// differ little.
fn flooded_course(draws: &mut Draws) -> Course {
    let quickest = draws.below(30_000).saturating_add(20_000);
    Course {
        quickest,
        slowest: quickest.saturating_mul(2),
        accept_faults: 0,
        operator: Operator::Absent,
    }
}

// Returns the limits for `count` clients.
fn limits(draws: &mut Draws, count: usize, course: Course) -> Limits {
    Limits {
        count: if course.operator == Operator::Absent {
            Some(count as u64)
        } else {
            None
        },
        clients: if draws.chance(70) {
            1_000
        } else {
            draws.up_to(4)
        },
        response_memory: if draws.chance(80) { 67_108_864 } else { 2_000 },
    }
}

// Adds `count` drawn clients. Their changes have numbers from `mark` on.
fn draw_peers(
    alloc: Global,
    salt: &Salt,
    draws: &mut Draws,
    count: usize,
    faults: u64,
    mark: u64,
    peers: &mut Vec<Peer>,
) -> Result<(), AllocError> {
    for index in 0..count {
        let first = mark.saturating_add((index as u64).saturating_mul(MARKS));
        peers.push(draw_peer(alloc, salt, draws, faults, first)?)?;
    }
    Ok(())
}

// Returns a schedule of these clients in which nothing fails. The first `crowd` of them are of one USS
// and many.
fn undisturbed(draws: &mut Draws, peers: Vec<Peer>, crowd: usize) -> Plan {
    let count = peers.len();
    Plan {
        peers,
        crowd,
        course: flooded_course(draws),
        limits: Limits {
            count: Some(count as u64),
            clients: 1_000,
            response_memory: 67_108_864,
        },
        explaining: Explaining::Off,
        reloads: 0,
        clock_faults: 0,
        store_faults: 0,
    }
}

// Draws a schedule in which one USS sends many requests at once, and others a few.
fn draw_flooded_plan(
    alloc: Global,
    salt: &Salt,
    draws: &mut Draws,
    mark: u64,
) -> Result<Plan, AllocError> {
    let mut peers = Vec::new(alloc);
    for _ in 0..FLOODS {
        peers.push(draw_flood(alloc, salt, draws)?)?;
    }
    let others = draws.up_to(4);
    draw_peers(alloc, salt, draws, others, 0, mark, &mut peers)?;
    Ok(undisturbed(draws, peers, 0))
}

// Draws a client of the first USS with one or two requests.
fn draw_one_of_many(
    alloc: Global,
    salt: &Salt,
    draws: &mut Draws,
    mark: u64,
) -> Result<Peer, AllocError> {
    let count = draws.up_to(2);
    let mut writer = Writer {
        alloc,
        salt,
        draws: draws.split(),
        token: 0,
        mark,
        script: Script::new(alloc),
    };
    writer.put_all(count)?;
    let manner = faithful(draws);
    Ok(peer_of(alloc, writer.into_script(), manner))
}

/// Draws a schedule in which many clients of one USS send requests, and others a few. The changes in
/// it have numbers from `mark` on.
pub(crate) fn draw_crowded_plan(
    alloc: Global,
    salt: &Salt,
    draws: &mut Draws,
    mark: u64,
) -> Result<Plan, AllocError> {
    let mut peers = Vec::new(alloc);
    for index in 0..CROWD {
        let first = mark.saturating_add((index as u64).saturating_mul(MARKS));
        peers.push(draw_one_of_many(alloc, salt, draws, first)?)?;
    }
    let first = mark.saturating_add((CROWD as u64).saturating_mul(MARKS));
    let others = draws.up_to(4);
    draw_peers(alloc, salt, draws, others, 0, first, &mut peers)?;
    Ok(undisturbed(draws, peers, CROWD))
}

// Draws a client that sends a change, and soon resets its connection.
fn draw_hasty(
    alloc: Global,
    salt: &Salt,
    draws: &mut Draws,
    mark: u64,
) -> Result<Peer, AllocError> {
    let token = draws.below(4) as usize;
    let mut writer = Writer {
        alloc,
        salt,
        draws: draws.split(),
        token,
        mark,
        script: Script::new(alloc),
    };
    writer.put_change()?;
    let mut manner = faithful(draws);
    manner.piece = usize::MAX;
    manner.resets = draws.below(HASTE);
    Ok(peer_of(alloc, writer.into_script(), manner))
}

/// Draws a schedule in which clients reset their connections while their changes wait for the log. One
/// more client stays, so that the instance takes these changes. The changes have numbers from `mark`
/// on.
pub(crate) fn draw_hasty_plan(
    alloc: Global,
    salt: &Salt,
    draws: &mut Draws,
    mark: u64,
) -> Result<Plan, AllocError> {
    let mut peers = Vec::new(alloc);
    let mut first = mark;
    for _ in 0..draws.up_to(6) {
        peers.push(draw_hasty(alloc, salt, draws, first)?)?;
        first = first.saturating_add(MARKS);
    }
    let mut last = draw_peer(alloc, salt, draws, 0, first)?;
    last.manner.ends = false;
    peers.push(last)?;
    Ok(undisturbed(draws, peers, 0))
}

// Draws any other schedule.
fn draw_other_plan(
    alloc: Global,
    salt: &Salt,
    draws: &mut Draws,
    mark: u64,
) -> Result<Plan, AllocError> {
    let count = draws.up_to(8);
    let faults = percentage(draws, 60, 70);
    let mut peers = Vec::new(alloc);
    draw_peers(alloc, salt, draws, count, faults, mark, &mut peers)?;
    let course = course(draws);
    Ok(Plan {
        peers,
        crowd: 0,
        course,
        limits: limits(draws, count, course),
        explaining: if draws.chance(30) {
            Explaining::On
        } else {
            Explaining::Off
        },
        reloads: percentage(draws, 40, 100),
        clock_faults: percentage(draws, 10, 20),
        store_faults: percentage(draws, 40, 60),
    })
}

/// Draws a schedule. The changes in it have numbers from `mark` on.
pub(crate) fn draw_plan(
    alloc: Global,
    salt: &Salt,
    draws: &mut Draws,
    mark: u64,
) -> Result<Plan, AllocError> {
    if draws.chance(6) {
        draw_flooded_plan(alloc, salt, draws, mark)
    } else {
        draw_other_plan(alloc, salt, draws, mark)
    }
}
