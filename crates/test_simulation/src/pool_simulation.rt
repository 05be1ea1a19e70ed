//! One simulation of an instance of a pool: its processes, one after the other, over a log in memory.
use crate::clock::SimClock;
use crate::draws::Draws;
use crate::journal::Journal;
use crate::plan::Plan;
use crate::pool_log::{Coming, LogState, SimLog, SimLogIo, Stored};
use crate::pool_plan::{PoolPlan, draw_log, draw_pool, draw_process, others_mark};
use crate::pool_reference::{PoolReference, make_entry};
use crate::pool_verdict::{PoolFacts, Process, judge_process};
use crate::pool_writers::Others;
use crate::reference::Reference;
use crate::shared::{SECOND, Shared};
use crate::simulation::{Setting, serve, sockets_of};
use crate::tokens::{FIRST, SimTokens};
use crate::verdict::{Failure, Flaw};
use pool_backend::pool::PoolInstance;
use pool_backend::timeouts::Timeouts;
use pool_core::log::Log;
use pool_instance::instance::Instance;
use server_base::limits::MAX_CONNECTIONS;
use server_watch::token_watch::TokenWatch;
use service_calls::service::Service;
use space_core::purge_ended::PurgeEnded;
use space_memory::memory::MemorySpace;
use space_snapshot::snapshot::SnapshotSource;
use std::alloc::{AllocError, Global};
use wire_http::Explaining;
use wire_route::routes::Routes;

// The number of the first process. Those of other organizations are less.
const FIRST_NUMBER: u64 = 10;

// The most nanoseconds between two entries that a new process reads.
const READ: u64 = 30_000_000;

// What a process leaves: the entries, one that is stored later, and the time.
#[derive(Drop)]
struct Left {
    entries: Vec<Stored>,
    later: Option<Coming>,
    now: u64,
}

// Returns a copy of an entry that arrives at a time.
fn copy_of(alloc: Global, entry: &Stored, arrives: u64) -> Result<Stored, AllocError> {
    Ok(Stored {
        writer: entry.writer,
        bytes: Vec::from_slice(alloc, entry.bytes.as_slice())?,
        arrives,
        has_other_clock: entry.has_other_clock,
    })
}

// Returns copies of the entries, as they arrive at a process that starts at a time.
fn copies_of(
    alloc: Global,
    entries: &[Stored],
    draws: &mut Draws,
    now: u64,
) -> Result<Vec<Stored>, AllocError> {
    let mut copies = Vec::new(alloc);
    let mut arrives = now;
    for entry in entries {
        arrives = arrives.saturating_add(draws.below(READ));
        copies.push(copy_of(alloc, entry, arrives)?)?;
    }
    Ok(copies)
}

// Returns the offer that is stored only after the process has ended, if there is one.
fn later_of(alloc: Global, log: &LogState<'_>, writer: u64, now: u64) -> Option<Coming> {
    let offer = log.offers.get(log.made)?;
    let at = offer.stores?;
    Some(Coming {
        at: at.max(now),
        writer,
        bytes: Vec::from_slice(alloc, offer.bytes.as_slice()).ok()?,
        has_other_clock: false,
    })
}

// Returns what a process leaves, some time after it has ended.
fn left_by(
    alloc: Global,
    log: &LogState<'_>,
    number: u64,
    draws: &mut Draws,
    ended: u64,
) -> Option<Left> {
    let now = ended.saturating_add(draws.below(5 * SECOND));
    Some(Left {
        entries: copies_of(alloc, log.entries.as_slice(), draws, now).ok()?,
        later: later_of(alloc, log, number, now),
        now,
    })
}

// Returns a service that has made the entries up to a place, as a file of the pool has it.
fn service_at(setting: &Setting, entries: &[Stored], place: usize) -> Option<Service<MemorySpace>> {
    let alloc = setting.alloc;
    let salt = setting.salt.clone().ok()?;
    let mut service = Service::new(MemorySpace::new(alloc), salt);
    for entry in entries.iter().take(place) {
        let bytes = entry.bytes.as_slice();
        let _replies = make_entry(alloc, &setting.routes, &mut service, bytes)?;
    }
    Some(service)
}

// Draws the place of the file from which a process starts: the beginning of the log in some cases.
fn place_of_file(draws: &mut Draws, entries: &[Stored]) -> usize {
    if draws.chance(50) {
        return 0;
    }
    let count = entries.len() as u64;
    draws.below(count.saturating_add(1)) as usize
}

// Returns the plain policy of the process `number`, which has `clients` clients.
fn reference_of<'a>(
    setting: &'a Setting,
    clients: usize,
    number: u64,
    service: Service<MemorySpace>,
    place: usize,
) -> Option<PoolReference<'a>> {
    let alloc = setting.alloc;
    let routes = &setting.routes;
    let reference = Reference::new(alloc, routes, &setting.salt, Explaining::Off, clients)?;
    Some(PoolReference::new(alloc, routes, reference, number, service, place))
}

// Returns the log as the process with that index finds it.
fn log_of<'a>(
    setting: &Setting,
    shared: &'a Shared,
    pool: PoolPlan,
    draws: &mut Draws,
    index: u64,
    left: Left,
    place: usize,
) -> Option<SimLog<'a>> {
    let alloc = setting.alloc;
    let Left {
        entries,
        later,
        now,
    } = left;
    let mut others = Others {
        alloc,
        tokens: &setting.tokens,
        salt: &setting.salt,
        draws: draws.split(),
    };
    let coming = others.draw(now, others_mark(index), later)?;
    let course = draw_log(draws, now, pool);
    let number = FIRST_NUMBER.saturating_add(index);
    Some(SimLog::new(
        alloc,
        shared,
        draws.split(),
        course,
        number,
        entries,
        coming,
        place,
    ))
}

// Returns an instance over its log and a space, as `serve --pool` makes it.
fn backend_of<'a, S: PurgeEnded + SnapshotSource + Drop>(
    setting: &Setting,
    log: SimLog<'a>,
    space: S,
    retention: Option<u64>,
) -> Option<PoolInstance<SimLog<'a>, SimLogIo, S>> {
    let alloc = setting.alloc;
    let service = Service::new(space, setting.salt.clone().ok()?);
    let instance = Instance::new(alloc, log, service, retention);
    let routes = Routes::new(alloc).ok()?;
    let times = Timeouts::usual();
    PoolInstance::new(alloc, instance, SimLogIo, routes, times, MAX_CONNECTIONS).ok()
}

// Returns the watch of the token file.
fn watch_of<'a>(
    alloc: Global,
    shared: &'a Shared,
    draws: Draws,
    percent: u64,
) -> Option<TokenWatch<SimTokens<'a>>> {
    let source = SimTokens {
        alloc,
        shared,
        draws,
        percent,
    };
    Some(TokenWatch::new(source, String::from_str(alloc, FIRST).ok()?))
}

// Runs a process, and judges what happened. Returns what it leaves, too.
fn run_process<S: PurgeEnded + SnapshotSource + Drop>(
    setting: &Setting,
    mut plan: Plan,
    pool: PoolPlan,
    draws: &mut Draws,
    shared: &Shared,
    log: SimLog<'_>,
    space: S,
    reference: PoolReference<'_>,
) -> Option<Result<(PoolFacts, Left), Failure>> {
    let alloc = setting.alloc;
    let mut backend = backend_of(setting, log, space, pool.retention)?;
    let watch = watch_of(alloc, shared, draws.split(), plan.reloads)?;
    let mut clock = SimClock::new(shared, draws.split(), plan.clock_faults);
    let mut journal = Journal::new(alloc, shared);
    let mut sockets = sockets_of(alloc, &mut plan, shared, draws.split());
    let ended = serve(
        setting,
        &plan,
        pool.retention,
        &mut backend,
        watch,
        &mut clock,
        &mut sockets,
        &mut journal,
    );
    let log = backend.instance().log();
    let left = left_by(alloc, &log.state, log.number(), draws, shared.now())?;
    let process = Process {
        plan: &plan,
        shared,
        sockets: &sockets,
        journal: &journal,
        log: &log.state,
        retention: pool.retention,
        has_ended: ended.is_ok(),
    };
    let airspace = backend.instance().space().snapshot().ok()?;
    match judge_process(alloc, process, reference, airspace) {
        Ok(facts) => Some(Ok((facts, left))),
        Err(failure) => Some(Err(failure)),
    }
}

// Runs and judges the process with that index, behind those before it.
fn run_next(
    setting: &Setting,
    pool: PoolPlan,
    draws: &mut Draws,
    index: u64,
    left: Left,
) -> Option<Result<(PoolFacts, Left), Failure>> {
    let alloc = setting.alloc;
    let plan = draw_process(alloc, &setting.salt, draws, index).ok()?;
    let clients = plan.peers.len();
    let number = FIRST_NUMBER.saturating_add(index);
    let place = place_of_file(draws, left.entries.as_slice());
    let space = service_at(setting, left.entries.as_slice(), place)?.into_space();
    let service = service_at(setting, left.entries.as_slice(), place)?;
    let reference = reference_of(setting, clients, number, service, place)?;
    let shared = Shared::new(alloc, clients).ok()?;
    shared.pass(left.now, 1_000);
    let log = log_of(setting, &shared, pool, draws, index, left, place)?;
    run_process(setting, plan, pool, draws, &shared, log, space, reference)
}

/// Runs the simulation of a pool of that seed.
pub(crate) fn simulate_pool(setting: &Setting, seed: u64) -> Result<PoolFacts, Failure> {
    let mut draws = Draws::new(seed);
    let pool = draw_pool(&mut draws);
    let mut facts = PoolFacts::none();
    let mut left = Left {
        entries: Vec::new(setting.alloc),
        later: None,
        now: 0,
    };
    for index in 0..pool.processes {
        match run_next(setting, pool, &mut draws, index, left) {
            Some(Ok((more, next))) => {
                facts = facts.with(more);
                left = next;
            }
            Some(Err(failure)) => return Err(failure),
            None => return Err(Failure::of(Flaw::Memory)),
        }
    }
    Ok(facts)
}
