//! What must hold after a process of a simulated pool.
use crate::journal::{Answered, Journal};
use crate::peer::Peer;
use crate::plan::Plan;
use crate::pool_log::{LogState, Offered};
use crate::pool_reference::{Asked, Kind as RequestKind, PoolReference};
use crate::shared::{SECOND, Shared};
use crate::sockets::SimSockets;
use crate::verdict::{Failure, Flaw, are_same, check, check_peers};
use entity_core::nature::Kind;
use entity_core::subscription::Sub;
use entity_maps::subscriptions::Subscriptions;
use pool_entry::pool_call::PoolCall;
use pool_entry::read::{EntryContent, read_entry};
use space_snapshot::snapshot::Snapshot;
use std::alloc::Global;

// The time limits of a change that was offered, and of any other request, with that of a round.
const CHANGES: u64 = 10 * SECOND + SECOND / 2;

const OTHERS: u64 = 2 * SECOND + SECOND / 2;

// The budget for unsent bytes that no simulated client exceeds.
const LARGE: usize = 1_000_000;

/// A process that ran, and what it left.
#[derive(Clone, Copy)]
pub(crate) struct Process<'p, 'a> {
    pub(crate) plan: &'p Plan,
    pub(crate) shared: &'p Shared,
    pub(crate) sockets: &'p SimSockets<'a>,
    pub(crate) journal: &'p Journal<'a>,
    pub(crate) log: &'p LogState<'a>,
    /// The retention of its purges.
    pub(crate) retention: Option<u64>,
    /// True if the service returned no error.
    pub(crate) has_ended: bool,
}

/// What happened in the processes of a pool.
#[derive(Clone, Copy, Debug)]
pub(crate) struct PoolFacts {
    pub(crate) processes: u64,
    pub(crate) answers: usize,
    pub(crate) refused: usize,
    pub(crate) entries: usize,
    pub(crate) offers: usize,
    pub(crate) lost: usize,
    pub(crate) aborted: usize,
    pub(crate) waits: u64,
}

impl PoolFacts {
    /// Returns the facts of no process.
    pub(crate) fn none() -> PoolFacts {
        PoolFacts {
            processes: 0,
            answers: 0,
            refused: 0,
            entries: 0,
            offers: 0,
            lost: 0,
            aborted: 0,
            waits: 0,
        }
    }

    /// Returns these facts with those of a further process.
    pub(crate) fn with(self, more: PoolFacts) -> PoolFacts {
        PoolFacts {
            processes: self.processes.saturating_add(more.processes),
            answers: self.answers.saturating_add(more.answers),
            refused: self.refused.saturating_add(more.refused),
            entries: more.entries,
            offers: self.offers.saturating_add(more.offers),
            lost: self.lost.saturating_add(more.lost),
            aborted: self.aborted.saturating_add(more.aborted),
            waits: self.waits.saturating_add(more.waits),
        }
    }
}

// How many requests of a connection were answered, when the last one was, and how many entries the log
// had then.
#[derive(Clone, Copy, Debug)]
struct Progress {
    nth: usize,
    since: u64,
    stored: usize,
}

// Returns what is known of the next request of a client.
fn asked_of(peer: &Peer, progress: Progress) -> Asked {
    let Progress { nth, since, stored } = progress;
    match peer.ready.get(nth) {
        Some(ready) => Asked {
            since: ready.now.max(since),
            stored: ready.stored.max(stored),
        },
        None => Asked { since, stored },
    }
}

// Returns true if nothing but the log delays the requests of the client of that name.
fn is_prompt(plan: &Plan, name: usize, peer: &Peer) -> bool {
    peer.is_faithful()
        && peer.manner.gulp == usize::MAX
        && plan.limits.response_memory > LARGE
        && name >= plan.crowd
}

// Returns true if a response came in time.
fn is_in_time(kind: RequestKind, answered: &Answered, asked: Asked) -> bool {
    let most = match kind {
        RequestKind::Change if answered.status != 503 => CHANGES,
        _ => OTHERS,
    };
    answered.reached.now.saturating_sub(asked.since) <= most
}

// Checks an answered request, and makes its response.
fn check_answer(
    process: Process<'_, '_>,
    reference: &mut PoolReference<'_>,
    answered: &Answered,
    progress: &mut Progress,
) -> Result<(), Flaw> {
    let Process {
        plan,
        shared,
        sockets,
        log,
        ..
    } = process;
    let Some(name) = reference.reference.name_of(answered.connection) else {
        return Err(Flaw::Extra);
    };
    let Some(peer) = sockets.peers.get(name) else {
        return Err(Flaw::Extra);
    };
    let asked = asked_of(peer, *progress);
    let table = shared.table_at(answered.received);
    let is_limited = shared.was_stopping(answered.received);
    let kind = reference.answer(log, answered, asked, table, is_limited)?;
    if is_prompt(plan, name, peer) {
        check(is_in_time(kind, answered, asked), Flaw::Slow)?;
    }
    progress.nth = progress.nth.saturating_add(1);
    progress.since = answered.reached.now;
    progress.stored = answered.reached.stored;
    Ok(())
}

// Checks all answered requests, and makes their responses.
fn check_answers(
    alloc: Global,
    process: Process<'_, '_>,
    reference: &mut PoolReference<'_>,
) -> Result<(), Flaw> {
    let mut progress = Vec::new(alloc);
    for _ in 0..process.sockets.peers.len() {
        let none = Progress {
            nth: 0,
            since: 0,
            stored: 0,
        };
        check(progress.push(none).is_ok(), Flaw::Memory)?;
    }
    for answered in &process.journal.answers {
        let Some(progress) = progress.get_mut(answered.connection) else {
            return Err(Flaw::Extra);
        };
        check_answer(process, reference, answered, progress)?;
    }
    Ok(())
}

// Returns true if two calls are those of one request.
fn are_one(call: &PoolCall, other: &PoolCall) -> bool {
    call.caller.uss.is(&other.caller.uss)
        && call.method.as_slice() == other.method.as_slice()
        && call.path.text() == other.path.text()
        && call.body.as_slice() == other.body.as_slice()
}

// Checks the calls of an offered batch: each is of the time of its offer, and was not offered before.
fn check_batch(
    calls: Vec<PoolCall>,
    offer: &Offered,
    before: &mut Vec<PoolCall>,
) -> Result<(), Flaw> {
    for call in calls {
        let is_new = !before.iter().any(|other| are_one(&call, other));
        check(is_new && call.moment == offer.moment, Flaw::Offer)?;
        check(before.push(call).is_ok(), Flaw::Memory)?;
    }
    Ok(())
}

// Checks what the process offered. A purge ends the retention before its time.
fn check_offers(alloc: Global, process: Process<'_, '_>) -> Result<(), Flaw> {
    let mut before = Vec::new(alloc);
    for offer in &process.log.offers {
        match read_entry(alloc, offer.bytes.as_slice()) {
            Ok(EntryContent::Batch(calls)) => check_batch(calls, offer, &mut before)?,
            Ok(EntryContent::Purge(until)) => {
                let Some(seconds) = process.retention else {
                    return Err(Flaw::Offer);
                };
                check(until.saturating_add(seconds) <= offer.moment, Flaw::Offer)?;
            }
            Err(_) => return Err(Flaw::Offer),
        }
    }
    Ok(())
}

// Returns true if both have the same subscription.
fn is_same_sub(sub: &Sub, other: Option<&Sub>) -> bool {
    match other {
        Some(other) => sub.serial == other.serial && sub.index == other.index,
        None => false,
    }
}

// Returns true if both have the same subscriptions.
fn have_same_subs(one: &Subscriptions, other: &Subscriptions) -> bool {
    one.len() == other.len()
        && one
            .iter()
            .all(|sub| is_same_sub(sub, other.get(sub.id.number())))
}

// Returns true if both have the same entities of a kind.
fn have_same(alloc: Global, one: Snapshot<'_>, other: Snapshot<'_>, kind: Kind) -> Option<bool> {
    let one = one.entities.all(alloc, kind).ok()?;
    let other = other.entities.all(alloc, kind).ok()?;
    Some(are_same(one.as_slice(), other.as_slice()))
}

// Returns true if both airspaces are the same.
fn is_same_space(alloc: Global, one: Snapshot<'_>, other: Snapshot<'_>) -> Option<bool> {
    let is_same = have_same(alloc, one, other, Kind::Intent)?
        && have_same(alloc, one, other, Kind::Constraint)?;
    Some(
        is_same
            && one.serial == other.serial
            && have_same_subs(one.subscriptions, other.subscriptions),
    )
}

// Checks the airspace after the entries that the process took.
fn check_space(
    alloc: Global,
    process: Process<'_, '_>,
    reference: &mut PoolReference<'_>,
    airspace: Snapshot<'_>,
) -> Result<(), Flaw> {
    let given = process.shared.given();
    let space = reference.space_at(process.log.entries.as_slice(), given)?;
    match is_same_space(alloc, airspace, space.snapshot()) {
        Some(is_same) => check(is_same, Flaw::Airspace),
        None => Err(Flaw::Memory),
    }
}

// Checks all but single clients.
fn check_process(
    alloc: Global,
    process: Process<'_, '_>,
    reference: &mut PoolReference<'_>,
    airspace: Snapshot<'_>,
) -> Result<(), Flaw> {
    check(process.has_ended, Flaw::Ended)?;
    check(!process.journal.is_lossy, Flaw::Memory)?;
    let events = process.sockets.events.as_slice();
    check(reference.reference.take_all(events).is_some(), Flaw::Extra)?;
    check_answers(alloc, process, reference)?;
    check_offers(alloc, process)?;
    check_space(alloc, process, reference, airspace)
}

// Returns what happened in a process.
fn facts_of(process: Process<'_, '_>) -> PoolFacts {
    let mut refused = 0_usize;
    for answered in &process.journal.answers {
        if answered.status == 500 || answered.status == 503 {
            refused = refused.saturating_add(1);
        }
    }
    PoolFacts {
        processes: 1,
        answers: process.journal.answers.len(),
        refused,
        entries: process.log.entries.len(),
        offers: process.log.offers.len(),
        lost: if process.shared.is_lost() { 1 } else { 0 },
        aborted: process.journal.aborted.len(),
        waits: process.sockets.waits,
    }
}

/// Judges a process of a pool, which has this airspace at its end.
pub(crate) fn judge_process(
    alloc: Global,
    process: Process<'_, '_>,
    reference: PoolReference<'_>,
    airspace: Snapshot<'_>,
) -> Result<PoolFacts, Failure> {
    let mut reference = reference;
    if let Err(flaw) = check_process(alloc, process, &mut reference, airspace) {
        return Err(Failure::of(flaw));
    }
    let Process {
        plan,
        shared,
        sockets,
        journal,
        ..
    } = process;
    let connections = reference.reference.connections.as_slice();
    check_peers(
        plan,
        shared,
        sockets,
        journal,
        connections,
        shared.is_lost(),
    )?;
    Ok(facts_of(process))
}
