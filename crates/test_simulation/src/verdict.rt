//! What must hold after a simulation.
use crate::journal::Journal;
use crate::peer::{Manner, Peer};
use crate::plan::Plan;
use crate::record::Noted;
use crate::reference::Reference;
use crate::shared::{SECOND, Shared};
use crate::simulation::CountsFailures;
use crate::sockets::{Operator, SimSockets};
use entity_core::entity::Entity;
use entity_core::nature::Kind;
use service_calls::service::Service;
use space_core::space::Space;
use std::alloc::Global;
use wire_http::{Connection, StreamFault};

// The longest time that a client has to close, in nanoseconds: the service reads up to 64 chunks of
// what it still sends, and waits 200 ms for each.
const CLOSING: u64 = 15 * SECOND;

// For how many requests of others one may wait: about those that are answered while its class is
// charged for moving the bytes of a request, for the call and for the commit.
const MOST_OTHERS: u64 = 30;

/// What went wrong.
#[derive(Clone, Copy, Debug, PartialEq, Eq)]
pub(crate) enum Flaw {
    /// Memory ran out, or the log lost a line.
    Memory,
    /// The service returned an error.
    Ended,
    /// A response in the log is not one that the plain policy can give.
    Extra,
    /// A client received other bytes than those of the plain policy.
    Bytes,
    /// A client that keeps all limits did not receive all its responses.
    Unanswered,
    /// A request was answered without the changes of a failed commit, or the other way round.
    Commit,
    /// The airspace at the end is not that of the plain policy.
    Airspace,
    /// A client was not closed.
    Open,
    /// A client was closed too early, or too late.
    Early,
    Late,
    /// A request waited for too many others.
    Unfair,
    /// The history has not what the clients sent and took.
    History,
    /// An instance of a pool gave a response too late, answered a reading without an entry that was
    /// stored before it, gave status 503 without a reason, or offered something else than its
    /// clients asked for.
    Slow,
    Old,
    /// A change was denied before the outcome of a batch that was offered before it.
    Unsettled,
    Refused,
    Offer,
}

impl Flaw {
    /// Returns it in words.
    pub(crate) fn text(self) -> &'static str {
        match self {
            Flaw::Memory => "memory ran out",
            Flaw::Ended => "the service returned an error",
            Flaw::Extra => "a response that the policy cannot give",
            Flaw::Bytes => "a client received other bytes than those of the policy",
            Flaw::Unanswered => "a client did not receive all its responses",
            Flaw::Commit => "a failed commit and the faults do not match",
            Flaw::Airspace => "the airspace at the end is not that of the policy",
            Flaw::Open => "a client was not closed",
            Flaw::Early => "a client was closed before its time limit",
            Flaw::Late => "a client was closed after its time limit",
            Flaw::Unfair => "a request waited for too many others",
            Flaw::History => "the history differs from what the clients did",
            Flaw::Slow => "a response came after its time limit",
            Flaw::Old => "a reading was answered without an entry that was stored before it",
            Flaw::Unsettled =>
                "a change was denied before the outcome of a batch that was offered before it",
            Flaw::Refused => "a request got status 503 without a reason",
            Flaw::Offer => "an offer is not what the clients asked for",
        }
    }
}

/// What a client took, and what it should have.
#[derive(Debug, Drop)]
pub(crate) struct Texts {
    pub(crate) taken: Vec<u8>,
    pub(crate) expected: Vec<u8>,
}

/// A failed simulation: what went wrong, and with which client if it is known.
#[derive(Debug, Drop)]
pub(crate) struct Failure {
    pub(crate) flaw: Flaw,
    pub(crate) client: Option<Summary>,
    pub(crate) texts: Option<Texts>,
}

impl Failure {
    /// Creates a failure that concerns no client.
    pub(crate) fn of(flaw: Flaw) -> Failure {
        Failure {
            flaw,
            client: None,
            texts: None,
        }
    }
}

/// What is known of a client with which something went wrong.
#[derive(Clone, Copy, Debug)]
pub(crate) struct Summary {
    name: usize,
    manner: Manner,
    requests: usize,
    whole: usize,
    answers: u64,
    sizes: Sizes,
    times: Times,
}

// How many bytes arrived, were read, were read before the end, were taken, and were expected.
#[derive(Clone, Copy, Debug)]
struct Sizes {
    arrived: usize,
    read: usize,
    used: usize,
    taken: usize,
    expected: usize,
}

// When things happened to a client, in nanoseconds.
#[derive(Clone, Copy, Debug)]
struct Times {
    accepted: u64,
    begun: u64,
    sent: u64,
    blocked: u64,
    ended: u64,
    shut: u64,
    closed: u64,
}

// Returns the summary of a client.
fn summarize(peer: &Peer, shared: &Shared, name: usize, expected: usize) -> Summary {
    Summary {
        name,
        manner: peer.manner,
        requests: peer.ends.len(),
        whole: peer.ready.len(),
        answers: match peer.connection {
            Some(connection) => shared.answers_of(connection),
            None => 0,
        },
        sizes: Sizes {
            arrived: peer.arrived,
            read: peer.read,
            used: peer.used,
            taken: peer.taken.len(),
            expected,
        },
        times: Times {
            accepted: peer.accepted_at,
            begun: peer.begun_at,
            sent: peer.sent_at,
            blocked: peer.blocked_at,
            ended: peer.ended_at,
            shut: peer.shut_at,
            closed: shared.closed_at(name),
        },
    }
}

/// What happened in a simulation that passed.
#[derive(Clone, Copy, Debug)]
pub(crate) struct Facts {
    pub(crate) answers: usize,
    pub(crate) faults: usize,
    pub(crate) longest: u64,
    pub(crate) aborted: usize,
    pub(crate) waits: u64,
}

/// Returns an error unless the condition holds.
pub(crate) fn check(holds: bool, flaw: Flaw) -> Result<(), Flaw> {
    if holds { Ok(()) } else { Err(flaw) }
}

// Returns true if bytes begin with others.
fn begins_with(bytes: &[u8], front: &[u8]) -> bool {
    match bytes.get(..front.len()) {
        Some(part) => part == front,
        None => false,
    }
}

// Returns true if the clock failed for a connection.
fn has_clock_fault(journal: &Journal<'_>, connection: usize) -> bool {
    for aborted in &journal.aborted {
        if aborted.connection == connection && aborted.fault == StreamFault::Clock {
            return true;
        }
    }
    false
}

// Makes all answered calls again.
fn replay(
    reference: &mut Reference<'_>,
    journal: &Journal<'_>,
    events: &[Noted],
) -> Result<(), Flaw> {
    if reference.take_all(events).is_none() {
        return Err(Flaw::Extra);
    }
    for answered in &journal.answers {
        if reference.answer(answered).is_none() {
            return Err(Flaw::Extra);
        }
    }
    Ok(())
}

// Returns the number of faults in the log.
fn faults_in(journal: &Journal<'_>) -> usize {
    let mut count = 0_usize;
    for answered in &journal.answers {
        if answered.status == 500 {
            count = count.saturating_add(1);
        }
    }
    count
}

/// Returns true if the two lists have the same entities, at the same serials.
pub(crate) fn are_same(one: &[Entity], other: &[Entity]) -> bool {
    one.len() == other.len()
        && one.iter().zip(other).all(|(e, f)| e.id == f.id
            && e.serial == f.serial
            && e.version == f.version)
}

// Returns true if both spaces have the same entities of a kind.
fn have_same<S: Space>(space: &mut S, reference: &mut Reference<'_>, kind: Kind) -> Option<bool> {
    let one = space.all(kind).ok()?;
    let other = reference.space().all(kind).ok()?;
    Some(are_same(one.as_slice(), other.as_slice()))
}

// Returns true if both spaces are the same.
fn is_same_space<S: Space>(space: &mut S, reference: &mut Reference<'_>) -> Option<bool> {
    let is_same = have_same(space, reference, Kind::Intent)?
        && have_same(space, reference, Kind::Constraint)?;
    let serials = (space.serial().ok()?, reference.space().serial().ok()?);
    Some(is_same && serials.0 == serials.1)
}

// Checks what a client received.
fn check_bytes(
    peer: &Peer,
    expected: &[u8],
    answers: u64,
    is_stopped: bool,
    has_clock_fault: bool,
) -> Result<(), Flaw> {
    let taken = peer.taken.as_slice();
    check(begins_with(expected, taken), Flaw::Bytes)?;
    if !peer.is_faithful() || has_clock_fault {
        return Ok(());
    }
    check(taken.len() == expected.len(), Flaw::Unanswered)?;
    check(
        is_stopped || answers == peer.ends.len() as u64,
        Flaw::Unanswered,
    )
}

// A time limit: when it began, and its least and greatest length in seconds.
#[derive(Clone, Copy, Debug)]
struct Span {
    since: u64,
    least: u64,
    most: u64,
}

// Returns the time limit after which the service ends its side of a client that does no more.
fn span_of(peer: &Peer, expected: usize, answers: u64) -> Span {
    let last = peer.accepted_at.max(peer.sent_at);
    if peer.taken.len() < expected {
        return Span {
            since: peer.blocked_at,
            least: 29,
            most: 33,
        };
    }
    if peer.has_ended_first() {
        return Span {
            since: last.max(peer.ended_at).max(peer.begun_at),
            least: 0,
            most: 3,
        };
    }
    if peer.is_last && answers >= peer.ends.len() as u64 {
        return Span {
            since: last,
            least: 0,
            most: 3,
        };
    }
    if peer.used == 0 {
        return Span {
            since: peer.accepted_at,
            least: 9,
            most: 13,
        };
    }
    if peer.used > peer.whole() {
        let is_large = peer.used.saturating_sub(peer.whole()) > 60_000;
        return Span {
            since: last.max(peer.begun_at),
            least: if is_large { 4 } else { 29 },
            most: 33,
        };
    }
    Span {
        since: last,
        least: 74,
        most: 78,
    }
}

// Checks when a client was closed.
fn check_times(
    peer: &Peer,
    closed: u64,
    expected: usize,
    answers: u64,
    has_clock_fault: bool,
) -> Result<(), Flaw> {
    check(closed != 0, Flaw::Open)?;
    if peer.is_refused {
        return Ok(());
    }
    let over = if peer.is_shut { peer.shut_at } else { closed };
    check(closed <= over.saturating_add(CLOSING), Flaw::Late)?;
    if peer.is_reset {
        let last = peer.ended_at.max(peer.sent_at);
        return check(over <= last.saturating_add(2 * SECOND), Flaw::Late);
    }
    if has_clock_fault {
        return Ok(());
    }
    let Span { since, least, most } = span_of(peer, expected, answers);
    check(
        over >= since.saturating_add(least.saturating_mul(SECOND)),
        Flaw::Early,
    )?;
    check(
        over <= since.saturating_add(most.saturating_mul(SECOND)),
        Flaw::Late,
    )
}

// How much of one client's events the history had so far: accepts, and bytes received and sent.
#[derive(Clone, Copy)]
struct Progress {
    accepted: usize,
    read: usize,
    sent: usize,
}

// Adds an event of a client. Returns `None` if it is not what the client sent or took.
fn add(peer: &Peer, name: usize, event: &Noted, progress: Progress) -> Option<Progress> {
    let mut progress = progress;
    match event {
        Noted::Accepted(other) if *other == name => {
            progress.accepted = progress.accepted.saturating_add(1);
        }
        Noted::Received(other, bytes) if *other == name => {
            let rest = peer.script.get(progress.read..)?;
            if !begins_with(rest, bytes.as_slice()) {
                return None;
            }
            progress.read = progress.read.saturating_add(bytes.len());
        }
        Noted::Sent(other, bytes) if *other == name => {
            let rest = peer.taken.get(progress.sent..)?;
            if !begins_with(rest, bytes.as_slice()) {
                return None;
            }
            progress.sent = progress.sent.saturating_add(bytes.len());
        }
        _ => {}
    }
    Some(progress)
}

// Returns true if the history has exactly what a client sent and took.
fn is_in_history(peer: &Peer, name: usize, events: &[Noted]) -> bool {
    let mut progress = Progress {
        accepted: 0,
        read: 0,
        sent: 0,
    };
    for event in events {
        match add(peer, name, event, progress) {
            Some(more) => progress = more,
            None => return false,
        }
    }
    let accepted = if peer.connection.is_some() { 1 } else { 0 };
    progress.accepted == accepted && progress.read == peer.read && progress.sent == peer.taken.len()
}

// Checks one client. `is_cut` is true if the service ended before its time.
fn check_peer(
    plan: &Plan,
    shared: &Shared,
    sockets: &SimSockets<'_>,
    journal: &Journal<'_>,
    connections: &[Connection],
    is_cut: bool,
    name: usize,
    peer: &Peer,
) -> Result<(), Flaw> {
    check(
        is_in_history(peer, name, sockets.events.as_slice()),
        Flaw::History,
    )?;
    let is_stopped = plan.course.operator != Operator::Absent;
    let Some(connection) = peer.connection else {
        return check(is_stopped || is_cut, Flaw::Unanswered);
    };
    let Some(made) = connections.get(name) else {
        return Err(Flaw::Extra);
    };
    let faulty = has_clock_fault(journal, connection);
    let expected = made.output();
    if is_cut {
        return check(begins_with(expected, peer.taken.as_slice()), Flaw::Bytes);
    }
    let answers = shared.answers_of(connection);
    check_bytes(peer, expected, answers, is_stopped, faulty)?;
    let closed = shared.closed_at(name);
    if is_stopped {
        return check(
            closed <= sockets.stopped_at.saturating_add(9 * SECOND),
            Flaw::Late,
        );
    }
    check_times(peer, closed, expected.len(), answers, faulty)
}

// Returns copies of what a client took and should have.
fn texts_of(alloc: Global, taken: &[u8], expected: &[u8]) -> Option<Texts> {
    Some(Texts {
        taken: Vec::from_slice(alloc, taken).ok()?,
        expected: Vec::from_slice(alloc, expected).ok()?,
    })
}

/// Checks all clients. `is_cut` is true if the service ended before its time.
pub(crate) fn check_peers(
    plan: &Plan,
    shared: &Shared,
    sockets: &SimSockets<'_>,
    journal: &Journal<'_>,
    connections: &[Connection],
    is_cut: bool,
) -> Result<(), Failure> {
    for (name, peer) in sockets.peers.iter().enumerate() {
        let checked = check_peer(
            plan,
            shared,
            sockets,
            journal,
            connections,
            is_cut,
            name,
            peer,
        );
        if let Err(flaw) = checked {
            let expected: &[u8] = match connections.get(name) {
                Some(connection) => connection.output(),
                None => &[],
            };
            return Err(Failure {
                flaw,
                client: Some(summarize(peer, shared, name, expected.len())),
                texts: texts_of(sockets.alloc, peer.taken.as_slice(), expected),
            });
        }
    }
    Ok(())
}

// Returns for how many others the request at that place of the log waited.
fn waited(peer: &Peer, nth: usize, place: u64, last: u64) -> u64 {
    match peer.ready.get(nth) {
        Some(ready) => place.saturating_sub(ready.total.max(last)),
        None => 0,
    }
}

// Returns for how many others a request of a client waited at most.
fn longest_of(peer: &Peer, connection: usize, journal: &Journal<'_>) -> u64 {
    let mut longest = 0;
    let mut last = 0;
    let mut nth = 0_usize;
    for (place, answered) in journal.answers.iter().enumerate() {
        if answered.connection == connection {
            let place = place as u64;
            longest = waited(peer, nth, place, last).max(longest);
            last = place.saturating_add(1);
            nth = nth.saturating_add(1);
        }
    }
    longest
}

// Returns for how many others a request of a client that takes all at once waited at most.
fn longest_wait(sockets: &SimSockets<'_>, journal: &Journal<'_>) -> u64 {
    let mut longest = 0;
    for peer in &sockets.peers {
        if let Some(connection) = peer.connection
            && peer.is_faithful()
            && peer.manner.gulp == usize::MAX
        {
            longest = longest_of(peer, connection, journal).max(longest);
        }
    }
    longest
}

// Checks the airspace at the end, and that there were faults exactly if the store failed.
fn check_space<S: Space + CountsFailures + Drop>(
    space: S,
    reference: &mut Reference<'_>,
    faults: usize,
) -> Result<(), Flaw> {
    let mut space = space;
    let is_same = is_same_space(&mut space, reference);
    let failed = space.into_failed();
    match is_same {
        Some(is_same) => check(is_same, Flaw::Airspace)?,
        None => return Err(Flaw::Memory),
    }
    check((faults > 0) == (failed > 0), Flaw::Commit)
}

// Checks all but single clients.
fn check_rest<S: Space + CountsFailures + Drop>(
    service: Service<S>,
    reference: &mut Reference<'_>,
    sockets: &SimSockets<'_>,
    journal: &Journal<'_>,
) -> Result<Facts, Flaw> {
    let faults = faults_in(journal);
    check_space(service.into_space(), reference, faults)?;
    let longest = longest_wait(sockets, journal);
    check(longest <= MOST_OTHERS, Flaw::Unfair)?;
    Ok(Facts {
        answers: journal.answers.len(),
        faults,
        longest,
        aborted: journal.aborted.len(),
        waits: sockets.waits,
    })
}

// Checks that the service ended well, and makes all answered calls again.
fn check_begin(
    reference: &mut Reference<'_>,
    sockets: &SimSockets<'_>,
    journal: &Journal<'_>,
    has_ended: bool,
) -> Result<(), Flaw> {
    check(has_ended, Flaw::Ended)?;
    check(!journal.is_lossy, Flaw::Memory)?;
    replay(reference, journal, sockets.events.as_slice())
}

/// Judges what happened in a simulation.
pub(crate) fn judge<S: Space + CountsFailures + Drop>(
    plan: &Plan,
    shared: &Shared,
    sockets: &SimSockets<'_>,
    journal: &Journal<'_>,
    service: Service<S>,
    reference: Reference<'_>,
    has_ended: bool,
) -> Result<Facts, Failure> {
    let mut reference = reference;
    if let Err(flaw) = check_begin(&mut reference, sockets, journal, has_ended) {
        return Err(Failure::of(flaw));
    }
    let connections = reference.connections.as_slice();
    check_peers(plan, shared, sockets, journal, connections, false)?;
    match check_rest(service, &mut reference, sockets, journal) {
        Ok(facts) => Ok(facts),
        Err(flaw) => Err(Failure::of(flaw)),
    }
}
