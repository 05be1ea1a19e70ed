//! Sockets in memory, whose clients follow a drawn schedule.
ghost use Rattle.std.specs.Prelude.{◌≡◌, ◌++◌, ◌∷◌, [], map, OnErr, OnOk};
ghost use Rattle.test_simulation.specs.Record.{event_of};
ghost use Rattle.std.specs.Io.{ReadsAtMost, WritesAtMost};

use crate::draws::Draws;
use crate::peer::Peer;
use crate::record::{Noted, is_new, noted_read, noted_write};
use crate::shared::{SECOND, Shared};
use server_base::sockets::{
    AcceptFault, AdminSocket, ClientSocket, EventSource, SocketEvent, Sockets,
};
use std::alloc::Global;
use std::io;
use std::io::ErrorKind;
use std::net::SocketAddr;
use std::time::Duration;

// The number of waits after which a simulation is given up.
const MOST_WAITS: u64 = 60_000;

const MILLISECOND: u64 = 1_000_000;

// What an operator sends to stop the service.
const STOP: &str = "POST /stop HTTP/1.1\r\nX-Dss-Admin: 1\r\n\r\n";

/// The socket of a simulated client. It notes when it is closed.
pub(crate) struct SimClient<'a> {
    name: usize,
    shared: &'a Shared,
}

impl<'a> Drop for SimClient<'a> {
    fn drop(self) {
        self.shared.close(self.name);
        let SimClient { name: _, shared: _ } = self;
    }
}

impl<'a> ClientSocket for SimClient<'a> {
    ghost name = { λ client. client.name };

    fn client(&self) -> Option<SocketAddr> {
        None
    }
}

/// The socket of the operator, who requests the stop.
#[derive(Drop)]
pub(crate) struct SimAdmin<'a> {
    shared: &'a Shared,
    read: usize,
    is_shut: bool,
}

impl<'a> AdminSocket for SimAdmin<'a> {
    fn receive(&mut self, chunk: &mut [u8]) -> io::Result<usize> {
        if self.is_shut {
            return Ok(0);
        }
        let text = STOP.as_bytes();
        let count = text.len().saturating_sub(self.read).min(chunk.len()).min(7);
        if count == 0 {
            return Err(io::Error::from(ErrorKind::WouldBlock));
        }
        for index in 0..count {
            if let Some(byte) = text.get(self.read.saturating_add(index))
                && let Some(place) = chunk.get_mut(index)
            {
                *place = *byte;
            }
        }
        self.read = self.read.saturating_add(count);
        if self.read >= text.len() {
            self.shared.stop();
        }
        Ok(count)
    }

    fn send(&mut self, bytes: &[u8]) -> io::Result<usize> {
        Ok(bytes.len())
    }

    fn end_sending(&mut self) -> io::Result<()> {
        self.is_shut = true;
        Ok(())
    }
}

/// When the operator of a simulation stops the service.
#[derive(Clone, Copy, Debug, PartialEq, Eq)]
pub(crate) enum Operator {
    /// Never.
    Absent,
    /// After so many waits.
    Comes(u64),
    /// The operator waits to be accepted.
    Waits,
    /// The operator is accepted, under this key once it is watched.
    Accepted(usize),
}

/// How a simulation goes, apart from its clients.
#[derive(Clone, Copy, Debug)]
pub(crate) struct Course {
    /// The least time and the most time that a reading of the clock takes, in nanoseconds.
    pub(crate) quickest: u64,
    pub(crate) slowest: u64,
    /// How often of a hundred times an accept or a watch fails.
    pub(crate) accept_faults: u64,
    /// When the operator stops the service.
    pub(crate) operator: Operator,
}

/// The sockets of simulated clients. They record all that they do.
#[derive(Drop)]
pub(crate) struct SimSockets<'a> {
    pub(crate) alloc: Global,
    pub(crate) shared: &'a Shared,
    pub(crate) draws: Draws,
    pub(crate) course: Course,
    pub(crate) events: Vec<Noted>,
    pub(crate) peers: Vec<Peer>,
    // How many clients have connected, and how many of them were accepted or were gone.
    pub(crate) connected: usize,
    pub(crate) taken: usize,
    // How many were accepted.
    pub(crate) accepted: usize,
    pub(crate) ready: Vec<SocketEvent>,
    pub(crate) next: usize,
    pub(crate) waits: u64,
    // When the operator was accepted, or 0.
    pub(crate) stopped_at: u64,
}

// Returns an event.
fn event_of(which: EventSource, readable: bool, writable: bool, gone: (bool, bool)) -> SocketEvent {
    SocketEvent {
        which,
        readable,
        writable,
        ended: gone.0,
        reset: gone.1,
    }
}

// Returns the error of a client that reset its connection.
fn reset() -> io::Error {
    io::Error::from(ErrorKind::ConnectionReset)
}

// Returns the error of a call that has to wait.
fn would_block() -> io::Error {
    io::Error::from(ErrorKind::WouldBlock)
}

// Returns the events of a client in one wait: whether it can be read, and written, whether it ended
// its side, and whether it reset the connection.
#[derive(Clone, Copy, Debug)]
struct Happened {
    readable: bool,
    writable: bool,
    ended: bool,
    reset: bool,
}

const NOTHING: Happened = Happened {
    readable: false,
    writable: false,
    ended: false,
    reset: false,
};

// Lets some bytes of a client arrive.
fn arrive(peer: &mut Peer, draws: &mut Draws, answered: u64, happened: &mut Happened) {
    let goal = peer.goal(answered);
    if peer.arrived >= goal || !draws.chance(60) {
        return;
    }
    let piece = draws.up_to(peer.manner.piece);
    peer.arrived = peer.arrived.saturating_add(piece).min(goal);
    happened.readable = true;
}

// Ends the side of a client, if it is to.
fn end(peer: &mut Peer, draws: &mut Draws, now: u64, happened: &mut Happened) {
    let sent_all = peer.manner.ends && peer.has_sent_all();
    let is_left = peer.is_shut && peer.manner.closes;
    if peer.has_ended || !(sent_all || is_left) || !draws.chance(50) {
        return;
    }
    peer.has_ended = true;
    peer.ended_at = now;
    happened.readable = true;
    happened.ended = true;
}

// Lets a client take more.
fn widen(peer: &mut Peer, draws: &mut Draws, happened: &mut Happened) {
    if !peer.is_blocked || !peer.takes_more() || !draws.chance(60) {
        return;
    }
    let gulp = draws.up_to(peer.manner.gulp);
    peer.widen(gulp);
    happened.writable = !peer.is_blocked;
}

// Makes a step of a client that is accepted and open. `is_idle` is true if much time has passed.
fn step(peer: &mut Peer, draws: &mut Draws, answered: u64, now: u64, is_idle: bool) -> Happened {
    let mut happened = NOTHING;
    peer.waits = peer.waits.saturating_add(1);
    if peer.is_reset {
        return happened;
    }
    if peer.waits > peer.manner.resets {
        peer.is_reset = true;
        peer.ended_at = now;
        happened.reset = true;
        return happened;
    }
    if peer.manner.is_slow && !is_idle {
        return happened;
    }
    arrive(peer, draws, answered, &mut happened);
    end(peer, draws, now, &mut happened);
    widen(peer, draws, &mut happened);
    happened
}

// Draws how many of so many clients connect.
fn drawn(draws: &mut Draws, among: usize) -> usize {
    let mut count = 0_usize;
    for _ in 0..among {
        if draws.chance(60) {
            count = count.saturating_add(1);
        }
    }
    count
}

impl<'a> SimSockets<'a> {
    // Returns how many requests of a client were answered.
    fn answers_of(&self, peer: &Peer) -> u64 {
        match peer.connection {
            Some(connection) => self.shared.answers_of(connection),
            None => 0,
        }
    }

    // Returns true if something will happen soon.
    fn is_lively(&self) -> bool {
        if self.connected < self.peers.len() {
            return true;
        }
        for (name, peer) in self.peers.iter().enumerate() {
            if peer.connection.is_some()
                && self.shared.closed_at(name) == 0
                && !peer.manner.is_slow
                && peer.is_lively(self.answers_of(peer))
            {
                return true;
            }
        }
        false
    }

    // Lets time pass: all that the service would wait, if nothing will happen soon. Returns true
    // then.
    fn pass(&mut self, patience: Duration) -> bool
        ensures { self.new.events ≡ self.old.events }
    {
        let most = match u64::try_from(patience.as_nanos()) {
            Ok(most) => most,
            Err(_) => SECOND,
        };
        let is_idle = most > MILLISECOND && !self.is_lively();
        let nanos = if is_idle {
            most
        } else {
            self.draws.below(most.min(3 * MILLISECOND).max(50_000))
        };
        let Course {
            quickest,
            slowest,
            ..
        } = self.course;
        let more = self.draws.below(slowest.saturating_sub(quickest));
        self.shared.pass(nanos, quickest.saturating_add(more));
        is_idle
    }

    // Reports an event.
    fn report(&mut self, event: SocketEvent)
        ensures { self.new.events ≡ self.old.events }
    {
        let _ = self.ready.push(event);
    }

    // Lets each client make a step.
    fn step_peers(&mut self, is_idle: bool)
        ensures { self.new.events ≡ self.old.events }
    {
        for name in 0..self.peers.len() {
            self.step_peer(name, is_idle);
        }
    }

    // Lets clients connect.
    fn connect(&mut self)
        ensures { self.new.events ≡ self.old.events }
    {
        let more = drawn(
            &mut self.draws,
            self.peers.len().saturating_sub(self.connected),
        );
        self.connected = self.connected.saturating_add(more);
        if more > 0 {
            self.report(event_of(EventSource::Port, true, false, (false, false)));
        }
    }

    // Lets the operator come, and reports what the operator sends.
    fn operate(&mut self)
        ensures { self.new.events ≡ self.old.events }
    {
        match self.course.operator {
            Operator::Comes(waits) if self.waits >= waits => {
                self.course.operator = Operator::Waits;
                self.report(event_of(EventSource::AdminPort, true, false, (false, false)));
            }
            Operator::Accepted(key) => {
                let source = EventSource::AdminConnection(key);
                self.report(event_of(source, true, true, (false, false)));
            }
            Operator::Absent | Operator::Comes(_) | Operator::Waits => {}
        }
    }

    // Makes a step of the client of that name.
    fn step_peer(&mut self, name: usize, is_idle: bool)
        ensures { self.new.events ≡ self.old.events }
    {
        let now = self.shared.now();
        if self.shared.closed_at(name) != 0 {
            return;
        }
        let Some(peer) = self.peers.get_mut(name) else {
            return;
        };
        let (Some(connection), Some(key)) = (peer.connection, peer.key) else {
            return;
        };
        let answered = self.shared.answers_of(connection);
        let happened = step(peer, &mut self.draws, answered, now, is_idle);
        if happened.readable || happened.writable || happened.reset {
            let gone = (happened.ended, happened.reset);
            let source = EventSource::Client(key);
            self.report(event_of(source, happened.readable, happened.writable, gone));
        }
    }

    // Returns the name of the client that is accepted next.
    fn next_client(&mut self) -> Result<usize, AcceptFault>
        ensures { self.new.events ≡ self.old.events }
    {
        if self.taken >= self.connected {
            return Err(AcceptFault::NoneWaits);
        }
        if self.draws.chance(self.course.accept_faults) {
            return Err(AcceptFault::Full);
        }
        let name = self.taken;
        self.taken = self.taken.saturating_add(1);
        Ok(name)
    }

    // Records that a client was accepted.
    fn note_accepted(&mut self, name: usize)
        ensures { self.new.events ≡ self.old.events }
    {
        let now = self.shared.now();
        if let Some(peer) = self.peers.get_mut(name) {
            peer.connection = Some(self.accepted);
            peer.accepted_at = now;
            peer.sent_at = now;
        }
        self.accepted = self.accepted.saturating_add(1);
    }

    // Records an event.
    #[tactic(auto, using(crate::proofs::Histories::noted_after))]
    fn note(&mut self, event: Noted) -> io::Result<()>
        ensures done { OnOk result (map event_of self.new.events.items
            ≡ map event_of self.old.events.items ++ event_of event ∷ []) }
        ensures same { OnErr result (self.new.events.items ≡ self.old.events.items) }
    {
        self.events.push(event)?;
        Ok(())
    }

    // Copies bytes of a client into a chunk.
    fn fill(&mut self, name: usize, chunk: &mut [u8]) -> io::Result<usize>
        ensures bound { ReadsAtMost result chunk.new }
        ensures events { self.new.events ≡ self.old.events }
    {
        let reached = self.shared.reached();
        let Some(peer) = self.peers.get_mut(name) else {
            return Err(reset());
        };
        if peer.is_reset {
            return Err(reset());
        }
        let count = peer.give(chunk, reached);
        if count == 0 && !peer.has_ended {
            return Err(would_block());
        }
        Ok(count)
    }

    // Gives bytes to a client.
    fn hand(&mut self, name: usize, bytes: &[u8]) -> io::Result<usize>
        ensures bound { WritesAtMost result bytes.now }
        ensures events { self.new.events ≡ self.old.events }
    {
        let now = self.shared.now();
        let Some(peer) = self.peers.get_mut(name) else {
            return Err(reset());
        };
        if peer.is_reset {
            return Err(reset());
        }
        if peer.window == 0 {
            if !peer.is_blocked {
                peer.blocked_at = now;
            }
            peer.is_blocked = true;
            return Err(would_block());
        }
        match peer.take(bytes, now) {
            Some(count) => Ok(count),
            None => Err(io::Error::from(ErrorKind::OutOfMemory)),
        }
    }
}

impl<'a> Sockets for SimSockets<'a> {
    ghost use Rattle.std.specs.Prelude.{Some, map};
    ghost use Rattle.test_simulation.specs.Record.{event_of};

    type Client = SimClient<'a>;

    type Admin = SimAdmin<'a>;

    ghost history = { λ s. Some (map event_of s.events.items) };

    fn accept(&mut self) -> Result<SimClient<'a>, AcceptFault> {
        let name = self.next_client()?;
        if !is_new(self.events.as_slice(), name) {
            return Err(AcceptFault::Gone);
        }
        if self.note(Noted::Accepted(name)).is_err() {
            return Err(AcceptFault::Full);
        }
        self.note_accepted(name);
        Ok(SimClient {
            name,
            shared: self.shared,
        })
    }

    fn receive(&mut self, client: &mut SimClient<'a>, chunk: &mut [u8]) -> io::Result<usize> {
        let count = self.fill(client.name, chunk)?;
        let event = noted_read(self.alloc, client.name, &chunk[..count])?;
        self.note(event)?;
        Ok(count)
    }

    fn send(&mut self, client: &mut SimClient<'a>, bytes: &[u8]) -> io::Result<usize> {
        let count = self.hand(client.name, bytes)?;
        let event = noted_write(self.alloc, client.name, &bytes[..count])?;
        self.note(event)?;
        Ok(count)
    }

    fn end_sending(&mut self, client: &mut SimClient<'a>) -> io::Result<()> {
        let now = self.shared.now();
        let Some(peer) = self.peers.get_mut(client.name) else {
            return Err(reset());
        };
        if peer.is_reset {
            return Err(reset());
        }
        peer.is_shut = true;
        peer.shut_at = now;
        Ok(())
    }

    fn watch(&mut self, client: &mut SimClient<'a>, key: usize) -> io::Result<()> {
        let fails = self.draws.chance(self.course.accept_faults);
        let Some(peer) = self.peers.get_mut(client.name) else {
            return Err(reset());
        };
        if fails {
            peer.is_refused = true;
            return Err(io::Error::from(ErrorKind::OutOfMemory));
        }
        peer.key = Some(key);
        Ok(())
    }

    fn accept_admin(&mut self) -> Result<SimAdmin<'a>, AcceptFault> {
        if self.course.operator != Operator::Waits {
            return Err(AcceptFault::NoneWaits);
        }
        self.course.operator = Operator::Absent;
        Ok(SimAdmin {
            shared: self.shared,
            read: 0,
            is_shut: false,
        })
    }

    fn watch_admin(&mut self, _socket: &mut SimAdmin<'a>, key: usize) -> io::Result<()> {
        self.course.operator = Operator::Accepted(key);
        self.stopped_at = self.shared.now();
        Ok(())
    }

    fn wait(&mut self, patience: Option<Duration>) -> io::Result<()> {
        self.waits = self.waits.saturating_add(1);
        if self.waits > MOST_WAITS {
            return Err(io::Error::from(ErrorKind::TimedOut));
        }
        self.ready.clear();
        self.next = 0;
        let is_idle = match patience {
            Some(patience) => self.pass(patience),
            None => self.pass(Duration::from_nanos(SECOND)),
        };
        self.connect();
        self.operate();
        self.step_peers(is_idle);
        Ok(())
    }

    fn next_event(&mut self) -> Option<SocketEvent> {
        let event = *self.ready.get(self.next)?;
        self.next = self.next.saturating_add(1);
        Some(event)
    }

    fn monotonic_time(&self) -> io::Result<Duration> {
        Ok(self.shared.read())
    }
}
