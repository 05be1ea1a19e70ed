//! One client connection: its phase, and what a turn of it does.
ghost use Rattle.std.specs.Prelude.{◌≡◌, List, Option};
ghost use Rattle.server_base.specs.History.{HistoryEvent};
ghost use Rattle.server_clients.specs.ClientConnection.{TellsAndSteps, state_of_client};
ghost use Rattle.server_clients.specs.ClientEvents.{ClientRuns, served_client};
ghost use Rattle.server_clients.specs.ClientState.{ClientSteps, IsClosable, limited};
ghost use Rattle.server_clients.specs.ClientState.{new_client};
ghost use Rattle.server_clients.specs.Turns.{ticket_in};

use crate::client_io::{Asked, ClientIo, ReadOutcome, WriteOutcome};
use crate::fair_queue::{ClassMember, FairQueue};
use crate::reason::Reason;
use crate::request_context::RequestContext;
use server_backend::backend::Backend;
use server_backend::outcome::Outcome;
use server_base::limits::{
    CHUNK, FIRST_REQUEST_TIMEOUT, LAST_CHUNKS, MIN_REQUEST_RATE, REQUEST_RATE_GRACE, SMALL,
};
use server_base::phase::Phase;
use server_base::response_info::ResponseInfo;
use server_base::server_log::AbortedConnection;
use server_base::sockets::{ClientSocket, SocketEvent, Sockets};
use std::alloc::Global;
use std::time::Duration;
use token_conf::token_table::TokenTable;
use wire_http::{Moments, Peeked, RequestInfo, StreamFault};

/// What a client does after a turn.
#[derive(Clone, Copy, Debug, PartialEq, Eq)]
pub enum TurnOutcome {
    /// It may have another turn at once.
    Again,
    /// It waits for its socket.
    Rests,
    /// The backend is to receive a request of it, or its stream ends.
    Ready,
    /// Its request was drafted or waits: it has no outcome yet.
    Waits,
    /// It waits for one of the large buffers.
    WantsLargeBuffer,
    /// Its connection is to be closed.
    Gone,
    /// It is aborted for this reason.
    Failed(StreamFault),
}

// Returns `Again` if the socket is known to be ready, and `Rests` otherwise.
fn again_if(ready: bool) -> TurnOutcome {
    if ready {
        TurnOutcome::Again
    } else {
        TurnOutcome::Rests
    }
}

/// A client connection.
#[derive(Drop)]
pub struct ClientConnection<T> {
    io: ClientIo<T>,
    // The number of its connection.
    number: u64,
    phase: Phase,
    until: Duration,
    last_chunks: u32,
    // The state of its socket. Each flag stays set until a call finds otherwise.
    readable: bool,
    writable: bool,
    ended: bool,
    reset: bool,
    // True if no complete request is buffered, so that the socket is read before the next request.
    lacks: bool,
    // True if it has a large buffer, and true if it waits for one.
    has_large_buffer: bool,
    wants_large_buffer: bool,
    // True if it is queued for its next turn.
    queued: bool,
    /// What the fair queue records of it.
    pub member: ClassMember,
    // When its phase began, and how many bytes were buffered then.
    phase_begun: Duration,
    phase_begun_with: usize,
    // The response prepared in its turn, and the time when the turn began, if the clock returned
    // one.
    answer: Option<ResponseInfo>,
    asked: Option<Duration>,
}

impl<T: ClientSocket> ClientConnection<T> {
    /// Creates a client that has sent nothing.
    pub fn new(alloc: Global, socket: T, number: u64, now: Duration) -> ClientConnection<T>
        ensures { state_of_client T.name result ≡ new_client (T.name socket) }
    {
        ClientConnection {
            io: ClientIo::new(alloc, socket),
            number,
            phase: Phase::Idle,
            until: now.saturating_add(Duration::from_millis(FIRST_REQUEST_TIMEOUT)),
            last_chunks: 0,
            readable: true,
            writable: true,
            ended: false,
            reset: false,
            lacks: true,
            has_large_buffer: false,
            wants_large_buffer: false,
            queued: false,
            member: ClassMember::new(),
            phase_begun: now,
            phase_begun_with: 0,
            answer: None,
            asked: None,
        }
    }

    /// Returns its description for the log, as a connection that is aborted now.
    pub fn aborted(&self, now: Duration) -> AbortedConnection {
        AbortedConnection {
            client: self.io.client(),
            connection: self.number,
            phase: self.phase,
            is_reset: self.reset,
            at: now,
        }
    }

    /// Returns the number of its connection.
    pub fn number(&self) -> u64 {
        self.number
    }

    /// Returns the request of its last response.
    pub fn noted(&self) -> Option<&RequestInfo> {
        self.io.noted()
    }

    /// Records a socket event.
    pub fn note(&mut self, told: SocketEvent)
        ensures { state_of_client T.name self.new ≡ state_of_client T.name self.old }
    {
        self.readable = self.readable || told.readable || told.ended || told.reset;
        self.writable = self.writable || told.writable;
        self.ended = self.ended || told.ended || told.reset;
        self.reset = self.reset || told.reset;
    }

    /// Returns true if it is queued for its next turn.
    pub fn is_queued(&self) -> bool {
        self.queued
    }

    /// Sets whether it is queued for its next turn.
    pub fn set_queued(&mut self, queued: bool)
        ensures { state_of_client T.name self.new ≡ state_of_client T.name self.old }
    {
        self.queued = queued;
    }

    /// Returns true if its timeout has passed. A client that waits for its turn, for a large buffer
    /// or for an outcome is never late, because the server keeps it waiting.
    pub fn is_late(&self, now: Duration) -> bool {
        let is_kept = self.queued || self.member.waits || self.wants_large_buffer;
        !is_kept && !self.io.is_waiting() && (self.until < now || self.is_slow(now))
    }

    // Returns true if its large request arrives too slowly.
    fn is_slow(&self, now: Duration) -> bool {
        if self.phase != Phase::Sending || !self.has_large_buffer {
            return false;
        }
        let millis = now.saturating_sub(self.phase_begun).as_millis();
        let Ok(millis) = u64::try_from(millis) else {
            return true;
        };
        let count = self
            .io
            .buffered_bytes()
            .saturating_sub(self.phase_begun_with);
        let Ok(count) = u64::try_from(count) else {
            return false;
        };
        millis > REQUEST_RATE_GRACE
            && count.saturating_mul(1_000) < millis.saturating_mul(MIN_REQUEST_RATE)
    }

    /// Returns the number of unsent bytes of its responses, with those of a draft.
    pub fn unsent(&self) -> usize {
        self.io.unsent()
    }

    // Returns what the buffered bytes give next, with the caller of the next request.
    fn peek<'t>(&mut self, tokens: &'t TokenTable) -> Peeked<'t>
        ensures { state_of_client T.name self.new ≡ state_of_client T.name self.old }
    {
        let peeked = self.io.peek(tokens);
        self.lacks = matches!(peeked, Peeked::NeedsInput | Peeked::Head(_));
        peeked
    }

    /// Determines the class of its next request. Queues it there under that key, if the request is
    /// complete or the stream ends.
    pub fn classify(&mut self, fair: &mut FairQueue, key: usize, tokens: &TokenTable) -> TurnOutcome
        ensures { state_of_client T.name self.new ≡ state_of_client T.name self.old }
    {
        if self.member.waits {
            return TurnOutcome::Ready;
        }
        match self.peek(tokens) {
            Peeked::NeedsInput => return again_if(self.readable),
            Peeked::Head(caller) => {
                fair.set_class(&mut self.member, caller);
                return again_if(self.readable);
            }
            Peeked::Request(caller) => fair.set_class(&mut self.member, caller),
            Peeked::Ends => {}
        }
        if fair.push(self.member.class, key, self.ended) {
            self.member.waits = true;
            TurnOutcome::Ready
        } else {
            TurnOutcome::Failed(StreamFault::Memory)
        }
    }

    /// Returns true if it waits for the client to close, after its last response.
    pub fn is_ending(&self) -> bool {
        self.phase == Phase::Ending
    }

    /// Returns true if it waits for a large buffer.
    pub fn wants_large_buffer(&self) -> bool {
        self.wants_large_buffer
    }

    /// Returns true if it has a large buffer.
    pub fn has_large_buffer(&self) -> bool {
        self.has_large_buffer
    }

    /// Returns true if it has a large buffer and no large request.
    pub fn can_return_large_buffer(&self) -> bool {
        self.has_large_buffer && self.io.buffered_bytes() <= SMALL
    }

    /// Makes it wait for a large buffer.
    pub fn request_large_buffer(&mut self)
        ensures { state_of_client T.name self.new ≡ state_of_client T.name self.old }
    {
        self.wants_large_buffer = true;
    }

    /// Gives it a large buffer, and restarts the timeout of its request.
    pub fn take_large_buffer(&mut self, now: Duration)
        ensures { state_of_client T.name self.new ≡ state_of_client T.name self.old }
    {
        self.has_large_buffer = true;
        self.wants_large_buffer = false;
        self.wait(Phase::Sending, now);
    }

    /// Takes its large buffer away.
    pub fn return_large_buffer(&mut self)
        ensures { state_of_client T.name self.new ≡ state_of_client T.name self.old }
    {
        self.has_large_buffer = false;
    }

    /// Returns the fault of a client whose timeout has passed. Returns `None` if the client is idle
    /// or closing.
    pub fn late_fault(&self) -> Option<StreamFault> {
        match self.phase {
            Phase::Idle | Phase::Ending => None,
            Phase::Sending => Some(StreamFault::Read),
            Phase::Taking => Some(StreamFault::Write),
        }
    }

    // Enters a phase and restarts its timeout.
    fn wait(&mut self, phase: Phase, now: Duration)
        ensures { self.new.io ≡ self.old.io }
    {
        self.phase = phase;
        self.until = now.saturating_add(phase.patience());
        self.phase_begun = now;
        self.phase_begun_with = self.io.buffered_bytes();
    }

    // Waits for the next request.
    fn restart_request_timeout(&mut self, now: Duration)
        ensures { self.new.io ≡ self.old.io }
    {
        if self.io.holds_any() {
            self.wait(Phase::Sending, now);
        } else {
            self.wait(Phase::Idle, now);
        }
    }

    /// Ends the connection, with nothing left to send. If more requests may be received, the client
    /// is stopped for this reason.
    ///
    /// A socket that is closed before all its bytes were read resets the connection. The client
    /// then loses responses that it has not read.
    pub fn end<N: Sockets<Client = T>>(
        &mut self,
        sockets: &mut N,
        why: Reason,
        now: Duration,
    ) -> TurnOutcome
        ensures { ClientSteps
            (state_of_client T.name self.old) (state_of_client T.name self.new)
            (N.history sockets.old) (N.history sockets.new) }
    {
        if self.reset || !self.io.end_sending(sockets, why) {
            return TurnOutcome::Gone;
        }
        self.wait(Phase::Ending, now);
        self.readable = true;
        self.wants_large_buffer = false;
        TurnOutcome::Again
    }

    /// Makes its next request the last one, since the server stops. The response to it says that
    /// the connection closes. A response that waits to be sent stays as it is.
    pub fn limit_to_one_request(&mut self)
        ensures { state_of_client T.name self.new ≡ limited (state_of_client T.name self.old) }
    {
        self.io.limit_to_one_request();
    }

    /// Returns its outcome while the server stops: it is closed once it has all its responses.
    pub fn end_after<N: Sockets<Client = T>>(
        &mut self,
        sockets: &mut N,
        turned: TurnOutcome,
        now: Duration,
    ) -> TurnOutcome
        ensures { ClientSteps
            (state_of_client T.name self.old) (state_of_client T.name self.new)
            (N.history sockets.old) (N.history sockets.new) }
    {
        if self.is_ending() || self.io.wants_write() || self.io.is_waiting() {
            return turned;
        }
        self.end(sockets, Reason::Stop, now)
    }

    /// Returns the response prepared in its turn, if it is not logged yet.
    pub fn answer(&self) -> Option<ResponseInfo> {
        self.answer
    }

    /// Takes the response prepared in its turn, so that it is logged once.
    pub fn take_response(&mut self) -> Option<ResponseInfo>
        ensures { state_of_client T.name self.new ≡ state_of_client T.name self.old }
    {
        let answer = self.answer;
        self.answer = None;
        answer
    }

    /// Returns the time when the turn of its last response began, if the clock returned one.
    pub fn asked(&self) -> Option<Duration> {
        self.asked
    }

    /// Begins its turn at this time, if it waits in the class. Returns false if it does not:
    /// another client may have had its key before.
    pub fn begin_turn(&mut self, class: usize, clock: Option<Duration>) -> bool
        ensures { state_of_client T.name self.new ≡ state_of_client T.name self.old }
    {
        if !self.member.waits || self.member.class != class {
            return false;
        }
        self.member.waits = false;
        self.asked = clock;
        true
    }

    // Reads and discards one chunk of what the client still sends.
    fn skip<N: Sockets<Client = T>>(&mut self, sockets: &mut N, now: Duration) -> TurnOutcome
        ensures { ClientSteps
            (state_of_client T.name self.old) (state_of_client T.name self.new)
            (N.history sockets.old) (N.history sockets.new) }
    {
        if !self.readable {
            return TurnOutcome::Rests;
        }
        match self.io.skip(sockets) {
            Ok(ReadOutcome::Nothing) => {
                self.readable = false;
                TurnOutcome::Rests
            }
            Ok(ReadOutcome::Chunk(_)) => {
                self.last_chunks = self.last_chunks.saturating_add(1);
                if self.last_chunks >= LAST_CHUNKS {
                    return TurnOutcome::Gone;
                }
                self.wait(Phase::Ending, now);
                TurnOutcome::Again
            }
            Ok(ReadOutcome::End) | Err(_) => TurnOutcome::Gone,
        }
    }

    // Returns how many bytes may be read now.
    fn most(&self) -> usize {
        let room = self.io.room().min(CHUNK);
        if self.has_large_buffer {
            return room;
        }
        room.min(SMALL.saturating_sub(self.io.buffered_bytes()))
    }

    // Sends as much of the responses as the socket takes. Each byte taken restarts the timeout.
    fn send<N: Sockets<Client = T>>(
        &mut self,
        sockets: &mut N,
        now: Duration,
    ) -> Result<(), StreamFault>
        ensures { ClientSteps
            (state_of_client T.name self.old) (state_of_client T.name self.new)
            (N.history sockets.old) (N.history sockets.new) }
    {
        match self.io.send(sockets)? {
            WriteOutcome::Some => {
                if self.io.wants_write() {
                    self.wait(Phase::Taking, now);
                }
            }
            WriteOutcome::Nothing => {
                self.writable = false;
                if self.phase != Phase::Taking {
                    self.wait(Phase::Taking, now);
                }
            }
        }
        Ok(())
    }

    // Reads one chunk of a request. Returns the outcome of the turn if nothing arrived.
    fn receive<N: Sockets<Client = T>>(
        &mut self,
        sockets: &mut N,
        now: Duration,
    ) -> Result<Option<TurnOutcome>, StreamFault>
        ensures { ClientSteps
            (state_of_client T.name self.old) (state_of_client T.name self.new)
            (N.history sockets.old) (N.history sockets.new) }
    {
        if !self.readable {
            return Ok(Some(TurnOutcome::Rests));
        }
        let most = self.most();
        if most == 0 {
            return Ok(Some(TurnOutcome::WantsLargeBuffer));
        }
        match self.io.receive(sockets, most)? {
            ReadOutcome::Nothing => {
                self.readable = false;
                return Ok(Some(TurnOutcome::Rests));
            }
            ReadOutcome::Chunk(count) => {
                if self.phase == Phase::Idle {
                    self.wait(Phase::Sending, now);
                }
                // if the client sends nothing more, no further event follows
                self.readable = count == most || self.ended;
                // the next request may be complete now, also while an earlier one waits
                self.lacks = false;
            }
            ReadOutcome::End => {}
        }
        Ok(None)
    }

    // Sends pending output. Returns the outcome of the turn if some of it is left.
    fn send_pending<N: Sockets<Client = T>>(
        &mut self,
        sockets: &mut N,
        now: Duration,
    ) -> Result<Option<TurnOutcome>, StreamFault>
        ensures { ClientSteps
            (state_of_client T.name self.old) (state_of_client T.name self.new)
            (N.history sockets.old) (N.history sockets.new) }
    {
        if !self.io.wants_write() {
            return Ok(None);
        }
        if !self.writable {
            return Ok(Some(TurnOutcome::Rests));
        }
        self.send(sockets, now)?;
        if self.io.wants_write() {
            return Ok(Some(again_if(self.writable)));
        }
        self.restart_request_timeout(now);
        Ok(None)
    }

    // Sends pending output, and reads if no complete request is buffered. Returns the outcome of
    // the turn if no request is to be answered yet.
    fn prepare<N: Sockets<Client = T>>(
        &mut self,
        sockets: &mut N,
        now: Duration,
    ) -> Result<Option<TurnOutcome>, StreamFault>
        ensures { ClientSteps
            (state_of_client T.name self.old) (state_of_client T.name self.new)
            (N.history sockets.old) (N.history sockets.new) }
    {
        if let Some(turned) = self.send_pending(sockets, now)? {
            return Ok(Some(turned));
        }
        if self.io.is_done() || !self.lacks {
            return Ok(None);
        }
        self.receive(sockets, now)
    }

    // Returns the outcome of a client whose response is sent as far as possible.
    fn answered<N: Sockets<Client = T>>(
        &mut self,
        sockets: &mut N,
        now: Duration,
    ) -> Result<TurnOutcome, StreamFault>
        ensures { ClientSteps
            (state_of_client T.name self.old) (state_of_client T.name self.new)
            (N.history sockets.old) (N.history sockets.new) }
    {
        self.answer = self.io.answer();
        if self.io.wants_write() {
            if self.writable {
                self.send(sockets, now)?;
            } else {
                self.wait(Phase::Taking, now);
            }
        }
        if self.io.wants_write() {
            return Ok(again_if(self.writable));
        }
        self.restart_request_timeout(now);
        Ok(again_if(self.readable || !self.lacks || self.io.is_done()))
    }

    // Sends pending output, and reads one chunk if no complete request is buffered.
    fn move_bytes<N: Sockets<Client = T>>(
        &mut self,
        sockets: &mut N,
        now: Duration,
    ) -> Result<TurnOutcome, StreamFault>
        ensures { ClientSteps
            (state_of_client T.name self.old) (state_of_client T.name self.new)
            (N.history sockets.old) (N.history sockets.new) }
    {
        if let Some(turned) = self.prepare(sockets, now)? {
            return Ok(turned);
        }
        if self.io.is_done() {
            return Ok(self.end(sockets, Reason::Stop, now));
        }
        if self.io.is_waiting() {
            return Ok(TurnOutcome::Waits);
        }
        Ok(TurnOutcome::Ready)
    }

    /// Moves bytes without answering a request: reads at most one chunk and sends at most one.
    pub fn move_on<N: Sockets<Client = T>>(&mut self, sockets: &mut N, now: Duration) -> TurnOutcome
        ensures { ClientSteps
            (state_of_client T.name self.old) (state_of_client T.name self.new)
            (N.history sockets.old) (N.history sockets.new) }
    {
        if self.is_ending() {
            return self.skip(sockets, now);
        }
        if self.reset {
            self.io.abort(Reason::Reset);
            return TurnOutcome::Failed(StreamFault::Read);
        }
        match self.move_bytes(sockets, now) {
            Ok(turned) => turned,
            Err(fault) => TurnOutcome::Failed(fault),
        }
    }

    // Gives the next request to the backend. Reads one chunk for it if it is not buffered.
    fn serve<B: Backend, M: Moments, N: Sockets<Client = T>>(
        &mut self,
        context: RequestContext<'_>,
        backend: &mut B,
        moments: &mut M,
        sockets: &mut N,
        now: Duration,
    ) -> Result<TurnOutcome, StreamFault>
        ensures { ClientRuns B.Backend M.Moments
            context.entry.explaining context.entry.tokens.now
            (served_client backend.old moments.old (state_of_client T.name self.old))
            (served_client backend.new moments.new (state_of_client T.name self.new))
            (N.history sockets.old) (N.history sockets.new) }
    {
        if let Some(turned) = self.prepare(sockets, now)? {
            return Ok(turned);
        }
        if self.io.is_done() {
            return Ok(self.end(sockets, Reason::Stop, now));
        }
        if self.io.is_waiting() {
            return Ok(TurnOutcome::Waits);
        }
        let asked = self.io.ask(context, backend, moments, now)?;
        self.lacks = match asked {
            Asked::NeedsInput => true,
            Asked::Received(left) => left > 0 && !self.io.holds_any(),
            Asked::Ended(_) => false,
        };
        if asked == Asked::NeedsInput {
            return Ok(again_if(self.readable));
        }
        if self.io.is_waiting() {
            return Ok(TurnOutcome::Waits);
        }
        self.answered(sockets, now)
    }

    /// Runs one turn: reads at most one chunk, gives one request to the backend and sends twice.
    /// The backend receives no request of a client that is known to be gone.
    pub fn turn<B: Backend, M: Moments, N: Sockets<Client = T>>(
        &mut self,
        context: RequestContext<'_>,
        backend: &mut B,
        moments: &mut M,
        sockets: &mut N,
        now: Duration,
    ) -> TurnOutcome
        ensures { ClientRuns B.Backend M.Moments
            context.entry.explaining context.entry.tokens.now
            (served_client backend.old moments.old (state_of_client T.name self.old))
            (served_client backend.new moments.new (state_of_client T.name self.new))
            (N.history sockets.old) (N.history sockets.new) }
    {
        if self.is_ending() {
            return self.skip(sockets, now);
        }
        if self.reset {
            self.io.abort(Reason::Reset);
            return TurnOutcome::Failed(StreamFault::Read);
        }
        match self.serve(context, backend, moments, sockets, now) {
            Ok(turned) => turned,
            Err(fault) => TurnOutcome::Failed(fault),
        }
    }

    /// Returns the ticket under which its request was drafted or waits, if it has no outcome yet.
    pub fn ticket(&self) -> Option<u64>
        ensures { result ≡ ticket_in (state_of_client T.name self.now) }
    {
        self.io.ticket()
    }

    /// Returns the size of its draft in bytes.
    pub fn draft_bytes(&self) -> usize {
        self.io.draft_bytes()
    }

    /// Completes its turn once the outcome of its request is known: sends the response that the
    /// outcome says.
    pub fn tell<N: Sockets<Client = T>>(
        &mut self,
        alloc: Global,
        sockets: &mut N,
        ticket: u64,
        outcome: Outcome,
        now: Duration,
    ) -> TurnOutcome
        ensures { TellsAndSteps ticket outcome
            (state_of_client T.name self.old) (state_of_client T.name self.new)
            (N.history sockets.old) (N.history sockets.new) }
    {
        if self.io.tell(alloc, ticket, outcome).is_err() {
            return TurnOutcome::Failed(StreamFault::Memory);
        }
        match self.answered(sockets, now) {
            Ok(turned) => turned,
            Err(fault) => TurnOutcome::Failed(fault),
        }
    }

    /// Stops answering the client for this reason, unless it has all its responses. It may be
    /// closed then.
    pub fn conclude(&mut self, why: Reason)
        ensures steps { (past : Option (List HistoryEvent)) → ClientSteps
            (state_of_client T.name self.old) (state_of_client T.name self.new) past past }
        ensures closable { IsClosable (state_of_client T.name self.new) }
    {
        self.io.conclude(why);
    }
}
