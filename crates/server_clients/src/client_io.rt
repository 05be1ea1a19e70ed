//! A client's socket with its HTTP connection, and the bytes that move between the two.
ghost use Rattle.std.specs.Prelude.{◌≡◌, IfOk, IsTrue};
ghost use Rattle.token_conf.specs.TokenFile.{callers_of};
ghost use Rattle.server_clients.specs.ClientEvents.{ClientRuns, served_client};
ghost use Rattle.server_clients.specs.ClientIo.{Reads, Writes, client_state, connection_of};
ghost use Rattle.server_clients.specs.ClientState.{ClientSteps, IsClosable, aborted, limited};
ghost use Rattle.server_clients.specs.ClientState.{new_client, told};
ghost use Rattle.server_clients.specs.Offered.{LosesOffer, OffersNext, PutsAs, Resolved};
ghost use Rattle.server_clients.specs.Turns.{ticket_in};

use crate::reason::Reason;
use crate::request_context::RequestContext;
use server_backend::backend::Backend;
use server_backend::outcome::{Outcome, Received};
use server_backend::request::Request;
use server_base::limits::{CHUNK, SEND_CHUNK};
use server_base::response_info::ResponseInfo;
use server_base::sockets::{ClientSocket, Sockets};
use service_step::reply::Reply;
use std::alloc::{AllocError, Global};
use std::io::ErrorKind;
use std::net::SocketAddr;
use std::time::Duration;
use token_conf::token_table::TokenTable;
use wire_http::{
    Connection, End, Moments, NextRequest, NextStep, Peeked, RequestInfo, StreamFault, Unavailable,
};

/// What a read did.
#[derive(Clone, Copy, Debug, PartialEq, Eq)]
pub(crate) enum ReadOutcome {
    /// So many bytes arrived.
    Chunk(usize),
    /// No more bytes follow.
    End,
    /// Nothing has arrived yet.
    Nothing,
}

/// What a write did.
#[derive(Clone, Copy, Debug, PartialEq, Eq)]
pub(crate) enum WriteOutcome {
    /// The socket took bytes.
    Some,
    /// The socket takes no bytes yet.
    Nothing,
}

/// What became of the next request of a client.
#[derive(Clone, Copy, Debug, PartialEq, Eq)]
pub(crate) enum Asked {
    /// No request is complete, and more input may arrive.
    NeedsInput,
    /// The backend received a request. The number is that of the requests that may follow.
    Received(u32),
    /// The stream ended in this way.
    Ended(End),
}

/// A client's socket with its HTTP connection.
#[derive(Drop)]
pub(crate) struct ClientIo<T> {
    socket: T,
    connection: Connection,
    // The ticket of its request that was drafted or waits, if there is one.
    ticket: Option<u64>,
    // Why no more requests are received, whatever the connection says.
    why: Option<Reason>,
}

impl<T: ClientSocket> ClientIo<T> {
    ghost use Rattle.std.specs.Prelude.{◌<◌, ◌-◌, ◌↔◌, OnErr, false, true, is_err, is_some};
    ghost use Rattle.std.specs.Prelude.{length, List, MatchResult, Option, option_map};
    ghost use Rattle.server_backend.specs.declared.outcome.Outcome.TheVariants as outcomes;
    ghost use Rattle.server_base.specs.History.{HistoryEvent};
    ghost use Rattle.wire_http.specs.BufferState.{max_buffered};
    ghost use Rattle.wire_http.specs.Connection.{buffered_of, deferred_of, has_ended};
    ghost use Rattle.wire_http.specs.Connection.{is_waiting, left_of, noted_of, ready_of};
    ghost use Rattle.wire_http.specs.NextRequest.{FitsIn, IsFront};
    ghost use Rattle.wire_http.specs.Peek.{IsPeek};

    /// Creates a client that has sent nothing.
    pub(crate) fn new(alloc: Global, socket: T) -> ClientIo<T>
        ensures { client_state T.name result ≡ new_client (T.name socket) }
    {
        ClientIo {
            socket,
            connection: Connection::new(alloc),
            ticket: None,
            why: None,
        }
    }

    /// Returns the address and port of the client, if the system returned them.
    pub(crate) fn client(&self) -> Option<SocketAddr> {
        self.socket.client()
    }

    /// Returns the number of buffered bytes of requests.
    pub(crate) fn buffered_bytes(&self) -> usize
        ensures { result ≡ length (client_state T.name self.now).held }
    {
        self.connection.buffered_len()
    }

    /// Returns how many more bytes of requests fit the buffer.
    pub(crate) fn room(&self) -> usize
        ensures { result ≡ max_buffered - length (client_state T.name self.now).held }
    {
        self.connection.remaining_capacity()
    }

    /// Returns true if bytes are buffered that belong to no earlier request.
    pub(crate) fn holds_any(&self) -> bool
        ensures { IsTrue result ↔ (0 < length (client_state T.name self.now).held) }
    {
        self.connection.has_buffered()
    }

    /// Returns true if there are bytes to send, apart from those of a draft.
    pub(crate) fn wants_write(&self) -> bool
        ensures { IsTrue result ↔ (0 < length (client_state T.name self.now).ready) }
    {
        self.connection.wants_write()
    }

    /// Returns what the buffered bytes give next, with the caller of the next request.
    pub(crate) fn peek<'t>(&mut self, tokens: &'t TokenTable) -> Peeked<'t>
        ensures peeked { IsPeek (callers_of tokens.now) (client_state T.name self.old).left
            (client_state T.name self.old).ended (client_state T.name self.old).held result }
        ensures client { client_state T.name self.new ≡ client_state T.name self.old }
    {
        self.connection.peek(tokens)
    }

    /// Returns the number of unsent bytes of responses, with those of a draft.
    pub(crate) fn unsent(&self) -> usize {
        let sendable = self.connection.output().len();
        sendable.saturating_add(self.connection.deferred().len())
    }

    /// Returns true if a request was drafted or waits. No request is received meanwhile.
    pub(crate) fn is_waiting(&self) -> bool
        ensures { result ≡ is_waiting (connection_of self.now) }
    {
        self.connection.is_waiting()
    }

    /// Returns the ticket under which its request was drafted or waits, if there is one.
    pub(crate) fn ticket(&self) -> Option<u64>
        ensures { result ≡ ticket_in (client_state T.name self.now) }
    {
        if self.connection.is_waiting() {
            self.ticket
        } else {
            None
        }
    }

    /// Returns the size of the draft in bytes.
    pub(crate) fn draft_bytes(&self) -> usize
        ensures { result ≡ length (deferred_of (connection_of self.now)) }
    {
        self.connection.deferred().len()
    }

    /// Returns the response that is to be sent, if there is exactly one and it is no draft.
    pub(crate) fn answer(&self) -> Option<ResponseInfo> {
        let size = self.connection.output().len();
        if size == 0 {
            return None;
        }
        let noted = self.connection.last_request()?;
        Some(ResponseInfo {
            operation: noted.operation,
            outcome: noted.outcome,
            size,
        })
    }

    /// Returns the request of the last response.
    pub(crate) fn noted(&self) -> Option<&RequestInfo>
        ensures { option_map (λ noted. noted.now) result ≡ noted_of (connection_of self.now) }
    {
        self.connection.last_request()
    }

    /// Makes the next request the last one, unless none may come.
    pub(crate) fn limit_to_one_request(&mut self)
        ensures { client_state T.name self.new ≡ limited (client_state T.name self.old) }
    {
        self.connection.limit_to_one_request();
    }

    /// Returns true if no more requests are received.
    pub(crate) fn is_done(&self) -> bool
        ensures { result ≡ (client_state T.name self.now).done }
    {
        self.why.is_some() || self.connection.is_done()
    }

    /// Stops answering the client, for this reason.
    pub(crate) fn abort(&mut self, why: Reason)
        ensures { client_state T.name self.new ≡ aborted (client_state T.name self.old) why }
    {
        self.why = Some(why);
    }

    /// Stops answering the client for this reason, unless it has all its responses or was stopped
    /// before.
    pub(crate) fn conclude(&mut self, why: Reason)
        ensures steps { (past : Option (List HistoryEvent)) → ClientSteps
            (client_state T.name self.old) (client_state T.name self.new) past past }
        ensures closable { IsClosable (client_state T.name self.new) }
    {
        if self.why.is_some() {
            return;
        }
        if !self.wants_write() && !self.is_waiting() {
            return;
        }
        self.why = Some(why);
    }

    /// Reads at most `most` bytes of requests, and no more than there is room for.
    pub(crate) fn receive<N: Sockets<Client = T>>(
        &mut self,
        sockets: &mut N,
        most: usize,
    ) -> Result<ReadOutcome, StreamFault>
        ensures steps { ClientSteps (client_state T.name self.old) (client_state T.name self.new)
            (N.history sockets.old) (N.history sockets.new) }
        ensures read { IfOk result (Reads (client_state T.name self.old)
            (client_state T.name self.new) (N.history sockets.old) (N.history sockets.new)) }
        ensures failed { OnErr result (is_some (client_state T.name self.new).why ≡ true) }
    {
        let mut chunk = [0; CHUNK];
        let most = most.min(self.connection.remaining_capacity()).min(CHUNK);
        if most == 0 {
            return Ok(ReadOutcome::Nothing);
        }
        let part = &mut chunk[..most];
        match sockets.receive(&mut self.socket, part) {
            Ok(count) => {
                if count == 0 {
                    self.connection.end_of_input();
                    return Ok(ReadOutcome::End);
                }
                match self.connection.receive(&part[..count]) {
                    Ok(()) => Ok(ReadOutcome::Chunk(count)),
                    Err(_) => {
                        self.why = Some(Reason::Memory);
                        Err(StreamFault::Memory)
                    }
                }
            }
            Err(cause) => match cause.kind() {
                ErrorKind::WouldBlock => Ok(ReadOutcome::Nothing),
                _ => {
                    self.why = Some(Reason::Read);
                    Err(StreamFault::Read)
                }
            },
        }
    }

    /// Sends at most one chunk of the responses, as much of it as the socket takes. No byte of a
    /// draft is in it.
    pub(crate) fn send<N: Sockets<Client = T>>(
        &mut self,
        sockets: &mut N,
    ) -> Result<WriteOutcome, StreamFault>
        ensures steps { ClientSteps (client_state T.name self.old) (client_state T.name self.new)
            (N.history sockets.old) (N.history sockets.new) }
        ensures written { IfOk result (Writes (client_state T.name self.old)
            (client_state T.name self.new) (N.history sockets.old) (N.history sockets.new)) }
        ensures failed { OnErr result (is_some (client_state T.name self.new).why ≡ true) }
    {
        let output = self.connection.output();
        let chunk = &output[..output.len().min(SEND_CHUNK)];
        match sockets.send(&mut self.socket, chunk) {
            Ok(0) => {
                self.why = Some(Reason::Write);
                Err(StreamFault::Write)
            }
            Ok(count) => {
                self.connection.mark_sent(count);
                Ok(WriteOutcome::Some)
            }
            Err(cause) => match cause.kind() {
                ErrorKind::WouldBlock => Ok(WriteOutcome::Nothing),
                _ => {
                    self.why = Some(Reason::Write);
                    Err(StreamFault::Write)
                }
            },
        }
    }

    // Consumes the next request, and appends the response to its reply.
    fn answer_next(
        &mut self,
        context: RequestContext<'_>,
        moment: u64,
        next: NextRequest,
        reply: Reply,
    ) -> Result<(), AllocError>
        requires none_waits { is_waiting (connection_of self.old) ≡ false }
        requires fits { FitsIn (buffered_of (connection_of self.old)) next }
        ensures { PutsAs context.entry.explaining next (Received.Answered reply) (is_err result)
            (client_state T.name self.old) (client_state T.name self.new) }
    {
        let alloc = context.alloc;
        let texts = self.connection.texts_for_reply(
            alloc,
            context.explaining,
            context.routes,
            &next,
            moment,
            &reply,
        );
        match self.connection.answer(alloc, next, texts, &reply) {
            Ok(()) => Ok(()),
            Err(_) => {
                self.why = Some(Reason::Memory);
                Err(AllocError)
            }
        }
    }

    // Consumes the next request, and drafts the response to its reply, under this ticket.
    fn draft_next(
        &mut self,
        context: RequestContext<'_>,
        moment: u64,
        next: NextRequest,
        ticket: u64,
        reply: Reply,
    ) -> Result<(), AllocError>
        requires none_waits { is_waiting (connection_of self.old) ≡ false }
        requires fits { FitsIn (buffered_of (connection_of self.old)) next }
        ensures { PutsAs context.entry.explaining next (Received.Drafted ticket reply)
            (is_err result) (client_state T.name self.old) (client_state T.name self.new) }
    {
        let alloc = context.alloc;
        let texts = self.connection.texts_for_reply(
            alloc,
            context.explaining,
            context.routes,
            &next,
            moment,
            &reply,
        );
        self.ticket = Some(ticket);
        match self.connection.draft(alloc, next, texts, &reply) {
            Ok(()) => Ok(()),
            Err(_) => {
                self.why = Some(Reason::Memory);
                Err(AllocError)
            }
        }
    }

    // Consumes the next request, which waits under this ticket.
    fn wait_next(
        &mut self,
        context: RequestContext<'_>,
        moment: u64,
        next: NextRequest,
        ticket: u64,
    )
        requires none_waits { is_waiting (connection_of self.old) ≡ false }
        requires fits { FitsIn (buffered_of (connection_of self.old)) next }
        ensures { PutsAs context.entry.explaining next (Received.Waits ticket) false
            (client_state T.name self.old) (client_state T.name self.new) }
    {
        let texts = self.connection.texts(
            context.alloc,
            context.explaining,
            context.routes,
            &next,
            moment,
        );
        self.ticket = Some(ticket);
        self.connection.wait(next, texts);
    }

    // Consumes the next request, whose call was not made.
    fn refuse_next(
        &mut self,
        context: RequestContext<'_>,
        next: NextRequest,
        reason: Unavailable,
    ) -> Result<(), AllocError>
        requires none_waits { is_waiting (connection_of self.old) ≡ false }
        requires fits { FitsIn (buffered_of (connection_of self.old)) next }
        ensures { PutsAs context.entry.explaining next (Received.Refused reason) (is_err result)
            (client_state T.name self.old) (client_state T.name self.new) }
    {
        match self.connection.refuse(context.alloc, next, reason) {
            Ok(()) => Ok(()),
            Err(_) => {
                self.why = Some(Reason::Memory);
                Err(AllocError)
            }
        }
    }

    // Does with a request what the backend did with it when it received it.
    fn put(
        &mut self,
        context: RequestContext<'_>,
        moment: u64,
        next: NextRequest,
        received: Received,
    ) -> Result<(), AllocError>
        requires none_waits { is_waiting (connection_of self.old) ≡ false }
        requires fits { FitsIn (buffered_of (connection_of self.old)) next }
        ensures { PutsAs context.entry.explaining next received (is_err result)
            (client_state T.name self.old) (client_state T.name self.new) }
    {
        match received {
            Received::Answered(reply) => self.answer_next(context, moment, next, reply),
            Received::Drafted(ticket, reply) => {
                self.draft_next(context, moment, next, ticket, reply)
            }
            Received::Waits(ticket) => {
                self.wait_next(context, moment, next, ticket);
                Ok(())
            }
            Received::Refused(reason) => self.refuse_next(context, next, reason),
        }
    }

    // Gives the next request to the backend, at this time. If memory runs out, its response is
    // lost, or the backend did not receive it.
    fn offer<B: Backend>(
        &mut self,
        context: RequestContext<'_>,
        backend: &mut B,
        moment: u64,
        now: Duration,
        next: NextRequest,
    ) -> Result<(), AllocError>
        requires none_waits { is_waiting (connection_of self.old) ≡ false }
        requires front { IsFront (callers_of context.tokens.now)
            (left_of (connection_of self.old)) (buffered_of (connection_of self.old)) next }
        ensures { MatchResult result
            (λ _. OffersNext B.Backend context.entry.explaining moment next
            backend.old backend.new (client_state T.name self.old) (client_state T.name self.new)
            false)
            (λ _. LosesOffer B.Backend context.entry.explaining moment next
            backend.old backend.new (client_state T.name self.old) (client_state T.name self.new)) }
    {
        let parts = self.connection.parts(&next);
        let request = Request {
            call: next.call(),
            method: parts.method,
            path: parts.path,
            body: parts.body,
        };
        match backend.receive(context.alloc, moment, now, request) {
            Ok(received) => self.put(context, moment, next, received),
            Err(_) => {
                self.why = Some(Reason::Memory);
                Err(AllocError)
            }
        }
    }

    /// Gives the next request to the backend if it is complete, at the next time of the clock, or
    /// ends the requests of the connection.
    ///
    /// The request gets its response at once, or is drafted or waits under a ticket of the backend.
    pub(crate) fn ask<B: Backend, M: Moments>(
        &mut self,
        context: RequestContext<'_>,
        backend: &mut B,
        moments: &mut M,
        now: Duration,
    ) -> Result<Asked, StreamFault>
        requires open { (client_state T.name self.old).done ≡ false }
        requires none_waits { is_waiting (connection_of self.old) ≡ false }
        ensures runs { (past : Option (List HistoryEvent)) → ClientRuns B.Backend M.Moments
            context.entry.explaining context.entry.tokens.now
            (served_client backend.old moments.old (client_state T.name self.old))
            (served_client backend.new moments.new (client_state T.name self.new)) past past }
        ensures failed { OnErr result (is_some (client_state T.name self.new).why ≡ true) }
    {
        match self
            .connection
            .next(context.alloc, context.routes, context.tokens)
        {
            Ok(NextStep::NeedsInput) => Ok(Asked::NeedsInput),
            Ok(NextStep::Ended(end)) => Ok(Asked::Ended(end)),
            Ok(NextStep::Request(next)) => {
                let Ok(moment) = moments.next() else {
                    self.why = Some(Reason::Clock);
                    return Err(StreamFault::Clock);
                };
                let left = next.left();
                match self.offer(context, backend, moment, now, next) {
                    Ok(()) => Ok(Asked::Received(left)),
                    Err(_) => Err(StreamFault::Memory),
                }
            }
            Err(_) => {
                self.why = Some(Reason::Memory);
                Err(StreamFault::Memory)
            }
        }
    }

    // Lets the draft stand. A request without one, of which no backend says so, gets status 503.
    fn stand(&mut self, alloc: Global) -> Result<(), AllocError>
        ensures resolved { Resolved outcomes.Stands (is_err result)
            (connection_of self.old) (connection_of self.new) }
        ensures same { self.new ≡ record self.old { connection = connection_of self.new } }
    {
        if self.connection.has_deferred() {
            self.connection.release();
            return Ok(());
        }
        self.connection
            .resolve_unavailable(alloc, Unavailable::Unknown)
    }

    // Responds to the request that was drafted or waits, as the outcome says.
    fn resolve(&mut self, alloc: Global, outcome: Outcome) -> Result<(), AllocError>
        ensures resolved { Resolved outcome (is_err result)
            (connection_of self.old) (connection_of self.new) }
        ensures same { self.new ≡ record self.old { connection = connection_of self.new } }
    {
        match outcome {
            Outcome::Stands => self.stand(alloc),
            Outcome::Replied(reply) => self.connection.resolve(alloc, &reply),
            Outcome::Unavailable(reason) => self.connection.resolve_unavailable(alloc, reason),
        }
    }

    /// Tells the client an outcome under a ticket. If its request was drafted or waits under this
    /// ticket, it gets the response that the outcome says. Otherwise nothing is done.
    ///
    /// If memory runs out, neither that response nor the draft is sent, and no more requests are
    /// received.
    pub(crate) fn tell(
        &mut self,
        alloc: Global,
        ticket: u64,
        outcome: Outcome,
    ) -> Result<(), AllocError>
        ensures { client_state T.name self.new
            ≡ told ticket outcome (is_err result) (client_state T.name self.old) }
    {
        let Some(own) = self.ticket else {
            return Ok(());
        };
        if own != ticket {
            return Ok(());
        }
        if !self.connection.is_waiting() {
            return Ok(());
        }
        self.ticket = None;
        match self.resolve(alloc, outcome) {
            Ok(()) => Ok(()),
            Err(_) => {
                self.why = Some(Reason::Memory);
                Err(AllocError)
            }
        }
    }

    // Stops answering the client for this reason, unless no more requests are received.
    fn stop(&mut self, why: Reason)
        ensures steps { (past : Option (List HistoryEvent)) → ClientSteps
            (client_state T.name self.old) (client_state T.name self.new) past past }
        ensures done { (client_state T.name self.new).done ≡ true }
    {
        if self.is_done() {
            return;
        }
        self.why = Some(why);
    }

    /// Ends sending to a client, which is stopped for this reason if more requests may be received.
    /// Returns false if the client is gone.
    pub(crate) fn end_sending<N: Sockets<Client = T>>(
        &mut self,
        sockets: &mut N,
        why: Reason,
    ) -> bool
        ensures steps { ClientSteps (client_state T.name self.old) (client_state T.name self.new)
            (N.history sockets.old) (N.history sockets.new) }
        ensures done { (client_state T.name self.new).done ≡ true }
    {
        self.stop(why);
        sockets.end_sending(&mut self.socket).is_ok()
    }

    /// Reads and discards one chunk. Returns `End` if more requests may be received.
    pub(crate) fn skip<N: Sockets<Client = T>>(
        &mut self,
        sockets: &mut N,
    ) -> Result<ReadOutcome, StreamFault>
        ensures { ClientSteps (client_state T.name self.old) (client_state T.name self.new)
            (N.history sockets.old) (N.history sockets.new) }
    {
        if !self.is_done() {
            return Ok(ReadOutcome::End);
        }
        let mut chunk = [0; CHUNK];
        match sockets.receive(&mut self.socket, &mut chunk) {
            Ok(count) => {
                if count == 0 {
                    self.connection.end_of_input();
                    return Ok(ReadOutcome::End);
                }
                Ok(ReadOutcome::Chunk(count))
            }
            Err(cause) => match cause.kind() {
                ErrorKind::WouldBlock => Ok(ReadOutcome::Nothing),
                _ => Err(StreamFault::Read),
            },
        }
    }
}
