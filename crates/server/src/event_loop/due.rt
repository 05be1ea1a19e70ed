//! Requests that waited and can be answered now.
ghost use Rattle.std.specs.Prelude.{◌≡◌, IsTrue, Some};
ghost use Rattle.server_clients.specs.ClientSet.{KeepsClients, clients_of};
ghost use Rattle.server_clients.specs.Turns.{ticket_at};
ghost use Rattle.server.specs.Numbers.{AreNumbered};
ghost use Rattle.server.specs.Runs.{IsQuiet, RunsIn};
ghost use Rattle.server.specs.Watches.{server_state};

use super::EventLoop;
use crate::watches::Watches;
use server_backend::backend::Backend;
use server_base::limits::MAX_CONNECTIONS;
use server_base::server_log::ServerLog;
use server_base::sockets::Sockets;
use server_clients::client_connection::TurnOutcome;
use server_clients::fair_queue::is_round_over;
use server_clients::request_context::RequestContext;
use server_watch::token_watch::TokenSource;
use std::time::Duration;
use wire_http::{Moments, StreamFault};

impl<N: Sockets + Drop, K: Drop> EventLoop<N, K> {
    // Adds a request to those that can be answered, if its client waits.
    fn note_due(&mut self, ticket: u64)
        ensures { KeepsClients N.Client.name self.old.clients self.new.clients }
    {
        let Some(key) = self.find(ticket) else {
            return;
        };
        self.due.push(ticket, key);
    }

    // Adds all requests that can be answered since the last round.
    fn note_all_due<B: Backend, M: Moments, T: TokenSource>(
        &mut self,
        _sockets: &N,
        context: RequestContext<'_>,
        watches: &Watches<T>,
        backend: &mut B,
        _moments: &M,
    )
        ensures { RunsIn B.Backend M.Moments T.TokenSource context.entry.explaining
            IsQuiet IsQuiet
            (server_state backend.old (clients_of N.Client.name self.old.clients)
            _moments.now context.entry.tokens.now watches.now)
            (server_state backend.new (clients_of N.Client.name self.new.clients)
            _moments.now context.entry.tokens.now watches.now)
            (N.history _sockets.now) (N.history _sockets.now) }
    {
        for _ in 0..MAX_CONNECTIONS {
            let Some(ticket) = backend.next_due() else {
                return;
            };
            self.note_due(ticket);
        }
    }

    // Returns true if the client under a key waits under a ticket.
    fn waits_under(&self, key: usize, ticket: u64) -> bool
        ensures { IsTrue result
            → ticket_at (clients_of N.Client.name self.now.clients) key ≡ Some ticket }
    {
        self.clients.ticket_of(key) == Some(ticket)
    }

    // Charges the class of a client the time since the last reading of the monotonic clock.
    fn charge_due(&mut self, sockets: &N, key: usize)
        ensures { KeepsClients N.Client.name self.old.clients self.new.clients }
    {
        let begun = self.clock;
        self.clock = sockets.monotonic_time().ok();
        self.clients
            .charge(self.clients.class_of(key), begun, self.clock);
    }

    // Answers a request that can be answered now, at the next time of the clock, and delivers the
    // outcome to its client. If the clock fails, the client is aborted.
    fn answer_ticket<B: Backend, M: Moments, T: TokenSource, J: ServerLog>(
        &mut self,
        sockets: &mut N,
        ticket: u64,
        key: usize,
        context: RequestContext<'_>,
        watches: &Watches<T>,
        backend: &mut B,
        moments: &mut M,
        now: Duration,
        journal: &mut J,
    )
        requires numbered { AreNumbered B.Backend backend.old
            (clients_of N.Client.name self.old.clients) }
        ensures { RunsIn B.Backend M.Moments T.TokenSource context.entry.explaining
            IsQuiet IsQuiet
            (server_state backend.old (clients_of N.Client.name self.old.clients)
            moments.old context.entry.tokens.now watches.now)
            (server_state backend.new (clients_of N.Client.name self.new.clients)
            moments.new context.entry.tokens.now watches.now)
            (N.history sockets.old) (N.history sockets.new) }
    {
        let stops = watches.stops();
        if !self.waits_under(key, ticket) {
            return;
        }
        let Ok(moment) = moments.next() else {
            let failed = TurnOutcome::Failed(StreamFault::Clock);
            self.conclude(sockets, key, failed, stops, now, journal);
            return;
        };
        let Some(outcome) = backend.answer(context.alloc, moment, ticket) else {
            return;
        };
        self.tell_client(sockets, key, ticket, outcome, 0, stops, now, journal);
    }

    /// Answers requests that waited and can be answered now, each at a time of the clock, in the
    /// order of the fair queue. This takes about 5 ms, or as long as one request; the others are
    /// answered in the next rounds.
    pub(crate) fn answer_due<B: Backend, M: Moments, T: TokenSource, J: ServerLog>(
        &mut self,
        sockets: &mut N,
        context: RequestContext<'_>,
        watches: &Watches<T>,
        backend: &mut B,
        moments: &mut M,
        now: Duration,
        journal: &mut J,
    )
        requires numbered { AreNumbered B.Backend backend.old
            (clients_of N.Client.name self.old.clients) }
        ensures { RunsIn B.Backend M.Moments T.TokenSource context.entry.explaining
            IsQuiet IsQuiet
            (server_state backend.old (clients_of N.Client.name self.old.clients)
            moments.old context.entry.tokens.now watches.now)
            (server_state backend.new (clients_of N.Client.name self.new.clients)
            moments.new context.entry.tokens.now watches.now)
            (N.history sockets.old) (N.history sockets.new) }
    {
        self.note_all_due(sockets, context, watches, backend, moments);
        if self.due.is_empty() {
            return;
        }
        self.clock = sockets.monotonic_time().ok();
        let begun = self.clock;
        for _ in 0..MAX_CONNECTIONS {
            let Some((ticket, key)) = self.due.take_next(&self.clients) else {
                return;
            };
            self.answer_ticket(
                sockets, ticket, key, context, watches, backend, moments, now, journal,
            );
            self.charge_due(sockets, key);
            if is_round_over(begun, self.clock) {
                return;
            }
        }
    }
}
