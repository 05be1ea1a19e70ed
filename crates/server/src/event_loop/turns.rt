//! The turns of clients, and the outcomes that the backend gives.
ghost use Rattle.std.specs.Prelude.{◌≡◌, ℕ, IfNone, IfSome, Some};
ghost use Rattle.server_backend.specs.BackendEvent.{Settles};
ghost use Rattle.server_clients.specs.ClientSet.{KeepsClients, clients_of};
ghost use Rattle.server_clients.specs.Turns.{ticket_at};
ghost use Rattle.server.specs.Numbers.{AreNumbered, IsAlone, TellsAll};
ghost use Rattle.server.specs.Runs.{IsOpen, IsQuiet, IsSettled, RunsIn};
ghost use Rattle.server.specs.Watches.{server_state};

use super::EventLoop;
use crate::drafts::Drafts;
use crate::watches::Watches;
use server_backend::backend::Backend;
use server_backend::outcome::Outcome;
use server_base::limits::MAX_CONNECTIONS;
use server_base::server_log::ServerLog;
use server_base::sockets::Sockets;
use server_clients::client_connection::TurnOutcome;
use server_clients::fair_queue::{is_round_over, nanos_between};
use server_clients::request_context::RequestContext;
use server_watch::store_watch::CommitOutcome;
use server_watch::token_watch::TokenSource;
use std::time::Duration;
use wire_http::Moments;

impl<N: Sockets + Drop, K: Drop> EventLoop<N, K> {
    /// Counts what became known of the store, and logs a change of its state.
    pub(crate) fn record_store<J: ServerLog>(
        &mut self,
        outcome: Option<CommitOutcome>,
        now: Duration,
        journal: &mut J,
    )
        ensures { KeepsClients N.Client.name self.old.clients self.new.clients }
    {
        let Some(outcome) = outcome else {
            return;
        };
        let news = match outcome {
            CommitOutcome::Committed => {
                self.metrics.keep();
                self.store.keep()
            }
            CommitOutcome::RolledBack => {
                self.metrics.fail_store();
                self.store.fail(now)
            }
            CommitOutcome::Unknown => {
                self.metrics.break_store();
                self.store.break_down()
            }
        };
        if let Some(news) = news {
            journal.store_event(news);
        }
    }

    // Records what the response of a client's turn says of the store.
    fn note_answer<B: Backend, J: ServerLog>(
        &mut self,
        key: usize,
        backend: &B,
        now: Duration,
        journal: &mut J,
    )
        ensures { KeepsClients N.Client.name self.old.clients self.new.clients }
    {
        let Some(answer) = self.clients.answer_of(key) else {
            return;
        };
        let outcome = backend.store_after(answer, self.store.is_failing());
        self.record_store(outcome, now, journal);
    }

    // Notes the ticket of a client that waits since this turn, and its draft, if there is one.
    fn note_ticket(&mut self, key: usize, turned: TurnOutcome, took: u64)
        ensures { KeepsClients N.Client.name self.old.clients self.new.clients }
    {
        if turned != TurnOutcome::Waits {
            return;
        }
        let Some(ticket) = self.clients.ticket_of(key) else {
            return;
        };
        self.tickets.push(ticket, key);
        let bytes = self.clients.draft_bytes(key);
        if bytes > 0 {
            self.drafts.add(bytes, took);
        }
    }

    // Records how long the turn of a client took, and what is known after it.
    fn note_turn<B: Backend, J: ServerLog>(
        &mut self,
        key: usize,
        class: usize,
        turned: TurnOutcome,
        begun: Option<Duration>,
        backend: &B,
        now: Duration,
        journal: &mut J,
    )
        ensures { KeepsClients N.Client.name self.old.clients self.new.clients }
    {
        let took = nanos_between(begun, self.clock);
        self.clients.set_cost(key, took);
        self.clients.charge(class, begun, self.clock);
        self.note_answer(key, backend, now, journal);
        self.note_ticket(key, turned, took);
    }

    // Runs the turn of a client.
    fn turn<B: Backend, M: Moments, T: TokenSource, J: ServerLog>(
        &mut self,
        sockets: &mut N,
        key: usize,
        class: usize,
        context: RequestContext<'_>,
        watches: &Watches<T>,
        backend: &mut B,
        moments: &mut M,
        now: Duration,
        journal: &mut J,
    )
        ensures { RunsIn B.Backend M.Moments T.TokenSource context.entry.explaining
            IsOpen IsOpen
            (server_state backend.old (clients_of N.Client.name self.old.clients)
            moments.old context.entry.tokens.now watches.now)
            (server_state backend.new (clients_of N.Client.name self.new.clients)
            moments.new context.entry.tokens.now watches.now)
            (N.history sockets.old) (N.history sockets.new) }
    {
        let was_ending = self.clients.is_ending(key);
        let begun = self.clock;
        let turned = self
            .clients
            .turn(context, key, class, begun, backend, moments, sockets, now);
        let Some(turned) = turned else {
            return;
        };
        self.clock = sockets.monotonic_time().ok();
        self.note_turn(key, class, turned, begun, backend, now, journal);
        self.conclude(sockets, key, turned, watches.stops(), now, journal);
        self.clients.count_ending(key, was_ending);
    }

    // Returns the key of the client that waits under a ticket, if one does.
    pub(super) fn find(&mut self, ticket: u64) -> Option<usize>
        ensures same { KeepsClients N.Client.name self.old.clients self.new.clients }
        ensures found { IfSome result
            (λ key. ticket_at (clients_of N.Client.name self.old.clients) key ≡ Some ticket) }
        ensures none { IfNone result ((key : ℕ)
            → ticket_at (clients_of N.Client.name self.old.clients) key ≡ Some ticket → ⊥) }
    {
        if let Some(key) = self.tickets.take(ticket)
            && self.clients.ticket_of(key) == Some(ticket)
        {
            return Some(key);
        }
        self.clients.find_ticket(ticket)
    }

    // Delivers an outcome to the client under a key, which waits under its ticket. Charges its class
    // its share of a commit that took so long, by the cost of its request.
    pub(super) fn tell_client<J: ServerLog>(
        &mut self,
        sockets: &mut N,
        key: usize,
        ticket: u64,
        outcome: Outcome,
        took: u64,
        stops: bool,
        now: Duration,
        journal: &mut J,
    )
        requires waits { ticket_at (clients_of N.Client.name self.old.clients) key ≡ Some ticket }
        requires alone { IsAlone ticket (clients_of N.Client.name self.old.clients) }
        ensures { TellsAll ticket outcome
            (clients_of N.Client.name self.old.clients)
            (clients_of N.Client.name self.new.clients)
            (N.history sockets.old) (N.history sockets.new) }
    {
        let was_ending = self.clients.is_ending(key);
        self.clients.charge_share(key, took, self.drafts.cost());
        let turned = self.clients.tell(sockets, key, ticket, outcome, now);
        self.conclude(sockets, key, turned, stops, now, journal);
        self.clients.count_ending(key, was_ending);
    }

    // Delivers an outcome to the client that waits under its ticket, if one waits.
    fn tell<J: ServerLog>(
        &mut self,
        sockets: &mut N,
        ticket: u64,
        outcome: Outcome,
        took: u64,
        stops: bool,
        now: Duration,
        journal: &mut J,
    )
        requires alone { IsAlone ticket (clients_of N.Client.name self.old.clients) }
        ensures { TellsAll ticket outcome
            (clients_of N.Client.name self.old.clients)
            (clients_of N.Client.name self.new.clients)
            (N.history sockets.old) (N.history sockets.new) }
    {
        let Some(key) = self.find(ticket) else {
            return;
        };
        self.tell_client(sockets, key, ticket, outcome, took, stops, now, journal);
    }

    // Ends the batch of the backend. Returns how many nanoseconds that took.
    fn settle<B: Backend, J: ServerLog>(
        &mut self,
        sockets: &mut N,
        backend: &mut B,
        now: Duration,
        journal: &mut J,
    ) -> u64
        ensures settles { B.Backend.steps backend.old Settles backend.new }
        ensures clients { KeepsClients N.Client.name self.old.clients self.new.clients }
        ensures history { N.history sockets.new ≡ N.history sockets.old }
    {
        let begun = self.clock;
        let store = backend.settle();
        self.clock = sockets.monotonic_time().ok();
        self.record_store(store, now, journal);
        nanos_between(begun, self.clock)
    }

    /// Delivers each outcome that the backend has to the client that waits for it. `took` is how
    /// many nanoseconds the commit took on which the outcomes depend.
    pub(crate) fn tell_all<B: Backend, M: Moments, T: TokenSource, J: ServerLog>(
        &mut self,
        sockets: &mut N,
        context: RequestContext<'_>,
        watches: &Watches<T>,
        backend: &mut B,
        _moments: &M,
        took: u64,
        now: Duration,
        journal: &mut J,
    )
        requires numbered { AreNumbered B.Backend backend.old
            (clients_of N.Client.name self.old.clients) }
        ensures { RunsIn B.Backend M.Moments T.TokenSource context.entry.explaining
            IsSettled IsQuiet
            (server_state backend.old (clients_of N.Client.name self.old.clients)
            _moments.now context.entry.tokens.now watches.now)
            (server_state backend.new (clients_of N.Client.name self.new.clients)
            _moments.now context.entry.tokens.now watches.now)
            (N.history sockets.old) (N.history sockets.new) }
    {
        let stops = watches.stops();
        while let Some(given) = backend.next_outcome() {
            let (ticket, outcome) = given;
            self.tell(sockets, ticket, outcome, took, stops, now, journal);
        }
        self.drafts = Drafts::new();
    }

    // Ends the batch, and delivers all outcomes.
    fn end_batch<B: Backend, M: Moments, T: TokenSource, J: ServerLog>(
        &mut self,
        sockets: &mut N,
        context: RequestContext<'_>,
        watches: &Watches<T>,
        backend: &mut B,
        moments: &M,
        now: Duration,
        journal: &mut J,
    )
        requires numbered { AreNumbered B.Backend backend.old
            (clients_of N.Client.name self.old.clients) }
        ensures { RunsIn B.Backend M.Moments T.TokenSource context.entry.explaining
            IsOpen IsQuiet
            (server_state backend.old (clients_of N.Client.name self.old.clients)
            moments.now context.entry.tokens.now watches.now)
            (server_state backend.new (clients_of N.Client.name self.new.clients)
            moments.now context.entry.tokens.now watches.now)
            (N.history sockets.old) (N.history sockets.new) }
    {
        let took = self.settle(sockets, backend, now, journal);
        self.tell_all(
            sockets, context, watches, backend, moments, took, now, journal,
        );
    }

    // Runs the turn of a client, and ends the batch if enough responses are drafted.
    fn answer_one<B: Backend, M: Moments, T: TokenSource, J: ServerLog>(
        &mut self,
        sockets: &mut N,
        key: usize,
        class: usize,
        context: RequestContext<'_>,
        watches: &Watches<T>,
        backend: &mut B,
        moments: &mut M,
        now: Duration,
        journal: &mut J,
    )
        requires numbered { AreNumbered B.Backend backend.old
            (clients_of N.Client.name self.old.clients) }
        ensures { RunsIn B.Backend M.Moments T.TokenSource context.entry.explaining
            IsOpen IsOpen
            (server_state backend.old (clients_of N.Client.name self.old.clients)
            moments.old context.entry.tokens.now watches.now)
            (server_state backend.new (clients_of N.Client.name self.new.clients)
            moments.new context.entry.tokens.now watches.now)
            (N.history sockets.old) (N.history sockets.new) }
    {
        self.turn(
            sockets, key, class, context, watches, backend, moments, now, journal,
        );
        if !self.drafts.are_enough() {
            return;
        }
        self.end_batch(sockets, context, watches, backend, moments, now, journal);
    }

    // Answers requests in the order of the fair queue, until the round is over.
    fn answer_waiting<B: Backend, M: Moments, T: TokenSource, J: ServerLog>(
        &mut self,
        sockets: &mut N,
        context: RequestContext<'_>,
        watches: &Watches<T>,
        backend: &mut B,
        moments: &mut M,
        now: Duration,
        journal: &mut J,
    )
        requires numbered { AreNumbered B.Backend backend.old
            (clients_of N.Client.name self.old.clients) }
        ensures { RunsIn B.Backend M.Moments T.TokenSource context.entry.explaining
            IsOpen IsOpen
            (server_state backend.old (clients_of N.Client.name self.old.clients)
            moments.old context.entry.tokens.now watches.now)
            (server_state backend.new (clients_of N.Client.name self.new.clients)
            moments.new context.entry.tokens.now watches.now)
            (N.history sockets.old) (N.history sockets.new) }
    {
        let begun = self.clock;
        for _ in 0..MAX_CONNECTIONS {
            let Some((class, key)) = self.clients.pick() else {
                return;
            };
            self.answer_one(
                sockets, key, class, context, watches, backend, moments, now, journal,
            );
            if is_round_over(begun, self.clock) {
                return;
            }
        }
    }

    /// Moves bytes of each queued client, answers requests in the order of the fair queue, and ends
    /// their batch. This takes about 5 ms, or as long as one request.
    ///
    /// No drafted response is sent before the batch ends. If many clients wait, it ends more than
    /// one batch.
    pub(crate) fn run_once<B: Backend, M: Moments, T: TokenSource, J: ServerLog>(
        &mut self,
        sockets: &mut N,
        context: RequestContext<'_>,
        watches: &Watches<T>,
        backend: &mut B,
        moments: &mut M,
        now: Duration,
        journal: &mut J,
    )
        requires numbered { AreNumbered B.Backend backend.old
            (clients_of N.Client.name self.old.clients) }
        ensures { RunsIn B.Backend M.Moments T.TokenSource context.entry.explaining
            IsQuiet IsQuiet
            (server_state backend.old (clients_of N.Client.name self.old.clients)
            moments.old context.entry.tokens.now watches.now)
            (server_state backend.new (clients_of N.Client.name self.new.clients)
            moments.new context.entry.tokens.now watches.now)
            (N.history sockets.old) (N.history sockets.new) }
    {
        self.clock = sockets.monotonic_time().ok();
        self.move_all(sockets, context.tokens, watches.stops(), now, journal);
        if !self.clients.has_request() {
            return;
        }
        self.answer_waiting(sockets, context, watches, backend, moments, now, journal);
        self.end_batch(sockets, context, watches, backend, moments, now, journal);
    }
}
