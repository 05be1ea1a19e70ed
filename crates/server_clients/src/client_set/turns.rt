//! The turns of clients, and the outcomes that are delivered to them.
ghost use Rattle.std.specs.Prelude.{◌≡◌, ℕ, IfNone, IfSome, Some};
ghost use Rattle.server_clients.specs.ClientSet.{ChangesClients, KeepsClients, clients_of};
ghost use Rattle.server_clients.specs.Turns.{MayRunClient, MayTellClient, served_clients};
ghost use Rattle.server_clients.specs.Turns.{ticket_at};

use super::ClientSet;
use crate::client_connection::TurnOutcome;
use crate::fair_queue::nanos_between;
use crate::request_context::RequestContext;
use admin_http::service_metrics::ServiceMetrics;
use server_backend::backend::Backend;
use server_backend::outcome::Outcome;
use server_base::response_info::ResponseInfo;
use server_base::server_log::{AbortedConnection, ServerLog};
use server_base::service_record::record_answer;
use server_base::sockets::{ClientSocket, Sockets};
use std::time::Duration;
use wire_http::Moments;

impl<T: ClientSocket> ClientSet<T> {
    /// Returns true if there is a client under this key.
    pub fn contains(&self, key: usize) -> bool {
        self.connections.contains(key)
    }

    /// Returns true if a request waits in the fair queue.
    pub fn has_request(&self) -> bool {
        self.fair.has_next()
    }

    /// Returns the class and the key of the client whose request is next, and removes it from the
    /// fair queue.
    pub fn pick(&mut self) -> Option<(usize, usize)>
        ensures { KeepsClients T.name self.old self.new }
    {
        self.fair.pick()
    }

    /// Charges a class the time between two readings of the monotonic clock.
    pub fn charge(&mut self, class: usize, begun: Option<Duration>, ended: Option<Duration>)
        ensures { KeepsClients T.name self.old self.new }
    {
        self.fair.charge(class, nanos_between(begun, ended));
    }

    /// Records how many nanoseconds the last request of a client took.
    pub fn set_cost(&mut self, key: usize, took: u64)
        ensures { KeepsClients T.name self.old self.new }
    {
        if let Some(client) = self.connections.get_mut(key) {
            client.member.cost = took;
        }
    }

    /// Returns true if a client has its last response.
    pub fn is_ending(&self, key: usize) -> bool {
        match self.connections.get(key) {
            Some(client) => client.is_ending(),
            None => false,
        }
    }

    /// Returns the ticket under which the request of a client was drafted or waits, if there is
    /// one.
    pub fn ticket_of(&self, key: usize) -> Option<u64>
        ensures { result ≡ ticket_at (clients_of T.name self.now) key }
    {
        match self.connections.get(key) {
            Some(client) => client.ticket(),
            None => None,
        }
    }

    /// Returns the key of the client whose request was drafted or waits under a ticket, if there is
    /// one. Looks at all clients.
    pub fn find_ticket(&self, ticket: u64) -> Option<usize>
        ensures found { IfSome result
            (λ key. ticket_at (clients_of T.name self.now) key ≡ Some ticket) }
        ensures none { IfNone result ((key : ℕ)
            → ticket_at (clients_of T.name self.now) key ≡ Some ticket → ⊥) }
    {
        for entry in self.connections.iter() {
            let (key, client) = entry;
            if client.ticket() == Some(ticket) {
                return Some(key);
            }
        }
        None
    }

    /// Returns the size of a client's draft in bytes.
    pub fn draft_bytes(&self, key: usize) -> usize {
        match self.connections.get(key) {
            Some(client) => client.draft_bytes(),
            None => 0,
        }
    }

    /// Returns the response that a client's turn prepared, if it is not recorded yet.
    pub fn answer_of(&self, key: usize) -> Option<ResponseInfo> {
        match self.connections.get(key) {
            Some(client) => client.answer(),
            None => None,
        }
    }

    /// Returns the description of a client for the log, as a connection that is aborted now.
    pub fn aborted(&self, key: usize, now: Duration) -> Option<AbortedConnection> {
        match self.connections.get(key) {
            Some(client) => Some(client.aborted(now)),
            None => None,
        }
    }

    /// Returns what a client does whose timeout has passed, or `None` if it has not.
    pub fn late_turn(&self, key: usize, now: Duration) -> Option<TurnOutcome> {
        let Some(client) = self.connections.get(key) else {
            return None;
        };
        if !client.is_late(now) {
            return None;
        }
        match client.late_fault() {
            Some(fault) => Some(TurnOutcome::Failed(fault)),
            None => Some(TurnOutcome::Gone),
        }
    }

    /// Moves bytes of a client that was queued, without answering a request.
    pub fn move_on<N: Sockets<Client = T>>(
        &mut self,
        sockets: &mut N,
        key: usize,
        now: Duration,
    ) -> TurnOutcome
        ensures { ChangesClients T.name self.old self.new
            (N.history sockets.old) (N.history sockets.new) }
    {
        match self.connections.get_mut(key) {
            Some(client) => {
                client.set_queued(false);
                client.move_on(sockets, now)
            }
            None => TurnOutcome::Gone,
        }
    }

    /// Runs the turn of a client of this class, which began at this time. Returns `None` if the
    /// client does not wait there: another client may have had its key before.
    pub fn turn<B: Backend, M: Moments, N: Sockets<Client = T>>(
        &mut self,
        context: RequestContext<'_>,
        key: usize,
        class: usize,
        begun: Option<Duration>,
        backend: &mut B,
        moments: &mut M,
        sockets: &mut N,
        now: Duration,
    ) -> Option<TurnOutcome>
        ensures { MayRunClient B.Backend M.Moments
            context.entry.explaining context.entry.tokens.now key
            (served_clients backend.old moments.old (clients_of T.name self.old))
            (served_clients backend.new moments.new (clients_of T.name self.new))
            (N.history sockets.old) (N.history sockets.new) }
    {
        let Some(client) = self.connections.get_mut(key) else {
            return None;
        };
        if !client.begin_turn(class, begun) {
            return None;
        }
        Some(client.turn(context, backend, moments, sockets, now))
    }

    /// Delivers an outcome under a ticket to a client, and sends the response that it says.
    pub fn tell<N: Sockets<Client = T>>(
        &mut self,
        sockets: &mut N,
        key: usize,
        ticket: u64,
        outcome: Outcome,
        now: Duration,
    ) -> TurnOutcome
        ensures { MayTellClient key ticket outcome
            (clients_of T.name self.old) (clients_of T.name self.new)
            (N.history sockets.old) (N.history sockets.new) }
    {
        match self.connections.get_mut(key) {
            Some(client) => client.tell(self.alloc, sockets, ticket, outcome, now),
            None => TurnOutcome::Gone,
        }
    }

    /// Counts and logs the response that a client's turn prepared, if there is one. `clock` is the
    /// time at the end of the turn, if the clock returned one.
    pub fn record_response<J: ServerLog>(
        &mut self,
        key: usize,
        metrics: &mut ServiceMetrics,
        clock: Option<Duration>,
        journal: &mut J,
    )
        ensures { KeepsClients T.name self.old self.new }
    {
        let Some(client) = self.connections.get_mut(key) else {
            return;
        };
        let Some(answer) = client.take_response() else {
            return;
        };
        let took = match (client.asked(), clock) {
            (Some(asked), Some(ended)) => Some(ended.saturating_sub(asked)),
            _ => None,
        };
        let status = answer.status();
        record_answer(
            metrics,
            answer,
            status,
            client.number(),
            client.noted(),
            took,
            journal,
        );
    }
}
