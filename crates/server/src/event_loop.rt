//! The event loop over all clients of a port.
ghost use Rattle.std.specs.Prelude.{◌≡◌, ℕ, Bool, IfOk, IsTrue, None};
ghost use Rattle.server_clients.specs.ClientSet.{AddsIf, ChangesClients, ChangesUnseen};
ghost use Rattle.server_clients.specs.ClientSet.{KeepsClients, LimitsBelow, clients_of};
ghost use Rattle.server_clients.specs.ServerEvents.{no_clients};

mod advance;
mod due;
mod operated;
mod turns;

use crate::drafts::Drafts;
use crate::due_requests::DueRequests;
use crate::tickets::Tickets;
use admin_http::service_metrics::ServiceMetrics;
use server_admin::admin_connections::AdminConnections;
use server_base::acceptance::Acceptance;
use server_base::limits::{LOOKS, LOOKS_SOON, Limits, MAX_CONNECTIONS};
use server_base::server_log::ServerLog;
use server_base::service_record::failure_of;
use server_base::sockets::{AcceptFault, EventSource, SocketEvent, Sockets};
use server_base::trusted_time::TrustedTime;
use server_clients::client_connection::TurnOutcome;
use server_clients::client_set::ClientSet;
use server_clients::reason::{Reason, reason_of};
use server_watch::store_watch::StoreWatch;
use server_watch::time_record::TimeRecord;
use std::alloc::{AllocError, Global};
use std::collections::VecDeque;
use std::io;
use std::time::Duration;
use token_conf::token_table::TokenTable;
use wire_http::StreamFault;

/// All clients of a port.
#[derive(Drop)]
pub(crate) struct EventLoop<N: Sockets, K> {
    alloc: Global,
    clients: ClientSet<N::Client>,
    // The clients that wait for an outcome, the drafts of the batch, and the tickets of clients
    // that were closed while they waited.
    tickets: Tickets,
    drafts: Drafts,
    // The requests that waited and can be answered.
    due: DueRequests,
    gone: VecDeque<u64>,
    // The last reading of the monotonic clock.
    clock: Option<Duration>,
    acceptance: Acceptance,
    // When late clients were last looked for.
    looked: Duration,
    // The metrics, the store watch, the stored time, and the admin port.
    metrics: ServiceMetrics,
    store: StoreWatch,
    record: Option<TimeRecord>,
    operators: AdminConnections<N, K>,
    // The time until which the metrics of the process count as current.
    measured_until: Duration,
}

impl<N: Sockets + Drop, K: Drop> EventLoop<N, K> {
    /// Creates an event loop without clients. Allocates the memory for the maximum number of
    /// clients here, so that no client is dropped later for lack of it. Of a class, `share` requests
    /// may wait at the backend at once.
    pub(crate) fn new(
        alloc: Global,
        limits: Limits,
        is_operated: bool,
        backups: Option<K>,
        record: Option<TimeRecord>,
        share: usize,
    ) -> Result<EventLoop<N, K>, AllocError>
        ensures { IfOk result
            (λ event_loop. clients_of N.Client.name event_loop.clients ≡ no_clients) }
    {
        let clients = ClientSet::new(alloc, limits, share)?;
        let operators = AdminConnections::new(alloc, is_operated, backups)?;
        let tickets = Tickets::new(alloc, MAX_CONNECTIONS)?;
        let gone = VecDeque::with_capacity(alloc, MAX_CONNECTIONS)?;
        Ok(EventLoop {
            alloc,
            clients,
            tickets,
            drafts: Drafts::new(),
            due: DueRequests::new(alloc)?,
            gone,
            clock: None,
            acceptance: Acceptance::new(limits.count),
            looked: Duration::from_millis(0),
            metrics: ServiceMetrics::new(alloc),
            store: StoreWatch::new(),
            record,
            operators,
            measured_until: Duration::from_millis(0),
        })
    }

    /// Returns true if no connection may come and none is left.
    pub(crate) fn is_done(&self) -> bool
        ensures { IsTrue result
            → (key : ℕ) → clients_of N.Client.name self.now.clients key ≡ None }
    {
        self.acceptance.is_over() && self.clients.is_empty()
    }

    // Returns true if a client can be accepted, if the system has room for it. `stops` says that an
    // operator stopped the server.
    fn has_room(&self, stops: bool) -> bool {
        self.acceptance.may_come() && !stops && self.clients.has_room()
    }

    // Returns how long the system may wait for events: at most until the token file is checked, and
    // no longer than the backend may wait.
    fn patience(&self, stops: bool, backend: Duration, now: Duration) -> Duration {
        let clients = self.patience_for_clients(stops, now).min(backend);
        match self.operators.patience(now) {
            Some(operators) => clients.min(operators),
            None => clients,
        }
    }

    // Returns how long it may wait for the clients.
    fn patience_for_clients(&self, stops: bool, now: Duration) -> Duration {
        if self.clients.has_next() || !self.due.is_empty() {
            return Duration::from_millis(0);
        }
        if self.has_room(stops) {
            return self.acceptance.pause(now);
        }
        Duration::from_millis(if self.clients.is_any_ending() || stops {
            LOOKS_SOON
        } else {
            LOOKS
        })
    }

    // Records a socket event.
    fn note(&mut self, told: SocketEvent)
        ensures { KeepsClients N.Client.name self.old.clients self.new.clients }
    {
        match told.which {
            EventSource::Port => self.acceptance.set_waiting(true),
            EventSource::AdminPort => self.operators.note_waiting(),
            EventSource::AdminConnection(key) => self.operators.note(key, told),
            EventSource::Client(key) => self.clients.note(key, told),
        }
    }

    /// Waits until the system reports events, and records them. Waits no longer than the backend
    /// may.
    pub(crate) fn wait(
        &mut self,
        sockets: &mut N,
        stops: bool,
        backend: Duration,
        now: Duration,
    ) -> io::Result<()>
        ensures clients { KeepsClients N.Client.name self.old.clients self.new.clients }
        ensures history { N.history sockets.new ≡ N.history sockets.old }
    {
        let patience = self.patience(stops, backend, now);
        sockets.wait(Some(patience))?;
        for _ in 0..usize::MAX {
            match sockets.next_event() {
                Some(told) => self.note(told),
                None => return Ok(()),
            }
        }
        Ok(())
    }

    // Adds a client. Closes it if it cannot be watched, or if memory runs out.
    fn take_in(&mut self, sockets: &mut N, mut socket: N::Client, now: Duration)
        ensures adds { (added : Bool) × AddsIf added (N.Client.name socket)
            (clients_of N.Client.name self.old.clients)
            (clients_of N.Client.name self.new.clients) }
        ensures history { N.history sockets.new ≡ N.history sockets.old }
    {
        let number = self.acceptance.count();
        self.metrics.connections.accept();
        let key = self.clients.vacant_key();
        if sockets.watch(&mut socket, key).is_err() {
            self.metrics.connections.refuse();
            return;
        }
        if !self.clients.insert(socket, number, now) {
            self.metrics.connections.refuse();
        }
    }

    // Counts an accept for which the system had no room, and logs it once a minute.
    fn fail_accept<J: ServerLog>(&mut self, now: Duration, journal: &mut J)
        ensures { KeepsClients N.Client.name self.old.clients self.new.clients }
    {
        self.metrics.connections.note_failed_accept();
        if self.acceptance.is_reported(now) {
            journal.accept_failed();
        }
    }

    // Accepts waiting admin connections.
    fn accept_operators<J: ServerLog>(&mut self, sockets: &mut N, now: Duration, journal: &mut J)
        ensures clients { KeepsClients N.Client.name self.old.clients self.new.clients }
        ensures history { N.history sockets.new ≡ N.history sockets.old }
    {
        if self.operators.accept(sockets, now) {
            self.fail_accept(now, journal);
        }
    }

    /// Accepts waiting connections, as far as there is room. If the system has none, it tries again
    /// a little later.
    pub(crate) fn accept<J: ServerLog>(
        &mut self,
        sockets: &mut N,
        stops: bool,
        now: Duration,
        journal: &mut J,
    ) -> io::Result<()>
        ensures { ChangesClients N.Client.name self.old.clients self.new.clients
            (N.history sockets.old) (N.history sockets.new) }
    {
        self.accept_operators(sockets, now, journal);
        for _ in 0..MAX_CONNECTIONS {
            if !self.has_room(stops) || self.acceptance.is_paused(now) {
                return Ok(());
            }
            match sockets.accept() {
                Ok(socket) => self.take_in(sockets, socket, now),
                Err(AcceptFault::NoneWaits) => self.acceptance.set_waiting(false),
                Err(AcceptFault::Gone) => {}
                Err(AcceptFault::Full) => {
                    self.acceptance.begin_pause(now);
                    self.fail_accept(now, journal);
                }
                Err(AcceptFault::Failed(cause)) => return Err(cause),
            }
        }
        Ok(())
    }

    // Logs the fault of a client, and stops answering it for this reason.
    fn fail<J: ServerLog>(
        &mut self,
        sockets: &mut N,
        key: usize,
        fault: StreamFault,
        why: Reason,
        now: Duration,
        journal: &mut J,
    ) -> TurnOutcome
        ensures { ChangesClients N.Client.name self.old.clients self.new.clients
            (N.history sockets.old) (N.history sockets.new) }
    {
        if let Some(aborted) = self.clients.aborted(key, now) {
            journal.connection_failed(fault, aborted);
        }
        self.metrics.fail(failure_of(fault));
        self.clients.abort(sockets, key, why, now)
    }

    // Aborts a client that failed. Closes one that rests while the server stops.
    fn end_failed<J: ServerLog>(
        &mut self,
        sockets: &mut N,
        key: usize,
        turned: TurnOutcome,
        stops: bool,
        now: Duration,
        journal: &mut J,
    ) -> TurnOutcome
        ensures { ChangesClients N.Client.name self.old.clients self.new.clients
            (N.history sockets.old) (N.history sockets.new) }
    {
        match turned {
            TurnOutcome::Failed(fault) => {
                self.fail(sockets, key, fault, reason_of(fault), now, journal)
            }
            TurnOutcome::Rests | TurnOutcome::WantsLargeBuffer if stops => {
                self.clients.end_after(sockets, key, turned, now)
            }
            _ => turned,
        }
    }

    // Does what follows from the outcome of a client's turn. Notes the ticket of a client that is
    // closed while it waits.
    fn schedule(&mut self, key: usize, turned: TurnOutcome, now: Duration)
        ensures { ChangesUnseen N.Client.name self.old.clients self.new.clients }
    {
        let ticket = self.clients.ticket_of(key);
        self.clients.schedule(key, turned, now);
        if let Some(ticket) = ticket
            && !self.clients.contains(key)
        {
            let _ = self.tickets.take(ticket);
            let _ = self.gone.push_back(ticket);
        }
    }

    // Acts on the outcome of a client's turn.
    fn act_on<J: ServerLog>(
        &mut self,
        sockets: &mut N,
        key: usize,
        turned: TurnOutcome,
        stops: bool,
        now: Duration,
        journal: &mut J,
    )
        ensures { ChangesClients N.Client.name self.old.clients self.new.clients
            (N.history sockets.old) (N.history sockets.new) }
    {
        let turned = self.end_failed(sockets, key, turned, stops, now, journal);
        self.schedule(key, turned, now);
    }

    // Records and logs the response of a client's turn, and acts on the outcome of the turn.
    fn conclude<J: ServerLog>(
        &mut self,
        sockets: &mut N,
        key: usize,
        turned: TurnOutcome,
        stops: bool,
        now: Duration,
        journal: &mut J,
    )
        ensures { ChangesClients N.Client.name self.old.clients self.new.clients
            (N.history sockets.old) (N.history sockets.new) }
    {
        self.clients
            .record_response(key, &mut self.metrics, self.clock, journal);
        self.clients.count_for_class(key);
        self.act_on(sockets, key, turned, stops, now, journal);
    }

    // Moves bytes of a client, and classifies its next request.
    fn move_one<J: ServerLog>(
        &mut self,
        sockets: &mut N,
        key: usize,
        tokens: &TokenTable,
        stops: bool,
        now: Duration,
        journal: &mut J,
    )
        ensures { ChangesClients N.Client.name self.old.clients self.new.clients
            (N.history sockets.old) (N.history sockets.new) }
    {
        if !self.clients.contains(key) {
            return;
        }
        let was_ending = self.clients.is_ending(key);
        let begun = self.clock;
        let moved = self.clients.move_on(sockets, key, now);
        let turned = self.clients.classify_ready(key, tokens, moved);
        // the bytes of a head count for the class of its caller
        let class = self.clients.class_of(key);
        self.clients.count_for_class(key);
        self.act_on(sockets, key, turned, stops, now, journal);
        self.clients.count_ending(key, was_ending);
        self.clock = sockets.monotonic_time().ok();
        self.clients.charge(class, begun, self.clock);
    }

    // Moves bytes of each queued client.
    fn move_all<J: ServerLog>(
        &mut self,
        sockets: &mut N,
        tokens: &TokenTable,
        stops: bool,
        now: Duration,
        journal: &mut J,
    )
        ensures { ChangesClients N.Client.name self.old.clients self.new.clients
            (N.history sockets.old) (N.history sockets.new) }
    {
        let keys = self.clients.take_queued();
        for key in &keys {
            self.move_one(sockets, *key, tokens, stops, now, journal);
        }
        self.clients.return_queued(keys);
    }

    // Stops answering a client whose timeout has passed while it sent a request or took a response.
    fn fail_late<J: ServerLog>(
        &mut self,
        sockets: &mut N,
        key: usize,
        turned: TurnOutcome,
        now: Duration,
        journal: &mut J,
    ) -> TurnOutcome
        ensures { ChangesClients N.Client.name self.old.clients self.new.clients
            (N.history sockets.old) (N.history sockets.new) }
    {
        match turned {
            TurnOutcome::Failed(fault) => {
                self.fail(sockets, key, fault, Reason::Late, now, journal)
            }
            _ => turned,
        }
    }

    // Ends a client whose timeout has passed.
    fn end_late<J: ServerLog>(
        &mut self,
        sockets: &mut N,
        key: usize,
        now: Duration,
        journal: &mut J,
    )
        ensures { ChangesClients N.Client.name self.old.clients self.new.clients
            (N.history sockets.old) (N.history sockets.new) }
    {
        let Some(turned) = self.clients.late_turn(key, now) else {
            return;
        };
        let was_ending = self.clients.is_ending(key);
        let turned = self.fail_late(sockets, key, turned, now, journal);
        self.schedule(key, turned, now);
        self.clients.count_ending(key, was_ending);
    }

    /// Ends all clients whose timeout has passed.
    pub(crate) fn end_all_late<J: ServerLog>(
        &mut self,
        sockets: &mut N,
        now: Duration,
        journal: &mut J,
    )
        ensures { ChangesClients N.Client.name self.old.clients self.new.clients
            (N.history sockets.old) (N.history sockets.new) }
    {
        let gap = if self.clients.is_any_ending() {
            LOOKS_SOON
        } else {
            LOOKS
        };
        if now.saturating_sub(self.looked) < Duration::from_millis(gap) {
            return;
        }
        self.looked = now;
        for key in 0..MAX_CONNECTIONS {
            self.end_late(sockets, key, now, journal);
        }
    }

    /// Lets each client make at most one more request, since an operator stopped the server.
    pub(crate) fn stop(&mut self)
        ensures changes { ChangesUnseen N.Client.name self.old.clients self.new.clients }
        ensures limits { LimitsBelow 1000 (clients_of N.Client.name self.old.clients)
            (clients_of N.Client.name self.new.clients) }
    {
        self.metrics.stop();
        self.clients.limit_all();
    }

    /// Stores the last trusted time of the clock, if it is due, so that the next start finds it. A
    /// failure is logged, and ends nothing.
    pub(crate) fn store_time<J: ServerLog>(
        &mut self,
        sockets: &mut N,
        time: Option<TrustedTime>,
        now: Duration,
        journal: &mut J,
    )
        ensures clients { KeepsClients N.Client.name self.old.clients self.new.clients }
        ensures history { N.history sockets.new ≡ N.history sockets.old }
    {
        let (Some(record), Some(time)) = (&mut self.record, time) else {
            return;
        };
        if !record.is_due(time, now) {
            return;
        }
        match sockets.store_time(time) {
            Ok(()) => record.keep(time),
            Err(_) => {
                journal.time_not_stored();
                record.fail(now);
            }
        }
    }

    /// Flushes the log lines of the round.
    pub(crate) fn flush_log<J: ServerLog>(&mut self, journal: &mut J)
        ensures { KeepsClients N.Client.name self.old.clients self.new.clients }
    {
        self.metrics.faults.dropped_lines = journal.flush();
    }
}
