//! The trait of backends.
ghost use Rattle.std.specs.Prelude.{◌≡◌, ℕ, Bool, None, MatchOption, MatchResult};
ghost use Rattle.server_backend.specs.BackendEvent.{Advances, Announces, Answers, BackendEvent, Forgets, Gives, GivesNone, HasNumber, LeavesFewer, Receives, Settles, Stops};
ghost use Rattle.server_backend.specs.Request.{IsRequestFor};

use crate::outcome::{Outcome, Received};
use crate::progress::Progress;
use crate::request::Request;
use admin_http::service_metrics::ServiceMetrics;
use server_base::response_info::ResponseInfo;
use server_base::server_log::ServerLog;
use server_watch::store_watch::CommitOutcome;
use space_snapshot::snapshot::{NoMirror, Snapshot};
use std::alloc::{AllocError, Global};
use std::time::Duration;
use wire_route::routes::Routes;

/// What answers the requests of a server: a database, or an instance of a pool.
///
/// A backend receives requests one after the other. It replies to each at once, or gives a ticket.
/// It gives the outcome of a request with a ticket later, once. It never blocks, and makes no call
/// of a client's socket.
///
/// `steps old event new` holds if the event leads from the backend `old` to `new`. Each method is
/// one event, so the use of a backend is a list of events. What a backend promises about such a
/// list is a law of the backend.
pub trait Backend {
    ghost steps: { Self → BackendEvent → Self → Type 0 };

    /// Bounds the tickets that it gave: each is less than this number.
    ghost tickets: { Self → ℕ };

    /// States that it has ended. It gives no more replies then.
    ghost is_over: { Self → Bool };

    /// States that no ticket is given twice.
    ghost numbered: { (old : Self) (event : BackendEvent) (new : Self) → steps old event new
        → HasNumber (tickets old) event (tickets new) };

    /// Bounds the number of outcomes that it can give now.
    ghost outcomes: { Self → ℕ };

    /// States that the outcomes that it can give run out.
    ghost dwindling: { (old : Self) (event : BackendEvent) (new : Self) → steps old event new
        → LeavesFewer (outcomes old) event (outcomes new) };

    /// Receives a request at a time of the clock (Unix seconds) and of the monotonic clock.
    ///
    /// Copies no part of a request that it answers at once. Returns an error if memory runs out;
    /// nothing was done then.
    fn receive(
        &mut self,
        alloc: Global,
        moment: u64,
        now: Duration,
        request: Request<'_>,
    ) -> Result<Received, AllocError>
        requires made { IsRequestFor request }
        ensures { MatchResult result
            (λ received. steps self.old (Receives moment request.entry.call.now received) self.new)
            (λ _. self.new ≡ self.old) };

    /// Ends the batch of the drafted replies: afterwards the outcome of each is there. Returns what
    /// became known of the store, if anything.
    ///
    /// The server calls it when enough requests are drafted, and after the last request of each
    /// round. Before the next request it takes all outcomes.
    fn settle(&mut self) -> Option<CommitOutcome>
        ensures { steps self.old Settles self.new };

    /// Does what is due besides requests, between two batches: for example a chunk of a purge, or
    /// the input and output of a log. The server calls it once in each round.
    ///
    /// `moment` is the time of the clock, if it returned one. `is_held` says that the clock
    /// contradicts what is known of it.
    fn advance<J: ServerLog>(
        &mut self,
        alloc: Global,
        routes: &Routes,
        moment: Option<u64>,
        is_held: bool,
        now: Duration,
        journal: &mut J,
    ) -> Progress
        ensures { steps self.old (Advances moment is_held now) self.new };

    /// Removes and returns the next outcome, with its ticket, if there is one.
    fn next_outcome(&mut self) -> Option<(u64, Outcome)>
        ensures { MatchOption result (steps self.old GivesNone self.new)
            (λ given. steps self.old (Gives given.0 given.1) self.new) };

    /// Returns the ticket of the next request that waited and can be answered now, if there is one,
    /// each once. The server answers such requests in the order of the fair queue.
    fn next_due(&mut self) -> Option<u64>
        ensures { steps self.old (Announces result) self.new };

    /// Answers a request that can be answered now, at a time of the clock. Returns `None` if it
    /// cannot, or not any more: then it waits on, and no request was announced.
    fn answer(&mut self, alloc: Global, moment: u64, ticket: u64) -> Option<Outcome>
        ensures { MatchOption result (steps self.old (Announces None) self.new)
            (λ outcome. steps self.old (Answers moment ticket outcome) self.new) };

    /// Forgets a request whose client is gone. It need not have an outcome any more.
    fn forget(&mut self, ticket: u64)
        ensures { steps self.old (Forgets ticket) self.new };

    /// Stops: afterwards the outcome of each request that waits is there.
    fn stop(&mut self)
        ensures { steps self.old Stops self.new };

    /// Returns true if it has ended.
    fn has_ended(&self) -> bool
        ensures { result ≡ is_over self.now };

    /// Returns how many requests of one USS may wait at once. Further ones stay in the fair queue.
    fn share(&self) -> usize;

    /// Returns how long the server may wait for events before it calls `advance` again. The server
    /// waits at most a second in any case.
    fn patience(&self, now: Duration) -> Duration;

    /// Returns a snapshot of the airspace, if there is one.
    fn snapshot(&self) -> Result<Snapshot<'_>, NoMirror>;

    /// Returns what a response without a draft says of the store, which may be failing. The default
    /// is for backends without a store.
    fn store_after(&self, _answer: ResponseInfo, _is_failing: bool) -> Option<CommitOutcome> {
        None
    }

    /// Sets the metrics of the backend. The default sets none.
    fn show(&self, _metrics: &mut ServiceMetrics, _now: Duration) {}
}
