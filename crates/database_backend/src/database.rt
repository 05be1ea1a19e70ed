//! A database as a backend.
ghost use Rattle.std.specs.Prelude.{◌≡◌, ◌≤◌, IsTrue, true};
ghost use Rattle.std.specs.Duration.{as_nanos};
ghost use Rattle.service_calls.specs.Service.{reply_of};
ghost use Rattle.service_step.specs.declared.call_fault.CallFault.TheVariants as halts;
ghost use Rattle.database_backend.specs.Database.{IsNewDatabase, plan_of, retention_of, service_of, SameBatch};
ghost use Rattle.database_backend.specs.Purging.{IsChunk};

use crate::purge_plan::PurgePlan;
use server_backend::backend::Backend;
use server_backend::outcome::{Outcome, Received};
use server_backend::progress::Progress;
use server_backend::request::Request;
use server_base::response_info::ResponseInfo;
use server_base::server_log::ServerLog;
use server_watch::purge_fault::PurgeFault;
use server_watch::store_watch::{
    CommitOutcome, outcome_of_batch, outcome_of_change, outcome_of_purge,
};
use service_calls::service::Service;
use service_step::reply::Reply;
use space_core::purge_ended::PurgeEnded;
use space_core::space::{Space, SpaceFault};
use space_snapshot::snapshot::{NoMirror, Snapshot, SnapshotSource};
use std::alloc::{AllocError, Global};
use std::time::Duration;
use wire_route::routes::Routes;

// The maximum number of intents, constraints and subscriptions that one chunk purges. A client
// waits hardly longer for a chunk than for a batch of other clients.
const CHUNK: usize = 16;

// Returns the reply that replaces a draft whose changes were not committed.
fn reply_to(fault: SpaceFault) -> Reply
    ensures { result ≡ reply_of (halts.Space fault) }
{
    match fault {
        SpaceFault::Unchanged => Reply::Fault,
        SpaceFault::Broken => Reply::Stopped,
    }
}

/// The service over a database, and the batch of its calls.
///
/// It makes each call when it receives the request. A reply that depends on pending changes is a
/// draft until the next commit. Only drafts have tickets, so the tickets of a batch follow each
/// other: it needs no queue of them.
#[derive(Drop)]
pub struct Database<S: Space> {
    service: Service<S>,
    // The outcomes of the tickets below `told` were given. Those below `settled` have that of the
    // last commit. The others are of drafts without a commit.
    tickets: u64,
    settled: u64,
    told: u64,
    outcome: Result<(), SpaceFault>,
    // True if a call was made since the last commit.
    is_open: bool,
    // The retention in seconds, if there is one, and when purges are due.
    retention: Option<u64>,
    plan: PurgePlan,
}

impl<S: PurgeEnded + SnapshotSource + Drop> Database<S> {
    /// Creates a backend of a service, with a retention in seconds. Without one it purges nothing.
    /// Allocates nothing.
    pub fn new(service: Service<S>, retention: Option<u64>) -> Self
        ensures { IsNewDatabase service retention result }
    {
        Database {
            service,
            tickets: 0,
            settled: 0,
            told: 0,
            outcome: Ok(()),
            is_open: false,
            retention,
            plan: PurgePlan::new(),
        }
    }

    /// Returns the service.
    pub fn into_service(self) -> Service<S>
        ensures { result ≡ service_of self }
    {
        let Database {
            service,
            tickets: _,
            settled: _,
            told: _,
            outcome: _,
            is_open: _,
            retention: _,
            plan: _,
        } = self;
        service
    }

    // Purges a chunk of what ended at least the retention before the time of the clock.
    fn purge_chunk(&mut self, moment: Option<u64>, retention: u64) -> Result<usize, PurgeFault>
        ensures chunk { IsChunk S.Space S.GroupCommit.own retention moment result
            (service_of self.old) (service_of self.new) }
        ensures batch { SameBatch self.old self.new }
        ensures plan { plan_of self.new ≡ plan_of self.old }
    {
        let Some(moment) = moment else {
            return Err(PurgeFault::Clock);
        };
        match self.service.purge(moment.saturating_sub(retention), CHUNK) {
            Ok(count) => Ok(count),
            Err(fault) => Err(PurgeFault::Space(fault)),
        }
    }
}

impl<S: PurgeEnded + SnapshotSource + Drop> Backend for Database<S> {
    ghost use Rattle.std.specs.Prelude.{◌≡◌, false, if◌then◌else◌, None, IfSome, IsSome, MatchOption};
    ghost use Rattle.server_backend.specs.BackendEvent.{Advances, Settles};
    ghost use Rattle.server_watch.specs.StoreWatch.{outcome_of_batch};
    ghost use Rattle.service_calls.specs.Held.{space_of};
    ghost use Rattle.database_backend.specs.Database.{StepsAs, is_commit_due, is_open_in, left_of, outcome_of, retention_of, service_of, tickets_of};
    ghost use Rattle.database_backend.specs.Numbers.{steps_have_numbers, steps_leave_fewer};
    ghost use Rattle.database_backend.specs.Purging.{IsChunkDue, MakesProgress};

    ghost steps = { StepsAs S.Space S.GroupCommit.own };

    ghost tickets = { tickets_of };

    ghost is_over = { λ _. false };

    ghost numbered = { steps_have_numbers S.Space S.GroupCommit.own };

    ghost outcomes = { left_of };

    ghost dwindling = { steps_leave_fewer S.Space S.GroupCommit.own };

    fn receive(
        &mut self,
        alloc: Global,
        moment: u64,
        _now: Duration,
        request: Request<'_>,
    ) -> Result<Received, AllocError> {
        // 2^64 requests never come
        let Some(next) = self.tickets.checked_add(1) else {
            return Err(AllocError);
        };
        let waited = self.service.has_pending();
        let reply = self.service.call(alloc, moment, request.call);
        let waits = self.service.has_pending();
        self.is_open = true;
        if !waited && !waits {
            return Ok(Received::Answered(reply));
        }
        let ticket = self.tickets;
        self.tickets = next;
        Ok(Received::Drafted(ticket, reply))
    }

    fn settle(&mut self) -> Option<CommitOutcome>
        ensures steps { StepsAs S.Space S.GroupCommit.own self.old Settles self.new }
        ensures store { result ≡ (if is_commit_due self.old
            then outcome_of_batch (S.is_pending (space_of (service_of self.old)))
            (outcome_of self.new) else None) }
    {
        if !self.is_open || self.told < self.settled {
            return None;
        }
        let waited = self.service.has_pending();
        self.outcome = self.service.commit();
        self.settled = self.tickets;
        self.is_open = false;
        outcome_of_batch(waited, self.outcome)
    }

    fn advance<J: ServerLog>(
        &mut self,
        _alloc: Global,
        _routes: &Routes,
        moment: Option<u64>,
        is_held: bool,
        now: Duration,
        _journal: &mut J,
    ) -> Progress
        ensures steps { StepsAs S.Space S.GroupCommit.own
            self.old (Advances moment is_held now) self.new }
        ensures progress { MakesProgress S.Space S.GroupCommit.own moment is_held now
            self.old self.new result }
    {
        let nothing = Progress {
            store: None,
            purged: None,
            removed: None,
        };
        let Some(retention) = self.retention else {
            return nothing;
        };
        if !self.plan.begin(now) || self.is_open {
            return nothing;
        }
        let purged = if is_held {
            None
        } else {
            Some(self.purge_chunk(moment, retention))
        };
        let removed = self.plan.plan(purged, now);
        Progress {
            store: match purged {
                Some(purged) => outcome_of_purge(purged),
                None => None,
            },
            purged,
            removed,
        }
    }

    fn next_outcome(&mut self) -> Option<(u64, Outcome)> {
        if self.told >= self.settled {
            return None;
        }
        let ticket = self.told;
        self.told = ticket + 1;
        match self.outcome {
            Ok(()) => Some((ticket, Outcome::Stands)),
            Err(fault) => Some((ticket, Outcome::Replied(reply_to(fault)))),
        }
    }

    fn next_due(&mut self) -> Option<u64> {
        None
    }

    fn answer(&mut self, _alloc: Global, _moment: u64, _ticket: u64) -> Option<Outcome> {
        None
    }

    fn forget(&mut self, _ticket: u64) {}

    fn stop(&mut self) {}

    fn has_ended(&self) -> bool {
        false
    }

    fn store_after(&self, answer: ResponseInfo, is_failing: bool) -> Option<CommitOutcome> {
        outcome_of_change(answer, is_failing)
    }

    fn share(&self) -> usize {
        usize::MAX
    }

    fn patience(&self, _now: Duration) -> Duration {
        if self.plan.is_running() {
            Duration::ZERO
        } else {
            Duration::MAX
        }
    }

    fn snapshot(&self) -> Result<Snapshot<'_>, NoMirror> {
        self.service.space_ref().snapshot()
    }
}
