//! The state of the store, and when to report it.
ghost use Rattle.std.specs.Prelude.{◌≡◌, ◌<◌, ◌≤◌, ◌↔◌, Some, IfSome, IfNone, IsNone, IsSome, IsTrue, false, true};
ghost use Rattle.std.specs.Duration.{as_nanos};
ghost use Rattle.server_watch.specs.Deadline.{a_minute_after};
ghost use Rattle.server_watch.specs.StoreWatch.{failures_of, outcome_of_batch, outcome_of_purge, is_broken, news_of_breaking, news_of_keeping, one_more, silent_until, unreported_of};
ghost use Rattle.server_base.specs.declared.server_log.StoreEvent.TheVariants as news;

use crate::deadline::is_before;
use crate::purge_fault::PurgeFault;
use server_base::response_info::ResponseInfo;
use server_base::server_log::StoreEvent;
use space_core::space::SpaceFault;
use std::time::Duration;
use wire_http::Outcome;

/// The outcome of a commit.
#[derive(Clone, Copy, Debug, PartialEq, Eq)]
pub enum CommitOutcome {
    /// The changes are committed.
    Committed,
    /// None of the changes is committed, and the store goes on.
    RolledBack,
    /// The outcome is unknown, and no call is answered any more.
    Unknown,
}

/// Returns the outcome of a batch's changes, given the result of its commit. Returns `None` if no
/// changes were pending.
pub fn outcome_of_batch(waited: bool, committed: Result<(), SpaceFault>) -> Option<CommitOutcome>
    ensures { result ≡ outcome_of_batch waited committed }
{
    match committed {
        Ok(()) if waited => Some(CommitOutcome::Committed),
        Ok(()) => None,
        Err(SpaceFault::Unchanged) => Some(CommitOutcome::RolledBack),
        Err(SpaceFault::Broken) => Some(CommitOutcome::Unknown),
    }
}

/// Returns the outcome of a change whose response was not deferred.
///
/// A fault does not prove that the store fails: it can be a lack of memory, or a quota. But a store
/// that is failing commits each change separately.
pub fn outcome_of_change(answer: ResponseInfo, is_failing: bool) -> Option<CommitOutcome> {
    match answer.outcome {
        Outcome::Stopped => Some(CommitOutcome::Unknown),
        Outcome::Done if answer.is_to_change() => Some(CommitOutcome::Committed),
        Outcome::Fault if answer.is_to_change() && is_failing => Some(CommitOutcome::RolledBack),
        _ => None,
    }
}

/// Returns the outcome of a purge chunk.
///
/// If nothing was purged and the service goes on, nothing is known of the store: memory may have
/// run out, or the mirror may have been dropped. The next change shows it.
pub fn outcome_of_purge(purged: Result<usize, PurgeFault>) -> Option<CommitOutcome>
    ensures { result ≡ outcome_of_purge purged }
{
    match purged {
        Ok(0) => None,
        Ok(_) => Some(CommitOutcome::Committed),
        Err(PurgeFault::Space(SpaceFault::Broken)) => Some(CommitOutcome::Unknown),
        Err(PurgeFault::Clock | PurgeFault::Space(SpaceFault::Unchanged)) => None,
    }
}

// How long further failures of the store are not reported, in seconds.
const SILENCE: u64 = 60;

/// The number of store failures since the last commit.
#[derive(Clone, Copy, Debug)]
pub struct StoreWatch {
    failures: u64,
    // The number of failures not reported yet, and the time until which none is reported.
    unreported: u64,
    silent_until: Duration,
    is_broken: bool,
}

impl StoreWatch {
    /// Creates a watch without failures.
    pub fn new() -> StoreWatch
        ensures failures { failures_of result ≡ 0 }
        ensures unreported { unreported_of result ≡ 0 }
        ensures works { is_broken result ≡ false }
    {
        StoreWatch {
            failures: 0,
            unreported: 0,
            silent_until: Duration::from_secs(0),
            is_broken: false,
        }
    }

    /// Returns true if the store has failed since the last commit.
    pub fn is_failing(&self) -> bool
        ensures { IsTrue result ↔ (0 < failures_of self.now) }
    {
        self.failures > 0
    }

    // Suppresses reports for a while.
    fn tell(&mut self, now: Duration)
        ensures failures { failures_of self.new ≡ failures_of self.old }
        ensures unreported { unreported_of self.new ≡ 0 }
        ensures silent { silent_until self.new ≡ a_minute_after (as_nanos now) }
        ensures broken { is_broken self.new ≡ is_broken self.old }
    {
        self.unreported = 0;
        self.silent_until = now.saturating_add(Duration::from_secs(SILENCE));
    }

    /// Records a failed commit after which the store goes on. Reports the first failure, and then
    /// once a minute how many more came.
    pub fn fail(&mut self, now: Duration) -> Option<StoreEvent>
        ensures counted { failures_of self.new ≡ one_more (failures_of self.old) }
        ensures first { failures_of self.old ≡ 0 → result ≡ Some news.CommitFailed }
        ensures more { 0 < failures_of self.old
            → IfSome result (λ it. it ≡ news.StillFailing (one_more (unreported_of self.old))) }
        ensures silent { 0 < failures_of self.old → as_nanos now < silent_until self.old
            → IsNone result }
        ensures due { 0 < failures_of self.old → silent_until self.old ≤ as_nanos now
            → IsSome result }
        ensures told { IfSome result (λ it. unreported_of self.new ≡ 0) }
        ensures unreported { IfNone result (unreported_of self.new
            ≡ one_more (unreported_of self.old)) }
        ensures silenced { IfSome result
            (λ it. silent_until self.new ≡ a_minute_after (as_nanos now)) }
        ensures waits { IfNone result (silent_until self.new ≡ silent_until self.old) }
        ensures broken { is_broken self.new ≡ is_broken self.old }
    {
        let is_first = !self.is_failing();
        self.failures = self.failures.saturating_add(1);
        if is_first {
            self.tell(now);
            return Some(StoreEvent::CommitFailed);
        }
        let count = self.unreported.saturating_add(1);
        if is_before(now, self.silent_until) {
            self.unreported = count;
            return None;
        }
        self.tell(now);
        Some(StoreEvent::StillFailing(count))
    }

    /// Records a successful commit. Reports it if commits had failed.
    pub fn keep(&mut self) -> Option<StoreEvent>
        ensures works { failures_of self.new ≡ 0 }
        ensures told { result ≡ news_of_keeping (failures_of self.old) }
        ensures unreported { unreported_of self.new ≡ 0 }
        ensures broken { is_broken self.new ≡ is_broken self.old }
    {
        let failures = self.failures;
        self.failures = 0;
        self.unreported = 0;
        if failures == 0 {
            return None;
        }
        Some(StoreEvent::Recovered(failures))
    }

    /// Records that the store failed for good. Reports it once.
    pub fn break_down(&mut self) -> Option<StoreEvent>
        ensures broken { is_broken self.new ≡ true }
        ensures told { result ≡ news_of_breaking (is_broken self.old) }
        ensures failures { failures_of self.new ≡ failures_of self.old }
        ensures unreported { unreported_of self.new ≡ unreported_of self.old }
        ensures silent { silent_until self.new ≡ silent_until self.old }
    {
        if self.is_broken {
            return None;
        }
        self.is_broken = true;
        Some(StoreEvent::Stopped)
    }
}
