//! An instance of a pool as a backend.
ghost use Rattle.std.specs.Prelude.{◌≡◌, ◌+◌, ◌<◌, ◌⊎◌, ℕ, Bool, None, Some, Option, IfOk, IsErrOf, find, length};
ghost use Rattle.entity_core.specs.Airspace.{Airspace};
ghost use Rattle.policy_core.specs.Policy.{breaks, early_rules};
ghost use Rattle.pool_instance.specs.Request.{call_from, call_of};
ghost use Rattle.pool_instance.specs.declared.fault.RequestFault.TheVariants.{TooLong};
ghost use Rattle.server_backend.specs.Request.{IsRequestFor};
ghost use Rattle.pool_backend.specs.Own.{Admits, DoesOwn, GivesAmong, MayGive, outcome_of, reason_of};
ghost use Rattle.pool_backend.specs.Pool.{DoesBy, IsFailure, IsSame, MayDo, ReceivesAs, instance_of, outcomes_of, retention_of};
ghost use Rattle.pool_backend.specs.Waiting.{HasRoom};

use crate::timeouts::Timeouts;
use crate::waiting_list::WaitingList;
use admin_http::pool_metrics::PoolMetrics;
use admin_http::service_metrics::ServiceMetrics;
use entity_core::text::Text;
use entity_core::uss_id::UssId;
use policy_core::call::Call;
use policy_core::scope::Caller;
use pool_core::log::Log;
use pool_core::log_io::{LogIo, LogStatus};
use pool_entry::bytes::Bytes;
use pool_instance::fault::RequestFault;
use pool_instance::instance::Instance;
use pool_instance::outcome::{Outcome as ReadingOutcome, Unanswered};
use pool_instance::purge_totals::PurgeTotals;
use pool_instance::request::Request as PoolRequest;
use server_backend::backend::Backend;
use server_backend::outcome::{Outcome, Received};
use server_backend::progress::Progress;
use server_backend::request::Request;
use server_base::limits::LOOKS_SOON;
use server_base::server_log::ServerLog;
use server_watch::store_watch::CommitOutcome;
use service_step::reply::Reply;
use space_core::purge_ended::PurgeEnded;
use space_core::space::Space;
use space_snapshot::snapshot::{NoMirror, Snapshot, SnapshotSource};
use std::alloc::{AllocError, Global};
use std::collections::VecDeque;
use std::mem;
use std::time::Duration;
use wire_http::Unavailable;
use wire_route::routes::Routes;

// The maximum number of entries that an advance takes.
const ENTRIES: usize = 64;

// How many requests of one USS may wait for the log at once. An entry has room for 64 calls, so the
// next requests of other USSs are in the next entry.
const SHARE: usize = 32;

// How long requests of USSs for which the instance may not act are not logged again, in
// milliseconds.
const UNASSIGNED_SILENCE: u64 = 60_000;

// How long the log may be silent before the service counts as failing, in milliseconds.
const SILENCE: u64 = 3_000;

// Returns a copy of a caller.
fn copy_of(caller: &Option<Caller>) -> Result<Option<Caller>, AllocError>
    ensures { IfOk result (λ copy. copy ≡ caller.now) }
{
    match caller {
        Some(caller) => Ok(Some(Caller {
            uss: caller.uss.clone()?,
            scopes: caller.scopes,
        })),
        None => Ok(None),
    }
}

// Returns a copy of the USS of a call.
fn uss_of(call: &Call) -> Result<Option<UssId>, AllocError> {
    match &call.caller {
        Some(caller) => Ok(Some(caller.uss.clone()?)),
        None => Ok(None),
    }
}

// Returns the request with these parts, copied. It is too long only if an entry has no room for it.
fn request_of(
    alloc: Global,
    routes: &Routes,
    request: Request<'_>,
) -> Result<PoolRequest, RequestFault>
    ensures call { IfOk result (λ made. call_of made ≡ call_from request.entry.call.now.caller
        request.entry.path.now request.entry.method.now request.entry.body.now) }
    ensures long { IsErrOf result TooLong
        → (8192 < length request.entry.method.now + length request.entry.path.now)
        ⊎ (1048576 < length request.entry.body.now) }
{
    let Ok(caller) = copy_of(&request.call.caller) else {
        return Err(RequestFault::NoMemory);
    };
    let (Ok(method), Ok(path), Ok(body)) = (
        Bytes::copy(alloc, request.method),
        String::from_str(alloc, request.path),
        Bytes::copy(alloc, request.body),
    ) else {
        return Err(RequestFault::NoMemory);
    };
    let path = Text::from_string(path);
    PoolRequest::new(alloc, routes, caller, method, path, body)
}

// Offers a purge that is due, unless purges are held.
fn offer_purge<L: Log + Drop, S: PurgeEnded + Drop>(
    alloc: Global,
    instance: &mut Instance<L, S>,
    moment: u64,
    is_held: bool,
)
    ensures { DoesOwn L.Log S.Space (Some moment) is_held instance.old instance.new }
{
    if is_held {
        return;
    }
    let _ = instance.offer_purge(alloc, moment);
}

// Asks the log for its end. Once the log was read and the clock returned a time, offers a purge that
// is due, or else the changes that wait.
fn ask_and_offer<L: Log + Drop, S: PurgeEnded + Drop>(
    alloc: Global,
    instance: &mut Instance<L, S>,
    moment: Option<u64>,
    is_held: bool,
)
    ensures { DoesOwn L.Log S.Space moment is_held instance.old instance.new }
{
    let _ = instance.ask();
    let Some(moment) = moment else {
        return;
    };
    if !instance.log().is_read() {
        return;
    }
    offer_purge(alloc, instance, moment, is_held);
    let _ = instance.offer(alloc, moment);
}

// Learns the ends of the log that it has told. Returns true if there was any.
fn learn_ends<L: Log + Drop, S: PurgeEnded + Drop>(instance: &mut Instance<L, S>) -> bool
    ensures { (moment : Option ℕ) (held : Bool)
        → DoesOwn L.Log S.Space moment held instance.old instance.new }
{
    for count in 0..usize::MAX {
        if !instance.learn() {
            return count > 0;
        }
    }
    true
}

// Returns the reason for status 503, after the instance failed a request. The instance may act for
// the USS of the request, or not.
fn reason_of(is_assigned: bool, unanswered: Unanswered) -> Unavailable
    ensures { result ≡ reason_of is_assigned unanswered }
{
    match unanswered {
        Unanswered::Unsent => {
            if is_assigned {
                Unavailable::Unreachable
            } else {
                Unavailable::Unassigned
            }
        }
        Unanswered::Unknown => Unavailable::Unknown,
    }
}

// Returns the outcome of a request that waited for the end of the log. After a fault of the service
// its reply is `Fault`.
fn outcome_of(outcome: ReadingOutcome) -> Outcome
    ensures { result ≡ outcome_of outcome }
{
    match outcome {
        ReadingOutcome::Replied(_, reply) => Outcome::Replied(reply),
        ReadingOutcome::Failed(_) => Outcome::Replied(Reply::Fault),
    }
}

/// An instance with the input and output of its log, the requests that wait for the log, and the
/// outcomes that are still to be given.
#[derive(Drop)]
pub struct PoolInstance<L: Log, I, S: Space> {
    instance: Instance<L, S>,
    log_io: I,
    routes: Routes,
    timeouts: Timeouts,
    waiting: WaitingList,
    // The index from which requests are looked through for those that can be answered.
    looked: usize,
    // True if a request may wait whose USS was not looked up in the supplier list yet.
    is_unchecked: bool,
    // The USS of a request that was refused and is to be logged, and until when none is logged.
    refused: Option<UssId>,
    silent_until: Duration,
    // How long the log can wait, whether the last advance did something, and its time.
    log_patience: Duration,
    did: bool,
    advanced: Duration,
    // The purges that were reported.
    purges: PurgeTotals,
}

impl<L: Log + Drop, I: LogIo<L> + Drop, S: PurgeEnded + SnapshotSource + Drop> PoolInstance<
    L,
    I,
    S,
> {
    ghost use Rattle.std.specs.Prelude.{[], ◌∷◌, Contains, MatchOption};
    ghost use Rattle.pool_instance.specs.Parts.{ids_in};
    ghost use Rattle.pool_backend.specs.Pool.{AnswersAs, DoesFor, IsNewPool, failure_for};

    /// Creates a backend of an instance without requests that wait. At most `most` can wait at
    /// once: the memory for them is allocated here.
    pub fn new(
        alloc: Global,
        instance: Instance<L, S>,
        log_io: I,
        routes: Routes,
        timeouts: Timeouts,
        most: usize,
    ) -> Result<Self, AllocError>
        ensures { IfOk result (IsNewPool instance) }
    {
        let waiting = WaitingList::new(alloc, most)?;
        let purges = instance.purges();
        Ok(PoolInstance {
            instance,
            log_io,
            routes,
            timeouts,
            waiting,
            looked: 0,
            is_unchecked: false,
            refused: None,
            silent_until: Duration::ZERO,
            log_patience: Duration::ZERO,
            did: false,
            advanced: Duration::ZERO,
            purges,
        })
    }

    /// Returns the instance.
    pub fn instance(&self) -> &Instance<L, S>
        ensures { result.now ≡ instance_of self.now }
    {
        &self.instance
    }

    // Returns true if the instance may act for the USS of a call, as far as that is known.
    fn is_assigned(&self, call: &Call) -> bool {
        match &call.caller {
            Some(caller) => {
                !self.instance.log().is_read() || self.instance.log().admits(caller.uss.text())
            }
            None => true,
        }
    }

    // Records that a request of a USS was refused, so that the next advance logs it. Only one a
    // minute is logged.
    fn note_refused(&mut self, call: &Call, now: Duration)
        ensures { IsSame self.old self.new }
    {
        if now < self.silent_until || self.refused.is_some() {
            return;
        }
        if let Ok(uss) = uss_of(call) {
            self.refused = uss;
        }
    }

    // Gives a request to the instance, where it waits.
    fn queue(
        &mut self,
        alloc: Global,
        moment: u64,
        request: PoolRequest,
        uss: Option<UssId>,
        now: Duration,
    ) -> Received
        requires early { (a : Airspace) (time : ℕ)
            → find (breaks a time (call_of request)) early_rules ≡ None }
        requires room { HasRoom self.old.waiting }
        ensures { ReceivesAs L.Log S.Space moment (call_of request) result self.old self.new }
    {
        match self.instance.queue(alloc, moment, request) {
            Ok(ticket) => {
                self.waiting.push(ticket, uss, now);
                let is_read = self.instance.log().is_read();
                self.is_unchecked = self.is_unchecked | !is_read;
                Received::Waits(ticket)
            }
            Err(_) => Received::Refused(Unavailable::Unreachable),
        }
    }

    // Receives a request that breaks none of P1 to P6.
    fn admit(
        &mut self,
        alloc: Global,
        moment: u64,
        now: Duration,
        request: Request<'_>,
    ) -> Result<Received, AllocError>
        requires made { IsRequestFor request }
        requires early { (a : Airspace) (time : ℕ)
            → find (breaks a time request.call.now) early_rules ≡ None }
        ensures { Admits L.Log S.Space moment request.entry.call.now result self.old self.new }
    {
        if !self.is_assigned(request.call) {
            self.note_refused(request.call, now);
            return Ok(Received::Refused(Unavailable::Unassigned));
        }
        if !self.waiting.has_room() {
            return Err(AllocError);
        }
        let uss = uss_of(request.call)?;
        match request_of(alloc, &self.routes, request) {
            Ok(made) => Ok(self.queue(alloc, moment, made, uss, now)),
            Err(RequestFault::NoMemory) => Err(AllocError),
            Err(RequestFault::TooLong) => Ok(Received::Refused(Unavailable::Unreachable)),
        }
    }

    // Puts the outcome of a request that waits. If it does not wait, the outcome is dropped.
    fn give(&mut self, ticket: u64, outcome: Outcome)
        ensures instance { instance_of self.new ≡ instance_of self.old }
        ensures outcomes { MayGive ticket outcome (outcomes_of self.old) (outcomes_of self.new) }
    {
        if !self.waiting.remove(ticket) {
            return;
        }
        self.waiting.put(ticket, outcome);
    }

    // Fails a request. The instance may act for its USS, or not.
    fn fail(&mut self, ticket: u64, is_assigned: bool)
        ensures { DoesBy L.Log S.Space IsFailure self.old self.new }
    {
        let Some(unanswered) = self.instance.fail(ticket) else {
            let _ = self.waiting.remove(ticket);
            return;
        };
        let reason = reason_of(is_assigned, unanswered);
        self.give(ticket, Outcome::Unavailable(reason));
    }

    // Logs a USS for which the instance may not act.
    fn log_refused<J: ServerLog>(&mut self, now: Duration, journal: &mut J)
        ensures { IsSame self.old self.new }
    {
        if let Some(uss) = self.refused.take() {
            journal.unassigned(uss.text());
            self.silent_until = now.saturating_add(Duration::from_millis(UNASSIGNED_SILENCE));
        }
    }

    // Returns the first request of a USS for which the instance may not act. Logs it once a minute.
    fn next_unassigned<J: ServerLog>(&mut self, now: Duration, journal: &mut J) -> Option<u64>
        ensures { IsSame self.old self.new }
    {
        let (ticket, uss) = self.waiting.first_unassigned(self.instance.log())?;
        if now >= self.silent_until {
            journal.unassigned(uss.text());
            self.silent_until = now.saturating_add(Duration::from_millis(UNASSIGNED_SILENCE));
        }
        Some(ticket)
    }

    // Fails the requests of USSs for which the instance may not act, once that is known.
    fn check_waiting<J: ServerLog>(&mut self, now: Duration, journal: &mut J)
        ensures { DoesBy L.Log S.Space IsFailure self.old self.new }
    {
        if !self.is_unchecked || !self.instance.log().is_read() {
            return;
        }
        self.is_unchecked = false;
        for _ in 0..self.waiting.len() {
            let Some(ticket) = self.next_unassigned(now, journal) else {
                return;
            };
            self.fail(ticket, false);
        }
    }

    // Fails all requests once the instance has ended.
    fn fail_if_ended(&mut self)
        ensures { DoesBy L.Log S.Space IsFailure self.old self.new }
    {
        if !self.instance.is_ended() {
            return;
        }
        self.fail_all();
    }

    // Fails the requests whose time is over.
    fn fail_late(&mut self, now: Duration)
        ensures { DoesBy L.Log S.Space IsFailure self.old self.new }
    {
        for _ in 0..self.waiting.len() {
            let Some(ticket) = self.waiting.first_late(&self.instance, self.timeouts, now) else {
                return;
            };
            self.fail(ticket, true);
        }
    }

    // Fails all requests.
    fn fail_all(&mut self)
        ensures { DoesBy L.Log S.Space IsFailure self.old self.new }
    {
        for _ in 0..self.waiting.len() {
            let Some(ticket) = self.waiting.first() else {
                return;
            };
            self.fail(ticket, true);
        }
    }

    // Fails a request that has no reply, and returns the reason for status 503.
    fn give_up(&mut self, ticket: u64) -> Unavailable
        requires { Contains (ids_in (instance_of self.old)) ticket }
        ensures { DoesFor L.Log S.Space (failure_for result ticket ∷ []) self.old self.new }
    {
        match self.instance.fail(ticket) {
            Some(unanswered) => reason_of(true, unanswered),
            None => unreachable!(),
        }
    }

    // Answers a request that waited for the end of the log and can be answered now. Returns `None` if
    // it cannot, or if it waits for the next batch from now on.
    fn answer_waiting(&mut self, alloc: Global, moment: u64, ticket: u64) -> Option<Outcome>
        ensures { MatchOption result (DoesFor L.Log S.Space [] self.old self.new)
            (λ outcome. AnswersAs L.Log S.Space moment ticket outcome self.old self.new) }
    {
        if self.instance.is_ended() {
            return None;
        }
        match self.instance.answer_as(alloc, moment, ticket) {
            Ok(Some(outcome)) => Some(outcome_of(outcome)),
            Ok(None) => None,
            Err(_) => Some(Outcome::Unavailable(self.give_up(ticket))),
        }
    }

    // Puts the replies to requests.
    fn give_all(&mut self, told: Vec<(u64, Reply)>)
        ensures instance { instance_of self.new ≡ instance_of self.old }
        ensures outcomes { GivesAmong told.items (outcomes_of self.old) (outcomes_of self.new) }
    {
        let mut rest = VecDeque::from_vec(told);
        for _ in 0..rest.len() {
            let Some(first) = rest.pop_front() else {
                return;
            };
            self.give(first.0, Outcome::Replied(first.1));
        }
    }

    // Takes the entries that the log gives. Returns true if it took any.
    fn take_entries(&mut self, alloc: Global, routes: &Routes) -> bool
        ensures { (moment : Option ℕ) (held : Bool) → DoesBy L.Log S.Space
            (MayDo (retention_of self.old) moment held) self.old self.new }
    {
        for count in 0..ENTRIES {
            let Ok(Some(told)) = self.instance.take(alloc, routes) else {
                return count > 0;
            };
            self.give_all(told);
        }
        true
    }

    // Asks the log, offers to it, moves its bytes, and takes what it gives. Returns true if it gave
    // anything.
    fn advance_log(
        &mut self,
        alloc: Global,
        routes: &Routes,
        moment: Option<u64>,
        is_held: bool,
        now: Duration,
    ) -> bool
        ensures { DoesBy L.Log S.Space (MayDo (retention_of self.old) moment is_held)
            self.old self.new }
    {
        ask_and_offer(alloc, &mut self.instance, moment, is_held);
        let log_patience = self.instance.advance_log(&mut self.log_io, now);
        self.log_patience = log_patience;
        let learned = learn_ends(&mut self.instance);
        let took = self.take_entries(alloc, routes);
        learned | took
    }

    // Returns what purges removed since the last time.
    fn report_purges(&mut self) -> Progress
        ensures { IsSame self.old self.new }
    {
        let purges = self.instance.purges();
        let before = mem::replace(&mut self.purges, purges);
        let removed = purges.removed.saturating_sub(before.removed) as usize;
        let removed = if removed > 0 { Some(removed) } else { None };
        Progress {
            store: None,
            purged: match removed {
                Some(count) => Some(Ok(count)),
                None => None,
            },
            removed,
        }
    }

    // Returns the metrics of the instance and its log.
    fn metrics(&self, now: Duration) -> PoolMetrics {
        let LogStatus {
            revision,
            open,
            silence,
            differing,
        } = self.log_io.status(self.instance.log(), now);
        PoolMetrics {
            entries: self.instance.taken(),
            waiting: self.instance.waiting(),
            open,
            revision,
            silence,
            differing,
            heard: self.instance.heard(),
            purged_until: self.instance.purges().until,
        }
    }
}

impl<L: Log + Drop, I: LogIo<L> + Drop, S: PurgeEnded + SnapshotSource + Drop> Backend
    for PoolInstance<L, I, S> {
    ghost use Rattle.pool_instance.specs.Parts.{is_ended};
    ghost use Rattle.server_backend.specs.BackendEvent.{Settles};
    ghost use Rattle.pool_backend.specs.Numbers.{steps_have_numbers, steps_leave_fewer};
    ghost use Rattle.pool_backend.specs.Pool.{StepsAs, instance_of, left_of, tickets_of};

    ghost steps = { StepsAs L.Log S.Space };

    ghost tickets = { tickets_of };

    ghost is_over = { λ x. is_ended (instance_of x) };

    ghost numbered = { steps_have_numbers L.Log S.Space };

    ghost outcomes = { left_of };

    ghost dwindling = { steps_leave_fewer L.Log S.Space };

    fn receive(
        &mut self,
        alloc: Global,
        moment: u64,
        now: Duration,
        request: Request<'_>,
    ) -> Result<Received, AllocError> {
        match self.instance.deny(alloc, moment, request.call) {
            Ok(Some(reply)) => Ok(Received::Answered(reply)),
            Ok(None) => self.admit(alloc, moment, now, request),
            Err(_) => Ok(Received::Refused(Unavailable::Unreachable)),
        }
    }

    fn settle(&mut self) -> Option<CommitOutcome>
        ensures steps { StepsAs L.Log S.Space self.old Settles self.new }
        ensures none { result ≡ None }
    {
        None
    }

    fn advance<J: ServerLog>(
        &mut self,
        alloc: Global,
        routes: &Routes,
        moment: Option<u64>,
        is_held: bool,
        now: Duration,
        journal: &mut J,
    ) -> Progress {
        self.log_refused(now, journal);
        self.check_waiting(now, journal);
        let did = self.advance_log(alloc, routes, moment, is_held, now);
        self.did = did;
        // what was late in the last round: entries can take long, and answer what waits
        let before = mem::replace(&mut self.advanced, now);
        self.fail_late(before);
        self.fail_if_ended();
        self.looked = 0;
        self.report_purges()
    }

    fn next_outcome(&mut self) -> Option<(u64, Outcome)> {
        match self.waiting.pop() {
            Some(given) => Some(given),
            None => None,
        }
    }

    fn next_due(&mut self) -> Option<u64> {
        for _ in 0..usize::MAX {
            let Some(due) = self.instance.next_due(self.looked) else {
                return None;
            };
            self.looked = due.0.saturating_add(1);
            if self.waiting.announce(due.1) {
                return Some(due.1);
            }
        }
        None
    }

    fn answer(&mut self, alloc: Global, moment: u64, ticket: u64) -> Option<Outcome> {
        if !self.waiting.has(ticket) {
            return None;
        }
        let Some(outcome) = self.answer_waiting(alloc, moment, ticket) else {
            return None;
        };
        let _ = self.waiting.remove(ticket);
        Some(outcome)
    }

    fn forget(&mut self, ticket: u64) {
        let _ = self.instance.fail(ticket);
        let _ = self.waiting.remove(ticket);
    }

    fn stop(&mut self) {
        self.fail_all();
    }

    fn has_ended(&self) -> bool {
        self.instance.is_ended()
    }

    fn share(&self) -> usize {
        SHARE
    }

    fn patience(&self, _now: Duration) -> Duration {
        if self.did {
            return Duration::ZERO;
        }
        if self.waiting.is_empty() {
            return self.log_patience;
        }
        self.log_patience.min(Duration::from_millis(LOOKS_SOON))
    }

    fn snapshot(&self) -> Result<Snapshot<'_>, NoMirror> {
        self.instance.space().snapshot()
    }

    fn show(&self, metrics: &mut ServiceMetrics, now: Duration) {
        let pool = self.metrics(now);
        metrics.show_silence(pool.silence > Duration::from_millis(SILENCE));
        metrics.pool = Some(pool);
    }
}
