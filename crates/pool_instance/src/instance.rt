//! One instance of a pool.
use crate::evaluate::{reply_after_end, waits_for_end};
use crate::fault::InstanceFault;
use crate::outcome::{Outcome, Unanswered};
use crate::purge_totals::PurgeTotals;
use crate::request::Request;
use crate::requests::{
    Draft, do_acts, first_batch, has_unasked, is_reading_due, note_end, note_question, pair,
    place_of_change, place_of_due, place_of_reading, place_of_sent,
};
use crate::waiting::{Held, Reading, Stage};
use policy_core::call::Call;
use policy_core::early::early;
use policy_core::reference::Missing;
use pool_core::log::{Entry, Log, LogFault, OfferFault};
use pool_core::log_io::LogIo;
use pool_entry::purge::purge_bytes;
use service_calls::service::Service;
use service_step::reply::Reply;
use space_core::purge_ended::PurgeEnded;
use space_core::space::Space;
use std::alloc::{AllocError, Global};
use std::time::Duration;
use wire_route::routes::Routes;

/// An instance of a pool: its log, its service, and the requests that have no reply yet.
///
/// It gives each request a number. It has at most one batch or purge in flight.
#[derive(Drop)]
pub struct Instance<L: Log, S: Space> {
    log: L,
    service: Service<S>,
    // The requests that wait for the end of the log: readings, and changes that were denied when they
    // came. And the changes that wait for the next batch.
    readings: Vec<Reading>,
    unsent: Vec<Held>,
    // The requests of the batch in flight. One that failed meanwhile has no number.
    in_flight: Option<Vec<Option<u64>>>,
    // How many entries were taken, and how many requests were received.
    taken: u64,
    received: u64,
    ended: bool,
    // After how many seconds ended flights are purged, if at all, the time of the last call of
    // another instance, and the purges that were taken.
    retention: Option<u64>,
    heard: Option<u64>,
    purges: PurgeTotals,
}

// The least number of seconds between the ends of two purges.
const PURGE_STEP: u64 = 60;

impl<L: Log + Drop, S: PurgeEnded + Drop> Instance<L, S> {
    ghost use Rattle.std.specs.Prelude.{◌≡◌, ◌≤◌, ◌+◌, ◌↔◌, ℕ, [], false, true, Contains, IfNone, IfSome, IsTrue, MatchResult, None, OnErr, Some, find};
    ghost use Rattle.entity_core.specs.Airspace.{Airspace};
    ghost use Rattle.space_core.specs.Space.{IsContent};
    ghost use Rattle.service_calls.specs.Held.{is_shut, salt_of, space_of};
    ghost use Rattle.pool_instance.specs.Does.{AnsweredAs, AskedSo, DeniedSo, DidNothing, GaveUpSo, IsDuePurge, QueuedSo};
    ghost use Rattle.pool_instance.specs.Does.{LearnedSo};
    ghost use Rattle.pool_instance.specs.Does.{OfferedSo, PurgeOfferedSo, TookSo};
    ghost use Rattle.policy_core.specs.Policy.{breaks, early_rules};
    ghost use Rattle.pool_core.specs.Log.{entry_of};
    ghost use Rattle.pool_instance.specs.Effects.{FailsLog, Forgets, Holds, HoldsNoMore};
    ghost use Rattle.pool_instance.specs.Effects.{MakesEntry, with_end};
    ghost use Rattle.pool_instance.specs.Parts.{IsDueAt, count_taken, heard_in, ids_sent, is_ended, purges_in, readings_in, retention_in, salt_in, space_in, unsent_in};
    ghost use Rattle.pool_instance.specs.Request.{call_of};
    ghost use Rattle.pool_instance.specs.State.{IsAfter};

    /// Creates an instance that has taken no entry, over a service whose space holds the airspace
    /// at the start of the log. With a retention it offers purges of what ended at least so many
    /// seconds ago.
    ///
    /// Allocates nothing.
    pub fn new(alloc: Global, log: L, service: Service<S>, retention: Option<u64>) -> Self
        ensures after { is_shut service ≡ false → (start : Airspace)
            → (S.is_sound (space_of service) → IsContent S.holds (space_of service) start)
            → IsAfter L.Log S.Space (L.history log) start [] result }
        ensures salt { salt_in result ≡ salt_of service }
        ensures retention { retention_in result ≡ retention }
    {
        Instance {
            log,
            service,
            readings: Vec::new(alloc),
            unsent: Vec::new(alloc),
            in_flight: None,
            taken: 0,
            received: 0,
            ended: false,
            retention,
            heard: None,
            purges: PurgeTotals::none(),
        }
    }

    /// Returns true if the instance has ended. It gives no more replies.
    pub fn is_ended(&self) -> bool
        ensures { result ≡ is_ended self.now }
    {
        self.ended
    }

    /// Borrows the log, for its input and output.
    pub fn log(&self) -> &L
        ensures { result.now ≡ self.now.log }
    {
        &self.log
    }

    /// Borrows the space of the service. It holds the airspace after the entries that were taken.
    pub fn space(&self) -> &S
        ensures { result.now ≡ space_in self.now }
    {
        self.service.space_ref()
    }

    /// Returns how many entries were taken.
    pub fn taken(&self) -> u64
        ensures { result ≡ count_taken self.now }
    {
        self.taken
    }

    /// Returns the purges that were taken.
    pub fn purges(&self) -> PurgeTotals
        ensures { result ≡ purges_in self.now }
    {
        self.purges
    }

    /// Returns the time of the last call of another organization since the start, if there was one.
    pub fn heard(&self) -> Option<u64>
        ensures { result ≡ heard_in self.now }
    {
        self.heard
    }

    /// Returns how many requests wait or are in flight.
    pub fn waiting(&self) -> usize {
        let in_flight = match &self.in_flight {
            Some(sent) => sent.len(),
            None => 0,
        };
        self.readings
            .len()
            .saturating_add(self.unsent.len())
            .saturating_add(in_flight)
    }

    /// Moves the bytes of the log, at a time of a clock that does not go back. Returns the time
    /// within which it has to be called again, unless a connection is ready before.
    pub fn advance_log<I: LogIo<L>>(&mut self, io: &mut I, now: Duration) -> Duration
        ensures { DidNothing L.Log S.Space self.old self.new }
    {
        io.advance_log(&mut self.log, now)
    }

    /// Returns true if the call of this request was offered, and its entry was not taken yet.
    pub fn is_in_flight(&self, id: u64) -> bool
        ensures { IsTrue result ↔ Contains (ids_sent self.now) id }
    {
        match &self.in_flight {
            Some(sent) => place_of_sent(sent.as_slice(), id).is_some(),
            None => false,
        }
    }

    // Ends the instance.
    fn end(&mut self) -> InstanceFault
        ensures fault { result ≡ InstanceFault.Ended }
        ensures ended { self.new ≡ with_end self.old }
    {
        self.ended = true;
        InstanceFault::Ended
    }

    // Returns the fault of a call of the log. If the log is lost, the instance ends.
    fn fail_log(&mut self, fault: LogFault) -> InstanceFault
        ensures { FailsLog fault self.old self.new result }
    {
        match fault {
            LogFault::NoMemory => InstanceFault::NoMemory,
            LogFault::Lost => self.end(),
        }
    }

    /// Receives a call that breaks one of P1 to P6, at a time (Unix seconds), gives it a number, and
    /// denies it at once. Returns `None` if it breaks none; nothing was done then.
    pub fn deny(
        &mut self,
        alloc: Global,
        now: u64,
        call: &Call,
    ) -> Result<Option<Reply>, InstanceFault>
        ensures { DeniedSo L.Log S.Space now call.now self.old self.new result }
    {
        if self.ended {
            return Err(InstanceFault::Ended);
        }
        let Some(rule) = early(call) else {
            return Ok(None);
        };
        let Some(next) = self.received.checked_add(1) else {
            return Err(self.end());
        };
        self.received = next;
        Ok(Some(Reply::Denied(rule, Missing::empty(alloc))))
    }

    /// Receives a request that breaks none of P1 to P6, at a time (Unix seconds), and returns its
    /// number. It waits: a reading, or a change that is denied now, for the end of the log, any other
    /// change for the next batch.
    pub fn queue(&mut self, alloc: Global, now: u64, request: Request) -> Result<u64, InstanceFault>
        requires { (a : Airspace) (now : ℕ) → find (breaks a now (call_of request)) early_rules ≡ None }
        ensures { QueuedSo L.Log S.Space now (call_of request) self.old self.new result }
    {
        if self.ended {
            return Err(InstanceFault::Ended);
        }
        let id = self.received;
        let Some(next) = id.checked_add(1) else {
            return Err(self.end());
        };
        let Some(waits) = waits_for_end(&mut self.service, alloc, now, request.call()) else {
            return Err(self.end());
        };
        if self.hold(id, request, waits).is_err() {
            return Err(InstanceFault::NoMemory);
        }
        self.received = next;
        Ok(id)
    }

    // Adds a request that waits for the end of the log, or for the next batch. It breaks no stateless
    // rule.
    fn hold(&mut self, id: u64, request: Request, waits_for_end: bool) -> Result<(), AllocError>
        requires { (a : Airspace) (now : ℕ) → find (breaks a now (call_of request)) early_rules ≡ None }
        ensures held { MatchResult result (λ _. Holds id request self.old self.new)
            (λ _. HoldsNoMore self.old self.new) }
        ensures unsent { waits_for_end ≡ true → unsent_in self.new ≡ unsent_in self.old }
    {
        let held = Held { id, request };
        if waits_for_end {
            let stage = Stage::Fresh;
            self.readings.push(Reading { held, stage })?;
        } else {
            self.unsent.push(held)?;
        }
        Ok(())
    }

    /// Asks for the end of the log, if a request that waits for it has come since the last question.
    /// A change counts only while no batch is in flight, so a change that was sent again is denied
    /// only after the outcome of the first one. Returns true if it asked.
    pub fn ask(&mut self) -> Result<bool, InstanceFault>
        ensures { AskedSo L.Log S.Space self.old self.new result }
    {
        if self.ended {
            return Err(InstanceFault::Ended);
        }
        let in_flight = self.in_flight.is_some();
        if !has_unasked(self.readings.as_slice(), in_flight) {
            return Ok(false);
        }
        match self.log.ask_end() {
            Ok(question) => {
                note_question(self.readings.as_mut_slice(), question, in_flight);
                Ok(true)
            }
            Err(fault) => Err(self.fail_log(fault)),
        }
    }

    /// Learns the next answer to a question, if the log gives one. Returns true if it did.
    pub fn learn(&mut self) -> bool
        ensures { LearnedSo L.Log S.Space self.old self.new result }
    {
        let Some(end) = self.log.end() else {
            return false;
        };
        note_end(self.readings.as_mut_slice(), end.question, end.count);
        true
    }

    /// Offers the changes that wait, as many as an entry has room for, each at this time (Unix
    /// seconds). Returns their number. Offers none while a batch is in flight.
    pub fn offer(&mut self, alloc: Global, now: u64) -> Result<usize, InstanceFault>
        ensures { OfferedSo L.Log S.Space now self.old self.new result }
    {
        if self.ended {
            return Err(InstanceFault::Ended);
        }
        if self.in_flight.is_some() || self.unsent.is_empty() {
            return Ok(0);
        }
        let Ok(Draft { batch, sent }) = first_batch(alloc, self.unsent.as_slice(), now) else {
            return Err(InstanceFault::NoMemory);
        };
        let count = sent.len();
        match self.log.offer(batch.bytes()) {
            Ok(()) => {
                self.in_flight = Some(sent);
                self.unsent.drain(..count);
                Ok(count)
            }
            Err(OfferFault::NoMemory) => Err(InstanceFault::NoMemory),
            Err(OfferFault::TooLong) => Err(self.end()),
        }
    }

    // Returns the end of the next purge at a time, if one is due.
    fn purge_end(&self, now: u64) -> Option<u64>
        ensures none { IfNone result ((until : ℕ) → IsDuePurge now self.now until → ⊥) }
        ensures some { IfSome result (λ until. (seconds : ℕ) × ((time : ℕ)
            × (retention_in self.now ≡ Some seconds) × (heard_in self.now ≡ Some time)
            × (until + seconds ≤ now) × (until + seconds ≤ time))) }
    {
        let until = now.min(self.heard?).checked_sub(self.retention?)?;
        if until < self.purges.until.saturating_add(PURGE_STEP) {
            return None;
        }
        Some(until)
    }

    /// Offers a purge of what ended at least the retention ago, which every instance does at the
    /// place of the entry. Returns true if it offered one.
    ///
    /// The purge ends the retention before `now` (Unix seconds), and before the last call of another
    /// instance, whichever is earlier: a clock that is ahead purges nothing too early while the
    /// other one is right. Only calls count that were written with another clock, after this instance started. Offers no purge without a
    /// retention, less than a minute after the end of the last purge, or while a batch or a purge is
    /// in flight.
    pub fn offer_purge(&mut self, alloc: Global, now: u64) -> Result<bool, InstanceFault>
        ensures { PurgeOfferedSo L.Log S.Space now self.old self.new result }
    {
        if self.ended {
            return Err(InstanceFault::Ended);
        }
        if self.in_flight.is_some() {
            return Ok(false);
        }
        let Some(until) = self.purge_end(now) else {
            return Ok(false);
        };
        let Ok(bytes) = purge_bytes(alloc, until) else {
            return Err(InstanceFault::NoMemory);
        };
        match self.log.offer(bytes.as_slice()) {
            Ok(()) => {
                self.in_flight = Some(Vec::new(alloc));
                Ok(true)
            }
            Err(OfferFault::NoMemory) => Err(InstanceFault::NoMemory),
            Err(OfferFault::TooLong) => Err(self.end()),
        }
    }

    /// Takes the next entry, if the log gives one, and does its acts in order. Returns the replies
    /// to the requests of its own batch, each with the number of its request. Keeps no reply to a
    /// call of another process.
    ///
    /// If memory runs out in a call, the instance ends: others have made the call.
    pub fn take(
        &mut self,
        alloc: Global,
        routes: &Routes,
    ) -> Result<Option<Vec<(u64, Reply)>>, InstanceFault>
        ensures { TookSo L.Log S.Space self.old self.new result }
    {
        if self.ended {
            return Err(InstanceFault::Ended);
        }
        let has_other_clock = self.log.next_has_other_clock();
        match self.log.next() {
            Ok(None) => Ok(None),
            Ok(Some(entry)) => match self.make(alloc, routes, &entry, has_other_clock) {
                Some(told) => Ok(Some(told)),
                None => Err(self.end()),
            },
            Err(fault) => Err(self.fail_log(fault)),
        }
    }

    // Does the acts of an entry, and returns the replies to the own requests in it. Returns `None`
    // if the instance cannot go on. Hears the calls of an entry that has another clock.
    fn make(
        &mut self,
        alloc: Global,
        routes: &Routes,
        entry: &Entry,
        has_other_clock: bool,
    ) -> Option<Vec<(u64, Reply)>>
        ensures { MakesEntry L.Log S.Space (entry_of entry.now) self.old self.new result }
    {
        let taken = self.taken.checked_add(1)?;
        let is_own = entry.writer == self.log.number();
        let done = do_acts(
            &mut self.service,
            alloc,
            routes,
            entry.bytes.as_slice(),
            is_own,
        )?;
        let purges = self.purges.with(done.purges);
        if !is_own {
            self.taken = taken;
            self.purges = purges;
            if has_other_clock && done.last.is_some() {
                self.heard = done.last;
            }
            return Some(Vec::new(alloc));
        }
        let told = match &self.in_flight {
            Some(sent) => pair(alloc, sent.as_slice(), done.replies)?,
            None => return None,
        };
        self.in_flight = None;
        self.taken = taken;
        self.purges = purges;
        Some(told)
    }

    /// Returns the index and the number of the first request from this index on that waits for an end
    /// that was reached, if there is one.
    pub fn next_due(&self, index: usize) -> Option<(usize, u64)>
        ensures { IfSome result (λ due.
            IsDueAt (count_taken self.now) (readings_in self.now) due.0 due.1) }
    {
        for place in index..self.readings.len() {
            let reading = &self.readings[place];
            if is_reading_due(reading, self.taken) {
                return Some((place, reading.held.id));
            }
        }
        None
    }

    /// Answers the request with this number, which waits for the end of the log, at a time (Unix
    /// seconds). Returns `None` if no such request waits, or if its end was not reached. Also returns
    /// `None` for a change that breaks no rule any more: it waits for the next batch from now on. If
    /// the service stops, the instance ends, and the request waits still.
    pub fn answer_as(
        &mut self,
        alloc: Global,
        now: u64,
        id: u64,
    ) -> Result<Option<Outcome>, InstanceFault>
        ensures { AnsweredAs L.Log S.Space now id self.old self.new result }
    {
        if self.ended {
            return Err(InstanceFault::Ended);
        }
        let Some(index) = place_of_due(self.readings.as_slice(), id, self.taken) else {
            return Ok(None);
        };
        let call = self.readings[index].held.request.call();
        let Some(reply) = reply_after_end(&mut self.service, alloc, now, call) else {
            if self.unsent.reserve(1).is_err() {
                return Err(InstanceFault::NoMemory);
            }
            self.unsent.push_reserved(self.readings.remove(index).held);
            return Ok(None);
        };
        if reply.is_stopped() {
            return Err(self.end());
        }
        let id = self.readings.remove(index).held.id;
        match reply {
            Reply::Fault => Ok(Some(Outcome::Failed(id))),
            reply => Ok(Some(Outcome::Replied(id, reply))),
        }
    }

    /// Fails a request, for example because its time is over. Returns whether its call may have been
    /// made, or `None` if the request has a reply or failed before.
    pub fn fail(&mut self, id: u64) -> Option<Unanswered>
        ensures { GaveUpSo L.Log S.Space id self.old self.new result }
    {
        if let Some(index) = place_of_reading(self.readings.as_slice(), id) {
            let _gone = self.readings.remove(index);
            return Some(Unanswered::Unsent);
        }
        if let Some(index) = place_of_change(self.unsent.as_slice(), id) {
            let _gone = self.unsent.remove(index);
            return Some(Unanswered::Unsent);
        }
        if self.forget(id) {
            return Some(Unanswered::Unknown);
        }
        None
    }

    // Removes the number of a request of the batch in flight. Returns true if it was there.
    fn forget(&mut self, id: u64) -> bool
        ensures { Forgets id self.old self.new result }
    {
        let Some(sent) = &mut self.in_flight else {
            return false;
        };
        let Some(index) = place_of_sent(sent.as_slice(), id) else {
            return false;
        };
        sent[index] = None;
        true
    }
}
