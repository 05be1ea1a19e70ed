//! A log over etcd.
use crate::comparisons::Comparisons;
use crate::counts::Counts;
use crate::differences::{Difference, Differences};
use crate::etcd_fault::{EndpointFault, EtcdFault, Loss};
use crate::following::Following;
use crate::lane::Endpoint;
use crate::line_links::Verdict;
use crate::log_value::{fence_value, link_value};
use crate::names::{key_of, organization_of};
use crate::own_entries::{NotTaken, OwnEntries};
use crate::own_fence::OwnFence;
use crate::payload::Payload;
use crate::questions::Questions;
use crate::request_lane::RequestLane;
use crate::response::RevisionFault;
use crate::settings::{EtcdSettings, User};
use crate::times::{SETTLE_AFTER, later};
use crate::watch_lane::WatchLane;
use crate::writer::writer_of;
use mio::{Registry, Token};
use pool_chain::chain::Chain;
use pool_chain::link::Judgement;
use std::alloc::{AllocError, Global};
use std::collections::VecDeque;
use std::net::Net;
use std::time::Duration;

/// The maximum number of bytes of a batch. etcd takes requests of 1.5 MiB.
pub const MAX_BATCH: usize = 1_100_000;

// The maximum time, in milliseconds, until `advance` has to be called again.
const MAX_PATIENCE: u64 = 500;

// If `advance` is called after a longer time, in milliseconds, the process did not run meanwhile.
const MAX_GAP: u64 = 1_000;

// The time from a put to that of a link, in milliseconds.
const LINK_PAUSE: u64 = 60_000;

// How long the log counts as silent at least, in milliseconds, before it was read up to the own
// fence.
const UNREAD: u64 = 4_000;

/// What is known of the log, apart from the sockets.
#[derive(Drop)]
pub(crate) struct LogState {
    pub(crate) alloc: Global,
    pub(crate) endpoints: Vec<Endpoint>,
    pub(crate) key: String,
    pub(crate) user: Option<User>,
    // The token of the user, if etcd has given one.
    pub(crate) token: Option<Payload>,
    pub(crate) own: OwnEntries,
    // When the last batch or link was offered to etcd.
    pub(crate) offered: Duration,
    pub(crate) following: Following,
    pub(crate) questions: Questions,
    // True once the supplier list at the start is known.
    pub(crate) has_list: bool,
    // True once the counts of the keys at the start are known.
    pub(crate) has_counts: bool,
    pub(crate) loss: Option<Loss>,
    // A revision that the watch has not reached, and since when it is known.
    pub(crate) ahead: Option<(u64, Duration)>,
    // When etcd last said something of the log's end.
    pub(crate) checked: Duration,
    // True once the watch has given the own fence, and so all entries before it.
    pub(crate) is_read: bool,
    // How many of these entries were not taken yet.
    pub(crate) earlier: usize,
    // The last comparable links of other organizations.
    pub(crate) comparisons: Comparisons,
    // The links that differ from the own chain.
    pub(crate) differences: Differences,
    // True if an entry of another instance was given since the last own put.
    pub(crate) has_news: bool,
    // True if the last value that was offered to etcd is a link, and no batch waits for its outcome.
    pub(crate) sends_link: bool,
}

impl LogState {
    /// Returns true if a token is needed before any other request.
    pub(crate) fn needs_token(&self) -> bool {
        self.user.is_some() && self.token.is_none()
    }

    /// Returns true if the watch may begin: it needs a token as the requests do, and the supplier
    /// list and the counts of the keys at the start of the log.
    pub(crate) fn may_watch(&self) -> bool {
        self.has_list && self.has_counts && !self.needs_token()
    }

    /// Takes the supplier list at the start of the log.
    pub(crate) fn learn_list(&mut self, list: Payload) {
        self.following.suppliers = list;
        self.has_list = true;
    }

    /// Takes the counts of the keys at the start of the log.
    pub(crate) fn learn_counts(&mut self, counts: Counts) {
        self.following.counts = counts;
        self.has_counts = true;
    }

    /// Takes why etcd does not have the keys at the start of the log.
    pub(crate) fn learn_revision_fault(&mut self, fault: RevisionFault) {
        self.loss = Some(match fault {
            RevisionFault::Compacted => {
                Loss::Compacted(self.following.revision.saturating_add(1))
            }
            RevisionFault::Future => Loss::Shortened,
        });
    }

    /// Returns true if the log is not lost, and the pool has the settings of this instance.
    pub(crate) fn is_agreed(&self) -> bool {
        self.loss.is_none() && self.following.pool.is_some()
    }

    /// Returns true if the next batch may be sent: the settings are agreed, and the outcome of the
    /// batch before is known. So an instance with other settings writes no entry.
    pub(crate) fn may_offer(&self) -> bool {
        self.is_agreed() && self.own.is_idle()
    }

    /// Returns true if an end of the log may be reported: the settings are agreed, and the watch has
    /// given the own fence. So nothing is at its end before the fence was stored and read back.
    pub(crate) fn may_end(&self) -> bool {
        self.is_agreed() && self.is_read
    }

    /// Lets the fence settle the outcome of the batch that is open, if its time is over. No response
    /// to a put is awaited. A link that is open stays so until a batch waits for its outcome.
    pub(crate) fn settle_in_time(&mut self, now: Duration) {
        if !self.sends_link && now >= later(self.offered, SETTLE_AFTER) {
            self.own.settle();
        }
    }

    // Records that a batch waits. If it waits for the outcome of a link, the time of that outcome
    // begins.
    fn note_waiting(&mut self, now: Duration) {
        if self.sends_link {
            self.sends_link = false;
            self.offered = now;
        }
    }

    // Records whether the watch has given the own fence.
    fn note_fence(&mut self, now: Duration) {
        if !self.is_read && self.following.own.is_given {
            self.is_read = true;
            self.earlier = self.following.entries.len();
            self.offered = now;
        }
    }

    /// Returns true if a link is put now: nothing was put within a minute, and an entry of another
    /// instance was given since.
    pub(crate) fn may_link(&self, now: Duration) -> bool {
        self.is_read && self.has_news && now >= later(self.offered, LINK_PAUSE)
    }

    // Compares with other organizations. If memory runs out, the comparison with this one is
    // missing until its next link.
    fn compare(&mut self, key: &[u8], differs: bool) {
        let organization = organization_of(key);
        if organization != organization_of(self.key.as_bytes()) {
            let _ = self.comparisons.note(self.alloc, organization, differs);
        }
    }

    // Records a link that differs. If memory runs out, it is not reported.
    fn differ(&mut self, verdict: Verdict, own: Option<[u8; 32]>, now: Duration) {
        let difference = Difference {
            key: verdict.key,
            link: verdict.link,
            own,
        };
        let _ = self.differences.add(self.alloc, difference, now);
    }

    // Takes the verdict on a link of another instance.
    fn note_verdict(&mut self, verdict: Verdict, now: Duration) {
        if verdict.key.bytes() == self.key.as_bytes() {
            return;
        }
        self.has_news = self.has_news || verdict.is_entry;
        let judgement = verdict.judgement;
        match judgement {
            Judgement::Same => self.compare(verdict.key.bytes(), false),
            Judgement::Differs(own) => {
                self.compare(verdict.key.bytes(), true);
                self.differ(verdict, Some(own), now);
            }
            Judgement::Ahead => {
                self.compare(verdict.key.bytes(), true);
                self.differ(verdict, None, now);
            }
            Judgement::Old => {}
        }
    }

    // Takes the verdicts on links. The log is lost if most organizations differ. Before it was read,
    // those that agree may not have been compared.
    fn note_verdicts(&mut self, now: Duration) {
        for _ in 0..u64::MAX {
            match self.following.next_verdict() {
                Some(verdict) => self.note_verdict(verdict, now),
                None => break,
            }
        }
        if self.is_read && self.loss.is_none() && self.comparisons.is_diverged() {
            self.loss = Some(Loss::Diverged);
        }
    }

    // Drops the token after a time limit: a member that does not know it may not answer.
    fn check_time(&mut self, fault: &EtcdFault) {
        if let EtcdFault::TimeLimit = fault {
            self.token = None;
        }
    }

    /// Drops the token if the status of a response says that it is not valid.
    pub(crate) fn check_token(&mut self, status: u16) {
        if self.user.is_some() && (status == 400 || status == 401) {
            self.token = None;
        }
    }
}

/// A log over etcd, for one instance.
///
/// `advance` does all input and output. The other calls work on what it has received.
#[derive(Drop)]
pub struct EtcdLog {
    // The number in its values, and its number as a writer.
    pub(crate) run: u64,
    pub(crate) number: u64,
    pub(crate) state: LogState,
    pub(crate) queue: VecDeque<Payload>,
    requests: RequestLane,
    watch: WatchLane,
    // When `advance` was called last.
    advanced: Duration,
    // The last faults of requests and of the watch that were not returned yet.
    request_fault: Option<EndpointFault>,
    watch_fault: Option<EndpointFault>,
}

impl EtcdLog {
    ghost use Rattle.std.specs.Prelude.{◌≡◌};

    /// Creates a log. Its two connections are watched under these tokens. It is lost from the start
    /// if the settings of the pool are known, and are other ones.
    ///
    /// Returns `AllocError` if memory runs out.
    pub fn new(
        alloc: Global,
        settings: EtcdSettings,
        requests: Token,
        watch: Token,
    ) -> Result<EtcdLog, AllocError> {
        let mut endpoints = Vec::new(alloc);
        for address in &settings.endpoints {
            endpoints.push(Endpoint::new(alloc, *address)?)?;
        }
        let key = key_of(alloc, settings.name.as_str())?;
        let run = settings.number;
        let number = writer_of(alloc, key.as_bytes(), run)?;
        let fence = fence_value(alloc, run, settings.agreed)?;
        let own_key = Payload::from_vec(Vec::from_slice(alloc, key.as_bytes())?);
        let own = OwnFence::new(own_key, fence_value(alloc, run, settings.agreed)?);
        let following = Following::new(
            alloc,
            settings.revision,
            settings.count,
            settings.agreed,
            settings.pool,
            number,
            own,
            settings.chain,
        );
        let loss = if following.is_other() {
            Some(Loss::Settings)
        } else {
            None
        };
        let state = LogState {
            alloc,
            endpoints,
            key,
            user: settings.user,
            token: None,
            own: OwnEntries::new(fence, Payload::from_vec(Vec::new(alloc))),
            offered: Duration::ZERO,
            following,
            questions: Questions::new(),
            has_list: settings.revision == 0,
            has_counts: settings.revision == 0,
            loss,
            ahead: None,
            checked: Duration::ZERO,
            is_read: false,
            earlier: 0,
            comparisons: Comparisons::new(alloc),
            differences: Differences::new(alloc),
            has_news: false,
            sends_link: false,
        };
        Ok(EtcdLog {
            run,
            number,
            state,
            queue: VecDeque::new(alloc),
            requests: RequestLane::new(requests),
            watch: WatchLane::new(alloc, watch),
            advanced: Duration::ZERO,
            request_fault: None,
            watch_fault: None,
        })
    }

    /// Sends and receives what is there, at a time of a clock that does not go back. Returns the
    /// time within which it has to be called again, unless a connection is ready before.
    pub fn advance(&mut self, net: &impl Net, registry: &Registry, now: Duration) -> Duration
        ensures { self.new.number ≡ self.old.number }
    {
        self.extend_limits(now);
        self.offer_next(now);
        if self.state.loss.is_none() {
            if let Err(fault) = self.requests.advance(net, registry, &mut self.state, now) {
                let address = self.requests.address(&self.state);
                self.state.check_time(&fault);
                self.requests.fail(now, &self.state);
                self.request_fault = Some(EndpointFault { fault, address });
            }
        }
        if self.state.loss.is_none() {
            if let Err(fault) = self.watch.advance(net, registry, &mut self.state, now) {
                let address = self.watch.address(&self.state);
                self.state.check_time(&fault);
                self.watch.fail(now, &mut self.state);
                self.watch_fault = Some(EndpointFault { fault, address });
            }
        }
        self.state.note_fence(now);
        self.state.note_verdicts(now);
        if self.state.loss.is_some() {
            self.requests.close();
            self.watch.close();
            return Duration::from_millis(MAX_PATIENCE);
        }
        // the outcome of a batch has come, or the first fence, and another one waits
        if self.state.may_offer() && !self.queue.is_empty() {
            return Duration::ZERO;
        }
        let patience = self.requests.patience(&self.state, now);
        let patience = patience.min(self.watch.patience(&self.state, now));
        patience.min(Duration::from_millis(MAX_PATIENCE))
    }

    // Extends the limits by the time in which the process did not run, if there was any.
    fn extend_limits(&mut self, now: Duration)
        ensures { self.new.number ≡ self.old.number }
    {
        let gap = now.saturating_sub(self.advanced);
        self.advanced = now;
        let missed = gap.saturating_sub(Duration::from_millis(MAX_GAP));
        if !missed.is_zero() {
            self.requests.extend_limit(missed);
            self.watch.extend_limits(&mut self.state, missed);
        }
    }

    // Offers the next batch, or else the own link, if it may be sent.
    fn offer_next(&mut self, now: Duration)
        ensures { self.new.number ≡ self.old.number }
    {
        if !self.state.may_offer() {
            if !self.queue.is_empty() {
                self.state.note_waiting(now);
            }
            return;
        }
        if let Some(value) = self.queue.pop_front() {
            let _ = self.state.own.offer(value);
            self.state.offered = now;
            self.state.sends_link = false;
        } else if self.state.may_link(now) {
            let link = self.state.following.chain.link();
            if let Ok(value) = link_value(self.state.alloc, self.run, &link) {
                let _ = self.state.own.offer(value);
                self.state.offered = now;
                self.state.sends_link = true;
                self.state.has_news = false;
            }
        }
    }

    /// Returns the next link of another instance that differs from the own chain.
    pub fn take_difference(&mut self) -> Option<Difference>
        ensures { self.new.number ≡ self.old.number }
    {
        self.state.differences.take()
    }

    /// Returns the last fault of a request, or else of the watch, that was not returned yet.
    pub fn take_fault(&mut self) -> Option<EndpointFault>
        ensures { self.new.number ≡ self.old.number }
    {
        match self.request_fault.take() {
            Some(fault) => Some(fault),
            None => self.watch_fault.take(),
        }
    }

    /// Returns why the log is lost for this instance, if it is.
    pub fn loss(&self) -> Option<Loss> {
        self.state.loss
    }

    /// Returns the revision of the last change that was received, and the number of all entries up
    /// to there.
    pub fn position(&self) -> (u64, u64) {
        (self.state.following.revision, self.state.following.count)
    }

    /// Returns the chain over all changes that were received.
    pub fn chain(&self) -> &Chain {
        &self.state.following.chain
    }

    /// Returns the time since etcd last said something of the log's end. It is at least 4 seconds
    /// until the log was read up to the own fence.
    pub fn silence(&self, now: Duration) -> Duration {
        let silence = now.saturating_sub(self.state.checked);
        if self.state.is_read {
            silence
        } else {
            silence.max(Duration::from_millis(UNREAD))
        }
    }

    /// Returns the number of other organizations whose last comparable link differs from the own
    /// chain.
    pub fn differing(&self) -> usize {
        self.state.comparisons.differing()
    }

    /// Returns the number of batches without an outcome.
    pub fn open_batches(&self) -> usize {
        match self.state.own.open_revision() {
            Some(_) => self.queue.len().saturating_add(1),
            None => self.queue.len(),
        }
    }
}
