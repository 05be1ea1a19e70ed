//! The watch of the log's keys.
use crate::connection::Arrived;
use crate::etcd_fault::{EtcdFault, Loss};
use crate::etcd_log::LogState;
use crate::exchange::{Request, Step};
use crate::following::FollowFault;
use crate::lane::Lane;
use crate::lines::Lines;
use crate::request::{WATCH_PATH, watch_body};
use crate::times::later;
use crate::watch_line::{WatchLine, read_line};
use mio::{Registry, Token};
use std::alloc::Global;
use std::net::{Net, SocketAddr};
use std::time::Duration;

// The time limit until the first line of a watch, and for a change that was made to come, in
// milliseconds from the last byte.
const TIME_LIMIT: u64 = 2000;

// After each watch that was too slow the limit is longer by as much, up to so many times.
const MAX_FACTOR: u64 = 10;

// The maximum length of a line.
const MAX_LINE: usize = 16_000_000;

// The maximum number of entries that wait to be taken, before no more is read.
const MAX_ENTRIES: usize = 10_000;

// The time until the reading goes on once the entries were taken, in milliseconds.
const FULL_PATIENCE: u64 = 10;

// The maximum number of parts read before others get their turn.
const MAX_STEPS: usize = 1_000;

/// The connection of the watch.
#[derive(Drop)]
pub(crate) struct WatchLane {
    lane: Lane,
    lines: Lines,
    status: u16,
    // Until when the first line has to come, if it has not.
    limit: Option<Duration>,
    // The number of watches that were too slow since the last change.
    slow: u64,
    // True if there may be more to read.
    partly_read: bool,
}

impl WatchLane {
    /// Creates a lane without a connection.
    pub(crate) fn new(alloc: Global, token: Token) -> WatchLane {
        WatchLane {
            lane: Lane::new(token),
            lines: Lines::new(alloc),
            status: 0,
            limit: None,
            slow: 0,
            partly_read: false,
        }
    }

    // Returns the time limit, in milliseconds.
    fn time_limit(&self) -> u64 {
        TIME_LIMIT * (self.slow.min(MAX_FACTOR - 1) + 1)
    }

    /// Sends and receives what is there.
    pub(crate) fn advance(
        &mut self,
        net: &impl Net,
        registry: &Registry,
        state: &mut LogState,
        now: Duration,
    ) -> Result<(), EtcdFault> {
        if state.following.entries.len() >= MAX_ENTRIES {
            return Ok(());
        }
        self.receive(state, now)?;
        if state.loss.is_some() {
            return Ok(());
        }
        self.check_limits(state, now)?;
        if self.lane.connection.is_none() && now >= self.lane.resume && state.may_watch() {
            self.begin(net, registry, state, now)?;
        }
        Ok(())
    }

    // Fails if no line has come, or not the changes that were made.
    fn check_limits(&mut self, state: &mut LogState, now: Duration) -> Result<(), EtcdFault> {
        if let Some(limit) = self.limit
            && now >= limit
        {
            self.slow = self.slow.saturating_add(1);
            return Err(EtcdFault::TimeLimit);
        }
        if let Some((revision, since)) = state.ahead {
            if state.following.revision >= revision {
                state.ahead = None;
            } else if now >= later(since, self.time_limit()) {
                self.slow = self.slow.saturating_add(1);
                return Err(EtcdFault::WatchBehind);
            }
        }
        Ok(())
    }

    // Counts the limits from now, since bytes have arrived.
    fn renew_limits(&mut self, state: &mut LogState, now: Duration) {
        if self.limit.is_some() {
            self.limit = Some(later(now, self.time_limit()));
        }
        if let Some((revision, _)) = state.ahead {
            state.ahead = Some((revision, now));
        }
    }

    /// Extends the limits by a time in which the process did not run.
    pub(crate) fn extend_limits(&mut self, state: &mut LogState, missed: Duration) {
        if let Some(limit) = self.limit {
            self.limit = Some(limit.saturating_add(missed));
        }
        if let Some((revision, since)) = state.ahead {
            state.ahead = Some((revision, since.saturating_add(missed)));
        }
    }

    // Begins the watch behind the last change.
    fn begin(
        &mut self,
        net: &impl Net,
        registry: &Registry,
        state: &mut LogState,
        now: Duration,
    ) -> Result<(), EtcdFault> {
        self.lane
            .open(net, state.alloc, registry, state.endpoints.as_slice())?;
        let from = state.following.revision.saturating_add(1);
        let Ok(body) = watch_body(state.alloc, from) else {
            return Err(EtcdFault::Memory);
        };
        let request = Request {
            host: self.lane.host(state.endpoints.as_slice()),
            path: WATCH_PATH,
            token: state.token.as_ref().map(|token| token.bytes()),
            body: body.as_str(),
        };
        self.lines = Lines::new(state.alloc);
        self.status = 0;
        self.limit = Some(later(now, self.time_limit()));
        match &mut self.lane.connection {
            Some(connection) => connection.begin(&request),
            None => Err(EtcdFault::Connection),
        }
    }

    // Reads what has arrived.
    fn receive(&mut self, state: &mut LogState, now: Duration) -> Result<(), EtcdFault> {
        let Some(connection) = &mut self.lane.connection else {
            return Ok(());
        };
        connection.send()?;
        let arrived = connection.receive()?;
        if arrived != Arrived::Nothing {
            self.renew_limits(state, now);
        }
        self.partly_read = true;
        for _ in 0..MAX_STEPS {
            if self.step(state)? == Step::NeedsInput {
                self.partly_read = arrived == Arrived::Part;
                break;
            }
        }
        self.take_lines(state, now)?;
        if arrived == Arrived::Ended && state.loss.is_none() {
            return Err(EtcdFault::Connection);
        }
        Ok(())
    }

    // Reads the next part of the response.
    fn step(&mut self, state: &mut LogState) -> Result<Step, EtcdFault> {
        let Some(connection) = &mut self.lane.connection else {
            return Ok(Step::NeedsInput);
        };
        let step = connection.step()?;
        match step {
            Step::Head(status) => self.status = status,
            Step::Data if self.status == 200 => {
                if self.lines.push(connection.body()).is_err() {
                    return Err(EtcdFault::Memory);
                }
                connection.clear_body();
            }
            Step::Data => connection.clear_body(),
            Step::End | Step::Closed if self.status == 200 => return Err(EtcdFault::WatchEnded),
            Step::End | Step::Closed => {
                state.check_token(self.status);
                return Err(EtcdFault::Status(self.status));
            }
            Step::NeedsInput => {}
        }
        Ok(step)
    }

    // Takes the lines that are whole, until the log is lost.
    fn take_lines(&mut self, state: &mut LogState, now: Duration) -> Result<(), EtcdFault> {
        for _ in 0..u64::MAX {
            if state.loss.is_some() {
                return Ok(());
            }
            match self.lines.next_line(state.alloc) {
                Ok(Some(line)) => self.take_line(state, line.as_slice(), now)?,
                Ok(None) => break,
                Err(_) => return Err(EtcdFault::Memory),
            }
        }
        if self.lines.len() > MAX_LINE {
            return Err(EtcdFault::TooLong);
        }
        Ok(())
    }

    // Takes what a line says.
    fn take_line(
        &mut self,
        state: &mut LogState,
        line: &[u8],
        now: Duration,
    ) -> Result<(), EtcdFault> {
        match read_line(state.alloc, line)? {
            WatchLine::Failed => Err(EtcdFault::WatchEnded),
            WatchLine::Canceled(0) => {
                // A token that is not valid ends a watch without saying so.
                state.token = None;
                Err(EtcdFault::WatchEnded)
            }
            WatchLine::Canceled(revision) => {
                state.loss = Some(Loss::Compacted(revision));
                Ok(())
            }
            WatchLine::Changes(changes) => {
                self.limit = None;
                self.lane.succeed();
                state.checked = now;
                if !changes.items().is_empty() {
                    self.slow = 0;
                }
                match state.following.receive(state.alloc, changes.items()) {
                    Ok(()) => Ok(()),
                    Err(FollowFault::Memory) => Err(EtcdFault::Memory),
                    Err(FollowFault::OutOfOrder) => Err(EtcdFault::OutOfOrder),
                    Err(FollowFault::Deleted) => {
                        state.loss = Some(Loss::Deleted);
                        Ok(())
                    }
                    Err(FollowFault::Gap) => {
                        state.loss = Some(Loss::Shortened);
                        Ok(())
                    }
                    Err(FollowFault::Settings) => {
                        state.loss = Some(Loss::Settings);
                        Ok(())
                    }
                    Err(FollowFault::Suppliers) => {
                        state.loss = Some(Loss::Suppliers);
                        Ok(())
                    }
                    Err(FollowFault::Unlinked) => {
                        state.loss = Some(Loss::Unlinked);
                        Ok(())
                    }
                }
            }
        }
    }

    /// Returns the address of the endpoint that is used, or tried next.
    pub(crate) fn address(&self, state: &LogState) -> Option<SocketAddr> {
        self.lane.address(state.endpoints.as_slice())
    }

    /// Drops the connection. The next endpoint has its turn.
    pub(crate) fn fail(&mut self, now: Duration, state: &mut LogState) {
        self.close();
        state.ahead = None;
        self.lane.fail(now, state.endpoints.len());
    }

    /// Drops the connection.
    pub(crate) fn close(&mut self) {
        self.limit = None;
        self.partly_read = false;
        self.lane.close();
    }

    /// Returns the time within which `advance` has to be called again.
    pub(crate) fn patience(&self, state: &LogState, now: Duration) -> Duration {
        if state.following.entries.len() >= MAX_ENTRIES {
            return Duration::from_millis(FULL_PATIENCE);
        }
        if self.partly_read {
            return Duration::ZERO;
        }
        let mut next = match self.limit {
            Some(limit) => limit,
            None => Duration::MAX,
        };
        if self.lane.connection.is_none() && state.may_watch() {
            next = self.lane.resume;
        }
        if let Some((_, since)) = state.ahead {
            next = next.min(later(since, self.time_limit()));
        }
        next.saturating_sub(now)
    }
}
