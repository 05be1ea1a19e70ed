//! The log of requests, and of faults of clients, of the token file and of the store.
use crate::phase::Phase;
use std::net::SocketAddr;
use std::time::Duration;
use token_conf::conf_fault::ConfFault;
use wire_http::{RequestInfo, StreamFault};

/// The reason why a changed token file was not loaded.
#[derive(Clone, Copy, Debug, PartialEq, Eq)]
pub enum TokenReloadFault {
    /// It does not open, fails to read or is not UTF-8.
    Unread,
    /// It is invalid, or memory ran out for it.
    Wrong(ConfFault),
    /// It has another salt than the one with which the service started.
    OtherSalt,
}

/// A change of the store's state.
#[derive(Clone, Copy, Debug, PartialEq, Eq)]
pub enum StoreEvent {
    /// A commit failed, for the first time since the last successful commit.
    CommitFailed,
    /// This number of commits failed since the last report.
    StillFailing(u64),
    /// A commit succeeded after this number of failures.
    Recovered(u64),
    /// The store failed for good, so that no call is answered any more.
    Stopped,
}

/// A change of what is known of the clock.
#[derive(Clone, Copy, Debug, PartialEq, Eq)]
pub enum ClockEvent {
    /// It jumped forward by this number of seconds.
    JumpedForward(u64),
    /// It jumped backward by this number of seconds.
    JumpedBackward(u64),
    /// At the start, it was this number of seconds after the last known time, longer than the
    /// retention and a day.
    StartedLate(u64),
    /// At the start, it had not returned from a jump: it was this number of seconds after the last
    /// trusted time.
    StartedAhead(u64),
    /// At the start, it was this number of seconds before the last trusted time.
    StartedBehind(u64),
    /// It agrees with the monotonic clock, or with the last known time, again.
    Returned,
    /// An operator confirmed it.
    Confirmed,
}

/// An answered request, as the log prints it.
#[derive(Clone, Copy, Debug)]
pub struct LoggedRequest<'a> {
    /// The number of its connection. Connections count up from 1 since the start.
    pub connection: u64,
    /// The request that was answered.
    pub noted: &'a RequestInfo,
    /// The status of the response.
    pub status: u16,
    /// The size of the response in bytes.
    pub size: usize,
    /// The time from the complete request until the response may be sent, if the clock returned it.
    pub took: Option<Duration>,
}

/// A connection that was aborted.
#[derive(Clone, Copy, Debug)]
pub struct AbortedConnection {
    /// The address and port of its client, if the system returned them.
    pub client: Option<SocketAddr>,
    /// Its number. Connections count up from 1 since the start.
    pub connection: u64,
    /// The phase in which it was aborted.
    pub phase: Phase,
    /// True if its client reset it.
    pub is_reset: bool,
    /// The time of the monotonic clock when it was aborted.
    pub at: Duration,
}

/// A log of requests, and of faults of clients, of a changed token file and of the store.
///
/// No such fault ends the service.
pub trait ServerLog {
    /// Logs a connection that was aborted for that reason.
    fn connection_failed(&mut self, fault: StreamFault, aborted: AbortedConnection);

    /// Logs a changed token file that was rejected for that reason, with the bytes that were last
    /// checked: those of the file, unless it could not be read or memory ran out. The tokens before
    /// it stay active.
    fn tokens_rejected(&mut self, fault: TokenReloadFault, checked: &[u8]);

    /// Logs that no connection could be accepted, for lack of descriptors or memory. The default
    /// logs nothing.
    fn accept_failed(&mut self) {}

    /// Logs a request of a USS for which the service may not act. The default logs nothing.
    fn unassigned(&mut self, _uss: &str) {}

    /// Logs a change of the store's state. The default logs nothing.
    fn store_event(&mut self, _news: StoreEvent) {}

    /// Logs a change of what is known of the clock. The default logs nothing.
    fn clock_event(&mut self, _news: ClockEvent) {}

    /// Logs that a trusted time could not be stored. The default logs nothing.
    fn time_not_stored(&mut self) {}

    /// Logs that a purge removed so many items. The default logs nothing.
    fn purged(&mut self, _count: usize) {}

    /// Logs an answered request. The default logs nothing.
    fn request_answered(&mut self, _request: &LoggedRequest<'_>) {}

    /// Flushes the lines of an iteration. Returns how many lines were dropped since the start.
    fn flush(&mut self) -> u64 {
        0
    }
}
