//! The log of a simulation.
use crate::shared::{Reached, Shared};
use server_base::phase::Phase;
use server_base::server_log::{AbortedConnection, LoggedRequest, ServerLog, TokenReloadFault};
use std::alloc::Global;
use std::time::Duration;
use wire_http::StreamFault;

/// An answered request.
#[derive(Clone, Copy, Debug)]
pub(crate) struct Answered {
    /// The index of its connection, from 0.
    pub(crate) connection: usize,
    /// The status of its response.
    pub(crate) status: u16,
    /// The time of day, and the index of the active token table.
    pub(crate) moment: u64,
    pub(crate) table: usize,
    /// True if the operator had requested the stop.
    pub(crate) is_stopping: bool,
    /// What was reached, and when the service began with the request.
    pub(crate) reached: Reached,
    pub(crate) received: u64,
    /// The size of its response in bytes.
    pub(crate) size: usize,
    /// How many entries of the log of a pool were taken, and whether the log was lost.
    pub(crate) given: usize,
    pub(crate) is_lost: bool,
    /// The index of the first entry that was taken after the stop, if the request came before it. Else
    /// the greatest number.
    pub(crate) first_after_stop: usize,
}

/// A connection that was aborted.
#[derive(Clone, Copy, Debug)]
pub(crate) struct Aborted {
    /// Its index, from 0.
    pub(crate) connection: usize,
    /// Why and in which phase.
    pub(crate) fault: StreamFault,
    pub(crate) phase: Phase,
}

/// A log that keeps all in memory. Lines are lost only if memory runs out.
#[derive(Drop)]
pub(crate) struct Journal<'a> {
    shared: &'a Shared,
    pub(crate) answers: Vec<Answered>,
    pub(crate) aborted: Vec<Aborted>,
    pub(crate) is_lossy: bool,
}

// Returns the index of a connection, given its number.
fn index_of(number: u64) -> usize {
    number.saturating_sub(1) as usize
}

// Returns the time that is `took` before `time`, or `time` without `took`.
fn before(time: u64, took: Option<Duration>) -> u64 {
    let Some(took) = took else {
        return time;
    };
    match u64::try_from(took.as_nanos()) {
        Ok(nanos) => time.saturating_sub(nanos),
        Err(_) => 0,
    }
}

impl<'a> Journal<'a> {
    /// Creates an empty log.
    pub(crate) fn new(alloc: Global, shared: &'a Shared) -> Journal<'a> {
        Journal {
            shared,
            answers: Vec::new(alloc),
            aborted: Vec::new(alloc),
            is_lossy: false,
        }
    }
}

impl<'a> ServerLog for Journal<'a> {
    fn connection_failed(&mut self, fault: StreamFault, aborted: AbortedConnection) {
        let aborted = Aborted {
            connection: index_of(aborted.connection),
            fault,
            phase: aborted.phase,
        };
        if self.aborted.push(aborted).is_err() {
            self.is_lossy = true;
        }
    }

    fn tokens_rejected(&mut self, _fault: TokenReloadFault, _checked: &[u8]) {}

    fn request_answered(&mut self, request: &LoggedRequest<'_>) {
        let connection = index_of(request.connection);
        let received = before(self.shared.now(), request.took);
        self.shared.count_answer(connection);
        let answered = Answered {
            connection,
            status: request.status,
            moment: self.shared.wall(),
            table: self.shared.table(),
            is_stopping: self.shared.is_stopping(),
            reached: self.shared.reached(),
            received,
            size: request.size,
            given: self.shared.given(),
            is_lost: self.shared.is_lost(),
            first_after_stop: self.shared.first_after_stop(received),
        };
        if self.answers.push(answered).is_err() {
            self.is_lossy = true;
        }
    }
}
