//! The phases of a connection.
use crate::limits::{CLOSE_TIMEOUT, IDLE_TIMEOUT, REQUEST_TIMEOUT, RESPONSE_TIMEOUT};
use std::time::Duration;

/// The event that a connection waits for.
#[derive(Clone, Copy, Debug, PartialEq, Eq)]
pub enum Phase {
    /// The first byte of a request.
    Idle,
    /// The rest of a request.
    Sending,
    /// The client's read of its responses.
    Taking,
    /// The client's close, after the last response.
    Ending,
}

impl Phase {
    /// Returns the timeout of the phase.
    pub fn patience(self) -> Duration {
        Duration::from_millis(match self {
            Phase::Idle => IDLE_TIMEOUT,
            Phase::Sending => REQUEST_TIMEOUT,
            Phase::Taking => RESPONSE_TIMEOUT,
            Phase::Ending => CLOSE_TIMEOUT,
        })
    }
}
