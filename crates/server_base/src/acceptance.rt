//! When connections of clients are accepted.
use crate::limits::{ACCEPT_SILENCE, FULL};
use std::time::Duration;

/// Which connections were accepted, and when the next one may be.
#[derive(Clone, Copy, Debug)]
pub struct Acceptance {
    // How many connections may still be accepted, if limited, and how many were accepted.
    left: Option<u64>,
    accepted: u64,
    // Whether one may wait, until when the system has no room for it, and until when that is not
    // logged again.
    waiting: bool,
    full_until: Duration,
    silent_until: Duration,
}

impl Acceptance {
    /// Creates a state in which a connection may wait, and at most `count` may be accepted.
    pub fn new(count: Option<u64>) -> Acceptance {
        Acceptance {
            left: count,
            accepted: 0,
            waiting: true,
            full_until: Duration::from_millis(0),
            silent_until: Duration::from_millis(0),
        }
    }

    /// Returns true if no more connections are accepted.
    pub fn is_over(&self) -> bool {
        self.left == Some(0)
    }

    /// Returns true if a connection may wait to be accepted.
    pub fn may_come(&self) -> bool {
        self.waiting && !self.is_over()
    }

    /// Records whether a connection may wait to be accepted.
    pub fn set_waiting(&mut self, waiting: bool) {
        self.waiting = waiting;
    }

    /// Counts an accepted connection, and returns its number.
    pub fn count(&mut self) -> u64 {
        if let Some(left) = self.left {
            self.left = Some(left.saturating_sub(1));
        }
        self.accepted = self.accepted.saturating_add(1);
        self.accepted
    }

    /// Returns how long the system has no room for a connection.
    pub fn pause(&self, now: Duration) -> Duration {
        self.full_until.saturating_sub(now)
    }

    /// Returns true if the system has no room for a connection.
    pub fn is_paused(&self, now: Duration) -> bool {
        now < self.full_until
    }

    /// Records that the system had no room for a connection, and pauses.
    pub fn begin_pause(&mut self, now: Duration) {
        self.full_until = now.saturating_add(Duration::from_millis(FULL));
    }

    /// Returns true if a failed accept is to be logged: once a minute.
    pub fn is_reported(&mut self, now: Duration) -> bool {
        if now < self.silent_until {
            return false;
        }
        self.silent_until = now.saturating_add(Duration::from_millis(ACCEPT_SILENCE));
        true
    }
}
