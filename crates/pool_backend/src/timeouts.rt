//! The time that a request waits for the log.
use std::time::Duration;

// How long a request waits that was not sent to the log, and one that was sent, in milliseconds.
const UNSENT_TIMEOUT: u64 = 2_000;

const SENT_TIMEOUT: u64 = 10_000;

/// The times after which a request fails.
#[derive(Clone, Copy, Debug, PartialEq, Eq)]
pub struct Timeouts {
    /// The time after which a request fails whose call was not sent to the log.
    pub unsent: Duration,
    /// The time after which a request fails whose call was sent to the log.
    pub sent: Duration,
}

impl Timeouts {
    /// Returns the usual times: 2 and 10 seconds.
    pub fn usual() -> Timeouts {
        Timeouts {
            unsent: Duration::from_millis(UNSENT_TIMEOUT),
            sent: Duration::from_millis(SENT_TIMEOUT),
        }
    }
}
