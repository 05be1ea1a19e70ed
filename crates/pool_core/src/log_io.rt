//! The input and output of a log.
use crate::log::Log;
use std::time::Duration;

/// What the input and output of a log know of it.
#[derive(Clone, Copy, Debug, PartialEq, Eq)]
pub struct LogStatus {
    /// The revision of the last change that was received, as the log counts them.
    pub revision: u64,
    /// The number of batches and purges that were offered, and whose outcome is not known.
    pub open: usize,
    /// The time since the log last answered.
    pub silence: Duration,
    /// The number of other organizations whose last comparable record of the log differs.
    pub differing: usize,
}

/// The input and output of a log. It is the only part of an instance or a follower that a network
/// sees.
pub trait LogIo<L: Log> {
    ghost use Rattle.std.specs.Prelude.{◌≡◌};

    /// Sends and receives what is there, at a time of a clock that does not go back. Returns the
    /// time within which it has to be called again, unless a connection is ready before.
    fn advance_log(&mut self, log: &mut L, now: Duration) -> Duration
        ensures writer { L.writer log.new ≡ L.writer log.old }
        ensures history { L.history log.new ≡ L.history log.old };

    /// Returns what is known of the log at a time of the same clock. The default knows nothing.
    fn status(&self, _log: &L, _now: Duration) -> LogStatus {
        LogStatus {
            revision: 0,
            open: 0,
            silence: Duration::ZERO,
            differing: 0,
        }
    }
}
