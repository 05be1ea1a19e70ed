//! When connections that clients reset are reported: at most once a minute.
ghost use Rattle.std.specs.Prelude.{◌≡◌, ◌<◌, ◌≤◌, Some, IfNone, IfSome, IsNone};
ghost use Rattle.std.specs.Duration.{as_nanos};
ghost use Rattle.server_watch.specs.Deadline.{a_minute_after};
ghost use Rattle.server_watch.specs.ResetWatch.{quiet_until, unreported_by};
ghost use Rattle.server_watch.specs.StoreWatch.{one_more};

use crate::deadline::is_before;
use std::time::Duration;

// How long further connections are not reported, in seconds.
const SILENCE: u64 = 60;

/// The number of reset connections since the last report.
#[derive(Clone, Copy, Debug)]
pub struct ResetWatch {
    unreported: u64,
    quiet_until: Duration,
}

impl ResetWatch {
    /// Creates a watch that reports the first reset connection.
    pub fn new() -> ResetWatch
        ensures unreported { unreported_by result ≡ 0 }
        ensures quiet { quiet_until result ≡ 0 }
    {
        ResetWatch {
            unreported: 0,
            quiet_until: Duration::from_secs(0),
        }
    }

    /// Counts a reset connection. Returns how many before it were not reported, if it is to be
    /// reported itself.
    pub fn note(&mut self, now: Duration) -> Option<u64>
        ensures silent { as_nanos now < quiet_until self.old → IsNone result }
        ensures due { quiet_until self.old ≤ as_nanos now
            → result ≡ Some (unreported_by self.old) }
        ensures counted { IfNone result (unreported_by self.new
            ≡ one_more (unreported_by self.old)) }
        ensures waits { IfNone result (quiet_until self.new ≡ quiet_until self.old) }
        ensures told { IfSome result (λ it. unreported_by self.new ≡ 0) }
        ensures silenced { IfSome result
            (λ it. quiet_until self.new ≡ a_minute_after (as_nanos now)) }
    {
        let unreported = self.unreported;
        if is_before(now, self.quiet_until) {
            self.unreported = unreported.saturating_add(1);
            return None;
        }
        self.unreported = 0;
        self.quiet_until = now.saturating_add(Duration::from_secs(SILENCE));
        Some(unreported)
    }
}
