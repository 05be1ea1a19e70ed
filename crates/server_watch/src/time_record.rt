//! When a trusted time is stored.
ghost use Rattle.std.specs.Prelude.{◌≡◌, ◌↔◌, Some, IsTrue};
ghost use Rattle.std.specs.Duration.{as_nanos};
ghost use Rattle.server_watch.specs.Deadline.{a_minute_after};
ghost use Rattle.server_watch.specs.TimeRecord.{IsStoreDue, Replaces, pause_of, stored_before, stored_of};

use crate::deadline::is_before;
use server_base::trusted_time::{LastTime, TrustedTime};
use std::time::Duration;

// The seconds by which the stored time may be behind a clock that is right.
const GAP: u64 = 600;

// The seconds after a failure before the next attempt.
const PAUSE: u64 = 60;

// Returns true if a time is to take the place of the stored one.
fn replaces(time: TrustedTime, stored: Option<TrustedTime>) -> bool
    ensures { IsTrue result ↔ Replaces time stored }
{
    match stored {
        None => true,
        Some(stored) => {
            stored.jumped_to != time.jumped_to
                || time.moment < stored.moment
                || time.moment >= stored.moment.saturating_add(GAP)
        }
    }
}

/// The trusted time that was stored last.
#[derive(Clone, Copy, Debug)]
pub struct TimeRecord {
    stored: Option<TrustedTime>,
    // The time of the monotonic clock before which nothing is stored, after a failure.
    pause: Duration,
}

impl TimeRecord {
    /// Creates a record after a start with this last known time.
    pub fn new(last: Option<LastTime>) -> TimeRecord
        ensures stored { stored_of result ≡ stored_before last }
        ensures pause { pause_of result ≡ 0 }
    {
        let stored = match last {
            Some(LastTime::Trusted(time)) => Some(time),
            Some(LastTime::Changed(_)) | None => None,
        };
        TimeRecord {
            stored,
            pause: Duration::from_secs(0),
        }
    }

    /// Returns true if a time is to be stored now: none is stored; the clock has jumped or returned
    /// since then; the stored time is later, or ten minutes earlier. After a failure a minute passes
    /// first.
    pub fn is_due(&self, time: TrustedTime, now: Duration) -> bool
        ensures { IsTrue result ↔ IsStoreDue self.now time now }
    {
        !is_before(now, self.pause) && replaces(time, self.stored)
    }

    /// Records that a time was stored.
    pub fn keep(&mut self, time: TrustedTime)
        ensures stored { stored_of self.new ≡ Some time }
        ensures pause { pause_of self.new ≡ pause_of self.old }
    {
        self.stored = Some(time);
    }

    /// Records that a time could not be stored.
    pub fn fail(&mut self, now: Duration)
        ensures stored { stored_of self.new ≡ stored_of self.old }
        ensures pause { pause_of self.new ≡ a_minute_after (as_nanos now) }
    {
        self.pause = now.saturating_add(Duration::from_secs(PAUSE));
    }
}
