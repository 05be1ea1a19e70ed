//! The last time that is known from before a start, and what it says about the clock.
ghost use Rattle.std.specs.Prelude.{◌≡◌, ◌↔◌, IfSome, IsSome, IsTrue};
ghost use Rattle.server_watch.specs.Reference.{IsAhead, IsBehind, IsDoubt, IsDoubtful, IsLate, time_of};

use server_base::server_log::ClockEvent;
use server_base::trusted_time::{LastTime, TrustedTime};

// The seconds by which a start may be before the last trusted time.
const MAX_BACKWARD: u64 = 5;

// The seconds by which a start may be later than the retention after the last known time.
const DAY: u64 = 86_400;

// Returns true if a start is later than the retention and a day after the last known time.
fn is_late(keep: Option<u64>, last: u64, moment: u64) -> bool
    ensures { IsTrue result ↔ IsLate keep last moment }
{
    match keep {
        Some(keep) => moment > last.saturating_add(keep).saturating_add(DAY),
        None => false,
    }
}

// Returns true if the clock jumped forward after the last known time, and has not returned.
fn is_ahead(jumped_to: Option<u64>, last: u64, moment: u64) -> bool
    ensures { IsTrue result ↔ IsAhead jumped_to last moment }
{
    match jumped_to {
        Some(to) => last < to && to <= moment,
        None => false,
    }
}

// Returns true if a start is before the last trusted time.
fn is_behind(last: LastTime, moment: u64) -> bool
    ensures { IsTrue result ↔ IsBehind last moment }
{
    match last {
        LastTime::Trusted(time) => moment.saturating_add(MAX_BACKWARD) < time.moment,
        LastTime::Changed(_) => false,
    }
}

/// The last known time of a start, and the retention of the service, if it has one.
#[derive(Clone, Copy, Debug, PartialEq, Eq)]
pub(crate) struct Reference {
    pub(crate) keep: Option<u64>,
    pub(crate) last: LastTime,
}

impl Reference {
    /// Returns the last known time, as it is stored.
    pub(crate) fn time(&self) -> TrustedTime
        ensures { result ≡ time_of self.now.last }
    {
        match self.last {
            LastTime::Changed(moment) => TrustedTime {
                moment,
                jumped_to: None,
            },
            LastTime::Trusted(time) => time,
        }
    }

    /// Returns the reason why a time of the clock contradicts the last known time, if it does.
    pub(crate) fn doubt(&self, moment: u64) -> Option<ClockEvent>
        ensures event { IfSome result (IsDoubt self.now moment) }
        ensures doubtful { IsSome result ↔ IsDoubtful self.now moment }
    {
        let time = self.time();
        if is_ahead(time.jumped_to, time.moment, moment) {
            return Some(ClockEvent::StartedAhead(moment.saturating_sub(time.moment)));
        }
        if is_late(self.keep, time.moment, moment) {
            return Some(ClockEvent::StartedLate(moment.saturating_sub(time.moment)));
        }
        if is_behind(self.last, moment) {
            return Some(ClockEvent::StartedBehind(time.moment.saturating_sub(moment)));
        }
        None
    }
}
