//! The watch over the clock. A jump of the clock holds purges, since a wrong time ends flights.
ghost use Rattle.std.specs.Prelude.{◌≡◌, ◌↔◌, None, Some, IfNone, IfSome, IsTrue, true, false};
ghost use Rattle.server_watch.specs.ClockWatch.{IsDrift, IsJump, IsNear, IsPlausible, IsWrong, ReportsWrong, confirmed, expected_at, held_after, is_held_in, is_watched_in, jumps_after, jumps_of, news_of_right, reference, state_of, trusted_of};
ghost use Rattle.server_watch.specs.declared.clock_watch.ClockState.TheVariants as state;

use crate::reference::Reference;
use admin_http::clock::ClockMetrics;
use server_base::server_log::ClockEvent;
use server_base::trusted_time::{LastTime, TrustedTime};
use std::time::Duration;

// The seconds by which the clock may be ahead of the monotonic clock and behind it, between two
// readings.
const MAX_FORWARD: u64 = 60;

const MAX_BACKWARD: u64 = 5;

// The difference between a time of the clock and the expected time.
#[derive(Clone, Copy, Debug, PartialEq, Eq)]
enum Drift {
    // The clock may be right.
    Near,
    // It is ahead by this number of seconds.
    Ahead(u64),
    // It is behind by this number of seconds.
    Behind(u64),
}

// Compares a time of the clock with the expected time.
fn drift_of(moment: u64, expected: u64) -> Drift
    ensures { IsDrift moment expected result }
{
    if moment > expected.saturating_add(MAX_FORWARD) {
        return Drift::Ahead(moment - expected);
    }
    if expected > moment.saturating_add(MAX_BACKWARD) {
        return Drift::Behind(expected - moment);
    }
    Drift::Near
}

// What is known of the clock.
#[derive(Clone, Copy, Debug, PartialEq, Eq)]
enum ClockState {
    // It was not read yet.
    Unread(Option<Reference>),
    // Since the start it contradicts the last known time.
    Doubted(Reference),
    // It returned this time, when the monotonic clock returned that one.
    Right(u64, Duration),
    // It has jumped since then, to the last time here.
    Jumped(u64, Duration, u64),
    // An operator confirmed it.
    Confirmed,
}

// Returns the jump of the clock to this time from the expected time, if it jumped.
fn jump(moment: u64, expected: u64) -> Option<ClockEvent>
    ensures jump { IfSome result (IsJump moment expected) }
    ensures none { IfNone result (IsNear moment expected) }
{
    match drift_of(moment, expected) {
        Drift::Near => None,
        Drift::Ahead(by) => Some(ClockEvent::JumpedForward(by)),
        Drift::Behind(by) => Some(ClockEvent::JumpedBackward(by)),
    }
}

// Returns the time that the clock should return `now`, if it returned `last` then.
fn expected_at(last: u64, then: Duration, now: Duration) -> u64
    ensures { result ≡ expected_at last then now }
{
    last.saturating_add(now.saturating_sub(then).as_secs())
}

/// The watch over the clock.
///
/// It compares the clock with the monotonic clock, and at the start with the last known time. Purges
/// are held while the clock contradicts them, until it returns or an operator confirms it.
#[derive(Clone, Copy, Debug)]
pub struct ClockWatch {
    state: ClockState,
    jumps: u64,
    // True if jumps are reported.
    is_watched: bool,
}

impl ClockWatch {
    /// Creates a watch for a service with this retention, after a start with this last known time.
    /// `is_watched` says whether jumps are reported: without a retention and an admin port they mean
    /// nothing.
    pub fn new(keep: Option<u64>, last: Option<LastTime>, is_watched: bool) -> ClockWatch
        ensures state { state_of result ≡ state.Unread (reference keep last) }
        ensures jumps { jumps_of result ≡ 0 }
        ensures watched { is_watched_in result ≡ is_watched }
    {
        let start = match last {
            Some(last) => Some(Reference { keep, last }),
            None => None,
        };
        ClockWatch {
            state: ClockState::Unread(start),
            jumps: 0,
            is_watched,
        }
    }

    /// Returns true if nothing may be purged.
    pub fn is_held(&self) -> bool
        ensures { result ≡ is_held_in self.now }
    {
        match self.state {
            ClockState::Doubted(_) | ClockState::Jumped(_, _, _) => true,
            ClockState::Unread(_) | ClockState::Right(_, _) | ClockState::Confirmed => false,
        }
    }

    /// Returns the time to store for the next start, if there is one: the last right reading, with
    /// the time to which the clock jumped since then; after a doubtful start, the last known time.
    pub fn trusted(&self) -> Option<TrustedTime>
        ensures { result ≡ trusted_of (state_of self.now) }
    {
        match self.state {
            ClockState::Unread(_) | ClockState::Confirmed => None,
            ClockState::Doubted(start) => Some(start.time()),
            ClockState::Right(moment, _) => Some(TrustedTime {
                moment,
                jumped_to: None,
            }),
            ClockState::Jumped(moment, _, to) => Some(TrustedTime {
                moment,
                jumped_to: Some(to),
            }),
        }
    }

    /// Returns the metrics of the clock.
    pub fn metrics(&self) -> ClockMetrics
        ensures held { result.is_held ≡ is_held_in self.now }
        ensures jumps { result.jumps ≡ jumps_of self.now }
    {
        ClockMetrics {
            jumps: self.jumps,
            is_held: self.is_held(),
        }
    }

    /// Records that an operator confirms the clock.
    pub fn confirm(&mut self)
        ensures held { is_held_in self.new ≡ false }
        ensures state { state_of self.new ≡ confirmed (state_of self.old) }
        ensures jumps { jumps_of self.new ≡ jumps_of self.old }
        ensures watched { is_watched_in self.new ≡ is_watched_in self.old }
    {
        if self.is_held() {
            self.state = ClockState::Confirmed;
        }
    }

    /// Returns true if jumps are reported.
    pub fn is_watched(&self) -> bool
        ensures { result ≡ is_watched_in self.now }
    {
        self.is_watched
    }

    /// Records a time of the clock. Returns what became known of the clock, if anything.
    pub fn look(&mut self, moment: u64, now: Duration) -> Option<ClockEvent>
        ensures held { (is_held_in self.new ≡ true) ↔ IsWrong (state_of self.old) moment now }
        ensures free { is_held_in self.new ≡ false → IsPlausible (state_of self.old) moment now }
        ensures wrong { IsWrong (state_of self.old) moment now
            → state_of self.new ≡ held_after (state_of self.old) moment }
        ensures right { IsPlausible (state_of self.old) moment now
            → state_of self.new ≡ state.Right moment now }
        ensures wrong_event { IsWrong (state_of self.old) moment now
            → ReportsWrong (state_of self.old) moment now result }
        ensures right_event { IsPlausible (state_of self.old) moment now
            → result ≡ news_of_right (state_of self.old) }
        ensures jumps { jumps_of self.new ≡ jumps_after result (jumps_of self.old) }
        ensures watched { is_watched_in self.new ≡ is_watched_in self.old }
    {
        let right = ClockState::Right(moment, now);
        match self.state {
            ClockState::Unread(None) => {
                self.state = right;
                None
            }
            ClockState::Unread(Some(start)) => {
                let event = start.doubt(moment);
                self.state = if event.is_some() {
                    ClockState::Doubted(start)
                } else {
                    right
                };
                event
            }
            ClockState::Doubted(start) => {
                if start.doubt(moment).is_some() {
                    return None;
                }
                self.state = right;
                Some(ClockEvent::Returned)
            }
            ClockState::Confirmed => {
                self.state = right;
                Some(ClockEvent::Confirmed)
            }
            ClockState::Right(last, at) => {
                let event = jump(moment, expected_at(last, at, now));
                if event.is_some() {
                    self.jumps = self.jumps.saturating_add(1);
                    self.state = ClockState::Jumped(last, at, moment);
                } else {
                    self.state = right;
                }
                event
            }
            ClockState::Jumped(last, at, _) => {
                if jump(moment, expected_at(last, at, now)).is_some() {
                    return None;
                }
                self.state = right;
                Some(ClockEvent::Returned)
            }
        }
    }
}
