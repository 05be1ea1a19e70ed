//! Times of a clock that does not go back.
use std::time::Duration;

/// The time after which the fence settles the outcome of a batch that is open, in milliseconds. The
/// clients of an instance get no reply to its calls any more then.
pub(crate) const SETTLE_AFTER: u64 = 10_000;

/// Returns the time so many milliseconds later.
pub(crate) fn later(time: Duration, millis: u64) -> Duration {
    time.saturating_add(Duration::from_millis(millis))
}
