//! Deadlines on the monotonic clock.
ghost use Rattle.std.specs.Prelude.{◌<◌, ◌↔◌, IsTrue};
ghost use Rattle.std.specs.Duration.{as_nanos};

use std::time::Duration;

/// Returns true if this time is before the deadline.
pub(crate) fn is_before(now: Duration, deadline: Duration) -> bool
    ensures { IsTrue result ↔ (as_nanos now < as_nanos deadline) }
{
    !deadline.saturating_sub(now).is_zero()
}
