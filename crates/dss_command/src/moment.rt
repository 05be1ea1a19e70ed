//! The time of a clock reading, and of a purge.
ghost use Rattle.std.specs.Prelude.{◌≡◌, ◌≤◌, ◌<◌, ◌*◌, ◌+◌, ◌↔◌, IfErr, IfSome, IsSome, OnOk};
ghost use Rattle.std.specs.Time.{system_time_nanos};
ghost use Rattle.dss_command.specs.declared.fault.Fault.TheVariants.{UntilInFuture};

use crate::fault::Fault;
use std::time::{SystemTime, UNIX_EPOCH};

/// Returns the whole Unix seconds of a system time. Returns `None` before 1970.
pub fn seconds_of(time: SystemTime) -> Option<u64>
    ensures { IfSome result (λ moment.
        (moment * 1_000_000_000 ≤ system_time_nanos time)
        × (system_time_nanos time < (moment + 1) * 1_000_000_000)) }
{
    match time.duration_since(UNIX_EPOCH) {
        Ok(since) => Some(since.as_secs()),
        Err(_) => None,
    }
}

/// Rejects a purge up to a time after `now`, both in Unix seconds.
pub fn check_not_in_future(until: u64, now: u64) -> Result<(), Fault>
    ensures past { OnOk result (until ≤ now) }
    ensures refused { IfErr result (λ fault. (fault ≡ UntilInFuture) × (now < until)) }
{
    if until > now {
        return Err(Fault::UntilInFuture);
    }
    Ok(())
}
