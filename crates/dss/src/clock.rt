//! The system clock.
use dss_command::moment::seconds_of;
use std::time::SystemTime;
use wire_http::{ClockFault, Moments};

/// The system clock: each time is a reading in whole Unix seconds. A reading fails if the system
/// returns no time, or one before 1970.
#[derive(Clone, Copy)]
pub(crate) struct SystemClock<'a> {
    rt: &'a HostRuntime,
    failures: u64,
}

impl<'a> SystemClock<'a> {
    /// Creates a clock of that system.
    pub(crate) fn new(rt: &'a HostRuntime) -> SystemClock<'a> {
        SystemClock { rt, failures: 0 }
    }

    // Reads the clock once.
    fn read(&self) -> Option<u64> {
        let Ok(now) = SystemTime::now(self.rt) else {
            return None;
        };
        seconds_of(now)
    }
}

impl<'a> Moments for SystemClock<'a> {
    ghost use Rattle.dss.specs.Clock.{GivesMoment, failures_of};

    ghost gives = { GivesMoment };

    ghost failures = { failures_of };

    fn next(&mut self) -> Result<u64, ClockFault> {
        match self.read() {
            Some(moment) => Ok(moment),
            None => {
                self.failures = self.failures.saturating_add(1);
                Err(ClockFault)
            }
        }
    }
}
