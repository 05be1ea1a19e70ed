//! A clock that can fail.
use crate::draws::Draws;
use crate::shared::Shared;
use wire_http::{ClockFault, Moments};

/// A clock that returns the time of day of the simulation, or fails.
#[derive(Clone, Copy)]
pub(crate) struct SimClock<'a> {
    shared: &'a Shared,
    draws: Draws,
    // How often of a hundred readings it fails, and how often it has failed.
    percent: u64,
    failures: u64,
}

impl<'a> SimClock<'a> {
    /// Creates a clock that fails so often of a hundred readings.
    pub(crate) fn new(shared: &'a Shared, draws: Draws, percent: u64) -> SimClock<'a> {
        SimClock {
            shared,
            draws,
            percent,
            failures: 0,
        }
    }
}

impl<'a> Moments for SimClock<'a> {
    ghost use Rattle.test_simulation.specs.Clock.{GivesMoment, failures_of};

    ghost gives = { GivesMoment };

    ghost failures = { failures_of };

    fn next(&mut self) -> Result<u64, ClockFault> {
        if self.draws.chance(self.percent) {
            self.failures = self.failures.saturating_add(1);
            return Err(ClockFault);
        }
        Ok(self.shared.wall())
    }
}
