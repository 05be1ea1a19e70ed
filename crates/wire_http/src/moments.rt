//! Clocks: where the times of requests come from.

/// The clock gave no time.
#[derive(Clone, Copy, Debug, PartialEq, Eq)]
pub struct ClockFault;

/// A clock that gives times in Unix seconds.
///
/// `gives old moment new`: the clock `old` gives that time and is then `new`. `failures` counts the
/// calls that gave none, and stops at the maximum of 64 bits.
pub trait Moments {
    ghost use Rattle.std.specs.Prelude.{◌≡◌, ℕ, OnOk, OnErr, IfOk};
    ghost use Rattle.wire_http.specs.Count.{one_more};

    ghost gives: { Self → ℕ → Self → Type 0 };

    ghost failures: { Self → ℕ };

    /// Returns the next time.
    fn next(&mut self) -> Result<u64, ClockFault>
        ensures moment { IfOk result (λ moment. gives self.old moment self.new) }
        ensures ok { OnOk result (failures self.new ≡ failures self.old) }
        ensures err { OnErr result (failures self.new ≡ one_more (failures self.old)) };
}

/// A clock that gives the same time for each call. It never fails.
#[derive(Clone, Copy, Debug, PartialEq, Eq)]
pub struct FixedClock {
    moment: u64,
}

impl FixedClock {
    ghost use Rattle.std.specs.Prelude.{◌≡◌};
    ghost use Rattle.wire_http.specs.Moments.{moment_of};

    /// Creates a clock that always gives this time.
    pub fn new(moment: u64) -> FixedClock
        ensures { moment_of result ≡ moment }
    {
        FixedClock { moment }
    }
}

impl Moments for FixedClock {
    ghost use Rattle.std.specs.Prelude.{◌≡◌};
    ghost use Rattle.wire_http.specs.Moments.{moment_of};

    ghost gives = { λ old moment new. (moment ≡ moment_of old) × (new ≡ old) };

    ghost failures = { λ _. 0 };

    fn next(&mut self) -> Result<u64, ClockFault> {
        Ok(self.moment)
    }
}
