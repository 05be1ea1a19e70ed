//! Serials, which number the changes of an airspace.
ghost use Rattle.std.specs.Prelude.{◌≡◌, ◌≤◌, ◌+◌, IfSome, IfNone};
ghost use Rattle.entity_core.specs.Serial.{max_serial};

use std::marker::Model;

/// The maximum serial of an airspace, 2^63 - 1 (this project's profile: it fits an SQLite column).
pub const MAX_SERIAL: u64 = 9_223_372_036_854_775_807;

/// The serial of a change, from 1 to [`MAX_SERIAL`]. Contracts see the number.
#[derive(Clone, Copy, Debug, PartialEq, Eq)]
pub struct Serial {
    number: u64,
}

impl Model for Serial {
    ghost use Rattle.std.specs.Prelude.{ℕ, ◌≤◌};
    ghost use Rattle.entity_core.specs.Serial.{max_serial};

    ghost Value = { ℕ };

    ghost view = { λ a. a.number };

    ghost invariant = { λ a. (1 ≤ a.number) × (a.number ≤ max_serial) };

    ghost inverse = { λ n. record { number = n } };
}

impl Serial {
    /// Returns the serial after `number`, or `None` if `number` is at least the maximum.
    pub fn next_after(number: u64) -> Option<Serial>
        ensures some { IfSome result (λ serial. serial ≡ number + 1) }
        ensures none { IfNone result (max_serial ≤ number) }
    {
        if number < MAX_SERIAL {
            Some(Serial { number: number + 1 })
        } else {
            None
        }
    }

    /// Returns the maximum serial.
    pub fn max() -> Serial
        ensures { result ≡ max_serial }
    {
        Serial { number: MAX_SERIAL }
    }

    /// Returns the number.
    pub fn number(self) -> u64
        ensures number { result ≡ self }
        ensures least { 1 ≤ self }
        ensures most { self ≤ max_serial }
    {
        let Serial { number } = self;
        number
    }
}
