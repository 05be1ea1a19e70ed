//! Notification indexes of subscriptions.
ghost use Rattle.std.specs.Prelude.{◌≡◌, ◌≤◌, ◌<◌, ◌+◌, IfSome, IfNone};
ghost use Rattle.entity_core.specs.Serial.{max_serial};

use crate::serial::MAX_SERIAL;
use std::marker::Model;

/// The number of changes that a subscription was notified of, from 0 to the maximum serial (this
/// project's profile).
///
/// Contracts see the number.
#[derive(Clone, Copy, Debug, PartialEq, Eq)]
pub struct NotificationIndex {
    number: u64,
}

impl Model for NotificationIndex {
    ghost use Rattle.std.specs.Prelude.{ℕ, ◌≤◌};
    ghost use Rattle.entity_core.specs.Serial.{max_serial};

    ghost Value = { ℕ };

    ghost view = { λ a. a.number };

    ghost invariant = { λ a. a.number ≤ max_serial };

    ghost inverse = { λ n. record { number = n } };
}

impl NotificationIndex {
    /// Returns the index of a new subscription.
    pub fn zero() -> NotificationIndex
        ensures { result ≡ 0 }
    {
        NotificationIndex { number: 0 }
    }

    /// Returns the index with this number, or `None` if it exceeds the maximum serial.
    pub fn from_number(number: u64) -> Option<NotificationIndex>
        ensures some { IfSome result (λ index. index ≡ number) }
        ensures none { IfNone result (max_serial < number) }
    {
        if number <= MAX_SERIAL {
            Some(NotificationIndex { number })
        } else {
            None
        }
    }

    /// Returns the index after one more notification, or the same index at the maximum.
    pub fn next(self) -> NotificationIndex
        ensures { self < max_serial → result ≡ self + 1 }
    {
        if self.number < MAX_SERIAL {
            NotificationIndex {
                number: self.number + 1,
            }
        } else {
            self
        }
    }

    /// Returns the number.
    pub fn number(self) -> u64
        ensures number { result ≡ self }
        ensures most { self ≤ max_serial }
    {
        let NotificationIndex { number } = self;
        number
    }
}
