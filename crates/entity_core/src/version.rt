//! Versions of entities, which count their puts.
ghost use Rattle.std.specs.Prelude.{◌≡◌, ◌≤◌, ◌+◌, IfSome, IfNone};
ghost use Rattle.entity_core.specs.Entity.{max_version};

use std::marker::Model;

/// The maximum version, 2^31 - 1 (this project's profile).
pub const MAX_VERSION: u32 = 2_147_483_647;

/// The number of times that an entity was put, from 1 to 2,147,483,647 (this project's profile).
///
/// Contracts see the number.
#[derive(Clone, Copy, Debug, PartialEq, Eq)]
pub struct Version {
    number: u32,
}

impl Model for Version {
    ghost use Rattle.std.specs.Prelude.{ℕ, ◌≤◌};
    ghost use Rattle.entity_core.specs.Entity.{max_version};

    ghost Value = { ℕ };

    ghost view = { λ a. a.number };

    ghost invariant = { λ a. (1 ≤ a.number) × (a.number ≤ max_version) };

    ghost inverse = { λ n. record { number = n } };
}

impl Version {
    /// Returns the version of a new entity.
    pub fn first() -> Version
        ensures { result ≡ 1 }
    {
        Version { number: 1 }
    }

    /// Returns the version with this number, or `None` unless it is from 1 to [`MAX_VERSION`].
    pub fn from_number(number: u32) -> Option<Version>
        ensures some { IfSome result (λ v. v ≡ number) }
        ensures none { IfNone result ((1 ≤ number) → (number ≤ max_version) → ⊥) }
    {
        if number < 1 || number > MAX_VERSION {
            None
        } else {
            Some(Version { number })
        }
    }

    /// Returns the next version, or `None` at the maximum.
    pub fn next(self) -> Option<Version>
        ensures some { IfSome result (λ v. v ≡ self + 1) }
        ensures none { IfNone result (self ≡ max_version) }
    {
        if self.number < MAX_VERSION {
            Some(Version {
                number: self.number + 1,
            })
        } else {
            None
        }
    }

    /// Returns the number.
    pub fn number(self) -> u32
        ensures number { result ≡ self }
        ensures least { 1 ≤ self }
        ensures most { self ≤ max_version }
    {
        let Version { number } = self;
        number
    }
}
