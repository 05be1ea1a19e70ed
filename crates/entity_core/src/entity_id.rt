//! Ids of entities.
ghost use Rattle.std.specs.Prelude.{◌≡◌, IfOk, Some, nat_eq};
ghost use Rattle.std.specs.String.{string_bytes};
ghost use Rattle.entity_core.specs.EntityId.{ReadsId, printed, spelled};

use crate::id_fault::IdFault;
use std::alloc::{AllocError, Global};
use std::marker::Model;
use uuid::Uuid;

/// The id of an operational intent or a constraint: a UUID of any version (RFC 9562).
///
/// Intents and constraints have separate ids. Contracts see its number.
#[derive(Clone, Copy, Debug, PartialEq, Eq, PartialOrd, Ord)]
pub struct EntityId {
    number: u128,
}

impl Model for EntityId {
    ghost use Rattle.std.specs.Prelude.{ℕ};

    ghost Value = { ℕ };

    ghost view = { λ a. a.number };

    ghost inverse = { λ n. record { number = n } };
}

impl EntityId {
    /// Parses a hyphenated UUID of 36 characters, in either case.
    ///
    /// Returns the first fault of the text, and never `Memory`. Allocates nothing.
    pub fn read(text: &str) -> Result<EntityId, IdFault>
        ensures { ReadsId text.now result }
    {
        if text.len() != 36 {
            return Err(IdFault::Length);
        }
        match Uuid::parse_str(text) {
            Ok(uuid) => Ok(EntityId {
                number: uuid.as_u128(),
            }),
            Err(_) => Err(IdFault::Form),
        }
    }

    /// Returns the id as a number. Ids are ordered by their numbers.
    pub fn number(self) -> u128
        ensures { result ≡ self }
    {
        let EntityId { number } = self;
        number
    }

    /// Returns true if the two ids are equal.
    pub fn is(self, other: EntityId) -> bool
        ensures { result ≡ nat_eq self other }
    {
        self.number() == other.number()
    }

    /// Returns the hyphenated UUID in lower case, which represents this id.
    ///
    /// Returns `AllocError` if memory runs out.
    pub fn text(&self, alloc: Global) -> Result<String, AllocError>
        ensures text { IfOk result (λ text. string_bytes text ≡ printed self.now) }
        ensures reads { IfOk result (λ text. spelled (string_bytes text) ≡ Some self.now) }
    {
        let uuid = Uuid::from_u128(self.number);
        format!(in alloc; "{uuid}")
    }
}
