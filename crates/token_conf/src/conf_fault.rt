//! The reason why a token file was rejected.
ghost use Rattle.std.specs.Prelude.{◌≡◌};

use std::alloc::{AllocError, AllocFailed};

/// The first fault of a token file.
///
/// The salt comes first, then the tables in their order. In a table, the faults come in the order
/// of their numbers.
#[derive(Clone, Copy, Debug, PartialEq, Eq)]
pub enum ConfFault {
    /// The text is not TOML.
    Toml,
    /// The salt is missing or invalid.
    Salt,
    /// `token` is no list, or an item of it is no table or has no `text` of 1 to 255 visible bytes.
    Token,
    /// A table has no `uss` that is a valid id of a USS.
    Uss,
    /// A table has no list of texts `scopes`.
    Scopes,
    /// A table has the `text` of an earlier one.
    Repeated,
    /// Memory ran out, which says nothing about the file.
    Memory,
}

impl ConfFault {
    ghost use Rattle.token_conf.specs.ConfFault.{fault_number, fault_name};

    /// Returns the number of the fault, from 1 to 7.
    pub fn number(self) -> u8
        ensures { result ≡ fault_number self }
    {
        match self {
            ConfFault::Toml => 1,
            ConfFault::Salt => 2,
            ConfFault::Token => 3,
            ConfFault::Uss => 4,
            ConfFault::Scopes => 5,
            ConfFault::Repeated => 6,
            ConfFault::Memory => 7,
        }
    }

    /// Returns the name of the fault.
    pub fn name(self) -> &'static str
        ensures { result.now ≡ fault_name self }
    {
        match self {
            ConfFault::Toml => "Toml",
            ConfFault::Salt => "Salt",
            ConfFault::Token => "Token",
            ConfFault::Uss => "Uss",
            ConfFault::Scopes => "Scopes",
            ConfFault::Repeated => "Repeated",
            ConfFault::Memory => "Memory",
        }
    }
}

impl From<AllocError> for ConfFault {
    ghost use Rattle.token_conf.specs.declared.conf_fault.ConfFault.TheVariants as fault;

    ghost from_gives = { λ _ answered. answered ≡ fault.Memory };

    fn from(_error: AllocError) -> ConfFault {
        ConfFault::Memory
    }
}

impl<T: Drop> From<AllocFailed<T>> for ConfFault {
    ghost use Rattle.token_conf.specs.declared.conf_fault.ConfFault.TheVariants as fault;

    ghost from_gives = { λ _ answered. answered ≡ fault.Memory };

    fn from(_error: AllocFailed<T>) -> ConfFault {
        ConfFault::Memory
    }
}
