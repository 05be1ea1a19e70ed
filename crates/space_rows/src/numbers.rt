//! The numbers of kinds and states in rows.
ghost use Rattle.std.specs.Prelude.{◌≡◌};
ghost use Rattle.space_rows.specs.Rows.{kind_number, state_number};

use entity_core::nature::{Kind, Nature, State};

/// Returns the number of a kind: 0 for an intent, 1 for a constraint.
pub fn kind_number(kind: Kind) -> i64
    ensures { result ≡ kind_number kind }
{
    match kind {
        Kind::Intent => 0,
        Kind::Constraint => 1,
    }
}

/// Returns the number of an intent's state, or 4 for a constraint.
pub(crate) fn state_number(nature: Nature) -> i64
    ensures { result ≡ state_number nature }
{
    match nature {
        Nature::Intent(State::Accepted, _) => 0,
        Nature::Intent(State::Activated, _) => 1,
        Nature::Intent(State::Nonconforming, _) => 2,
        Nature::Intent(State::Contingent, _) => 3,
        Nature::Constraint => 4,
    }
}
