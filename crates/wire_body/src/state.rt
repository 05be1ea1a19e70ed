//! Names of the states of operational intents.
ghost use Rattle.std.specs.Prelude.{◌≡◌};
ghost use Rattle.wire_body.specs.State.{state_named};

use entity_core::nature::State;

/// Returns the state with this name. Case matters.
#[tactic(auto, unfolding(crate::specs::State::state_named))]
pub(crate) fn state_named(name: &str) -> Option<State>
    ensures { result ≡ state_named name.now }
{
    match name {
        "Accepted" => Some(State::Accepted),
        "Activated" => Some(State::Activated),
        "Nonconforming" => Some(State::Nonconforming),
        "Contingent" => Some(State::Contingent),
        _ => None,
    }
}
