//! The kinds and states of entities.
ghost use Rattle.std.specs.Prelude.{◌≡◌, nat_eq};
ghost use Rattle.entity_core.specs.Entity.{kind_index, kind_of, state_name, state_of, subscription_of};

use crate::entity_id::EntityId;

/// The kinds of entities. Each kind has its own ids.
#[derive(Clone, Copy, Debug, PartialEq, Eq)]
pub enum Kind {
    /// An operational intent.
    Intent,
    /// A constraint.
    Constraint,
}

impl Kind {
    /// Returns true if the two kinds are equal.
    pub fn is(self, other: Kind) -> bool
        ensures { result ≡ nat_eq (kind_index self) (kind_index other) }
    {
        self.index() == other.index()
    }

    // Returns the index of the kind in the order of kinds.
    pub(crate) fn index(self) -> u8
        ensures { result ≡ kind_index self }
    {
        match self {
            Kind::Intent => 0,
            Kind::Constraint => 1,
        }
    }
}

/// The state of an operational intent.
#[derive(Clone, Copy, Debug, PartialEq, Eq)]
pub enum State {
    /// It is planned.
    Accepted,
    /// It is flown.
    Activated,
    /// It is flown, but not as planned.
    Nonconforming,
    /// It can no longer be flown as planned.
    Contingent,
}

impl State {
    /// Returns the name of the state.
    pub fn name(self) -> &'static str
        ensures { result.now ≡ state_name self }
    {
        match self {
            State::Accepted => "Accepted",
            State::Activated => "Activated",
            State::Nonconforming => "Nonconforming",
            State::Contingent => "Contingent",
        }
    }
}

/// The kind of an entity, with the data that only this kind has.
///
/// Only an intent has a state, and only an intent references a subscription.
#[derive(Clone, Copy, Debug, PartialEq, Eq)]
pub enum Nature {
    /// An intent with its state, and the id of the subscription that it references, if any.
    Intent(State, Option<EntityId>),
    Constraint,
}

impl Nature {
    /// Returns the kind.
    pub fn kind(self) -> Kind
        ensures { result ≡ kind_of self }
    {
        match self {
            Nature::Intent(_, _) => Kind::Intent,
            Nature::Constraint => Kind::Constraint,
        }
    }

    /// Returns the state of an intent, and `None` for a constraint.
    pub fn state(self) -> Option<State>
        ensures { result ≡ state_of self }
    {
        match self {
            Nature::Intent(state, _) => Some(state),
            Nature::Constraint => None,
        }
    }

    /// Returns the id of the subscription that an intent references, if any.
    pub fn subscription(self) -> Option<EntityId>
        ensures { result ≡ subscription_of self }
    {
        match self {
            Nature::Intent(_, named) => named,
            Nature::Constraint => None,
        }
    }
}
