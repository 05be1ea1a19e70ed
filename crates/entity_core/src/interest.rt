//! Interests of subscriptions.
ghost use Rattle.std.specs.Prelude.{◌≡◌, IfSome, IfNone, false};
ghost use Rattle.entity_core.specs.declared.nature.Kind.TheVariants as kinds;
ghost use Rattle.entity_core.specs.Subscription.{wants};

use crate::nature::Kind;

/// The kinds of entities whose changes a subscription is notified of. At least one kind.
#[derive(Clone, Copy, Debug, PartialEq, Eq)]
pub enum Interest {
    Intents,
    Constraints,
    Both,
}

impl Interest {
    /// Returns the interest in intents, in constraints, or in both. Returns `None` for neither.
    pub fn from_flags(intents: bool, constraints: bool) -> Option<Interest>
        ensures intents { IfSome result (λ i. wants i kinds.Intent ≡ intents) }
        ensures constraints { IfSome result (λ i. wants i kinds.Constraint ≡ constraints) }
        ensures none { IfNone result ((intents ≡ false) × (constraints ≡ false)) }
    {
        match (intents, constraints) {
            (true, true) => Some(Interest::Both),
            (true, false) => Some(Interest::Intents),
            (false, true) => Some(Interest::Constraints),
            (false, false) => None,
        }
    }

    /// Returns true if the subscription is notified of changes of a kind.
    pub fn wants(self, kind: Kind) -> bool
        ensures { result ≡ wants self kind }
    {
        match (self, kind) {
            (Interest::Both, _) => true,
            (Interest::Intents, Kind::Intent) => true,
            (Interest::Constraints, Kind::Constraint) => true,
            _ => false,
        }
    }
}
