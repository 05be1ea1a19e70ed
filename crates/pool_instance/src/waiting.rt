//! Requests that have no reply yet.
ghost use Rattle.std.specs.Prelude.{◌≡◌, ℕ, None, find};
ghost use Rattle.entity_core.specs.Airspace.{Airspace};
ghost use Rattle.policy_core.specs.Policy.{breaks, early_rules};

use crate::request::Request;

/// A request that has no reply and was not offered. It breaks no stateless rule.
#[derive(Debug, Drop)]
pub(crate) struct Held {
    pub id: u64,
    pub request: Request,
    ghost early: { (a : Airspace) (now : ℕ) → find (breaks a now request.call) early_rules ≡ None },
}

/// What a request that waits for the end of the log waits for.
#[derive(Clone, Copy, Debug, PartialEq, Eq)]
pub(crate) enum Stage {
    /// The next question for the end of the log. A change also waits for the batch in flight.
    Fresh,
    /// The answer to the question with this number.
    Asked(u64),
    /// The time when the instance has taken so many entries.
    Until(u64),
}

/// A request that waits for the end of the log: a reading, or a change that was denied when it came.
#[derive(Debug, Drop)]
pub(crate) struct Reading {
    pub held: Held,
    pub stage: Stage,
}
