//! Whether responses have explanations.

/// Whether the response to a denial says more than the rule.
#[derive(Clone, Copy, Debug, PartialEq, Eq)]
pub enum Explaining {
    /// Each response is that of the policy.
    Off,
    /// The body of a denial by P1, P2, P5, P6 or P13 may have one more member, `explanation`, and a
    /// success may have one more field, `Warning-Ignored-Members`.
    On,
}
