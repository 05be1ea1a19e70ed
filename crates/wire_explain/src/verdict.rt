//! The form of a request.
ghost use Rattle.std.specs.Prelude.{◌≡◌};
ghost use Rattle.wire_explain.specs.Verdict.{rule_of};

use policy_core::call::OpKind;
use policy_core::rule::Rule;
use wire_route::endpoint::Endpoint;

/// The operation whose form a request has, or the reason why it has none.
#[derive(Clone, Copy, Debug, PartialEq, Eq)]
pub enum Verdict {
    /// The request has the form of an operation of this kind.
    HasForm(OpKind),
    /// No route has the path.
    NoRoute,
    /// The endpoint of the path does not allow the method.
    NoMethod(Endpoint),
    /// A parameter of the path or the body does not have the form of an operation of this kind.
    Malformed(OpKind),
}

impl Verdict {
    /// Returns the rule of the policy that denies the request, if it is one of P1, P2 and P5.
    pub fn rule(self) -> Option<Rule>
        ensures { result ≡ rule_of self }
    {
        match self {
            Verdict::HasForm(_) => None,
            Verdict::NoRoute => Some(Rule::Route),
            Verdict::NoMethod(_) => Some(Rule::Method),
            Verdict::Malformed(_) => Some(Rule::Form),
        }
    }
}
