//! The numbers, names and HTTP statuses of the rules.
ghost use Rattle.std.specs.Prelude.{◌≡◌};
ghost use Rattle.policy_core.specs.Rule.{number_of, name_of, status_of};

/// A rule of the policy, P1 to P17.
///
/// A call is denied by the first rule that it breaks, in the order P1 to P13, P16, P17, P14, P15.
#[derive(Clone, Copy, Debug, PartialEq, Eq)]
pub enum Rule {
    /// P1: no route has the path.
    Route,
    /// P2: the route does not allow the method.
    Method,
    /// P3: there is no caller.
    Token,
    /// P4: none of the caller's scopes permits the operation.
    Scope,
    /// P5: a path parameter or the body has a wrong form.
    Form,
    /// P6: the cells of all volumes cover too much.
    Area,
    /// P7: the entity or subscription to read, update or delete does not exist.
    Found,
    /// P8: the entity or subscription to create exists already.
    Fresh,
    /// P9: the caller is not the manager.
    Manager,
    /// P10: the OVN or the version is not the current one.
    Version,
    /// P11: the caller's scopes do not allow the state, or the interest of a subscription.
    Role,
    /// P12: the state may not follow the current one.
    Change,
    /// P13: all volumes have ended.
    Ended,
    /// P14: something needed is missing from the key.
    Key,
    /// P15: a serial or a version is at its maximum.
    Limit,
    /// P16: the referenced subscription does not exist or another USS manages it.
    Subscription,
    /// P17: some intent references the subscription to delete.
    Depended,
}

impl Rule {
    ghost use Rattle.policy_core.specs.Rule.{number_of, name_of, status_of};

    /// Returns the number of the rule, 1 to 17.
    pub fn number(self) -> u8
        ensures { result ≡ number_of self }
    {
        match self {
            Rule::Route => 1,
            Rule::Method => 2,
            Rule::Token => 3,
            Rule::Scope => 4,
            Rule::Form => 5,
            Rule::Area => 6,
            Rule::Found => 7,
            Rule::Fresh => 8,
            Rule::Manager => 9,
            Rule::Version => 10,
            Rule::Role => 11,
            Rule::Change => 12,
            Rule::Ended => 13,
            Rule::Key => 14,
            Rule::Limit => 15,
            Rule::Subscription => 16,
            Rule::Depended => 17,
        }
    }

    /// Returns the name of the rule, in capital letters.
    pub fn name(self) -> &'static str
        ensures { result.now ≡ name_of self }
    {
        match self {
            Rule::Route => "ROUTE",
            Rule::Method => "METHOD",
            Rule::Token => "TOKEN",
            Rule::Scope => "SCOPE",
            Rule::Form => "FORM",
            Rule::Area => "AREA",
            Rule::Found => "FOUND",
            Rule::Fresh => "FRESH",
            Rule::Manager => "MANAGER",
            Rule::Version => "VERSION",
            Rule::Role => "ROLE",
            Rule::Change => "CHANGE",
            Rule::Ended => "ENDED",
            Rule::Key => "KEY",
            Rule::Limit => "LIMIT",
            Rule::Subscription => "SUBSCRIPTION",
            Rule::Depended => "DEPENDED",
        }
    }

    /// Returns the HTTP status of a denial by the rule (RFC 9110).
    pub fn status(self) -> u16
        ensures { result ≡ status_of self }
    {
        match self {
            Rule::Route | Rule::Found => 404,
            Rule::Method => 405,
            Rule::Token => 401,
            Rule::Scope | Rule::Manager | Rule::Role => 403,
            Rule::Form | Rule::Change | Rule::Ended | Rule::Subscription => 400,
            Rule::Area => 413,
            Rule::Fresh | Rule::Version | Rule::Key | Rule::Depended => 409,
            Rule::Limit => 503,
        }
    }
}
