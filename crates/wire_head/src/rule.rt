//! The protocol rules.

/// A protocol rule that the head of a request can break, in the order of evaluation.
#[derive(Clone, Copy, Debug, PartialEq, Eq)]
pub enum WireRule {
    /// The head must follow the grammar.
    Head,
    /// The head must have at most 8,192 bytes and 64 fields.
    HeadSize,
    /// The head must have no field Transfer-Encoding, which is not supported.
    Transfer,
    /// The length of the body must be given at most once, and as a number.
    Length,
    /// The body must have at most 1,048,576 bytes.
    BodySize,
}

impl WireRule {
    ghost use Rattle.std.specs.Prelude.{◌≡◌};
    ghost use Rattle.wire_head.specs.Rule.{number_of, name_of, status_of};

    /// Returns the number of the rule, from 1 to 5.
    pub fn number(self) -> u8
        ensures { result ≡ number_of self }
    {
        match self {
            WireRule::Head => 1,
            WireRule::HeadSize => 2,
            WireRule::Transfer => 3,
            WireRule::Length => 4,
            WireRule::BodySize => 5,
        }
    }

    /// Returns the name of the rule, as a response shows it.
    pub fn name(self) -> &'static str
        ensures { result.now ≡ name_of self }
    {
        match self {
            WireRule::Head => "HEAD",
            WireRule::HeadSize => "HEADSIZE",
            WireRule::Transfer => "TRANSFER",
            WireRule::Length => "LENGTH",
            WireRule::BodySize => "BODYSIZE",
        }
    }

    /// Returns the HTTP status of the response.
    pub fn status(self) -> u16
        ensures { result ≡ status_of self }
    {
        match self {
            WireRule::Head => 400,
            WireRule::HeadSize => 431,
            WireRule::Transfer => 501,
            WireRule::Length => 400,
            WireRule::BodySize => 413,
        }
    }
}
