//! The reasons for a response without a reply.

/// The reason why no reply to a request is known.
#[derive(Clone, Copy, Debug, PartialEq, Eq)]
pub enum Unavailable {
    /// The call was not made.
    Unreachable,
    /// The call may have been made.
    Unknown,
    /// The call was not made, since the service may not act for the USS.
    Unassigned,
}

impl Unavailable {
    ghost use Rattle.std.specs.Prelude.{◌≡◌};
    ghost use Rattle.wire_http.specs.Text.{unavailable_body};

    // Returns the body of the response.
    pub(crate) fn body(self) -> &'static str
        ensures { result.now ≡ unavailable_body self }
    {
        match self {
            Unavailable::Unreachable => "{\"message\":\"unreachable\"}",
            Unavailable::Unknown => "{\"message\":\"unknown\"}",
            Unavailable::Unassigned => "{\"message\":\"unassigned\"}",
        }
    }
}
