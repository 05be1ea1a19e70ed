//! What a follower knows of the end of its log.
ghost use Rattle.std.specs.Prelude.{◌≡◌};
ghost use Rattle.pool_follow.specs.Parts.{reaches, state_after};

/// What a follower knows of the end of its log.
#[derive(Clone, Copy, Debug, PartialEq, Eq)]
pub(crate) enum EndState {
    /// It has not asked for the end.
    Unasked,
    /// It has asked this question, and the log has not answered.
    Asked(u64),
    /// The log had so many entries after the question.
    Known(u64),
}

impl EndState {
    /// Returns the state after the answer to a question.
    pub(crate) fn after(self, question: u64, count: u64) -> EndState
        ensures { result ≡ state_after question count self }
    {
        match self {
            EndState::Asked(asked) if asked == question => EndState::Known(count),
            state => state,
        }
    }

    /// Returns true if the end is known, and so many entries reach it.
    pub(crate) fn is_reached(self, taken: u64) -> bool
        ensures { result ≡ reaches taken self }
    {
        match self {
            EndState::Known(count) => count <= taken,
            _ => false,
        }
    }
}
