//! What a process says of the changes that it was given.

/// The maximum number of changes behind a link at which it is compared.
pub const MAX_BEHIND: u64 = 10_000;

/// The number of changes that a process was given, and the digest of its chain over them.
#[derive(Clone, Copy, Debug, PartialEq, Eq)]
pub struct Link {
    pub count: u64,
    pub digest: [u8; 32],
}

/// A link, compared with the own chain.
#[derive(Clone, Copy, Debug, PartialEq, Eq)]
pub enum Judgement {
    /// The own chain has this digest after so many changes.
    Same,
    /// The own chain has another digest after so many changes, which this is.
    Differs([u8; 32]),
    /// The link is too many changes behind, so it is not compared.
    Old,
    /// The own chain has fewer changes.
    Ahead,
}
