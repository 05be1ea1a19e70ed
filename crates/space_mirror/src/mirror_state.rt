//! The state of the mirror apart from its content.

/// The work that the next `commit` has to do besides the pending changes.
#[derive(Clone, Copy, Debug)]
pub(crate) enum MirrorState {
    /// None: the mirror stays, or there is none for good.
    Steady,
    /// The mirror ran out of memory for a change and is dropped for good.
    Full,
    /// The mirror was dropped because its batch failed, and the store has applied no change since.
    Dropped,
    /// The mirror was dropped because its batch failed, and the store has applied a change since.
    /// The next `commit` rebuilds the mirror.
    RebuildDue,
}
