//! The formats that are upgraded when a database is opened.

/// A format that is upgraded to the current one.
#[derive(Clone, Copy, Debug, PartialEq, Eq)]
pub enum OldFormat {
    /// Format 1.
    One,
    /// Format 2 without the index on `naming`.
    TwoUnindexed,
    /// Format 1 in the old order.
    OldOne,
    /// Format 2 without the index on `naming`, in the old order.
    OldTwoUnindexed,
    /// Format 2 in the old order.
    OldTwo,
}
