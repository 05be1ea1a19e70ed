//! The formats of the tables.

/// A format of the tables, the order in which they were created, and for format 2 whether the index
/// on `naming` exists.
///
/// In the old order, which earlier versions created, some indexes precede later tables.
#[derive(Clone, Copy, Debug, PartialEq, Eq)]
pub enum Format {
    /// Format 1: entities and availabilities.
    One,
    /// Format 2 without the index on `naming`, as earlier versions created it.
    TwoUnindexed,
    /// Format 2: adds subscriptions and the references of entities to them.
    Two,
    /// Format 1 in the old order.
    OldOne,
    /// Format 2 without the index on `naming`, in the old order.
    OldTwoUnindexed,
    /// Format 2 in the old order.
    OldTwo,
}
