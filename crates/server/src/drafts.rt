//! The drafts of a batch.
use server_base::limits::{DEFERRED_BYTES, MAX_DEFERRED};

/// How many responses were drafted since the last batch, their bytes, and the nanoseconds that
/// their requests took.
#[derive(Clone, Copy, Debug)]
pub(crate) struct Drafts {
    count: usize,
    bytes: usize,
    cost: u64,
}

impl Drafts {
    /// Creates the totals of a batch without drafts.
    pub(crate) fn new() -> Drafts {
        Drafts {
            count: 0,
            bytes: 0,
            cost: 0,
        }
    }

    /// Adds a draft of `bytes` bytes, whose request took `cost` nanoseconds.
    pub(crate) fn add(&mut self, bytes: usize, cost: u64) {
        self.count = self.count.saturating_add(1);
        self.bytes = self.bytes.saturating_add(bytes);
        self.cost = self.cost.saturating_add(cost);
    }

    /// Returns true if the batch has the maximum number of drafts, or their bytes reach the
    /// maximum.
    pub(crate) fn are_enough(&self) -> bool {
        self.count >= MAX_DEFERRED || self.bytes >= DEFERRED_BYTES
    }

    /// Returns the nanoseconds that the requests of the drafts took.
    pub(crate) fn cost(&self) -> u64 {
        self.cost
    }
}
