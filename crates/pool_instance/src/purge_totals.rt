//! The purges that an instance took.

/// The purges that an instance took from the log.
#[derive(Clone, Copy, Debug, PartialEq, Eq)]
pub struct PurgeTotals {
    /// How many intents, constraints and subscriptions they removed.
    pub removed: u64,
    /// The latest end of a purge, in Unix seconds.
    pub until: u64,
}

impl PurgeTotals {
    /// Returns the totals of no purge.
    pub fn none() -> PurgeTotals {
        PurgeTotals {
            removed: 0,
            until: 0,
        }
    }

    /// Returns the totals of one purge.
    pub(crate) fn one(until: u64, removed: u64) -> PurgeTotals {
        PurgeTotals { removed, until }
    }

    /// Returns the totals of these purges and of later ones.
    pub(crate) fn with(self, later: PurgeTotals) -> PurgeTotals {
        PurgeTotals {
            removed: self.removed.saturating_add(later.removed),
            until: self.until.max(later.until),
        }
    }
}
