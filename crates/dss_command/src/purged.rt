//! The counts of a purge.
ghost use Rattle.std.specs.Prelude.{◌≡◌, fold};
ghost use Rattle.dss_command.specs.PurgeCounts.{nothing, with_one};

use entity_core::nature::Kind;
use entity_purge::purge_item::PurgeItem;

/// The number of purged items, by kind.
#[derive(Clone, Copy, Debug, PartialEq, Eq)]
pub struct PurgeCounts {
    /// The number of intents.
    pub intents: u64,
    /// The number of constraints.
    pub constraints: u64,
    /// The number of subscriptions.
    pub subscriptions: u64,
}

impl PurgeCounts {
    /// Returns counts of zero.
    pub fn zero() -> PurgeCounts
        ensures { result ≡ nothing }
    {
        PurgeCounts {
            intents: 0,
            constraints: 0,
            subscriptions: 0,
        }
    }

    // Returns the counts plus one more item.
    fn with_one(self, gone: PurgeItem) -> PurgeCounts
        ensures { result ≡ with_one self gone }
    {
        match gone {
            PurgeItem::Entity(Kind::Intent, _) => PurgeCounts {
                intents: self.intents.saturating_add(1),
                ..self
            },
            PurgeItem::Entity(Kind::Constraint, _) => PurgeCounts {
                constraints: self.constraints.saturating_add(1),
                ..self
            },
            PurgeItem::Subscription(_) => PurgeCounts {
                subscriptions: self.subscriptions.saturating_add(1),
                ..self
            },
        }
    }

    /// Returns the counts plus these items. A count saturates at the maximum 64-bit number.
    pub fn with(self, gone: &[PurgeItem]) -> PurgeCounts
        ensures { result ≡ fold with_one self gone.now }
    {
        let mut purged = self;
        for one in gone {
            purged = purged.with_one(*one);
        }
        purged
    }
}
