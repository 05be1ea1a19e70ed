//! The trait of storage backends that purge items.
ghost use Rattle.entity_purge.specs.PurgeItem.{CanPurgeAll, without_items};
ghost use Rattle.space_core.specs.Calls.{CallChanges, CallReportsFault, ForEachHeld};

use crate::space::{Space, SpaceFault};
use entity_purge::purge_item::PurgeItem;

/// A storage backend that purges items.
///
/// A purge is not a change of the service: the serial stays, and no subscription is notified.
pub trait Purge: Space {
    /// Purges all items in order, or none.
    ///
    /// Each item must exist in what the previous ones leave, and no intent may reference it. The
    /// visible airspace, and the one that a crash leaves, is the airspace before the purge or after
    /// it.
    fn purge(&mut self, gone: &[PurgeItem]) -> Result<(), SpaceFault>
        requires can { ForEachHeld Self.Space self.old (CanPurgeAll gone.now) }
        ensures tells { CallReportsFault Self.Space self.old self.new result }
        ensures changes { CallChanges Self.Space self.old self.new result
            (without_items gone.now) };
}
