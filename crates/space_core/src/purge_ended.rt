//! The trait of storage backends that find and purge what has ended.
ghost use Rattle.std.specs.Prelude.{◌≡◌, true, Err};
ghost use Rattle.entity_purge.specs.PurgeItem.{CanPurgeAll, IsPurgeChunk, without_items};
ghost use Rattle.space_core.specs.Calls.{CallChanges, CallReads, CallReportsFault, ForEachHeld};
ghost use Rattle.space_core.specs.declared.space.SpaceFault.TheVariants.{Unchanged};

use crate::group_commit::GroupCommit;
use crate::space::SpaceFault;
use entity_purge::purge_item::PurgeItem;

/// A storage backend that purges what has ended in chunks, while no change is pending.
pub trait PurgeEnded: GroupCommit {
    /// Returns some items that a purge up to a time removes, at most `most` of them.
    ///
    /// Returns no item only if nothing remains to purge or `most` is 0. Reads as any other call
    /// does. Returns `Unchanged` if the space cannot tell what has ended, for example without an
    /// in-memory mirror.
    fn find_ended(&mut self, until: u64, most: usize) -> Result<Vec<PurgeItem>, SpaceFault>
        ensures fixed { Self.Space.fixed self.new ≡ Self.Space.fixed self.old }
        ensures tells { CallReportsFault Self.Space self.old self.new result }
        ensures reads { CallReads Self.Space self.old self.new result
            (λ a gone. IsPurgeChunk until most gone.items a) }
        ensures waits { Self.GroupCommit.is_pending self.new
            ≡ Self.GroupCommit.is_pending self.old };

    /// Purges all items in order, or none.
    ///
    /// Each item must exist in what the previous ones leave, and no intent may reference it. The
    /// serial stays, and no subscription is notified. Returns `Unchanged` if changes are pending,
    /// and leaves the durable part as it is. Otherwise the result is durable at once.
    fn purge(&mut self, gone: &[PurgeItem]) -> Result<(), SpaceFault>
        requires can { ForEachHeld Self.Space self.old (CanPurgeAll gone.now) }
        ensures tells { CallReportsFault Self.Space self.old self.new result }
        ensures changes { CallChanges Self.Space self.old self.new result (without_items gone.now) }
        ensures waits { Self.GroupCommit.is_pending self.new
            ≡ Self.GroupCommit.is_pending self.old }
        ensures pending { Self.GroupCommit.is_pending self.old ≡ true → (result ≡ Err Unchanged)
            × (Self.Space.fixed self.new ≡ Self.Space.fixed self.old) };
}
