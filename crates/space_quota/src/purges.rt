//! Purging items and reducing the usage of their USSs.
ghost use Rattle.std.specs.Prelude.{◌≡◌, List, true, Err};
ghost use Rattle.entity_core.specs.Airspace.{Airspace};
ghost use Rattle.entity_purge.specs.PurgeItem.{CanPurgeAll};
ghost use Rattle.entity_purge.specs.declared.purge_item.PurgeItem.{PurgeItem};
ghost use Rattle.space_core.specs.declared.space.SpaceFault.TheVariants.{Unchanged};
ghost use Rattle.space_quota.specs.QuotaSpace.{QuotaModel, QuotaPurgeEffect, quota_model, is_some};

use crate::usage_table::UsageTable;
use crate::uss_usage::usage_purged;
use entity_purge::purge_item::PurgeItem;
use space_core::purge_ended::PurgeEnded;
use space_core::space::SpaceFault;
use space_snapshot::snapshot::{Snapshot, SnapshotSource};

// Returns the fault of a purge if the space has no snapshot: it is broken, or the USSs of the items
// are unknown.
fn without_snapshot<S: PurgeEnded>(space: &mut S, over: &mut u64) -> Result<(), SpaceFault>
    ensures going { (items : List PurgeItem) → QuotaPurgeEffect S.Space
        (quota_model space.old over.old true)
        (quota_model space.new over.new true) items result }
    ensures waits { S.GroupCommit.is_pending space.new ≡ S.GroupCommit.is_pending space.old }
{
    match space.find_ended(0, 0) {
        Ok(_) => {
            *over = over.saturating_add(1);
            Err(SpaceFault::Unchanged)
        }
        Err(fault) => Err(fault),
    }
}

fn subtract_all(tally: &mut UsageTable, shown: &Snapshot<'_>, items: &[PurgeItem]) {
    for thing in items {
        if let Some((manager, size)) = usage_purged(shown, *thing) {
            tally.subtract(manager, size);
        }
    }
}

fn purge_counted<S: PurgeEnded + SnapshotSource>(
    space: &mut S,
    tally: &mut UsageTable,
    over: &mut u64,
    items: &[PurgeItem],
) -> Result<(), SpaceFault>
    requires can { S.Space.is_sound space.old → (a : Airspace) → S.Space.holds space.old a
        → CanPurgeAll items.now a }
    ensures going { QuotaPurgeEffect S.Space (quota_model space.old over.old true)
        (quota_model space.new over.new true) items.now result }
    ensures waits { S.GroupCommit.is_pending space.new ≡ S.GroupCommit.is_pending space.old }
    ensures pending { S.GroupCommit.is_pending space.old ≡ true → (result ≡ Err Unchanged)
        × (S.Space.fixed space.new ≡ S.Space.fixed space.old) }
{
    if space.has_pending() {
        return space.purge(items);
    }
    let Ok(shown) = space.snapshot() else {
        return without_snapshot(space, over);
    };
    subtract_all(tally, &shown, items);
    let answer = space.purge(items);
    match answer {
        Ok(()) => tally.commit(),
        Err(_) => tally.rollback(),
    }
    answer
}

/// Purges these items and reduces the usage of their USSs.
///
/// Returns `Unchanged` if changes are pending. With a usage table, purges nothing if the space has
/// no snapshot.
pub(crate) fn purge_with_quota<S: PurgeEnded + SnapshotSource>(
    space: &mut S,
    tally: &mut Option<UsageTable>,
    over: &mut u64,
    items: &[PurgeItem],
) -> Result<(), SpaceFault>
    requires can { S.Space.is_sound space.old → (a : Airspace) → S.Space.holds space.old a
        → CanPurgeAll items.now a }
    ensures going { QuotaPurgeEffect S.Space (quota_model space.old over.old (is_some tally.old))
        (quota_model space.new over.new (is_some tally.new)) items.now result }
    ensures waits { S.GroupCommit.is_pending space.new ≡ S.GroupCommit.is_pending space.old }
    ensures pending { S.GroupCommit.is_pending space.old ≡ true → (result ≡ Err Unchanged)
        × (S.Space.fixed space.new ≡ S.Space.fixed space.old) }
{
    match tally {
        Some(tally) => purge_counted(space, tally, over, items),
        None => space.purge(items),
    }
}
