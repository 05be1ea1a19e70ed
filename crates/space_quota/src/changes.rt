//! Applying changes within the quota of their USS.
ghost use Rattle.std.specs.Prelude.{◌≡◌, true};
ghost use Rattle.entity_core.specs.Airspace.{Airspace};
ghost use Rattle.space_core.specs.Space.{Fits, changed};
ghost use Rattle.space_quota.specs.QuotaSpace.{Applying, QuotaModel, quota_model, is_some};

use crate::usage_table::UsageTable;
use crate::uss_usage::{item_of, usage_at};
use entity_core::entity_id::EntityId;
use space_core::group_commit::GroupCommit;
use space_core::space::{Change, SpaceFault};

fn apply_counted<S: GroupCommit>(
    space: &mut S,
    tally: &mut UsageTable,
    over: &mut u64,
    change: Change,
    notify: &[EntityId],
) -> Result<(), SpaceFault>
    requires fits { S.is_sound space.old → (a : Airspace) → S.holds space.old a
        → Fits change notify.now a }
    ensures { Applying S.Space (quota_model space.old over.old true)
        (quota_model space.new over.new true)
        change notify.now result }
{
    let Some(place) = item_of(&change) else {
        return space.apply(change, notify);
    };
    let replaced = usage_at(space, place)?;
    let Some(step) = tally.delta(&change, replaced) else {
        *over = over.saturating_add(1);
        return Err(SpaceFault::Unchanged);
    };
    space.apply(change, notify)?;
    tally.apply(step, space.has_pending());
    Ok(())
}

/// Applies a change if its USS stays within its quota. Without a usage table, the space applies
/// every change.
pub(crate) fn apply<S: GroupCommit>(
    space: &mut S,
    tally: &mut Option<UsageTable>,
    over: &mut u64,
    change: Change,
    notify: &[EntityId],
) -> Result<(), SpaceFault>
    requires fits { S.is_sound space.old → (a : Airspace) → S.holds space.old a
        → Fits change notify.now a }
    ensures applying { Applying S.Space (quota_model space.old over.old (is_some tally.old))
        (quota_model space.new over.new (is_some tally.new)) change notify.now result }
{
    match tally {
        Some(tally) => apply_counted(space, tally, over, change, notify),
        None => space.apply(change, notify),
    }
}
