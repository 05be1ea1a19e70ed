//! The purge of a space.
ghost use Rattle.std.specs.Prelude.{◌≡◌};
ghost use Rattle.dss_command.specs.Purging.{PurgesSpace};

use crate::purged::PurgeCounts;
use entity_purge::laws::{chunks_make_purges, purged_items_are_partly_purged};
use space_core::purge_ended::PurgeEnded;
use space_core::space::SpaceFault;

// The maximum number of items purged at once.
const CHUNK: usize = 256;

// More chunks than any space has.
const MAX_CHUNKS: u64 = 4_294_967_296;

/// Purges what ended at or before `until`, chunk by chunk, and returns how much that was.
///
/// Keeps subscriptions that an intent still references. After a fault, the chunks before it stand.
pub fn purge_space<S: PurgeEnded + Drop>(
    space: &mut S,
    until: u64,
) -> Result<PurgeCounts, SpaceFault>
    ensures purged { PurgesSpace S.Space until space.old space.new result }
    ensures waits { S.GroupCommit.is_pending space.new ≡ S.GroupCommit.is_pending space.old }
{
    purged_items_are_partly_purged();
    chunks_make_purges();
    let mut purged = PurgeCounts::zero();
    for _chunk in 0..MAX_CHUNKS {
        let gone = space.find_ended(until, CHUNK)?;
        if gone.is_empty() {
            return Ok(purged);
        }
        space.purge(gone.as_slice())?;
        purged = purged.with(gone.as_slice());
    }
    Err(SpaceFault::Unchanged)
}
