//! A whole purge by a service.
ghost use Rattle.std.specs.Prelude.{◌≡◌, false, OnOk};
ghost use Rattle.service_calls.specs.Held.{is_shut};
ghost use Rattle.pool_core.specs.Purging.{Keeps, PurgesAll};

use service_calls::service::Service;
use space_core::purge_ended::PurgeEnded;
use space_core::space::SpaceFault;

// The maximum number of items purged at once.
const CHUNK: usize = 256;

// More chunks than any space has.
const MAX_CHUNKS: u64 = 4_294_967_296;

/// Commits pending changes, and purges all that has ended by a time (Unix seconds), chunk by chunk.
/// Returns how many items that was.
///
/// Keeps subscriptions that an intent still references. After a fault, the chunks before it stand.
pub fn purge_all<S: PurgeEnded + Drop>(
    service: &mut Service<S>,
    until: u64,
) -> Result<u64, SpaceFault>
    ensures keeps { Keeps S.Space service.old service.new }
    ensures purged { is_shut service.old ≡ false → OnOk result
        (PurgesAll S.Space until service.old service.new) }
{
    service.commit()?;
    let mut total: u64 = 0;
    for _chunk in 0..MAX_CHUNKS {
        let count = service.purge(until, CHUNK)?;
        if count == 0 {
            return Ok(total);
        }
        total = total.saturating_add(count as u64);
    }
    Err(SpaceFault::Unchanged)
}
