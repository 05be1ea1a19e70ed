//! The first call of a service over new tables in memory, and a crash after it.
ghost use Rattle.std.specs.Prelude.{IfOk};
ghost use Rattle.sqlite.specs.Steps.{over_memory};
ghost use Rattle.entity_core.specs.Airspace.{empty_at};
ghost use Rattle.service_recovery.specs.Crash.{LeavesDue};

use entity_core::salt::Salt;
use policy_core::call::Call;
use service_calls::service::Service;
use service_step::reply::Reply;
use space_sql::laws::memory_is_sound;
use space_sql::space::SqlSpace;
use space_sql_open::open_fault::OpenFault;
use sqlite::MemStore;
use std::alloc::Global;

/// Executes a call over new tables in memory, and returns the reply and the space.
///
/// The laws about a crash after a call are for services over a space with a content, while the disk
/// returns what was written. Here both exist: a crash leaves something, and whatever it leaves
/// stores the airspace that is due.
pub fn first_call(
    alloc: Global,
    salt: Salt,
    now: u64,
    call: &Call,
) -> Result<(Reply, SqlSpace<MemStore>), OpenFault>
    ensures { IfOk result (λ made. LeavesDue over_memory salt (empty_at 0) now call.now
        made.0 made.1) }
{
    let mut service = Service::new(SqlSpace::create(alloc)?, salt);
    let reply = service.call(alloc, now, call);
    let space = service.into_space();
    memory_is_sound(&space);
    Ok((reply, space))
}
