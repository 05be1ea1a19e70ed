//! The replies of a service in memory to a list of calls.
ghost use Rattle.std.specs.Prelude.{IfOk};
ghost use Rattle.test_libraries.specs.Told.{ToldAfter};

use entity_core::salt::Salt;
use policy_core::call::Call;
use service_calls::service::Service;
use service_step::reply::Reply;
use space_memory::memory::MemorySpace;
use std::alloc::{AllocError, Global};

/// Returns the replies to a list of calls from an empty airspace on, each with its time, and to one
/// more call after them.
pub fn told_after(
    alloc: Global,
    salt: Salt,
    calls: &[(u64, Call)],
    now: u64,
    call: &Call,
) -> Result<(Vec<Reply>, Reply), AllocError>
    ensures { IfOk result (λ told. ToldAfter salt calls.now call.now told.0.items told.1) }
{
    let mut service = Service::new(MemorySpace::new(alloc), salt);
    let replies = service.run(alloc, calls)?;
    let reply = service.call(alloc, now, call);
    Ok((replies, reply))
}
