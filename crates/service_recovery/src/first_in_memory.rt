//! The first call of a service over an empty airspace in memory.
ghost use Rattle.std.specs.Prelude.{◌≡◌, false};
ghost use Rattle.entity_core.specs.Airspace.{empty_at};
ghost use Rattle.service_calls.specs.Held.{space_of};
ghost use Rattle.service_step.specs.Reply.{is_stopped};
ghost use Rattle.service_calls.specs.Service.{Leaves, MayFail};

use entity_core::salt::Salt;
use policy_core::call::Call;
use service_calls::service::Service;
use service_step::reply::Reply;
use space_core::space::Space;
use space_memory::memory::MemorySpace;
use std::alloc::Global;

/// Executes a call over a new, empty airspace, and returns the reply and the service.
///
/// The contracts of a service are for any space with a content. Here both exist: the reply and the
/// content are the policy's, or the reply is `Fault` and the airspace is still empty. Such a space
/// has failed no call before. So for a call that breaks one of P7 to P13, P16 or P17, `Fault`
/// occurs only if the space fails now.
pub fn first_call_in_memory(
    alloc: Global,
    salt: Salt,
    now: u64,
    call: &Call,
) -> (Reply, Service<MemorySpace>)
    ensures leaves { Leaves ⟦<MemorySpace as Space>⟧ salt (empty_at 0) now call.now
        result.0 (space_of result.1) }
    ensures fails { MayFail (empty_at 0) now call.now result.0 0
        (⟦<MemorySpace as Space>⟧.refusals (space_of result.1)) }
    ensures goes_on { is_stopped result.0 ≡ false }
{
    let mut service = Service::new(MemorySpace::new(alloc), salt);
    let reply = service.call(alloc, now, call);
    (reply, service)
}
