//! What the service replies to a request that waits.
ghost use Rattle.std.specs.Prelude.{◌≡◌, ◌⊎◌, false, Some, MatchOption, IfSome};
ghost use Rattle.pool_core.specs.Unlogged.{reads};
ghost use Rattle.service_calls.specs.Held.{Stays};
ghost use Rattle.service_calls.specs.Run.{IsAllowed, IsReplyTo};
ghost use Rattle.pool_instance.specs.Evaluate.{ChangesNothing, IsOffered, LooksOnly, is_denial};

use crate::requests::reads;
use policy_core::call::Call;
use service_calls::service::Service;
use service_step::reply::Reply;
use space_core::space::Space;
use std::alloc::Global;

/// Returns true if a request is to wait for the end of the log: a reading, or a change that is
/// denied now. Returns `None` if the service stopped.
///
/// A change that is denied is not offered: its denial is a reply after the end of the log.
pub(crate) fn waits_for_end<S: Space + Drop>(
    service: &mut Service<S>,
    alloc: Global,
    now: u64,
    call: &Call,
) -> Option<bool>
    ensures looks { MatchOption result (Stays S.Space service.old service.new)
        (λ _. LooksOnly S.Space service.old service.new) }
    ensures offered { result ≡ Some false
        → IsOffered S.Space service.old service.new now call.now }
{
    if reads(&call.op) {
        return Some(true);
    }
    let Some(reply) = service.deny(alloc, now, call) else {
        return Some(false);
    };
    if reply.is_stopped() {
        return None;
    }
    Some(is_denial(&reply))
}

fn is_denial(reply: &Reply) -> bool
    ensures { result ≡ is_denial reply.now }
{
    matches!(reply, Reply::Denied(_, _))
}

/// Replies to a call that only reads, or that breaks a rule. Returns `None` for any other call, and
/// does not make it.
pub(crate) fn reply_after_end<S: Space + Drop>(
    service: &mut Service<S>,
    alloc: Global,
    now: u64,
    call: &Call,
) -> Option<Reply>
    ensures reply { MatchOption result (IsAllowed S.Space service.old service.new now call.now)
        (λ reply. IsReplyTo S.Space service.old service.new now call.now reply) }
    ensures plain { IfSome result (ChangesNothing call.now) }
{
    if reads(&call.op) {
        return Some(service.call(alloc, now, call));
    }
    service.deny(alloc, now, call)
}
