//! The acts of an entry.
ghost use Rattle.std.specs.Prelude.{◌≡◌, false, true, IfOk, OnOk};
ghost use Rattle.service_calls.specs.Held.{Stays, is_shut};
ghost use Rattle.service_step.specs.Step.{IsDoneOrDenied};
ghost use Rattle.pool_core.specs.Acts.{makes_all};
ghost use Rattle.pool_core.specs.Purging.{Keeps};
ghost use Rattle.pool_entry.specs.Acts.{acts_of, acts_read};
ghost use Rattle.pool_follow.specs.Acts.{DoesActs};

use crate::follow_fault::FollowFault;
use policy_core::call::Call;
use pool_core::purge::purge_all;
use pool_entry::batch_fault::ReadError;
use pool_entry::entry::{EntryActs, entry_acts};
use service_calls::service::Service;
use service_step::reply::Reply;
use space_core::purge_ended::PurgeEnded;
use space_core::space::Space;
use std::alloc::Global;
use wire_route::routes::Routes;

// Returns true if a reply says what the policy says.
fn is_final(reply: &Reply) -> bool
    ensures { result ≡ true → IsDoneOrDenied reply.now }
{
    match reply {
        Reply::Done(_) | Reply::Denied(_, _) => true,
        Reply::Fault | Reply::Stopped => false,
    }
}

// Returns the acts that the bytes of an entry represent.
fn acts_in(alloc: Global, routes: &Routes, bytes: &[u8]) -> Result<EntryActs, FollowFault>
    ensures { IfOk result (λ acts. acts_read acts ≡ acts_of bytes.now) }
{
    match entry_acts(alloc, routes, bytes) {
        Ok(acts) => Ok(acts),
        Err(ReadError::Fault(_)) => Ok(EntryActs::Calls(Vec::new(alloc))),
        Err(ReadError::Memory) => Err(FollowFault::Memory),
    }
}

// Makes calls in order, up to the first that fails.
fn make_all<S: Space + Drop>(
    service: &mut Service<S>,
    alloc: Global,
    calls: &[(u64, Call)],
) -> Result<(), FollowFault>
    ensures stays { Stays S.Space service.old service.new }
    ensures done { is_shut service.old ≡ false → OnOk result
        (DoesActs S.Space (makes_all calls.now) service.old service.new) }
{
    for timed in calls {
        let reply = service.call(alloc, timed.0, &timed.1);
        if !is_final(&reply) {
            return Err(FollowFault::Space);
        }
    }
    Ok(())
}

// Does acts in order, up to the first that fails.
fn do_all<S: PurgeEnded + Drop>(
    service: &mut Service<S>,
    alloc: Global,
    acts: &EntryActs,
) -> Result<(), FollowFault>
    ensures keeps { Keeps S.Space service.old service.new }
    ensures done { is_shut service.old ≡ false → OnOk result
        (DoesActs S.Space (acts_read acts.now) service.old service.new) }
{
    match acts {
        EntryActs::Calls(calls) => make_all(service, alloc, calls.as_slice()),
        EntryActs::Purge(until) => match purge_all(service, *until) {
            Ok(_) => Ok(()),
            Err(_) => Err(FollowFault::Space),
        },
    }
}

/// Does the acts that the bytes of an entry represent. Bytes that represent neither a batch nor a
/// purge have none.
///
/// After an error, the service may have made some of the calls, or a part of the purge.
pub(crate) fn do_acts<S: PurgeEnded + Drop>(
    service: &mut Service<S>,
    alloc: Global,
    routes: &Routes,
    bytes: &[u8],
) -> Result<(), FollowFault>
    ensures keeps { Keeps S.Space service.old service.new }
    ensures done { is_shut service.old ≡ false → OnOk result
        (DoesActs S.Space (acts_of bytes.now) service.old service.new) }
{
    let acts = acts_in(alloc, routes, bytes)?;
    do_all(service, alloc, &acts)
}
