//! Effects of the operations, prepared before anything is changed.
ghost use Rattle.std.specs.Prelude.{◌≡◌, true};
ghost use Rattle.policy_core.specs.Call.{is_about_sub};
ghost use Rattle.service_step.specs.Admitted.{IsAdmitted};
ghost use Rattle.service_step.specs.Looks.{LooksUp, IsReady, Prepares};

use crate::admitted::Admitted;
use crate::availability_effects::{prepare_read_availability, prepare_set_availability};
use crate::call_fault::CallFault;
use crate::entity_effects::{
    next_serial, prepare_create, prepare_delete, prepare_query, prepare_read, prepare_update,
};
use crate::look_up::OwnedFacts;
use crate::prepared::Prepared;
use crate::sub_effects::{
    prepare_create_sub, prepare_delete_sub, prepare_query_subs, prepare_read_sub,
    prepare_update_sub,
};
use policy_core::call::Operation;
use space_core::space::Space;
use std::alloc::Global;

fn is_about_sub(op: &Operation) -> bool
    ensures { result ≡ is_about_sub op.now }
{
    matches!(
        op,
        Operation::QuerySub(_)
            | Operation::ReadSub(_)
            | Operation::CreateSub(_, _)
            | Operation::UpdateSub(_, _, _)
            | Operation::DeleteSub(_, _)
    )
}

// Prepares an operation on subscriptions.
fn prepare_sub<S: Space>(
    space: &mut S,
    alloc: Global,
    admitted: &Admitted<'_>,
    facts: &OwnedFacts,
) -> Result<Prepared, CallFault>
    requires admitted { IsAdmitted admitted.now }
    requires ready { IsReady admitted.now.call.now.op facts.now.found facts.now.sub }
    requires about { is_about_sub admitted.now.call.now.op ≡ true }
    ensures { LooksUp S.Space space.old space.new result (Prepares admitted.now facts.now) }
{
    let serial = next_serial(facts.serial);
    let salt = admitted.salt;
    let uss = &admitted.caller.uss;
    match &admitted.call.op {
        Operation::QuerySub(area) => prepare_query_subs(space, alloc, uss, area),
        Operation::ReadSub(_) => {
            let Some(sub) = &facts.sub else {
                unreachable!();
            };
            prepare_read_sub(space, alloc, sub)
        }
        Operation::CreateSub(id, put) => prepare_create_sub(
            space, alloc, salt, serial, uss, *id, put,
        ),
        Operation::UpdateSub(id, _, put) => {
            let Some(sub) = &facts.sub else {
                unreachable!();
            };
            prepare_update_sub(space, alloc, salt, serial, uss, *id, put, sub)
        }
        Operation::DeleteSub(id, _) => {
            let Some(sub) = &facts.sub else {
                unreachable!();
            };
            prepare_delete_sub(space, alloc, *id, sub)
        }
        _ => unreachable!(),
    }
}

/// Prepares the change and the answer of a call that breaks no rule.
///
/// Changes nothing yet. Allocates all that the answer holds.
pub fn prepare<S: Space>(
    space: &mut S,
    alloc: Global,
    admitted: &Admitted<'_>,
    facts: &OwnedFacts,
) -> Result<Prepared, CallFault>
    requires admitted { IsAdmitted admitted.now }
    requires ready { IsReady admitted.now.call.now.op facts.now.found facts.now.sub }
    ensures { LooksUp S.Space space.old space.new result (Prepares admitted.now facts.now) }
{
    if is_about_sub(&admitted.call.op) {
        return prepare_sub(space, alloc, admitted, facts);
    }
    let serial = next_serial(facts.serial);
    let salt = admitted.salt;
    let uss = &admitted.caller.uss;
    match &admitted.call.op {
        Operation::Query(kind, area) => prepare_query(space, alloc, uss, *kind, area),
        Operation::Read(_, _) => {
            let Some(entity) = &facts.found else {
                unreachable!();
            };
            prepare_read(space, alloc, uss, entity)
        }
        Operation::Create(id, put) => prepare_create(space, alloc, salt, serial, uss, *id, put),
        Operation::Update(id, _, put) => {
            let Some(entity) = &facts.found else {
                unreachable!();
            };
            prepare_update(space, alloc, salt, serial, uss, *id, put, entity)
        }
        Operation::Delete(kind, id, _) => {
            let Some(entity) = &facts.found else {
                unreachable!();
            };
            prepare_delete(space, alloc, uss, *kind, *id, entity)
        }
        Operation::ReadAvail(named) => Ok(prepare_read_availability(alloc, named, &facts.stated)?),
        Operation::SetAvail(named, _, availability) => {
            Ok(prepare_set_availability(alloc, salt, serial, named, *availability)?)
        }
        _ => unreachable!(),
    }
}
