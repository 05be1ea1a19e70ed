//! The acts that an entry represents: calls, or a purge.
ghost use Rattle.std.specs.Prelude.{◌≡◌, map, IfOk, IfErr};
ghost use Rattle.pool_entry.specs.Acts.{IsEntryError, acts_of, acts_read};
ghost use Rattle.pool_entry.specs.Calls.{operation_of, timed_call};

use crate::batch_fault::ReadError;
use crate::pool_call::PoolCall;
use crate::read::{EntryContent, read_entry};
use policy_core::call::{Call, Operation};
use std::alloc::{AllocError, Global};
use wire_operation::operation::read_operation;
use wire_route::routes::Routes;

/// What an entry makes every instance do.
#[derive(Debug, Drop)]
pub enum EntryActs {
    /// These calls, each with its time.
    Calls(Vec<(u64, Call)>),
    /// A purge up to this time, in Unix seconds.
    Purge(u64),
}

// Returns the operation that a path, a method and a body give.
fn operation_of(
    alloc: Global,
    routes: &Routes,
    path: &str,
    method: &[u8],
    body: &[u8],
) -> Result<Operation, AllocError>
    ensures { IfOk result (λ op. op ≡ operation_of path.now method.now body.now) }
{
    read_operation(alloc, routes, path, method, body)
}

// Returns the call of an entry, with its time.
fn timed_call(alloc: Global, routes: &Routes, call: PoolCall) -> Result<(u64, Call), AllocError>
    ensures { IfOk result (λ made. made ≡ timed_call call) }
{
    let PoolCall {
        moment,
        caller,
        method,
        path,
        body,
    } = call;
    let op = operation_of(
        alloc,
        routes,
        path.text(),
        method.as_slice(),
        body.as_slice(),
    )?;
    let caller = Some(caller);
    Ok((moment, Call { caller, op }))
}

// Returns the calls of a batch.
fn timed_calls(
    alloc: Global,
    routes: &Routes,
    batch: Vec<PoolCall>,
) -> Result<Vec<(u64, Call)>, AllocError>
    ensures { IfOk result (λ calls. calls.items ≡ map timed_call batch.items) }
{
    let mut calls = Vec::new(alloc);
    for call in batch {
        let made = timed_call(alloc, routes, call)?;
        calls.push(made)?;
    }
    Ok(calls)
}

/// Returns the acts that the bytes of an entry represent.
///
/// Returns a fault if they represent neither a batch nor a purge. The entry then has no acts.
/// Returns `Memory` if memory runs out: the caller then must not go on with the next entry, since
/// other instances have done the acts of this one.
pub fn entry_acts(alloc: Global, routes: &Routes, bytes: &[u8]) -> Result<EntryActs, ReadError>
    ensures acts { IfOk result (λ acts. acts_read acts ≡ acts_of bytes.now) }
    ensures errors { IfErr result (λ e. IsEntryError e bytes.now) }
{
    match read_entry(alloc, bytes)? {
        EntryContent::Batch(batch) => {
            let calls = timed_calls(alloc, routes, batch)?;
            Ok(EntryActs::Calls(calls))
        }
        EntryContent::Purge(until) => Ok(EntryActs::Purge(until)),
    }
}
