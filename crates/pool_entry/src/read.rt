//! The batch or the purge that the bytes of an entry represent.
ghost use Rattle.std.specs.Prelude.{◌≡◌, List, Ok, IfOk};
ghost use Rattle.pool_entry.specs.declared.pool_call.PoolCall.{PoolCall};
ghost use Rattle.pool_entry.specs.Spelling.{SpellsBatch, header};
ghost use Rattle.pool_entry.specs.Reading.{Gives, batch_in, call_at, calls_at, entry_in, form_of, until_in};

use crate::batch_fault::{BatchFault, Field, ReadError};
use crate::bytes::Bytes;
use crate::limits::{MAX_BYTES, MAX_CALLS};
use crate::pool_call::PoolCall;
use crate::read_field::{counted_at, number_at, path_in, scopes_at, uss_in};
use crate::write::{HEADER, PURGE_HEADER};
use policy_core::scope::Caller;
use std::alloc::Global;

/// What the bytes of an entry represent.
#[derive(Debug, Drop)]
pub enum EntryContent {
    /// A batch of these calls.
    Batch(Vec<PoolCall>),
    /// A purge up to this time, in Unix seconds.
    Purge(u64),
}

// Reads the call at the front, which has this index.
#[tactic(auto, unfolding(crate::specs::Reading::call_at))]
fn call_at(alloc: Global, index: usize, bytes: &[u8]) -> Result<(PoolCall, &[u8]), ReadError>
    ensures { Gives (λ x. (x.0, x.1.now)) result (call_at index bytes.now) }
{
    let (moment, rest) = number_at(BatchFault::Call(index, Field::Moment), b' ', bytes)?;
    let (name, rest) = counted_at(BatchFault::Call(index, Field::Uss), b' ', rest)?;
    let uss = uss_in(alloc, BatchFault::Call(index, Field::Uss), name)?;
    let (scopes, rest) = match scopes_at(BatchFault::Call(index, Field::Scopes), rest) {
        Ok(found) => found,
        Err(e) => return Err(e),
    };
    let (method, rest) = counted_at(BatchFault::Call(index, Field::Method), b' ', rest)?;
    let (target, rest) = counted_at(BatchFault::Call(index, Field::Path), b' ', rest)?;
    let path = path_in(alloc, BatchFault::Call(index, Field::Path), target)?;
    let (body, rest) = counted_at(BatchFault::Call(index, Field::Body), b'\n', rest)?;
    let method = Bytes::copy(alloc, method)?;
    let body = Bytes::copy(alloc, body)?;
    let caller = Caller { uss, scopes };
    Ok((
        PoolCall {
            moment,
            caller,
            method,
            path,
            body,
        },
        rest,
    ))
}

// Reads calls up to the end of the bytes.
fn calls_at(alloc: Global, bytes: &[u8]) -> Result<Vec<PoolCall>, ReadError>
    ensures { Gives (λ v. v.items) result (calls_at MAX_CALLS 0 bytes.now) }
{
    let mut calls = Vec::new(alloc);
    let mut rest = bytes;
    for index in 0..MAX_CALLS {
        if rest.is_empty() {
            return Ok(calls);
        }
        let (call, after) = match call_at(alloc, index, rest) {
            Ok(found) => found,
            Err(e) => return Err(e),
        };
        calls.push(call)?;
        rest = after;
    }
    if !rest.is_empty() {
        return Err(ReadError::Fault(BatchFault::TooMany));
    }
    Ok(calls)
}

#[tactic(auto, unfolding(crate::specs::Reading::batch_in))]
fn batch_in(alloc: Global, bytes: &[u8]) -> Result<Vec<PoolCall>, ReadError>
    ensures { Gives (λ v. v.items) result (batch_in bytes.now) }
{
    if bytes.len() > MAX_BYTES {
        return Err(ReadError::Fault(BatchFault::TooLong));
    }
    let Some(rest) = bytes.strip_prefix(HEADER) else {
        return Err(ReadError::Fault(BatchFault::Header));
    };
    calls_at(alloc, rest)
}

/// Reads the calls that the bytes of an entry represent.
///
/// Returns a fault exactly if they represent no batch: the first one from the left. If memory runs
/// out, returns `Memory`, and never another list.
pub fn read_batch(alloc: Global, bytes: &[u8]) -> Result<Vec<PoolCall>, ReadError>
    ensures found { IfOk result (λ calls. SpellsBatch bytes.now calls.items) }
    ensures only { (calls : List PoolCall) → SpellsBatch bytes.now calls
        → Gives (λ v. v.items) result (Ok calls) }
    ensures exact { Gives (λ v. v.items) result (batch_in bytes.now) }
{
    batch_in(alloc, bytes)
}

// Reads the time that is all of the bytes, with a line feed.
#[tactic(auto, unfolding(crate::specs::Reading::until_in))]
fn until_in(bytes: &[u8]) -> Result<u64, ReadError>
    ensures { Gives (λ n. n) result (until_in bytes.now) }
{
    let (until, rest) = number_at(BatchFault::Until, b'\n', bytes)?;
    if rest.is_empty() {
        Ok(until)
    } else {
        Err(ReadError::Fault(BatchFault::Until))
    }
}

/// Reads the batch or the purge that the bytes of an entry represent.
///
/// Returns a fault exactly if they represent none. If memory runs out, returns `Memory`.
#[tactic(auto, unfolding(crate::specs::Reading::entry_in))]
pub fn read_entry(alloc: Global, bytes: &[u8]) -> Result<EntryContent, ReadError>
    ensures { Gives (λ content. form_of content) result (entry_in bytes.now) }
{
    let Some(rest) = bytes.strip_prefix(PURGE_HEADER) else {
        let calls = read_batch(alloc, bytes)?;
        return Ok(EntryContent::Batch(calls));
    };
    let until = until_in(rest)?;
    Ok(EntryContent::Purge(until))
}
