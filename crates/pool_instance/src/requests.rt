//! Lists of requests, and the acts of an entry.
ghost use Rattle.std.specs.Prelude.{◌≡◌, ◌==◌, ◌∷◌, ◌++◌, [], All, false, true, IfOk, IfSome, OnOk, length, map, position};
ghost use Rattle.service_step.specs.Step.{IsDoneOrDenied};
ghost use Rattle.pool_core.specs.Acts.{makes_all};
ghost use Rattle.pool_core.specs.Purging.{Keeps};
ghost use Rattle.pool_core.specs.Unlogged.{reads};
ghost use Rattle.pool_entry.specs.Acts.{acts_of, acts_read};
ghost use Rattle.pool_instance.specs.declared.waiting.Held.{Held};
ghost use Rattle.pool_instance.specs.declared.waiting.Reading.{Reading};
ghost use Rattle.pool_instance.specs.Effects.{IsLastTime};
ghost use Rattle.pool_instance.specs.Lists.{DidKeeping, IsFirstBatch, asked, told, told_of};
ghost use Rattle.pool_instance.specs.Parts.{asked_stage, is_due, is_due_as, is_due_by, is_number, is_unasked};
ghost use Rattle.pool_instance.specs.Parts.{stage_after};

use crate::purge_totals::PurgeTotals;
use crate::waiting::{Held, Reading, Stage};
use policy_core::call::{Call, Operation};
use pool_core::purge::purge_all;
use pool_entry::batch::{Batch, PushError};
use pool_entry::batch_fault::ReadError;
use pool_entry::entry::{EntryActs, entry_acts};
use service_calls::service::Service;
use service_step::reply::Reply;
use space_core::purge_ended::PurgeEnded;
use space_core::space::Space;
use std::alloc::{AllocError, Global};
use wire_route::routes::Routes;

/// Returns true if an operation only reads.
pub(crate) fn reads(op: &Operation) -> bool
    ensures { result ≡ reads op.now }
{
    matches!(
        op,
        Operation::Query(_, _)
            | Operation::Read(_, _)
            | Operation::ReadAvail(_)
            | Operation::QuerySub(_)
            | Operation::ReadSub(_)
    )
}

// Returns true if the next question is for the request. While a batch is in flight it is not for a
// change: one that is sent again is denied only after the outcome of its first one.
fn is_unasked(reading: &Reading, in_flight: bool) -> bool
    ensures { result ≡ is_unasked in_flight reading.now }
{
    match reading.stage {
        Stage::Fresh => !in_flight || reads(&reading.held.request.call().op),
        _ => false,
    }
}

/// Returns true if the next question is for some request.
pub(crate) fn has_unasked(readings: &[Reading], in_flight: bool) -> bool
    ensures { result ≡ false → All (λ r. is_unasked in_flight r ≡ false) readings.now }
{
    for reading in readings {
        if is_unasked(reading, in_flight) {
            return true;
        }
    }
    false
}

fn asked_stage(question: u64, in_flight: bool, reading: &Reading) -> Stage
    ensures { result ≡ asked_stage in_flight question reading.now }
{
    if is_unasked(reading, in_flight) {
        Stage::Asked(question)
    } else {
        reading.stage
    }
}

/// Notes that a question is for all requests that the next one was to be for.
pub(crate) fn note_question(readings: &mut [Reading], question: u64, in_flight: bool)
    ensures { readings.new ≡ map (asked in_flight question) readings.old }
{
    for reading in readings.iter_mut() {
        reading.stage = asked_stage(question, in_flight, reading);
    }
}

fn stage_after(question: u64, count: u64, stage: Stage) -> Stage
    ensures { result ≡ stage_after question count stage }
{
    match stage {
        Stage::Asked(asked) if asked == question => Stage::Until(count),
        stage => stage,
    }
}

/// Notes the answer to a question.
pub(crate) fn note_end(readings: &mut [Reading], question: u64, count: u64)
    ensures { readings.new ≡ map (told question count) readings.old }
{
    for reading in readings.iter_mut() {
        reading.stage = stage_after(question, count, reading.stage);
    }
}

fn is_due(stage: Stage, taken: u64) -> bool
    ensures { result ≡ is_due_by taken stage }
{
    match stage {
        Stage::Until(count) => count <= taken,
        _ => false,
    }
}

/// Returns the index of the request with this number, if its end was reached.
pub(crate) fn place_of_due(readings: &[Reading], id: u64, taken: u64) -> Option<usize>
    ensures { result ≡ position (is_due_as id taken) readings.now }
{
    readings.iter().position(|reading| reading.held.id == id && is_due(reading.stage, taken))
}

/// Returns true if the request waits for an end that was reached.
pub(crate) fn is_reading_due(reading: &Reading, taken: u64) -> bool
    ensures { result ≡ is_due taken reading.now }
{
    is_due(reading.stage, taken)
}

/// Returns the index of the reading with this number.
pub(crate) fn place_of_reading(readings: &[Reading], id: u64) -> Option<usize>
    ensures { result ≡ position (λ (r : Reading). r.held.id == id) readings.now }
{
    readings.iter().position(|reading| reading.held.id == id)
}

/// Returns the index of the change with this number.
pub(crate) fn place_of_change(unsent: &[Held], id: u64) -> Option<usize>
    ensures { result ≡ position (λ (h : Held). h.id == id) unsent.now }
{
    unsent.iter().position(|held| held.id == id)
}

/// Returns the index of the request with this number in a batch.
pub(crate) fn place_of_sent(sent: &[Option<u64>], id: u64) -> Option<usize>
    ensures { result ≡ position (is_number id) sent.now }
{
    sent.iter().position(|slot| is_number(id, *slot))
}

fn is_number(id: u64, slot: Option<u64>) -> bool
    ensures { result ≡ is_number id slot }
{
    match slot {
        Some(number) => number == id,
        None => false,
    }
}

/// A batch that is not offered yet, and the numbers of its requests.
#[derive(Drop)]
pub(crate) struct Draft {
    pub batch: Batch,
    pub sent: Vec<Option<u64>>,
}

/// Returns a batch of as many of the first changes as an entry has room for.
///
/// Returns `AllocError` if memory runs out.
pub(crate) fn first_batch(alloc: Global, unsent: &[Held], now: u64) -> Result<Draft, AllocError>
    ensures { IfOk result (IsFirstBatch now unsent.now) }
{
    let mut batch = Batch::new(alloc)?;
    let mut sent = Vec::new(alloc);
    for held in unsent {
        let Some(caller) = &held.request.call().caller else {
            unreachable!();
        };
        let written = held.request.written(alloc, caller, now)?;
        match batch.push(alloc, written) {
            Ok(()) => sent.push(Some(held.id))?,
            Err(PushError::Full(_)) => return Ok(Draft { batch, sent }),
            Err(PushError::Memory) => return Err(AllocError),
        }
    }
    Ok(Draft { batch, sent })
}

// Returns true if a reply says what the policy says.
fn is_final(reply: &Reply) -> bool
    ensures { result ≡ true → IsDoneOrDenied reply.now }
{
    match reply {
        Reply::Done(_) | Reply::Denied(_, _) => true,
        Reply::Fault | Reply::Stopped => false,
    }
}

// Returns the acts that the bytes of an entry represent, or `None` if memory runs out.
fn acts_in(alloc: Global, routes: &Routes, bytes: &[u8]) -> Option<EntryActs>
    ensures { IfSome result (λ acts. acts_read acts ≡ acts_of bytes.now) }
{
    match entry_acts(alloc, routes, bytes) {
        Ok(acts) => Some(acts),
        Err(ReadError::Fault(_)) => Some(EntryActs::Calls(Vec::new(alloc))),
        Err(ReadError::Memory) => None,
    }
}

// Keeps the reply to an own call, and no other.
fn keep(kept: &mut Vec<Reply>, is_own: bool, reply: Reply) -> Result<(), AllocError>
    ensures own { is_own ≡ true → OnOk result (kept.new.items ≡ kept.old.items ++ reply ∷ []) }
    ensures other { is_own ≡ false → kept.new.items ≡ kept.old.items }
{
    if !is_own {
        return Ok(());
    }
    kept.push(reply)?;
    Ok(())
}

// Makes calls, and returns the replies to own ones. Keeps no reply to a call of another process.
//
// Returns `None` if a call failed, or if memory ran out.
fn make_calls<S: Space + Drop>(
    service: &mut Service<S>,
    alloc: Global,
    calls: &[(u64, Call)],
    is_own: bool,
) -> Option<Vec<Reply>>
    ensures keeps { Keeps S.Space service.old service.new }
    ensures made { IfSome result (λ kept.
        DidKeeping S.Space is_own (makes_all calls.now) service.old service.new kept.items) }
{
    let mut kept = Vec::new(alloc);
    for timed in calls {
        let reply = service.call(alloc, timed.0, &timed.1);
        let is_final = is_final(&reply);
        if !is_final {
            return None;
        }
        let Ok(()) = keep(&mut kept, is_own, reply) else {
            return None;
        };
    }
    Some(kept)
}

/// What the acts of an entry gave.
#[derive(Drop)]
pub(crate) struct Done {
    /// The replies to its calls, if it is an own entry.
    pub replies: Vec<Reply>,
    /// The time of its last call, if it has one.
    pub last: Option<u64>,
    /// Its purges.
    pub purges: PurgeTotals,
}

// Returns the time of the last call.
fn last_time(calls: &[(u64, Call)]) -> Option<u64>
    ensures { IsLastTime (makes_all calls.now) result }
{
    match calls.last() {
        Some(timed) => Some(timed.0),
        None => None,
    }
}

/// Does the acts that the bytes of an entry represent. Keeps the replies of an own entry only.
///
/// Returns `None` if an act failed, or if memory ran out.
pub(crate) fn do_acts<S: PurgeEnded + Drop>(
    service: &mut Service<S>,
    alloc: Global,
    routes: &Routes,
    bytes: &[u8],
    is_own: bool,
) -> Option<Done>
    ensures keeps { Keeps S.Space service.old service.new }
    ensures made { IfSome result (λ done. DidKeeping S.Space is_own (acts_of bytes.now)
        service.old service.new done.replies.items) }
    ensures last { IfSome result (λ done. IsLastTime (acts_of bytes.now) done.last) }
{
    let Some(acts) = acts_in(alloc, routes, bytes) else {
        return None;
    };
    match acts {
        EntryActs::Calls(calls) => {
            let replies = make_calls(service, alloc, calls.as_slice(), is_own)?;
            let last = last_time(calls.as_slice());
            Some(Done {
                replies,
                last,
                purges: PurgeTotals::none(),
            })
        }
        EntryActs::Purge(until) => match purge_all(service, until) {
            Ok(removed) => Some(Done {
                replies: Vec::new(alloc),
                last: None,
                purges: PurgeTotals::one(until, removed),
            }),
            Err(_) => None,
        },
    }
}

/// Returns the replies to the requests of a batch that have a number, each with it.
///
/// Returns `None` if there are not as many replies as requests, or if memory runs out.
pub(crate) fn pair(
    alloc: Global,
    sent: &[Option<u64>],
    replies: Vec<Reply>,
) -> Option<Vec<(u64, Reply)>>
    ensures { IfSome result (λ told. (length sent.now ≡ length replies.items)
        × (told.items ≡ told_of sent.now replies.items)) }
{
    if replies.len() != sent.len() {
        return None;
    }
    let Ok(mut told) = Vec::with_capacity(alloc, sent.len()) else {
        return None;
    };
    let mut rest = replies;
    for slot in sent {
        let reply = rest.remove(0);
        if let Some(id) = slot {
            if told.push((*id, reply)).is_err() {
                return None;
            }
        }
    }
    Some(told)
}
