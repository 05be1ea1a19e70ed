//! Applying changes to the mirror and committing them to the store.
ghost use Rattle.std.specs.Prelude.{◌≡◌, ◌<◌, [], ◌∷◌, ◌++◌, None, IsSome, IfErr, OnErr};
ghost use Rattle.std.specs.Prelude.{IfOk, OnOk, vec_capacity, vec_len};
ghost use Rattle.entity_core.specs.Airspace.{Airspace};
ghost use Rattle.space_core.specs.declared.batch.BatchChange.{BatchChange};
ghost use Rattle.space_core.specs.declared.space.SpaceFault.TheVariants.{Unchanged};
ghost use Rattle.space_core.specs.Space.{Fits, changed};
ghost use Rattle.space_memory.specs.Memory.{content_of};
ghost use Rattle.space_mirror.specs.Mirrored.{MirrorAgrees, Changing, HoldsOne, IsSoundIn, BatchCommit};
ghost use Rattle.space_mirror.specs.Mirrored.{pending_if_mirrored, mirrored_model, holds_in};
ghost use Rattle.space_mirror.specs.Lists.{Making, MirrorStays, state_after_change};
ghost use Rattle.space_mirror.specs.declared.mirror_state.MirrorState.TheVariants.{Full, Steady};

use crate::mirror_state::MirrorState;
use crate::reads::count_refusal;
use entity_core::entity_id::EntityId;
use space_core::batch::{ApplyBatch, BatchChange};
use space_core::space::{Change, Space, SpaceFault};
use space_memory::memory::MemorySpace;
use space_memory::to_memory::ToMemory;
use std::alloc::{AllocError, Global};

// Returns a copy of a change, and reserves room for it in the batch.
fn copied_change(
    alloc: Global,
    batch: &mut Vec<BatchChange>,
    change: &Change,
    notify: &[EntityId],
) -> Result<BatchChange, AllocError>
    ensures batch { batch.new.items ≡ batch.old.items }
    ensures room { OnOk result (vec_len batch.new < vec_capacity batch.new) }
    ensures change { IfOk result (λ copy. copy.change ≡ change.now) }
    ensures notify { IfOk result (λ copy. copy.notify.items ≡ notify.now) }
{
    batch.reserve(1)?;
    Ok(BatchChange {
        change: change.clone(alloc)?,
        notify: Vec::from_slice(alloc, notify)?,
    })
}

// Applies a change to the mirror and appends it to the batch. Does neither if memory runs out.
fn enqueue(
    alloc: Global,
    mirror: &mut MemorySpace,
    batch: &mut Vec<BatchChange>,
    change: Change,
    notify: &[EntityId],
) -> Result<(), SpaceFault>
    ensures fault { IfErr result (λ fault. fault ≡ Unchanged) }
    ensures mirror { OnOk result
        (content_of mirror.new ≡ changed change notify.now (content_of mirror.old)) }
    ensures batch { OnOk result ((waits : BatchChange) × (waits.change ≡ change)
        × (waits.notify.items ≡ notify.now) × (batch.new.items ≡ batch.old.items ++ waits ∷ [])) }
    ensures list_left { OnErr result (content_of mirror.new ≡ content_of mirror.old) }
    ensures batch_left { OnErr result (batch.new.items ≡ batch.old.items) }
{
    let Ok(waits) = copied_change(alloc, batch, &change, notify) else {
        return Err(SpaceFault::Unchanged);
    };
    match mirror.replicate(change, notify) {
        Ok(()) => {
            batch.push_reserved(waits);
            Ok(())
        }
        Err(_) => Err(SpaceFault::Unchanged),
    }
}

// Records that the mirror is full if it ran out of memory for a change.
fn note_full(state: &mut MirrorState, answer: &Result<(), SpaceFault>)
    ensures ok { OnOk answer.now (state.new ≡ state.old) }
    ensures err { OnErr answer.now (state.new ≡ Full) }
{
    if answer.is_err() {
        *state = MirrorState::Full;
    }
}

// Records that a dropped mirror is due to be rebuilt once the store has applied a change.
fn note_outcome(state: &mut MirrorState, answer: &Result<(), SpaceFault>)
    ensures { state.new ≡ state_after_change answer.now state.old }
{
    if matches!(*state, MirrorState::Dropped) && answer.is_ok() {
        *state = MirrorState::RebuildDue;
    }
}

/// Applies a change to the mirror, where it is visible and pending. Without a mirror, the store
/// applies it at once.
///
/// If memory runs out, records that the mirror is full. If the store applies a change, records that
/// a dropped mirror is due to be rebuilt.
pub(crate) fn apply<S: Space>(
    alloc: Global,
    store: &mut S,
    mirror: &mut Option<MemorySpace>,
    state: &mut MirrorState,
    batch: &mut Vec<BatchChange>,
    refusals: &mut u64,
    change: Change,
    notify: &[EntityId],
) -> Result<(), SpaceFault>
    requires agrees { MirrorAgrees S.Space store.old mirror.old state.old batch.old.items }
    requires fits { let old = mirrored_model store.old
        (pending_if_mirrored mirror.old batch.old.items) refusals.old in
        IsSoundIn S.Space old → (a : Airspace) → holds_in S.Space old a
        → Fits change notify.now a }
    ensures agrees { MirrorAgrees S.Space store.new mirror.new state.new batch.new.items }
    ensures changes { Changing S.Space
        (mirrored_model store.old (pending_if_mirrored mirror.old batch.old.items) refusals.old)
        (mirrored_model store.new (pending_if_mirrored mirror.new batch.new.items) refusals.new)
        result
        (changed change notify.now) }
{
    match mirror {
        Some(mirror) => {
            let answer = enqueue(alloc, mirror, batch, change, notify);
            note_full(state, &answer);
            count_refusal(refusals, answer)
        }
        None => {
            let answer = store.apply(change, notify);
            note_outcome(state, &answer);
            count_refusal(refusals, answer)
        }
    }
}

// Keeps the mirror after `Ok`, unless it is full. If the store returned `Unchanged`, drops the
// mirror so that it can be rebuilt.
fn keep_or_drop_mirror(
    mirror: &mut Option<MemorySpace>,
    state: &mut MirrorState,
    answer: &Result<(), SpaceFault>,
)
    ensures { MirrorStays answer.now mirror.old mirror.new state.old state.new }
{
    *state = match (*state, answer) {
        (MirrorState::Full, _) => MirrorState::Steady,
        (_, Ok(())) => return,
        (_, Err(SpaceFault::Unchanged)) => MirrorState::Dropped,
        (_, Err(SpaceFault::Broken)) => MirrorState::Steady,
    };
    *mirror = None;
}

// Makes the store apply all changes of the batch, or none. The mirror stays if it is what the store
// holds then.
fn commit_batch<S: ApplyBatch>(
    store: &mut S,
    mirror: &mut Option<MemorySpace>,
    state: &mut MirrorState,
    batch: &[BatchChange],
) -> Result<(), SpaceFault>
    requires agrees { MirrorAgrees S.Space store.old mirror.old state.old batch.now }
    requires there { IsSome mirror.old }
    ensures making { Making S.Space store.old store.new batch.now result }
    ensures agrees { MirrorAgrees S.Space store.new mirror.new state.new [] }
{
    let answer = store.apply_batch(batch);
    keep_or_drop_mirror(mirror, state, &answer);
    answer
}

// Returns `Broken` if the store is broken, and `Ok` otherwise. There is no mirror.
fn check_store<S: Space>(
    store: &mut S,
    mirror: &Option<MemorySpace>,
    state: MirrorState,
) -> Result<(), SpaceFault>
    requires agrees { MirrorAgrees S.Space store.old mirror.now state [] }
    requires none { mirror.now ≡ None }
    ensures making { Making S.Space store.old store.new [] result }
    ensures agrees { MirrorAgrees S.Space store.new mirror.now state [] }
{
    match store.serial() {
        Err(SpaceFault::Broken) => Err(SpaceFault::Broken),
        _ => Ok(()),
    }
}

// Rebuilds the mirror from the store if there is memory for it. Fails only if the store is broken.
fn rebuild_mirror<S: ToMemory>(
    alloc: Global,
    store: &mut S,
    mirror: &mut Option<MemorySpace>,
) -> Result<(), SpaceFault>
    requires none { mirror.old ≡ None }
    requires one { HoldsOne S.Space store.old }
    ensures making { Making S.Space store.old store.new [] result }
    ensures agrees { MirrorAgrees S.Space store.new mirror.new Steady [] }
{
    match store.to_memory(alloc) {
        Ok(copy) => {
            *mirror = Some(copy);
            Ok(())
        }
        Err(SpaceFault::Unchanged) => Ok(()),
        Err(SpaceFault::Broken) => Err(SpaceFault::Broken),
    }
}

// Rebuilds the mirror if that is due. Without a mirror, no change is pending.
fn rebuild_if_due<S: ToMemory>(
    alloc: Global,
    store: &mut S,
    mirror: &mut Option<MemorySpace>,
    state: &mut MirrorState,
) -> Result<(), SpaceFault>
    requires agrees { MirrorAgrees S.Space store.old mirror.old state.old [] }
    requires none { mirror.old ≡ None }
    ensures making { Making S.Space store.old store.new [] result }
    ensures agrees { MirrorAgrees S.Space store.new mirror.new state.new [] }
{
    match *state {
        MirrorState::RebuildDue => {
            *state = MirrorState::Steady;
            rebuild_mirror(alloc, store, mirror)
        }
        _ => check_store(store, mirror, *state),
    }
}

// Commits the batch if there is a mirror, and otherwise rebuilds the mirror if that is due.
fn commit_or_rebuild<S: ApplyBatch + ToMemory>(
    alloc: Global,
    store: &mut S,
    mirror: &mut Option<MemorySpace>,
    state: &mut MirrorState,
    batch: &[BatchChange],
) -> Result<(), SpaceFault>
    requires agrees { MirrorAgrees S.Space store.old mirror.old state.old batch.now }
    ensures making { Making S.Space store.old store.new batch.now result }
    ensures agrees { MirrorAgrees S.Space store.new mirror.new state.new [] }
{
    if mirror.is_some() {
        commit_batch(store, mirror, state, batch)
    } else {
        rebuild_if_due(alloc, store, mirror, state)
    }
}

/// Commits all pending changes to the store, or none.
///
/// Drops a mirror that is full, for good. If the store returns `Unchanged` for the batch, drops the
/// mirror, and rebuilds it in the first `commit` after the store has applied a change. So it costs
/// nothing to rebuild while every change fails. If memory runs out for it, the mirror stays dropped
/// for good.
pub(crate) fn commit<S: ApplyBatch + ToMemory>(
    alloc: Global,
    store: &mut S,
    mirror: &mut Option<MemorySpace>,
    state: &mut MirrorState,
    batch: &mut Vec<BatchChange>,
    refusals: &mut u64,
) -> Result<(), SpaceFault>
    requires agrees { MirrorAgrees S.Space store.old mirror.old state.old batch.old.items }
    ensures agrees { MirrorAgrees S.Space store.new mirror.new state.new batch.new.items }
    ensures keeps { BatchCommit S.Space
        (mirrored_model store.old (pending_if_mirrored mirror.old batch.old.items) refusals.old)
        (mirrored_model store.new (pending_if_mirrored mirror.new batch.new.items) refusals.new)
        result }
{
    let answer = commit_or_rebuild(alloc, store, mirror, state, batch.as_slice());
    batch.clear();
    count_refusal(refusals, answer)
}
