//! Finding what has ended in the mirror, and purging it in the store and in the mirror.
ghost use Rattle.std.specs.Prelude.{◌≡◌, IfErr, IfOk};
ghost use Rattle.entity_core.specs.Airspace.{Airspace};
ghost use Rattle.entity_purge.specs.PurgeItem.{CanPurgeAll, IsPurgeChunk};
ghost use Rattle.space_core.specs.declared.space.SpaceFault.TheVariants.{Unchanged};
ghost use Rattle.space_memory.specs.Memory.{content_of};
ghost use Rattle.space_mirror.specs.Mirrored.{MirrorAgrees, IsSoundIn, ReadsParts};
ghost use Rattle.space_mirror.specs.Mirrored.{pending_if_mirrored, mirrored_model, holds_in};
ghost use Rattle.space_mirror.specs.Lists.{state_after_purge};
ghost use Rattle.space_mirror.specs.Purges.{MirrorFollows, MirrorPurgeEffect, CannotSay};

use crate::mirror_state::MirrorState;
use crate::reads::count_refusal;
use entity_purge::purge_item::PurgeItem;
use space_core::batch::BatchChange;
use space_core::purge::Purge;
use space_core::space::{Space, SpaceFault};
use space_memory::memory::MemorySpace;

// Returns what the mirror finds. Fails if memory runs out.
fn ended_in(mirror: &MemorySpace, until: u64, most: usize) -> Result<Vec<PurgeItem>, SpaceFault>
    ensures fault { IfErr result (λ fault. fault ≡ Unchanged) }
    ensures found { IfOk result (λ gone. IsPurgeChunk until most gone.items
        (content_of mirror.now)) }
{
    match mirror.find_ended(until, most) {
        Ok(gone) => Ok(gone),
        Err(_) => Err(SpaceFault::Unchanged),
    }
}

// Returns the fault without a mirror: `Broken` if the store is broken, and `Unchanged` otherwise.
fn refuse_ended<S: Space>(store: &mut S) -> Result<Vec<PurgeItem>, SpaceFault>
    ensures { CannotSay S.Space store.old store.new result }
{
    match store.serial() {
        Err(SpaceFault::Broken) => Err(SpaceFault::Broken),
        _ => Err(SpaceFault::Unchanged),
    }
}

/// Returns some items that have ended, at most `most` of them, if there is a mirror.
///
/// Returns and counts `Unchanged` if memory runs out or there is no mirror.
pub(crate) fn ended<S: Space>(
    store: &mut S,
    mirror: &Option<MemorySpace>,
    refusals: &mut u64,
    until: u64,
    most: usize,
) -> Result<Vec<PurgeItem>, SpaceFault>
    ensures { ReadsParts S.Space store.old store.new mirror.now mirror.now refusals.old refusals.new
        result (λ a gone. IsPurgeChunk until most gone.items a) }
{
    match mirror {
        Some(mirror) => count_refusal(refusals, ended_in(mirror, until, most)),
        None => count_refusal(refusals, refuse_ended(store)),
    }
}

// Makes the mirror follow a purge of the store. Drops it if the store broke.
fn follow(
    mirror: &mut Option<MemorySpace>,
    state: &mut MirrorState,
    gone: &[PurgeItem],
    answer: &Result<(), SpaceFault>,
)
    ensures mirror { MirrorFollows gone.now answer.now mirror.old mirror.new }
    ensures state { state.new ≡ state_after_purge answer.now state.old }
{
    match answer {
        Ok(()) => {
            if let Some(mirror) = mirror {
                mirror.purge(gone);
            }
        }
        Err(SpaceFault::Unchanged) => {}
        Err(SpaceFault::Broken) => {
            *state = MirrorState::Steady;
            *mirror = None;
        }
    }
}

/// Purges these items in the store and then in the mirror. Returns `Unchanged` if changes are
/// pending.
pub(crate) fn purge_both<S: Purge>(
    store: &mut S,
    mirror: &mut Option<MemorySpace>,
    state: &mut MirrorState,
    batch: &[BatchChange],
    refusals: &mut u64,
    gone: &[PurgeItem],
) -> Result<(), SpaceFault>
    requires agrees { MirrorAgrees S.Space store.old mirror.old state.old batch.now }
    requires can { let old = mirrored_model store.old
        (pending_if_mirrored mirror.old batch.now) refusals.old in
        IsSoundIn S.Space old → (a : Airspace) → holds_in S.Space old a → CanPurgeAll gone.now a }
    ensures agrees { MirrorAgrees S.Space store.new mirror.new state.new batch.now }
    ensures going { MirrorPurgeEffect S.Space
        (mirrored_model store.old (pending_if_mirrored mirror.old batch.now) refusals.old)
        (mirrored_model store.new (pending_if_mirrored mirror.new batch.now) refusals.new) result
        gone.now }
{
    if !batch.is_empty() {
        return count_refusal(refusals, Err(SpaceFault::Unchanged));
    }
    let answer = store.purge(gone);
    follow(mirror, state, gone, &answer);
    count_refusal(refusals, answer)
}
