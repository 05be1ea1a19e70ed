//! Reads from the mirror, or from the store if there is no mirror.
ghost use Rattle.std.specs.Prelude.{◌≡◌};
ghost use Rattle.std.specs.FinMap.{get};
ghost use Rattle.entity_core.specs.Search.{all_in, dependents_in, subscribers_in, subscriptions_in};
ghost use Rattle.space_core.specs.Met.{met_in};
ghost use Rattle.space_core.specs.Space.{refusals_after};
ghost use Rattle.space_mirror.specs.Mirrored.{ReadsParts};

use entity_core::availability::Availability;
use entity_core::entity::Entity;
use entity_core::entity_id::EntityId;
use entity_core::nature::Kind;
use entity_core::ovn::Ovn;
use entity_core::subscription::Sub;
use entity_core::uss_id::UssId;
use grid_core::volume::Area;
use space_core::met::Met;
use space_core::space::{Space, SpaceFault};
use space_memory::memory::MemorySpace;

/// Returns the result unchanged, and counts it if it is `Unchanged`.
pub(crate) fn count_refusal<T>(
    refusals: &mut u64,
    answer: Result<T, SpaceFault>,
) -> Result<T, SpaceFault>
    ensures same { result ≡ answer }
    ensures counted { refusals.new ≡ refusals_after refusals.old answer }
{
    match answer {
        Ok(found) => Ok(found),
        Err(SpaceFault::Unchanged) => {
            *refusals = refusals.saturating_add(1);
            Err(SpaceFault::Unchanged)
        }
        Err(SpaceFault::Broken) => Err(SpaceFault::Broken),
    }
}

#[tactic(auto, using(crate::proofs::Mirrors::list_reads, crate::proofs::Mirrors::store_reads))]
pub(crate) fn entity<S: Space>(
    store: &mut S,
    mirror: &mut Option<MemorySpace>,
    refusals: &mut u64,
    kind: Kind,
    id: EntityId,
) -> Result<Option<Entity>, SpaceFault>
    ensures { ReadsParts S.Space store.old store.new mirror.old mirror.new refusals.old refusals.new
        result (λ a found. found ≡ get a.entities (kind, id)) }
{
    match mirror {
        Some(mirror) => count_refusal(refusals, mirror.entity(kind, id)),
        None => count_refusal(refusals, store.entity(kind, id)),
    }
}

#[tactic(auto, using(crate::proofs::Mirrors::list_reads, crate::proofs::Mirrors::store_reads))]
pub(crate) fn meeting<S: Space>(
    store: &mut S,
    mirror: &mut Option<MemorySpace>,
    refusals: &mut u64,
    kind: Kind,
    areas: &[Area],
    except: Option<EntityId>,
) -> Result<Vec<Met>, SpaceFault>
    ensures { ReadsParts S.Space store.old store.new mirror.old mirror.new refusals.old refusals.new
        result (λ a found. found.items ≡ met_in a kind areas.now except) }
{
    match mirror {
        Some(mirror) => count_refusal(refusals, mirror.meeting(kind, areas, except)),
        None => count_refusal(refusals, store.meeting(kind, areas, except)),
    }
}

#[tactic(auto, using(crate::proofs::Mirrors::list_reads, crate::proofs::Mirrors::store_reads))]
pub(crate) fn all<S: Space>(
    store: &mut S,
    mirror: &mut Option<MemorySpace>,
    refusals: &mut u64,
    kind: Kind,
) -> Result<Vec<Entity>, SpaceFault>
    ensures { ReadsParts S.Space store.old store.new mirror.old mirror.new refusals.old refusals.new
        result (λ a found. found.items ≡ all_in a.entities kind) }
{
    match mirror {
        Some(mirror) => count_refusal(refusals, mirror.all(kind)),
        None => count_refusal(refusals, store.all(kind)),
    }
}

#[tactic(auto, using(crate::proofs::Mirrors::list_reads, crate::proofs::Mirrors::store_reads))]
pub(crate) fn availability<S: Space>(
    store: &mut S,
    mirror: &mut Option<MemorySpace>,
    refusals: &mut u64,
    uss: &UssId,
) -> Result<Option<(Availability, Ovn)>, SpaceFault>
    ensures { ReadsParts S.Space store.old store.new mirror.old mirror.new refusals.old refusals.new
        result (λ a found. found ≡ get a.availabilities uss.now) }
{
    match mirror {
        Some(mirror) => count_refusal(refusals, mirror.availability(uss)),
        None => count_refusal(refusals, store.availability(uss)),
    }
}

#[tactic(auto, using(crate::proofs::Mirrors::list_reads, crate::proofs::Mirrors::store_reads))]
pub(crate) fn subscription<S: Space>(
    store: &mut S,
    mirror: &mut Option<MemorySpace>,
    refusals: &mut u64,
    id: EntityId,
) -> Result<Option<Sub>, SpaceFault>
    ensures { ReadsParts S.Space store.old store.new mirror.old mirror.new refusals.old refusals.new
        result (λ a found. found ≡ get a.subscriptions id) }
{
    match mirror {
        Some(mirror) => count_refusal(refusals, mirror.subscription(id)),
        None => count_refusal(refusals, store.subscription(id)),
    }
}

#[tactic(auto, using(crate::proofs::Mirrors::list_reads, crate::proofs::Mirrors::store_reads))]
pub(crate) fn subscriptions_of<S: Space>(
    store: &mut S,
    mirror: &mut Option<MemorySpace>,
    refusals: &mut u64,
    uss: &UssId,
    area: &Area,
) -> Result<Vec<Sub>, SpaceFault>
    ensures { ReadsParts S.Space store.old store.new mirror.old mirror.new refusals.old refusals.new
        result (λ a found. found.items ≡ subscriptions_in a.subscriptions uss.now area.now) }
{
    match mirror {
        Some(mirror) => count_refusal(refusals, mirror.subscriptions_of(uss, area)),
        None => count_refusal(refusals, store.subscriptions_of(uss, area)),
    }
}

#[tactic(auto, using(crate::proofs::Mirrors::list_reads, crate::proofs::Mirrors::store_reads))]
pub(crate) fn subscribers<S: Space>(
    store: &mut S,
    mirror: &mut Option<MemorySpace>,
    refusals: &mut u64,
    kind: Kind,
    areas: &[Area],
) -> Result<Vec<Sub>, SpaceFault>
    ensures { ReadsParts S.Space store.old store.new mirror.old mirror.new refusals.old refusals.new
        result (λ a found. found.items ≡ subscribers_in a.subscriptions kind areas.now) }
{
    match mirror {
        Some(mirror) => count_refusal(refusals, mirror.subscribers(kind, areas)),
        None => count_refusal(refusals, store.subscribers(kind, areas)),
    }
}

#[tactic(auto, using(crate::proofs::Mirrors::list_reads, crate::proofs::Mirrors::store_reads))]
pub(crate) fn dependents<S: Space>(
    store: &mut S,
    mirror: &mut Option<MemorySpace>,
    refusals: &mut u64,
    id: EntityId,
) -> Result<Vec<EntityId>, SpaceFault>
    ensures { ReadsParts S.Space store.old store.new mirror.old mirror.new refusals.old refusals.new
        result (λ a found. found.items ≡ dependents_in a.entities id) }
{
    match mirror {
        Some(mirror) => count_refusal(refusals, mirror.dependents(id)),
        None => count_refusal(refusals, store.dependents(id)),
    }
}

#[tactic(auto, using(crate::proofs::Mirrors::list_reads, crate::proofs::Mirrors::store_reads))]
pub(crate) fn serial<S: Space>(
    store: &mut S,
    mirror: &mut Option<MemorySpace>,
    refusals: &mut u64,
) -> Result<u64, SpaceFault>
    ensures { ReadsParts S.Space store.old store.new mirror.old mirror.new refusals.old refusals.new
        result (λ a serial. serial ≡ a.serial) }
{
    match mirror {
        Some(mirror) => count_refusal(refusals, mirror.serial()),
        None => count_refusal(refusals, store.serial()),
    }
}
