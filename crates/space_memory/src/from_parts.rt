//! Building an in-memory space from maps.
ghost use Rattle.std.specs.Prelude.{◌≡◌, IfOk};
ghost use Rattle.entity_maps.specs.Lists.{airspace_of};
ghost use Rattle.entity_maps.specs.Subscriptions.{AllNotified};
ghost use Rattle.space_memory.specs.Memory.{content_of};

use crate::indexed::IndexedEntities;
use crate::indexed_subscriptions::IndexedSubscriptions;
use crate::memory::MemorySpace;
use entity_maps::availabilities::Availabilities;
use entity_maps::entities::Entities;
use entity_maps::subscriptions::Subscriptions;
use space_core::space::Space;
use std::alloc::{AllocError, Global};

impl MemorySpace {
    /// Creates an in-memory space with this content.
    ///
    /// It has not returned `Unchanged` yet. Builds the indexes. No notification index may exceed
    /// the serial. Returns `AllocError` if memory runs out.
    pub fn from_parts(
        alloc: Global,
        entities: Entities,
        subscriptions: Subscriptions,
        availabilities: Availabilities,
        serial: u64,
    ) -> Result<MemorySpace, AllocError>
        requires { AllNotified subscriptions serial }
        ensures content { IfOk result (λ list.
            content_of list ≡ airspace_of entities subscriptions availabilities serial) }
        ensures fresh { IfOk result (λ list. ⟦<MemorySpace as Space>⟧.refusals list ≡ 0) }
    {
        let entities = IndexedEntities::of(alloc, entities)?;
        let subscriptions = IndexedSubscriptions::of(alloc, subscriptions)?;
        Ok(MemorySpace {
            alloc,
            entities,
            subscriptions,
            availabilities,
            serial,
            refusals: 0,
            last_removed: None,
        })
    }
}
