//! The maps of an in-memory space: searches and changes.
ghost use Rattle.std.specs.Prelude.{◌≡◌, ◌+◌, ℕ, List, OnOk, OnErr, IfOk, IsOk, map};
ghost use Rattle.entity_core.specs.Airspace.{Airspace};
ghost use Rattle.entity_core.specs.declared.subscription.Sub.{Sub};
ghost use Rattle.entity_maps.specs.Availabilities.{availability_map};
ghost use Rattle.entity_maps.specs.Lists.{airspace_of};
ghost use Rattle.space_core.specs.Met.{met_in, met_of};
ghost use Rattle.space_core.specs.Space.{IsRemoval, changed};
ghost use Rattle.entity_maps.specs.Subscriptions.{CanNotify};
ghost use Rattle.space_memory.specs.Memory.{IsOver};

use crate::indexed::IndexedEntities;
use crate::indexed_subscriptions::IndexedSubscriptions;
use entity_core::entity::Entity;
use entity_core::entity_id::EntityId;
use entity_core::nature::Kind;
use entity_maps::availabilities::Availabilities;
use grid_core::volume::Area;
use space_core::met::Met;
use space_core::space::Change;
use std::alloc::{AllocError, Global};

// Returns the entities, each with the current availability of its manager.
fn with_availabilities(
    alloc: Global,
    availabilities: &Availabilities,
    entities: Vec<Entity>,
) -> Result<Vec<Met>, AllocError>
    ensures { IfOk result (λ met. (a : Airspace)
        → a.availabilities ≡ availability_map availabilities.now
        → met.items ≡ map (met_of a) entities.items) }
{
    let mut met = Vec::with_capacity(alloc, entities.len())?;
    for entity in entities {
        let availability = availabilities.present(&entity.manager);
        met.push(Met {
            entity,
            availability,
        })?;
    }
    Ok(met)
}

/// Returns the entities that match a search, with the availabilities of their managers.
pub(crate) fn met_among(
    alloc: Global,
    entities: &IndexedEntities,
    availabilities: &Availabilities,
    kind: Kind,
    areas: &[Area],
    except: Option<EntityId>,
) -> Result<Vec<Met>, AllocError>
    ensures { IfOk result (λ met. (subs : List Sub) (serial : ℕ) → met.items
        ≡ met_in (airspace_of entities.now subs availabilities.now serial)
        kind areas.now except) }
{
    let found = entities.meeting(alloc, kind, areas, except)?;
    with_availabilities(alloc, availabilities, found)
}

/// Applies a change, except for the serial.
///
/// Does everything that can fail before it notifies a subscription.
pub(crate) fn make(
    entities: &mut IndexedEntities,
    subscriptions: &mut IndexedSubscriptions,
    availabilities: &mut Availabilities,
    change: Change,
    notify: &[EntityId],
) -> Result<(), AllocError>
    requires { CanNotify subscriptions.old }
    ensures ok { OnOk result ((serial : ℕ)
        → airspace_of entities.new subscriptions.new availabilities.new (serial + 1)
        ≡ changed change notify.now
        (airspace_of entities.old subscriptions.old availabilities.old serial)) }
    ensures same_entities { OnErr result (entities.new ≡ entities.old) }
    ensures same_subscriptions { OnErr result (subscriptions.new ≡ subscriptions.old) }
    ensures same_availabilities { OnErr result (availabilities.new ≡ availabilities.old) }
    ensures removed { IsRemoval change → IsOk result }
    ensures over { (serial : ℕ) → IsOver change
        (airspace_of entities.old subscriptions.old availabilities.old serial) → IsOk result }
{
    match change {
        Change::Put(entity) => {
            entities.put(entity)?;
            subscriptions.tell(notify);
            Ok(())
        }
        Change::Remove(kind, id) => {
            entities.remove(kind, id);
            subscriptions.tell(notify);
            Ok(())
        }
        Change::Avail(uss, availability, version) => availabilities.put(uss, availability, version),
        Change::PutSub(sub) => subscriptions.put(sub),
        Change::RemoveSub(id) => {
            subscriptions.remove(id);
            Ok(())
        }
    }
}
