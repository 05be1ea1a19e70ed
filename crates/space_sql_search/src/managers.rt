//! Entities with the availabilities of their managers, read in the same transaction.
ghost use Rattle.std.specs.Prelude.{◌≡◌, [], unwrap_or};
ghost use Rattle.space_sql_schema.specs.Within.{SameConnection, Within};
ghost use Rattle.space_sql_select.specs.Reading.{Reads};
ghost use Rattle.space_sql_search.specs.Met.{AreWithAvailabilities, IsWithAvailability};

use entity_core::availability::Availability;
use entity_core::entity::Entity;
use entity_core::ovn::Ovn;
use space_core::met::Met;
use space_sql_lookup::availability::read_availability_in_transaction;
use sqlite::{Alter, Error, Transaction};
use std::alloc::Global;

fn availability_in(stated: Option<(Availability, Ovn)>) -> Availability
    ensures { result ≡ (unwrap_or stated (Availability.Unknown, [])).0 }
{
    match stated {
        Some((availability, _)) => availability,
        None => Availability::Unknown,
    }
}

fn with_availability<S: Alter>(
    alloc: Global,
    tx: &mut Transaction<'_, S>,
    entity: Entity,
) -> Result<Met, Error>
    ensures same_reference { SameConnection tx.old tx.new }
    ensures reads { Within S.Store tx.old tx.new (Reads (IsWithAvailability entity)) result }
{
    let stated = read_availability_in_transaction(alloc, tx, &entity.manager)?;
    Ok(Met {
        entity,
        availability: availability_in(stated),
    })
}

/// Returns each entity with its manager's availability, in the same order.
pub(crate) fn with_availabilities<S: Alter>(
    alloc: Global,
    tx: &mut Transaction<'_, S>,
    entities: Vec<Entity>,
) -> Result<Vec<Met>, Error>
    ensures same_reference { SameConnection tx.old tx.new }
    ensures reads { Within S.Store tx.old tx.new
        (Reads (λ db met. AreWithAvailabilities entities.items db met.items)) result }
{
    let mut met = Vec::with_capacity(alloc, entities.len())?;
    for entity in entities {
        let found = with_availability(alloc, tx, entity)?;
        met.push(found)?;
    }
    Ok(met)
}
