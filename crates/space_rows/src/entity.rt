//! Conversion between an entity and its rows.
ghost use Rattle.std.specs.Prelude.{◌≡◌, ◌≤ℤ◌, pos, IfOk};
ghost use Rattle.entity_core.specs.Entity.{subscription_of};
ghost use Rattle.space_rows.specs.Rows.{SpellsEntity};
ghost use Rattle.space_rows.specs.Finds.{Finds};
ghost use Rattle.space_rows.specs.Head.{HasVolumes};

use crate::head::{Head, entity_row, head_of};
use crate::rows::{CellRow, EntityRow, VolumeRow};
use crate::volumes::{volume_rows, volumes_of};
use entity_core::entity::Entity;
use entity_core::entity_id::EntityId;
use grid_core::volume::Volume;
use grid_core::volumes::Volumes;
use std::alloc::{AllocError, Global};

fn joined(alloc: Global, head: Head, list: Vec<Volume>) -> Result<Option<Entity>, AllocError>
    ensures { IfOk result (λ o. Finds (HasVolumes head list.items) o) }
{
    match Volumes::from_vec(alloc, list)? {
        Some(volumes) => Ok(Some(Entity {
            nature: head.nature,
            id: head.id,
            manager: head.manager,
            version: head.version,
            serial: head.serial,
            ovn: head.ovn,
            volumes,
            url: head.url,
        })),
        None => Ok(None),
    }
}

/// Returns the entity that the rows represent, if they represent one.
///
/// The rows of `volume` come in the order of their positions, and those of `cell` in the order of
/// their volumes, then of their positions. In another order they represent none. `named` is the id
/// of the subscription to which the entity's row of `naming` refers, if it has one. No rows
/// represent a constraint with one.
pub fn entity_of(
    alloc: Global,
    row: &EntityRow,
    volumes: &[VolumeRow],
    cells: &[CellRow],
    named: Option<EntityId>,
) -> Result<Option<Entity>, AllocError>
    ensures { IfOk result (λ o. Finds (SpellsEntity row.now volumes.now cells.now named) o) }
{
    let Some(head) = head_of(alloc, row, named)? else {
        return Ok(None);
    };
    match volumes_of(alloc, row.num, volumes, cells)? {
        Some(list) => joined(alloc, head, list),
        None => Ok(None),
    }
}

/// Returns the rows of an entity under a number.
///
/// They are the row of `entity`, the rows of `volume` and those of `cell`. Rows of `volume` are in
/// the order of their positions, and rows of `cell` in the order of their volumes, then of their
/// positions. They represent the entity together with the subscription that it references. Its row
/// of `naming` is not among them.
pub fn rows_of(
    alloc: Global,
    entity: &Entity,
    num: i64,
) -> Result<(EntityRow, Vec<VolumeRow>, Vec<CellRow>), AllocError>
    requires least { pos 1 ≤ℤ num }
    requires most { num ≤ℤ pos entity.now.serial }
    ensures num { IfOk result (λ r. r.0.num ≡ num) }
    ensures spells { IfOk result (λ r. SpellsEntity r.0 r.1.items r.2.items
        (subscription_of entity.now.nature) entity.now) }
{
    let row = entity_row(alloc, entity, num)?;
    let (volumes, cells) = volume_rows(alloc, num, entity.volumes.items())?;
    Ok((row, volumes, cells))
}
