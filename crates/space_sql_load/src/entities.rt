//! The entities that the rows represent, one after the other.
ghost use Rattle.std.specs.Prelude.{◌≡◌, ◌↔◌, ◌≤◌, pos, None, IsTrue, IfOk, MatchOption, length, take, drop};
ghost use Rattle.std.specs.List.{AllByRecursion};
ghost use Rattle.std.specs.FinMap.{get, empty};
ghost use Rattle.entity_core.specs.Airspace.{Entities as Map};
ghost use Rattle.std.specs.Ordering.{int_cmp};
ghost use Rattle.entity_maps.specs.Entities.{entity_map};
ghost use Rattle.entity_maps.specs.Sorted.{Rise};
ghost use Rattle.space_rows.specs.declared.rows.VolumeRow.{VolumeRow};
ghost use Rattle.space_rows.specs.declared.rows.CellRow.{CellRow};
ghost use Rattle.space_rows.specs.Finds.{Finds};
ghost use Rattle.space_sql_load.specs.Gathering.{Gathers, IsNext, ListsEntities, StartsElse, number_pair, parts_of};

use crate::naming::{Numbered, named_by, naming_count};
use crate::rising::is_before;
use crate::tables::EntityTables;
use entity_core::entity::Entity;
use entity_core::entity_id::EntityId;
use entity_core::nature::Kind;
use entity_maps::entities::Entities;
use space_rows::entity::entity_of;
use space_rows::rows::{CellRow, EntityRow, VolumeRow};
use space_sql_select::rows::{cell_rows, entity_rows, volume_rows};
use space_sql_select::sub_rows::{NamingRow, naming_rows};
use sqlite::Error;
use std::alloc::{AllocError, Global};

// Returns the number of rows at the front that belong to an entity.
fn volume_count(rows: &[VolumeRow], num: i64) -> usize
    ensures most { result ≤ length rows.now }
    ensures these { AllByRecursion (λ (r : VolumeRow). r.entity ≡ num) (take result rows.now) }
    ensures others { StartsElse (λ (r : VolumeRow). r.entity ≡ num) (drop result rows.now) }
{
    for (i, row) in rows.iter().enumerate() {
        if row.entity != num {
            return i;
        }
    }
    rows.len()
}

fn entity_cell_count(rows: &[CellRow], num: i64) -> usize
    ensures most { result ≤ length rows.now }
    ensures these { AllByRecursion (λ (r : CellRow). r.entity ≡ num) (take result rows.now) }
    ensures others { StartsElse (λ (r : CellRow). r.entity ≡ num) (drop result rows.now) }
{
    for (i, row) in rows.iter().enumerate() {
        if row.entity != num {
            return i;
        }
    }
    rows.len()
}

fn is_entity_free(
    alloc: Global,
    out: &Entities,
    kind: Kind,
    id: EntityId,
) -> Result<bool, AllocError>
    ensures { IfOk result (λ b. IsTrue b ↔ (get (entity_map out.now) (kind, id) ≡ None)) }
{
    match out.entity(alloc, kind, id)? {
        Some(_) => Ok(false),
        None => Ok(true),
    }
}

// Returns the next entity, if the rows represent one that can follow those before it.
fn next_entity(
    alloc: Global,
    serial: u64,
    last: i64,
    row: &EntityRow,
    volumes: &[VolumeRow],
    cells: &[CellRow],
    named: Option<EntityId>,
    out: &Entities,
) -> Result<Option<Entity>, AllocError>
    ensures { let before = entity_map out.now in
        IfOk result (λ o. Finds (IsNext serial last row.now volumes.now cells.now named before) o) }
{
    if !is_before(last, row.num) {
        return Ok(None);
    }
    let Some(entity) = entity_of(alloc, row, volumes, cells, named)? else {
        return Ok(None);
    };
    if entity.serial.number() > serial {
        return Ok(None);
    }
    if is_entity_free(alloc, out, entity.nature.kind(), entity.id)? {
        Ok(Some(entity))
    } else {
        Ok(None)
    }
}

// Returns the entities that all rows represent, if they represent any.
fn gather_entities(
    alloc: Global,
    serial: u64,
    numbers: &[Numbered],
    rows: &[EntityRow],
    volumes: &[VolumeRow],
    cells: &[CellRow],
    namings: &[NamingRow],
) -> Result<Option<Entities>, AllocError>
    requires { Rise int_cmp number_pair numbers.now }
    ensures { let r = rows.now in
        let p = parts_of volumes.now cells.now namings.now in
        let n = numbers.now in
        IfOk result (λ o. MatchOption o ((m : Map) → ¬ Gathers serial n (pos 0) r p empty m)
        (λ es. Gathers serial n (pos 0) r p empty (entity_map es))) }
{
    let mut out = Entities::new(alloc);
    let mut last = 0i64;
    let mut volumes_left = volumes;
    let mut cells_left = cells;
    let mut namings_left = namings;
    for row in rows {
        let (own_volumes, more_volumes) = volumes_left.split_at(volume_count(
            volumes_left,
            row.num,
        ));
        let (own_cells, more_cells) = cells_left.split_at(entity_cell_count(cells_left, row.num));
        let (own_namings, more_namings) = namings_left.split_at(naming_count(
            namings_left,
            row.num,
        ));
        let Some(named) = named_by(numbers, row.num, own_namings) else {
            return Ok(None);
        };
        match next_entity(
            alloc,
            serial,
            last,
            row,
            own_volumes,
            own_cells,
            named,
            &out,
        )? {
            Some(entity) => out.put(entity)?,
            None => return Ok(None),
        }
        last = row.num;
        volumes_left = more_volumes;
        cells_left = more_cells;
        namings_left = more_namings;
    }
    if volumes_left.is_empty() && (cells_left.is_empty() && namings_left.is_empty()) {
        Ok(Some(out))
    } else {
        Ok(None)
    }
}

/// Returns the entities that the rows of the four tables represent, if they do, with serials up to
/// the given one.
pub fn entities_in(
    alloc: Global,
    serial: u64,
    numbers: &[Numbered],
    tables: &EntityTables,
) -> Result<Option<Entities>, Error>
    requires { Rise int_cmp number_pair numbers.now }
    ensures { let t = tables.now in
        let n = numbers.now in
        IfOk result (λ o. MatchOption o ((m : Map) → ¬ ListsEntities serial n t m)
        (λ es. ListsEntities serial n t (entity_map es))) }
{
    let Some(rows) = entity_rows(alloc, tables.entities.as_slice())? else {
        return Ok(None);
    };
    let Some(volumes) = volume_rows(alloc, tables.volumes.as_slice())? else {
        return Ok(None);
    };
    let Some(cells) = cell_rows(alloc, tables.cells.as_slice())? else {
        return Ok(None);
    };
    let Some(namings) = naming_rows(alloc, tables.namings.as_slice())? else {
        return Ok(None);
    };
    Ok(gather_entities(
        alloc,
        serial,
        numbers,
        rows.as_slice(),
        volumes.as_slice(),
        cells.as_slice(),
        namings.as_slice(),
    )?)
}
