//! The rows of one entity, read in a transaction.
ghost use Rattle.std.specs.Prelude.{◌≡◌, List, [], ◌∷◌, map, Some, None, IfOk};
ghost use Rattle.space_rows.specs.Rows.{SpellsEntity};
ghost use Rattle.entity_core.specs.declared.entity.Entity.{Entity as AnEntity};
ghost use Rattle.space_sql_schema.specs.Spelling.{entity_values, volume_values, cell_values};
ghost use Rattle.space_sql_schema.specs.Within.{SameConnection, Within};
ghost use Rattle.space_rows.specs.declared.rows.EntityRow.{EntityRow as AnEntityRow};
ghost use Rattle.space_rows.specs.declared.rows.VolumeRow.{VolumeRow};
ghost use Rattle.space_rows.specs.declared.rows.CellRow.{CellRow};
ghost use Rattle.space_sql_select.specs.Reading.{Reads};
ghost use Rattle.space_sql_lookup.specs.EntityRows.{AnswersVolumes, AnswersCells, AnswersOwn, FindsOfHead};

use crate::naming::read_naming;
use entity_core::entity::Entity;
use entity_core::entity_id::EntityId;
use space_rows::entity::entity_of;
use space_rows::rows::EntityRow;
use space_sql_select::rows::{cell_rows, entity_row, volume_rows};
use space_sql_select::select::query;
use sqlite::{Alter, Error, Row, Transaction, params};
use std::alloc::Global;

/// The rows of an entity in the other tables, in the order of their positions, and the id of the
/// subscription that it references.
#[derive(Drop)]
pub(crate) struct OwnRows {
    pub volumes: Vec<Row>,
    pub cells: Vec<Row>,
    pub named: Option<EntityId>,
}

fn query_volumes<S: Alter>(tx: &mut Transaction<'_, S>, num: i64) -> Result<Vec<Row>, Error>
    ensures same_reference { SameConnection tx.old tx.new }
    ensures reads { Within S.Store tx.old tx.new
        (Reads (λ db rows. AnswersVolumes num db rows.items)) result }
{
    query(
        tx,
        "SELECT entity, place, alt_lower, alt_upper, time_start, time_end \
         FROM volume WHERE entity = ?1 ORDER BY entity, place",
        params![num],
    )
}

fn query_cells<S: Alter>(tx: &mut Transaction<'_, S>, num: i64) -> Result<Vec<Row>, Error>
    ensures same_reference { SameConnection tx.old tx.new }
    ensures reads { Within S.Store tx.old tx.new
        (Reads (λ db rows. AnswersCells num db rows.items)) result }
{
    query(
        tx,
        "SELECT entity, volume, place, token, lo, hi \
         FROM cell WHERE entity = ?1 ORDER BY entity, volume, place",
        params![num],
    )
}

fn query_own<S: Alter>(tx: &mut Transaction<'_, S>, num: i64) -> Result<OwnRows, Error>
    ensures same_reference { SameConnection tx.old tx.new }
    ensures reads { Within S.Store tx.old tx.new (Reads (AnswersOwn num)) result }
{
    Ok(OwnRows {
        volumes: query_volumes(tx, num)?,
        cells: query_cells(tx, num)?,
        named: read_naming(tx, num)?,
    })
}

// Returns the row of an entity, if there is one.
fn entity_head_of(rows: &[Row]) -> Result<Option<EntityRow>, Error>
    ensures none { IfOk result (λ o. rows.now ≡ [] → o ≡ None) }
    ensures one { IfOk result (λ o. (x : AnEntityRow)
        → rows.now ≡ entity_values x ∷ [] → o ≡ Some x) }
{
    let Some(row) = rows.first() else {
        return Ok(None);
    };
    match entity_row(row)? {
        Some(head) => Ok(Some(head)),
        None => Err(Error::QueryReturnedNoRows),
    }
}

// Returns the entity that its rows represent.
fn entity_in(alloc: Global, head: &EntityRow, own: &OwnRows) -> Result<Entity, Error>
    ensures { let rows = own.now in
        IfOk result (λ e. (vs : List VolumeRow) (cs : List CellRow) (x : AnEntity)
        → rows.volumes.items ≡ map volume_values vs → rows.cells.items ≡ map cell_values cs
        → SpellsEntity head.now vs cs rows.named x → e ≡ x) }
{
    let Some(volumes) = volume_rows(alloc, own.volumes.as_slice())? else {
        return Err(Error::QueryReturnedNoRows);
    };
    let Some(cells) = cell_rows(alloc, own.cells.as_slice())? else {
        return Err(Error::QueryReturnedNoRows);
    };
    match entity_of(alloc, head, volumes.as_slice(), cells.as_slice(), own.named)? {
        Some(entity) => Ok(entity),
        None => Err(Error::QueryReturnedNoRows),
    }
}

/// Returns the entity of the row of `entity` that was read, if one was.
pub(crate) fn entity_of_head<S: Alter>(
    alloc: Global,
    tx: &mut Transaction<'_, S>,
    heads: &[Row],
) -> Result<Option<Entity>, Error>
    ensures same_reference { SameConnection tx.old tx.new }
    ensures reads { Within S.Store tx.old tx.new (Reads (FindsOfHead heads.now)) result }
{
    let Some(head) = entity_head_of(heads)? else {
        return Ok(None);
    };
    let own = query_own(tx, head.num)?;
    let entity = entity_in(alloc, &head, &own)?;
    Ok(Some(entity))
}
