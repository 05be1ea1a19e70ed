//! Removal of the rows of an entity, those that refer to others first.
ghost use Rattle.std.specs.Prelude.{◌<◌, []};
ghost use Rattle.entity_core.specs.Serial.{max_serial};
ghost use Rattle.space_core.specs.declared.space.Change.TheVariants.{Remove};
ghost use Rattle.space_sql_schema.specs.Within.{SameConnection, Within};
ghost use Rattle.space_sql_write.specs.Layout.{Always, LacksCells, LacksParts, Relays, with_next_serial, without_cells, without_entity_row, without_naming, without_parts, without_rows, without_volumes};
ghost use Rattle.space_sql_write.specs.Statements.{RelaysSound, Runs, MakesChange};

use crate::number::number_of;
use crate::serial::raise_serial;
use entity_core::entity_id::EntityId;
use entity_core::nature::Kind;
use sqlite::{Alter, Error, Transaction, params};
use std::alloc::Global;

fn clear_cells<S: Alter>(tx: &mut Transaction<'_, S>, num: i64) -> Result<usize, Error>
    ensures same_reference { SameConnection tx.old tx.new }
    ensures clears { Within S.Store tx.old tx.new
        (Runs (λ _. Relays Always (without_cells num))) result }
{
    tx.execute("DELETE FROM cell WHERE entity = ?1", params![num])
}

fn clear_volumes<S: Alter>(tx: &mut Transaction<'_, S>, num: i64) -> Result<usize, Error>
    ensures same_reference { SameConnection tx.old tx.new }
    ensures clears { Within S.Store tx.old tx.new
        (Runs (λ _. Relays (LacksCells num) (without_volumes num))) result }
{
    tx.execute("DELETE FROM volume WHERE entity = ?1", params![num])
}

fn clear_naming<S: Alter>(tx: &mut Transaction<'_, S>, num: i64) -> Result<usize, Error>
    ensures same_reference { SameConnection tx.old tx.new }
    ensures clears { Within S.Store tx.old tx.new
        (Runs (λ _. Relays Always (without_naming num))) result }
{
    tx.execute("DELETE FROM naming WHERE entity = ?1", params![num])
}

fn clear_row<S: Alter>(tx: &mut Transaction<'_, S>, num: i64) -> Result<usize, Error>
    ensures same_reference { SameConnection tx.old tx.new }
    ensures clears { Within S.Store tx.old tx.new
        (Runs (λ _. RelaysSound (LacksParts num) (without_entity_row num))) result }
{
    tx.execute("DELETE FROM entity WHERE num = ?1", params![num])
}

// Removes the volumes of an entity, their cells, and its row of `naming`.
fn clear_parts<S: Alter>(tx: &mut Transaction<'_, S>, num: i64) -> Result<(), Error>
    ensures same_reference { SameConnection tx.old tx.new }
    ensures clears { Within S.Store tx.old tx.new
        (Runs (λ _. Relays Always (without_parts num))) result }
{
    clear_naming(tx, num)?;
    clear_cells(tx, num)?;
    clear_volumes(tx, num)?;
    Ok(())
}

/// Removes all rows of an entity.
pub(crate) fn clear_entity<S: Alter>(tx: &mut Transaction<'_, S>, num: i64) -> Result<(), Error>
    ensures same_reference { SameConnection tx.old tx.new }
    ensures clears { Within S.Store tx.old tx.new
        (Runs (λ _. RelaysSound Always (without_rows num))) result }
{
    clear_parts(tx, num)?;
    clear_row(tx, num)?;
    Ok(())
}

// Removes the entity with a number, and increases the serial by one.
fn remove_numbered<S: Alter>(tx: &mut Transaction<'_, S>, num: i64) -> Result<(), Error>
    ensures same_reference { SameConnection tx.old tx.new }
    ensures removes { Within S.Store tx.old tx.new
        (Runs (λ _. RelaysSound (λ l. l.serial < max_serial)
        (λ l. with_next_serial (without_rows num l)))) result }
{
    clear_entity(tx, num)?;
    raise_serial(tx)?;
    Ok(())
}

/// Removes the entity with a kind and an id. Returns an error if there is none.
pub fn remove_entity<S: Alter>(
    alloc: Global,
    tx: &mut Transaction<'_, S>,
    kind: Kind,
    id: EntityId,
) -> Result<(), Error>
    ensures same_reference { SameConnection tx.old tx.new }
    ensures changes { Within S.Store tx.old tx.new
        (Runs (λ _. MakesChange (Remove kind id) [])) result }
{
    let Some(num) = number_of(alloc, tx, kind, id)? else {
        return Err(Error::QueryReturnedNoRows);
    };
    remove_numbered(tx, num)
}
