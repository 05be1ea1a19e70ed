//! Storing of an entity in place of the one with its kind and id.
ghost use Rattle.std.specs.Prelude.{◌≤ℤ◌, pos, IfOk, []};
ghost use Rattle.space_core.specs.declared.space.Change.TheVariants.{Put};
ghost use Rattle.space_sql_schema.specs.Within.{SameConnection, Within};
ghost use Rattle.space_sql_write.specs.Statements.{Runs, MakesChange};
ghost use Rattle.space_sql_write.specs.Putting.{FindsNaming, InsertsEntity, MakesRoom};

use crate::insert::insert_rows;
use crate::number::{number_of, sub_number_of};
use crate::remove::clear_entity;
use crate::serial::raise_serial;
use entity_core::entity::Entity;
use space_rows::entity::rows_of;
use sqlite::{Alter, Error, Transaction};
use std::alloc::Global;

// Returns the number for the rows of an entity, after removing the rows that have it.
fn make_room<S: Alter>(
    alloc: Global,
    tx: &mut Transaction<'_, S>,
    entity: &Entity,
) -> Result<i64, Error>
    ensures same_reference { SameConnection tx.old tx.new }
    ensures least { IfOk result (λ num. pos 1 ≤ℤ num) }
    ensures most { IfOk result (λ num. num ≤ℤ pos entity.now.serial) }
    ensures room { Within S.Store tx.old tx.new (Runs (MakesRoom entity.now)) result }
{
    let serial = entity.serial.number();
    match number_of(alloc, tx, entity.nature.kind(), entity.id)? {
        Some(num) => {
            if num < 1 || num as u64 > serial {
                return Err(Error::IntegralValueOutOfRange(0));
            }
            clear_entity(tx, num)?;
            Ok(num)
        }
        None => Ok(serial as i64),
    }
}

// Returns the number of the subscription that an entity references, if it references one. Returns
// an error if that subscription does not exist.
fn naming_of<S: Alter>(
    alloc: Global,
    tx: &mut Transaction<'_, S>,
    entity: &Entity,
) -> Result<Option<i64>, Error>
    ensures same_reference { SameConnection tx.old tx.new }
    ensures finds { Within S.Store tx.old tx.new (Runs (FindsNaming entity.now)) result }
{
    match entity.nature.subscription() {
        Some(id) => match sub_number_of(alloc, tx, id)? {
            Some(num) => Ok(Some(num)),
            None => Err(Error::QueryReturnedNoRows),
        },
        None => Ok(None),
    }
}

fn insert_entity<S: Alter>(
    alloc: Global,
    tx: &mut Transaction<'_, S>,
    entity: &Entity,
    num: i64,
    named: Option<i64>,
) -> Result<(), Error>
    requires least { pos 1 ≤ℤ num }
    requires most { num ≤ℤ pos entity.now.serial }
    ensures same_reference { SameConnection tx.old tx.new }
    ensures inserts { Within S.Store tx.old tx.new
        (Runs (λ _. InsertsEntity entity.now num named)) result }
{
    let (row, volumes, cells) = rows_of(alloc, entity, num)?;
    insert_rows(tx, &row, &volumes, &cells, named)
}

/// Stores an entity. It keeps the number of the one with its kind and id, if there is one.
pub fn put_entity<S: Alter>(
    alloc: Global,
    tx: &mut Transaction<'_, S>,
    entity: &Entity,
) -> Result<(), Error>
    ensures same_reference { SameConnection tx.old tx.new }
    ensures changes { Within S.Store tx.old tx.new
        (Runs (λ _. MakesChange (Put entity.now) [])) result }
{
    let named = naming_of(alloc, tx, entity)?;
    let num = make_room(alloc, tx, entity)?;
    insert_entity(alloc, tx, entity, num, named)?;
    raise_serial(tx)?;
    Ok(())
}
