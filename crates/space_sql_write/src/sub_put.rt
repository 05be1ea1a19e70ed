//! Storing of a subscription in place of the one with its id.
ghost use Rattle.std.specs.Prelude.{◌≤ℤ◌, pos, []};
ghost use Rattle.space_core.specs.declared.space.Change.TheVariants.{PutSub};
ghost use Rattle.space_sql_schema.specs.Within.{SameConnection, Within};
ghost use Rattle.space_sql_write.specs.Statements.{MakesChange, Runs};
ghost use Rattle.space_sql_write.specs.SubPutting.{InsertsSub, ReplacesSub, StoresSub};

use crate::inserted::insert_all;
use crate::number::sub_number_of;
use crate::serial::raise_serial;
use crate::sub_insert::{insert_sub_row, update_sub_row};
use crate::sub_remove::clear_sub_cells;
use entity_core::subscription::Sub;
use space_rows::sub::rows_of_sub;
use sqlite::{Alter, Error, Transaction};
use std::alloc::Global;

// Replaces the rows of a subscription with a number. Its row is updated and not removed, since
// intents can reference it.
fn replace_sub<S: Alter>(
    alloc: Global,
    tx: &mut Transaction<'_, S>,
    sub: &Sub,
    num: i64,
) -> Result<(), Error>
    requires least { pos 1 ≤ℤ num }
    requires most { num ≤ℤ pos sub.now.serial }
    ensures same_reference { SameConnection tx.old tx.new }
    ensures replaces { Within S.Store tx.old tx.new (Runs (λ _. ReplacesSub sub.now num)) result }
{
    let (row, cells) = rows_of_sub(alloc, sub, num)?;
    clear_sub_cells(tx, num)?;
    update_sub_row(tx, &row)?;
    insert_all(tx, &cells)
}

fn insert_sub<S: Alter>(
    alloc: Global,
    tx: &mut Transaction<'_, S>,
    sub: &Sub,
    num: i64,
) -> Result<(), Error>
    requires least { pos 1 ≤ℤ num }
    requires most { num ≤ℤ pos sub.now.serial }
    ensures same_reference { SameConnection tx.old tx.new }
    ensures inserts { Within S.Store tx.old tx.new (Runs (λ _. InsertsSub sub.now num)) result }
{
    let (row, cells) = rows_of_sub(alloc, sub, num)?;
    insert_sub_row(tx, &row)?;
    insert_all(tx, &cells)
}

// Stores the rows of a subscription, under the number of the one with its id, or under its serial.
fn store_sub<S: Alter>(alloc: Global, tx: &mut Transaction<'_, S>, sub: &Sub) -> Result<(), Error>
    ensures same_reference { SameConnection tx.old tx.new }
    ensures stores { Within S.Store tx.old tx.new (Runs (λ _. StoresSub sub.now)) result }
{
    let serial = sub.serial.number();
    match sub_number_of(alloc, tx, sub.id)? {
        Some(num) => {
            if num < 1 || num as u64 > serial {
                return Err(Error::IntegralValueOutOfRange(0));
            }
            replace_sub(alloc, tx, sub, num)
        }
        None => insert_sub(alloc, tx, sub, serial as i64),
    }
}

/// Stores a subscription. It keeps the number of the one with its id, if there is one.
pub fn put_sub<S: Alter>(alloc: Global, tx: &mut Transaction<'_, S>, sub: &Sub) -> Result<(), Error>
    ensures same_reference { SameConnection tx.old tx.new }
    ensures changes { Within S.Store tx.old tx.new
        (Runs (λ _. MakesChange (PutSub sub.now) [])) result }
{
    store_sub(alloc, tx, sub)?;
    raise_serial(tx)?;
    Ok(())
}
