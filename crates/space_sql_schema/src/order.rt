//! Tables of the old order, dropped and created anew in the new order.
//!
//! The number of a new tree is one above the largest, and a dropped tree leaves a gap. So the
//! tables and indexes after the keys of `cell` are all dropped before the first one is created.
ghost use Rattle.space_sql_schema.specs.Making.{AddsToCells, KeepsTables, LaysAnew, Steps};
ghost use Rattle.space_sql_schema.specs.Tables.{schema_4, old_first_schema, old_unindexed_schema, old_second_schema, old_schema_4, old_schema_6, old_schema_7};
ghost use Rattle.space_sql_schema.specs.Within.{SameConnection, Within};

use crate::make::make_availability;
use crate::upgrade::make_later;
use sqlite::{Alter, Error, Transaction};

/// Drops the index on `naming`, within an open transaction.
pub fn drop_naming_index<S: Alter>(tx: &mut Transaction<'_, S>) -> Result<usize, Error>
    ensures same_reference { SameConnection tx.old tx.new }
    ensures keeps { Within S.Store tx.old tx.new
        (Steps (KeepsTables old_second_schema old_unindexed_schema)) result }
{
    tx.execute("DROP INDEX naming_subscription", &[])
}

fn drop_naming<S: Alter>(tx: &mut Transaction<'_, S>) -> Result<usize, Error>
    ensures same_reference { SameConnection tx.old tx.new }
    ensures keeps { Within S.Store tx.old tx.new
        (Steps (KeepsTables old_unindexed_schema old_schema_7)) result }
{
    tx.execute("DROP TABLE naming", &[])
}

fn drop_subscription_cell<S: Alter>(tx: &mut Transaction<'_, S>) -> Result<usize, Error>
    ensures same_reference { SameConnection tx.old tx.new }
    ensures keeps { Within S.Store tx.old tx.new
        (Steps (KeepsTables old_schema_7 old_schema_6)) result }
{
    tx.execute("DROP TABLE subscription_cell", &[])
}

fn drop_subscription<S: Alter>(tx: &mut Transaction<'_, S>) -> Result<usize, Error>
    ensures same_reference { SameConnection tx.old tx.new }
    ensures keeps { Within S.Store tx.old tx.new
        (Steps (KeepsTables old_schema_6 old_first_schema)) result }
{
    tx.execute("DROP TABLE subscription", &[])
}

fn drop_availability<S: Alter>(tx: &mut Transaction<'_, S>) -> Result<usize, Error>
    ensures same_reference { SameConnection tx.old tx.new }
    ensures keeps { Within S.Store tx.old tx.new
        (Steps (KeepsTables old_first_schema old_schema_4)) result }
{
    tx.execute("DROP TABLE availability", &[])
}

fn drop_old_range<S: Alter>(tx: &mut Transaction<'_, S>) -> Result<usize, Error>
    ensures same_reference { SameConnection tx.old tx.new }
    ensures keeps { Within S.Store tx.old tx.new
        (Steps (KeepsTables old_schema_4 schema_4)) result }
{
    tx.execute("DROP INDEX IF EXISTS cell_range", &[])
}

// Drops the tables that refer to subscriptions.
fn drop_references<S: Alter>(tx: &mut Transaction<'_, S>) -> Result<(), Error>
    ensures same_reference { SameConnection tx.old tx.new }
    ensures keeps { Within S.Store tx.old tx.new
        (Steps (KeepsTables old_unindexed_schema old_schema_6)) result }
{
    drop_naming(tx)?;
    drop_subscription_cell(tx)?;
    Ok(())
}

/// Drops the tables that format 2 added, within an open transaction. A table is dropped after those
/// that refer to it, since a row takes the rows with it that refer to it.
pub fn drop_later<S: Alter>(tx: &mut Transaction<'_, S>) -> Result<(), Error>
    ensures same_reference { SameConnection tx.old tx.new }
    ensures keeps { Within S.Store tx.old tx.new
        (Steps (KeepsTables old_unindexed_schema old_first_schema)) result }
{
    drop_references(tx)?;
    drop_subscription(tx)?;
    Ok(())
}

// Drops what stands between the keys of `cell` and the tables that format 2 added.
fn drop_middle<S: Alter>(tx: &mut Transaction<'_, S>) -> Result<(), Error>
    ensures same_reference { SameConnection tx.old tx.new }
    ensures keeps { Within S.Store tx.old tx.new
        (Steps (KeepsTables old_first_schema schema_4)) result }
{
    drop_availability(tx)?;
    drop_old_range(tx)?;
    Ok(())
}

// Creates the tables after `cell`, and then all indexes.
fn make_rest<S: Alter>(tx: &mut Transaction<'_, S>) -> Result<(), Error>
    ensures same_reference { SameConnection tx.old tx.new }
    ensures adds { Within S.Store tx.old tx.new (Steps AddsToCells) result }
{
    make_availability(tx)?;
    make_later(tx)?;
    Ok(())
}

/// Drops `availability` and the index on cells, and creates all tables of format 2 after `cell` in
/// the new order, within an open transaction. The new tables are empty.
pub fn lay_anew<S: Alter>(tx: &mut Transaction<'_, S>) -> Result<(), Error>
    ensures same_reference { SameConnection tx.old tx.new }
    ensures lays { Within S.Store tx.old tx.new (Steps LaysAnew) result }
{
    drop_middle(tx)?;
    make_rest(tx)?;
    Ok(())
}
