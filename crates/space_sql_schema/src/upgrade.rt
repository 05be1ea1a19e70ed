//! Upgrade of tables of format 1 to format 2, in one transaction.
ghost use Rattle.std.specs.Prelude.{◌≡◌, false, OnOk, OnErr, IsTrue};
ghost use Rattle.sqlite.specs.Held.{state};
ghost use Rattle.sqlite.specs.State.{HasCleanDisk, Survives};
ghost use Rattle.space_sql_schema.specs.Making.{AddsIndex, AddsRest, AddsTables, AreUpgraded, IsUndone, MayBeUpgraded, SetsFormat, Steps, Upgrades};
ghost use Rattle.space_sql_schema.specs.Tables.{first_schema, schema_5, schema_6, schema_7, schema_8, schema_9, unindexed_schema, second_schema};
ghost use Rattle.space_sql_schema.specs.Within.{SameConnection, Within};

use sqlite::{Alter, Connection, Error, Transaction};

// Drops the index on the ranges of cells, so that the later tables precede it when it is created
// again.
fn drop_range<S: Alter>(tx: &mut Transaction<'_, S>) -> Result<usize, Error>
    ensures same_reference { SameConnection tx.old tx.new }
    ensures adds { Within S.Store tx.old tx.new (Steps (AddsTables first_schema schema_5)) result }
{
    tx.execute("DROP INDEX IF EXISTS cell_range", &[])
}

fn make_subscription<S: Alter>(tx: &mut Transaction<'_, S>) -> Result<usize, Error>
    ensures same_reference { SameConnection tx.old tx.new }
    ensures adds { Within S.Store tx.old tx.new (Steps (AddsTables schema_5 schema_6)) result }
{
    tx.execute(
        "CREATE TABLE subscription (num INTEGER PRIMARY KEY NOT NULL, id TEXT NOT NULL UNIQUE, \
         manager TEXT NOT NULL, serial INTEGER NOT NULL CHECK (serial >= 0), \
         version TEXT NOT NULL, notes INTEGER NOT NULL CHECK (notes >= 0), url TEXT NOT NULL, \
         for_intents INTEGER NOT NULL CHECK (for_intents IN (0, 1)), \
         for_constraints INTEGER NOT NULL CHECK (for_constraints IN (0, 1)), \
         alt_lower INTEGER NOT NULL, alt_upper INTEGER NOT NULL, \
         time_start INTEGER NOT NULL, time_end INTEGER NOT NULL, \
         CHECK (for_intents = 1 OR for_constraints = 1), CHECK (alt_lower <= alt_upper), \
         CHECK (time_start <= time_end)) STRICT",
        &[],
    )
}

fn make_subscription_cell<S: Alter>(tx: &mut Transaction<'_, S>) -> Result<usize, Error>
    ensures same_reference { SameConnection tx.old tx.new }
    ensures adds { Within S.Store tx.old tx.new (Steps (AddsTables schema_6 schema_7)) result }
{
    tx.execute(
        "CREATE TABLE subscription_cell (\
         subscription INTEGER NOT NULL REFERENCES subscription (num) ON DELETE CASCADE, \
         place INTEGER NOT NULL, token TEXT NOT NULL, lo INTEGER NOT NULL, hi INTEGER NOT NULL, \
         PRIMARY KEY (subscription, place), CHECK (lo <= hi)) STRICT",
        &[],
    )
}

fn make_naming<S: Alter>(tx: &mut Transaction<'_, S>) -> Result<usize, Error>
    ensures same_reference { SameConnection tx.old tx.new }
    ensures adds { Within S.Store tx.old tx.new (Steps (AddsTables schema_7 schema_8)) result }
{
    tx.execute(
        "CREATE TABLE naming (\
         entity INTEGER PRIMARY KEY NOT NULL REFERENCES entity (num) ON DELETE CASCADE, \
         subscription INTEGER NOT NULL REFERENCES subscription (num) ON DELETE RESTRICT) STRICT",
        &[],
    )
}

fn make_range<S: Alter>(tx: &mut Transaction<'_, S>) -> Result<usize, Error>
    ensures same_reference { SameConnection tx.old tx.new }
    ensures adds { Within S.Store tx.old tx.new (Steps (AddsTables schema_8 schema_9)) result }
{
    tx.execute("CREATE INDEX cell_range ON cell (lo, hi)", &[])
}

fn make_subscription_range<S: Alter>(tx: &mut Transaction<'_, S>) -> Result<usize, Error>
    ensures same_reference { SameConnection tx.old tx.new }
    ensures adds { Within S.Store tx.old tx.new
        (Steps (AddsTables schema_9 unindexed_schema)) result }
{
    tx.execute(
        "CREATE INDEX subscription_cell_range ON subscription_cell (lo, hi)",
        &[],
    )
}

fn make_naming_index<S: Alter>(tx: &mut Transaction<'_, S>) -> Result<usize, Error>
    ensures same_reference { SameConnection tx.old tx.new }
    ensures adds { Within S.Store tx.old tx.new (Steps AddsIndex) result }
{
    tx.execute(
        "CREATE INDEX naming_subscription ON naming (subscription)",
        &[],
    )
}

/// Sets the format in `meta` to 2, within an open transaction.
pub fn set_format<S: Alter>(tx: &mut Transaction<'_, S>) -> Result<usize, Error>
    ensures same_reference { SameConnection tx.old tx.new }
    ensures sets { Within S.Store tx.old tx.new (Steps SetsFormat) result }
{
    tx.execute("UPDATE meta SET format = 2 WHERE one = 1", &[])
}

// Creates the tables `subscription` and `subscription_cell`.
fn make_subscriptions<S: Alter>(tx: &mut Transaction<'_, S>) -> Result<(), Error>
    ensures same_reference { SameConnection tx.old tx.new }
    ensures adds { Within S.Store tx.old tx.new (Steps (AddsTables schema_5 schema_7)) result }
{
    make_subscription(tx)?;
    make_subscription_cell(tx)?;
    Ok(())
}

// Creates the tables of format 2 that format 1 does not have.
fn make_others<S: Alter>(tx: &mut Transaction<'_, S>) -> Result<(), Error>
    ensures same_reference { SameConnection tx.old tx.new }
    ensures adds { Within S.Store tx.old tx.new (Steps (AddsTables schema_5 schema_8)) result }
{
    make_subscriptions(tx)?;
    make_naming(tx)?;
    Ok(())
}

// Creates the indexes on the ranges of cells.
fn make_ranges<S: Alter>(tx: &mut Transaction<'_, S>) -> Result<(), Error>
    ensures same_reference { SameConnection tx.old tx.new }
    ensures adds { Within S.Store tx.old tx.new
        (Steps (AddsTables schema_8 unindexed_schema)) result }
{
    make_range(tx)?;
    make_subscription_range(tx)?;
    Ok(())
}

// Creates the tables of format 2 that format 1 does not have, and the indexes on cells.
fn make_unindexed<S: Alter>(tx: &mut Transaction<'_, S>) -> Result<(), Error>
    ensures same_reference { SameConnection tx.old tx.new }
    ensures adds { Within S.Store tx.old tx.new
        (Steps (AddsTables schema_5 unindexed_schema)) result }
{
    make_others(tx)?;
    make_ranges(tx)?;
    Ok(())
}

/// Adds the index on `naming` to tables of format 2, within an open transaction. The rows stay.
pub fn add_index<S: Alter>(tx: &mut Transaction<'_, S>) -> Result<(), Error>
    ensures same_reference { SameConnection tx.old tx.new }
    ensures adds { Within S.Store tx.old tx.new (Steps AddsIndex) result }
{
    make_naming_index(tx)?;
    Ok(())
}

/// Creates the tables of format 2 that format 1 does not have, and then the indexes on cells and on
/// `naming`. SQLite's `VACUUM` leaves them in this order.
pub(crate) fn make_later<S: Alter>(tx: &mut Transaction<'_, S>) -> Result<(), Error>
    ensures same_reference { SameConnection tx.old tx.new }
    ensures adds { Within S.Store tx.old tx.new (Steps (AddsRest schema_5)) result }
{
    make_unindexed(tx)?;
    add_index(tx)?;
    Ok(())
}

// Creates the later tables beside those of format 1, with all indexes after them.
fn add_later<S: Alter>(tx: &mut Transaction<'_, S>) -> Result<(), Error>
    ensures same_reference { SameConnection tx.old tx.new }
    ensures adds { Within S.Store tx.old tx.new
        (Steps (AddsTables first_schema second_schema)) result }
{
    drop_range(tx)?;
    make_later(tx)?;
    Ok(())
}

/// Upgrades tables of format 1 to format 2, within an open transaction. The rows stay.
pub fn upgrade_in_transaction<S: Alter>(tx: &mut Transaction<'_, S>) -> Result<(), Error>
    ensures same_reference { SameConnection tx.old tx.new }
    ensures upgrades { Within S.Store tx.old tx.new (Steps Upgrades) result }
{
    add_later(tx)?;
    set_format(tx)?;
    Ok(())
}

/// Upgrades tables of format 1 to format 2, in one transaction.
///
/// It is for tables of format 1. For any other, the contract only says that `Ok` leaves a committed
/// database.
pub fn upgrade_tables<S: Alter>(conn: &mut Connection<S>) -> Result<(), Error>
    requires { conn.old.in_transaction ≡ false }
    ensures ended { conn.new.in_transaction ≡ false }
    ensures done { let old = state S.Store conn.old in
        let new = state S.Store conn.new in
        HasCleanDisk new → OnOk result (AreUpgraded old new) }
    ensures err { let old = state S.Store conn.old in
        let new = state S.Store conn.new in
        HasCleanDisk new → IsTrue new.is_open → OnErr result (IsUndone old new) }
    ensures crash { let old = state S.Store conn.old in
        Survives old (state S.Store conn.new) (MayBeUpgraded old) }
{
    let mut tx = conn.transaction();
    upgrade_in_transaction(&mut tx)?;
    tx.commit()
}
