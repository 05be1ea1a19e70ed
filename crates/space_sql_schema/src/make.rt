//! Creation of the tables in one transaction.
ghost use Rattle.std.specs.Prelude.{◌≡◌, false, OnOk, OnErr, IsTrue};
ghost use Rattle.sqlite.specs.Held.{state};
ghost use Rattle.sqlite.specs.State.{HasCleanDisk, Survives};
ghost use Rattle.space_sql_schema.specs.declared.format.Format.TheVariants.{One};
ghost use Rattle.space_sql_schema.specs.Making.{AddsToFour, AreMade, AreMadeFirst, IsBare, IsMade, IsUndone, Leads, EmptyIfNoTable, SpellsEmptyAs, Steps};
ghost use Rattle.space_sql_schema.specs.Tables.{no_schema, first_schema, dss_schema, schema_1, schema_2, schema_3, schema_4, schema_5};
ghost use Rattle.space_sql_schema.specs.Within.{SameConnection, Within};

use crate::upgrade::make_later;
use sqlite::{Alter, Connection, Error, Transaction};

fn make_meta<S: Alter>(tx: &mut Transaction<'_, S>) -> Result<usize, Error>
    ensures same_reference { SameConnection tx.old tx.new }
    ensures leads { Within S.Store tx.old tx.new
        (Leads (IsBare no_schema) (IsBare schema_1)) result }
{
    tx.execute(
        "CREATE TABLE meta (one INTEGER PRIMARY KEY NOT NULL CHECK (one = 1), \
         format INTEGER NOT NULL, serial INTEGER NOT NULL CHECK (serial >= 0)) STRICT",
        &[],
    )
}

fn make_entity<S: Alter>(tx: &mut Transaction<'_, S>) -> Result<usize, Error>
    ensures same_reference { SameConnection tx.old tx.new }
    ensures leads { Within S.Store tx.old tx.new
        (Leads (IsBare schema_1) (IsBare schema_2)) result }
{
    tx.execute(
        "CREATE TABLE entity (num INTEGER PRIMARY KEY NOT NULL, \
         kind INTEGER NOT NULL CHECK (kind IN (0, 1)), id TEXT NOT NULL, manager TEXT NOT NULL, \
         state INTEGER NOT NULL CHECK (state BETWEEN 0 AND 4), \
         version INTEGER NOT NULL CHECK (version BETWEEN 1 AND 2147483647), \
         serial INTEGER NOT NULL CHECK (serial >= 0), ovn TEXT NOT NULL, url TEXT NOT NULL, \
         UNIQUE (kind, id)) STRICT",
        &[],
    )
}

fn make_volume<S: Alter>(tx: &mut Transaction<'_, S>) -> Result<usize, Error>
    ensures same_reference { SameConnection tx.old tx.new }
    ensures leads { Within S.Store tx.old tx.new
        (Leads (IsBare schema_2) (IsBare schema_3)) result }
{
    tx.execute(
        "CREATE TABLE volume (entity INTEGER NOT NULL REFERENCES entity (num) ON DELETE CASCADE, \
         place INTEGER NOT NULL, alt_lower INTEGER NOT NULL, alt_upper INTEGER NOT NULL, \
         time_start INTEGER NOT NULL, time_end INTEGER NOT NULL, PRIMARY KEY (entity, place), \
         CHECK (alt_lower <= alt_upper), CHECK (time_start <= time_end)) STRICT",
        &[],
    )
}

fn make_cell<S: Alter>(tx: &mut Transaction<'_, S>) -> Result<usize, Error>
    ensures same_reference { SameConnection tx.old tx.new }
    ensures leads { Within S.Store tx.old tx.new
        (Leads (IsBare schema_3) (IsBare schema_4)) result }
{
    tx.execute(
        "CREATE TABLE cell (entity INTEGER NOT NULL, volume INTEGER NOT NULL, \
         place INTEGER NOT NULL, token TEXT NOT NULL, lo INTEGER NOT NULL, hi INTEGER NOT NULL, \
         PRIMARY KEY (entity, volume, place), \
         FOREIGN KEY (entity, volume) REFERENCES volume (entity, place) ON DELETE CASCADE, \
         CHECK (lo <= hi)) STRICT",
        &[],
    )
}

/// Creates the table `availability` beside those before it.
pub(crate) fn make_availability<S: Alter>(tx: &mut Transaction<'_, S>) -> Result<usize, Error>
    ensures same_reference { SameConnection tx.old tx.new }
    ensures adds { Within S.Store tx.old tx.new (Steps (AddsToFour schema_4 schema_5)) result }
{
    tx.execute(
        "CREATE TABLE availability (uss TEXT NOT NULL PRIMARY KEY, \
         state INTEGER NOT NULL CHECK (state BETWEEN 0 AND 2), version TEXT NOT NULL) STRICT",
        &[],
    )
}

// Creates the index on the ranges of cells in tables of format 1.
fn make_first_range<S: Alter>(tx: &mut Transaction<'_, S>) -> Result<usize, Error>
    ensures same_reference { SameConnection tx.old tx.new }
    ensures leads { Within S.Store tx.old tx.new
        (Leads (IsBare schema_5) (IsBare first_schema)) result }
{
    tx.execute("CREATE INDEX cell_range ON cell (lo, hi)", &[])
}

fn add_first_row<S: Alter>(tx: &mut Transaction<'_, S>) -> Result<usize, Error>
    ensures same_reference { SameConnection tx.old tx.new }
    ensures leads { Within S.Store tx.old tx.new (Leads (IsBare dss_schema) IsMade) result }
{
    tx.execute(
        "INSERT INTO meta (one, format, serial) VALUES (1, 2, 0)",
        &[],
    )
}

// Inserts the first row of `meta` into tables of format 1.
fn add_old_row<S: Alter>(tx: &mut Transaction<'_, S>) -> Result<usize, Error>
    ensures same_reference { SameConnection tx.old tx.new }
    ensures leads { Within S.Store tx.old tx.new
        (Leads (IsBare first_schema) (SpellsEmptyAs One)) result }
{
    tx.execute(
        "INSERT INTO meta (one, format, serial) VALUES (1, 1, 0)",
        &[],
    )
}

// Creates the tables `meta` and `entity`.
fn make_heads<S: Alter>(tx: &mut Transaction<'_, S>) -> Result<(), Error>
    ensures same_reference { SameConnection tx.old tx.new }
    ensures leads { Within S.Store tx.old tx.new
        (Leads (IsBare no_schema) (IsBare schema_2)) result }
{
    make_meta(tx)?;
    make_entity(tx)?;
    Ok(())
}

// Creates the tables `volume` and `cell`.
fn make_extents<S: Alter>(tx: &mut Transaction<'_, S>) -> Result<(), Error>
    ensures same_reference { SameConnection tx.old tx.new }
    ensures leads { Within S.Store tx.old tx.new
        (Leads (IsBare schema_2) (IsBare schema_4)) result }
{
    make_volume(tx)?;
    make_cell(tx)?;
    Ok(())
}

fn make_four<S: Alter>(tx: &mut Transaction<'_, S>) -> Result<(), Error>
    ensures same_reference { SameConnection tx.old tx.new }
    ensures leads { Within S.Store tx.old tx.new
        (Leads (IsBare no_schema) (IsBare schema_4)) result }
{
    make_heads(tx)?;
    make_extents(tx)?;
    Ok(())
}

// Creates the tables of format 1, without the index on the ranges of cells.
fn make_five<S: Alter>(tx: &mut Transaction<'_, S>) -> Result<(), Error>
    ensures same_reference { SameConnection tx.old tx.new }
    ensures leads { Within S.Store tx.old tx.new
        (Leads (IsBare no_schema) (IsBare schema_5)) result }
{
    make_four(tx)?;
    make_availability(tx)?;
    Ok(())
}

// Creates the tables of format 1 and their index.
fn make_first<S: Alter>(tx: &mut Transaction<'_, S>) -> Result<(), Error>
    ensures same_reference { SameConnection tx.old tx.new }
    ensures leads { Within S.Store tx.old tx.new
        (Leads (IsBare no_schema) (IsBare first_schema)) result }
{
    make_five(tx)?;
    make_first_range(tx)?;
    Ok(())
}

// Creates the tables of format 2, and then their indexes. Those of format 1 come first, so that
// upgraded tables have the same schema.
fn make_both<S: Alter>(tx: &mut Transaction<'_, S>) -> Result<(), Error>
    ensures same_reference { SameConnection tx.old tx.new }
    ensures leads { Within S.Store tx.old tx.new
        (Leads (IsBare no_schema) (IsBare dss_schema)) result }
{
    make_five(tx)?;
    make_later(tx)?;
    Ok(())
}

// Creates all tables and the first row of `meta`.
fn make_all<S: Alter>(tx: &mut Transaction<'_, S>) -> Result<(), Error>
    ensures same_reference { SameConnection tx.old tx.new }
    ensures leads { Within S.Store tx.old tx.new (Leads (IsBare no_schema) IsMade) result }
{
    make_both(tx)?;
    add_first_row(tx)?;
    Ok(())
}

// Creates all tables of format 1 and the first row of `meta`.
fn make_all_first<S: Alter>(tx: &mut Transaction<'_, S>) -> Result<(), Error>
    ensures same_reference { SameConnection tx.old tx.new }
    ensures leads { Within S.Store tx.old tx.new
        (Leads (IsBare no_schema) (SpellsEmptyAs One)) result }
{
    make_first(tx)?;
    add_old_row(tx)?;
    Ok(())
}

/// Creates the tables and the first row of `meta`, in one transaction.
///
/// It is for a database that has no table. For any other, the contract only says that `Ok` leaves a
/// committed database.
pub fn make_tables<S: Alter>(conn: &mut Connection<S>) -> Result<(), Error>
    requires { conn.old.in_transaction ≡ false }
    ensures ended { conn.new.in_transaction ≡ false }
    ensures done { let old = state S.Store conn.old in
        let new = state S.Store conn.new in
        HasCleanDisk new → OnOk result (AreMade old new) }
    ensures err { let old = state S.Store conn.old in
        let new = state S.Store conn.new in
        HasCleanDisk new → IsTrue new.is_open → OnErr result (IsUndone old new) }
    ensures crash { let old = state S.Store conn.old in
        Survives old (state S.Store conn.new) (EmptyIfNoTable old) }
{
    let mut tx = conn.transaction();
    make_all(&mut tx)?;
    tx.commit()
}

/// Creates tables of format 1, in one transaction, for tests of the upgrade to format 2. They stand
/// in the order in which SQLite's `VACUUM` leaves those that earlier versions created.
///
/// It is for a database that has no table.
pub fn make_format_1<S: Alter>(conn: &mut Connection<S>) -> Result<(), Error>
    requires { conn.old.in_transaction ≡ false }
    ensures ended { conn.new.in_transaction ≡ false }
    ensures done { let old = state S.Store conn.old in
        let new = state S.Store conn.new in
        HasCleanDisk new → OnOk result (AreMadeFirst old new) }
{
    let mut tx = conn.transaction();
    make_all_first(&mut tx)?;
    tx.commit()
}
