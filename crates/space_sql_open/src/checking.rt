//! The check of a database that has all tables of format 2, or only some tables.
ghost use Rattle.std.specs.Prelude.{◌≡◌, ◌≢◌, false, Err, IfErr, IfOk, IsTrue, OnOk};
ghost use Rattle.sqlite.specs.Effect.{Database};
ghost use Rattle.sqlite.specs.Held.{state};
ghost use Rattle.sqlite.specs.State.{HasCleanDisk, Survives};
ghost use Rattle.space_sql_schema.specs.Tables.{dss_schema};
ghost use Rattle.space_sql_select.specs.Reading.{IsAsFound};
ghost use Rattle.space_sql_load.specs.Checking.{JudgesDatabase};
ghost use Rattle.space_sql_check.specs.Checking.{JudgesAirspace};
ghost use Rattle.space_sql_open.specs.Opening.{ChecksTables, ChecksWhole};
ghost use Rattle.space_sql_open.specs.declared.open_fault.OpenFault.TheVariants.{Store};

use crate::open_fault::OpenFault;
use space_sql_check::airspace::{AirspaceCheck, check_airspace};
use space_sql_load::table_check::{LoadedAirspace, TableCheck};
use space_sql_schema::presence::has_meta;
use space_sql_select::meta::has_other_format;
use sqlite::{Alter, Connection, Error};
use std::alloc::Global;

// Returns the loaded airspace if the check found one, or the fault.
fn airspace_of(check: TableCheck) -> Result<LoadedAirspace, OpenFault>
    ensures { (db : Database) → JudgesDatabase db check → ChecksTables db result }
{
    match check {
        TableCheck::Valid(listed) => Ok(listed),
        TableCheck::OtherFormat => Err(OpenFault::Version),
        TableCheck::Invalid => Err(OpenFault::NotADss),
    }
}

/// Returns the loaded airspace if the tables were read and represent one, or the fault.
pub(crate) fn airspace_or_fault(
    read: Result<TableCheck, Error>,
) -> Result<LoadedAirspace, OpenFault>
    ensures examines { (db : Database) → IfOk read (JudgesDatabase db) → ChecksTables db result }
    ensures failed { IfErr read (λ _. result ≡ Err Store) }
{
    match read {
        Ok(check) => airspace_of(check),
        Err(_) => Err(OpenFault::Store),
    }
}

// Returns the airspace if it was loaded, `None` if it was checked in pieces, or the fault.
fn loaded_or_fault(check: AirspaceCheck) -> Result<Option<LoadedAirspace>, OpenFault>
    ensures { (db : Database) → JudgesAirspace db check → ChecksWhole db result }
{
    match check {
        AirspaceCheck::Loaded(loaded) => Ok(Some(loaded)),
        AirspaceCheck::Valid => Ok(None),
        AirspaceCheck::OtherFormat => Err(OpenFault::Version),
        AirspaceCheck::Invalid => Err(OpenFault::NotADss),
    }
}

// Returns the loaded airspace if the tables were read and represent one, or the fault.
fn checked_or_fault(
    check: Result<AirspaceCheck, Error>,
) -> Result<Option<LoadedAirspace>, OpenFault>
    ensures examines { (db : Database) → IfOk check (JudgesAirspace db) → ChecksWhole db result }
    ensures failed { IfErr check (λ _. result ≡ Err Store) }
{
    match check {
        Ok(check) => loaded_or_fault(check),
        Err(_) => Err(OpenFault::Store),
    }
}

/// Returns the airspace of tables of format 2, if they represent one, or `None` if memory ran out
/// for it: then they were checked in pieces. It writes nothing.
pub fn check_format_2<S: Alter>(
    alloc: Global,
    conn: &mut Connection<S>,
) -> Result<Option<LoadedAirspace>, OpenFault>
    requires { conn.old.in_transaction ≡ false }
    ensures outside { conn.new.in_transaction ≡ false }
    ensures examines { HasCleanDisk (state S.Store conn.new)
        → (state S.Store conn.old).now.schema ≡ dss_schema
        → ChecksWhole (state S.Store conn.old).now result }
    ensures open { HasCleanDisk (state S.Store conn.new)
        → OnOk result (IsTrue (state S.Store conn.new).is_open) }
    ensures at_rest { HasCleanDisk (state S.Store conn.new)
        → (state S.Store conn.old).now.schema ≡ dss_schema → result ≢ Err Store
        → IsAsFound (state S.Store conn.old) (state S.Store conn.new) }
    ensures survives { Survives (state S.Store conn.old) (state S.Store conn.new) (λ _. ⊥) }
{
    let check = check_airspace(alloc, conn);
    checked_or_fault(check)
}

// Returns the fault for an error of reading `meta` in tables that can be foreign. A text that
// cannot be compiled under their schema is no fault of the store.
fn fault_of(error: &Error) -> OpenFault {
    match error {
        Error::SqlInputError(_) => OpenFault::NotADss,
        _ => OpenFault::Store,
    }
}

/// Returns why a database with only some of the tables, or without some of their columns, is
/// rejected.
///
/// The table `meta`, if it exists, can give another format. It writes nothing.
pub fn partial_schema_fault<S: Alter>(conn: &mut Connection<S>) -> OpenFault
    requires { conn.old.in_transaction ≡ false }
    ensures outside { conn.new.in_transaction ≡ false }
    ensures survives { Survives (state S.Store conn.old) (state S.Store conn.new) (λ _. ⊥) }
{
    if !has_meta(conn.schema()) {
        return OpenFault::NotADss;
    }
    match has_other_format(conn) {
        Ok(true) => OpenFault::Version,
        Ok(false) => OpenFault::NotADss,
        Err(error) => fault_of(&error),
    }
}
