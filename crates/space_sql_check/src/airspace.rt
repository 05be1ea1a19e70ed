//! The check of a database with the schema of format 2, at once or in pieces.
ghost use Rattle.std.specs.Prelude.{◌≡◌, false, IfOk, IfSome, Ok};
ghost use Rattle.sqlite.specs.Effect.{Database};
ghost use Rattle.sqlite.specs.Held.{state};
ghost use Rattle.space_sql_select.specs.Reading.{ReadsAlive, ReadsAlone};
ghost use Rattle.space_sql_load.specs.Checking.{JudgesDatabase};
ghost use Rattle.space_sql_check.specs.Checking.{JudgesAirspace, JudgesPieces};

use crate::pieces::{Verdict, check_in_pieces};
use space_sql_load::check::check_tables;
use space_sql_load::table_check::{LoadedAirspace, TableCheck};
use space_sql_load::tables::read_tables;
use space_sql_select::reading::{connection_facts, is_store_alive};
use sqlite::{Alter, Connection, Error, ErrorCode};
use std::alloc::Global;

/// The result of checking tables of format 2.
#[derive(Debug, Drop)]
pub enum AirspaceCheck {
    /// The tables represent this airspace.
    Loaded(LoadedAirspace),
    /// The tables represent an airspace. Memory ran out for all of it, so they were checked in
    /// pieces.
    Valid,
    /// The tables represent no airspace: `meta` has one row, with another format.
    OtherFormat,
    /// The tables represent no airspace, and `meta` gives no other format.
    Invalid,
}

// Reads all tables at once, and checks them.
fn check_whole<S: Alter>(alloc: Global, conn: &mut Connection<S>) -> Result<TableCheck, Error>
    requires { conn.old.in_transaction ≡ false }
    ensures ended { conn.new.in_transaction ≡ false }
    ensures reads { ReadsAlone JudgesDatabase
        (state S.Store conn.old) (state S.Store conn.new) result }
{
    let tables = read_tables(conn)?;
    check_tables(alloc, &tables)
}

// Returns the result of a check, or `None` if memory ran out.
fn unless_lacking(read: Result<TableCheck, Error>) -> Result<Option<TableCheck>, Error>
    ensures { IfOk result (λ o. IfSome o (λ check. read ≡ Ok check)) }
{
    match read {
        Ok(check) => Ok(Some(check)),
        Err(Error::SqliteFailure(ErrorCode::OutOfMemory)) => Ok(None),
        Err(error) => Err(error),
    }
}

// Checks all tables at once. Returns `None` if memory ran out.
fn check_at_once<S: Alter>(
    alloc: Global,
    conn: &mut Connection<S>,
) -> Result<Option<TableCheck>, Error>
    requires { conn.old.in_transaction ≡ false }
    ensures outside { conn.new.in_transaction ≡ false }
    ensures reads { ReadsAlive (λ db o. IfSome o (JudgesDatabase db))
        (state S.Store conn.old) (state S.Store conn.new) result }
{
    connection_facts(conn);
    let read = check_whole(alloc, conn);
    let check = unless_lacking(read)?;
    is_store_alive(conn)?;
    Ok(check)
}

// Returns the result for tables that were read at once.
fn of_whole(check: TableCheck) -> AirspaceCheck
    ensures { (db : Database) → JudgesDatabase db check → JudgesAirspace db result }
{
    match check {
        TableCheck::Valid(loaded) => AirspaceCheck::Loaded(loaded),
        TableCheck::OtherFormat => AirspaceCheck::OtherFormat,
        TableCheck::Invalid => AirspaceCheck::Invalid,
    }
}

// Returns the result for tables that were checked in pieces.
fn of_pieces(verdict: Verdict) -> AirspaceCheck
    ensures { (db : Database) → JudgesPieces db verdict → JudgesAirspace db result }
{
    match verdict {
        Verdict::Valid => AirspaceCheck::Valid,
        Verdict::OtherFormat => AirspaceCheck::OtherFormat,
        Verdict::Invalid => AirspaceCheck::Invalid,
    }
}

/// Checks whether the tables of format 2 represent an airspace, and leaves them unchanged.
///
/// Loads the airspace. If memory runs out for that, checks the tables in pieces.
///
/// The contract describes the result only for a database with the schema of format 2. `Invalid`
/// also covers texts that are not UTF-8. Returns an error if the store fails, if memory runs out
/// for a piece, or if the check in pieces finds a row that belongs to no piece.
pub fn check_airspace<S: Alter>(
    alloc: Global,
    conn: &mut Connection<S>,
) -> Result<AirspaceCheck, Error>
    requires { conn.old.in_transaction ≡ false }
    ensures outside { conn.new.in_transaction ≡ false }
    ensures reads { ReadsAlive JudgesAirspace
        (state S.Store conn.old) (state S.Store conn.new) result }
{
    match check_at_once(alloc, conn)? {
        Some(check) => Ok(of_whole(check)),
        None => {
            let verdict = check_in_pieces(alloc, conn)?;
            Ok(of_pieces(verdict))
        }
    }
}
