//! Reading of the airspace from a connection.
ghost use Rattle.std.specs.Prelude.{◌≡◌, false};
ghost use Rattle.sqlite.specs.Held.{state};
ghost use Rattle.space_sql_schema.specs.Within.{SameConnection, Within};
ghost use Rattle.space_sql_load.specs.Checking.{JudgesDatabase};
ghost use Rattle.space_sql_select.specs.Reading.{Reads, ReadsAlive};
ghost use Rattle.space_sql_load.specs.Showing.{ShowsTables};

use crate::check::check_tables;
use crate::table_check::TableCheck;
use crate::tables::{Tables, read_all, read_tables};
use space_sql_select::reading::{connection_facts, is_store_alive};
use sqlite::{Alter, Connection, Error, Transaction};
use std::alloc::Global;

// Reads all tables, if the store is alive after it.
fn read_alive<S: Alter>(conn: &mut Connection<S>) -> Result<Tables, Error>
    requires { conn.old.in_transaction ≡ false }
    ensures outside { conn.new.in_transaction ≡ false }
    ensures reads { ReadsAlive ShowsTables
        (state S.Store conn.old) (state S.Store conn.new) result }
{
    connection_facts(conn);
    let tables = read_tables(conn)?;
    is_store_alive(conn)?;
    Ok(tables)
}

/// Reads the airspace that the tables of format 2 represent, and leaves them unchanged.
///
/// The contract describes the result only for a database with the schema of format 2. `Invalid`
/// also covers texts that are not UTF-8. Returns an error if the store fails or memory runs out.
pub fn read_airspace<S: Alter>(alloc: Global, conn: &mut Connection<S>) -> Result<TableCheck, Error>
    requires { conn.old.in_transaction ≡ false }
    ensures outside { conn.new.in_transaction ≡ false }
    ensures reads { ReadsAlive JudgesDatabase
        (state S.Store conn.old) (state S.Store conn.new) result }
{
    let tables = read_alive(conn)?;
    check_tables(alloc, &tables)
}

/// Reads the airspace that the tables of format 2 represent, within an open transaction.
pub fn read_airspace_in_transaction<S: Alter>(
    alloc: Global,
    tx: &mut Transaction<'_, S>,
) -> Result<TableCheck, Error>
    ensures same_reference { SameConnection tx.old tx.new }
    ensures reads { Within S.Store tx.old tx.new (Reads JudgesDatabase) result }
{
    let tables = read_all(tx)?;
    check_tables(alloc, &tables)
}
