//! A single SELECT, in a transaction or outside one.
ghost use Rattle.std.specs.Prelude.{◌≡◌, false};
ghost use Rattle.sqlite.specs.Held.{state};
ghost use Rattle.sqlite.specs.Values.{bound};
ghost use Rattle.space_sql_schema.specs.Within.{SameConnection, Within};
ghost use Rattle.space_sql_select.specs.Reading.{Reads, ReadsAlive, ReadsAlone};
ghost use Rattle.space_sql_select.specs.Selecting.{IsSelect, Answers};

use crate::reading::{connection_facts, is_store_alive};
use sqlite::types::ValueRef;
use sqlite::{Alter, Connection, Error, Row, Transaction};

/// Returns the result of a SELECT in a transaction.
pub fn query<S: Alter>(
    tx: &mut Transaction<'_, S>,
    sql: &str,
    params: &[ValueRef<'_>],
) -> Result<Vec<Row>, Error>
    requires { IsSelect sql.now }
    ensures same_reference { SameConnection tx.old tx.new }
    ensures reads { Within S.Store tx.old tx.new
        (Reads (λ db rows. Answers sql.now (bound params.now) db rows.items)) result }
{
    tx.query_all(sql, params)
}

fn query_alone<S: Alter>(
    conn: &mut Connection<S>,
    sql: &str,
    params: &[ValueRef<'_>],
) -> Result<Vec<Row>, Error>
    requires outside { conn.old.in_transaction ≡ false }
    requires select { IsSelect sql.now }
    ensures ended { conn.new.in_transaction ≡ false }
    ensures reads { ReadsAlone (λ db rows. Answers sql.now (bound params.now) db rows.items)
        (state S.Store conn.old) (state S.Store conn.new) result }
{
    let mut tx = conn.transaction();
    let rows = query(&mut tx, sql, params)?;
    tx.rollback();
    Ok(rows)
}

/// Returns the result of a SELECT, if the store is alive after it. It leaves the tables unchanged.
pub fn select<S: Alter>(
    conn: &mut Connection<S>,
    sql: &str,
    params: &[ValueRef<'_>],
) -> Result<Vec<Row>, Error>
    requires outside { conn.old.in_transaction ≡ false }
    requires select { IsSelect sql.now }
    ensures outside { conn.new.in_transaction ≡ false }
    ensures reads { ReadsAlive (λ db rows. Answers sql.now (bound params.now) db rows.items)
        (state S.Store conn.old) (state S.Store conn.new) result }
{
    connection_facts(conn);
    let rows = query_alone(conn, sql, params)?;
    is_store_alive(conn)?;
    Ok(rows)
}
