//! The availability that a USS set, read from a connection or in a transaction.
ghost use Rattle.std.specs.Prelude.{◌≡◌, false, Option, IfOk};
ghost use Rattle.std.specs.FinMap.{get};
ghost use Rattle.sqlite.specs.Held.{state};
ghost use Rattle.entity_core.specs.Airspace.{VersionedAvailability};
ghost use Rattle.space_sql_schema.specs.Within.{SameConnection, Within};
ghost use Rattle.space_sql_select.specs.Reading.{Reads, ReadsAlone, ReadsTables};
ghost use Rattle.space_sql_lookup.specs.Availability.{AnswersStated, FindsStated, rows_of_setting};

use entity_core::availability::Availability;
use entity_core::ovn::Ovn;
use entity_core::uss_id::UssId;
use space_sql_select::availability_record::availability_record_in;
use space_sql_select::reading::{connection_facts, is_store_alive};
use space_sql_select::select::query;
use sqlite::{Alter, Connection, Error, Row, Transaction, params};
use std::alloc::Global;

// Returns the availability that the rows give for a USS, if any.
fn availability_of(
    alloc: Global,
    uss: &UssId,
    rows: &[Row],
) -> Result<Option<(Availability, Ovn)>, Error>
    ensures { IfOk result (λ o. (stated : Option VersionedAvailability)
        → rows.now ≡ rows_of_setting uss.now stated → o ≡ stated) }
{
    let Some(row) = rows.first() else {
        return Ok(None);
    };
    match availability_record_in(alloc, row)? {
        Some(setting) => Ok(Some((setting.availability, setting.version))),
        None => Err(Error::QueryReturnedNoRows),
    }
}

fn query_stated<S: Alter>(tx: &mut Transaction<'_, S>, uss: &UssId) -> Result<Vec<Row>, Error>
    ensures same_reference { SameConnection tx.old tx.new }
    ensures reads { Within S.Store tx.old tx.new
        (Reads (λ db rows. AnswersStated uss.now db rows.items)) result }
{
    query(
        tx,
        "SELECT uss, state, version FROM availability WHERE uss = ?1",
        params![uss.text()],
    )
}

/// Returns the availability that a USS set, if it set one.
///
/// If the tables represent no airspace, the result is unspecified.
pub fn read_availability_in_transaction<S: Alter>(
    alloc: Global,
    tx: &mut Transaction<'_, S>,
    uss: &UssId,
) -> Result<Option<(Availability, Ovn)>, Error>
    ensures same_reference { SameConnection tx.old tx.new }
    ensures reads { Within S.Store tx.old tx.new (Reads (FindsStated uss.now)) result }
{
    let rows = query_stated(tx, uss)?;
    availability_of(alloc, uss, rows.as_slice())
}

// Reads in a separate transaction, which is rolled back.
fn find_stated_alone<S: Alter>(
    alloc: Global,
    conn: &mut Connection<S>,
    uss: &UssId,
) -> Result<Option<(Availability, Ovn)>, Error>
    requires { conn.old.in_transaction ≡ false }
    ensures ended { conn.new.in_transaction ≡ false }
    ensures reads { ReadsAlone (FindsStated uss.now)
        (state S.Store conn.old) (state S.Store conn.new) result }
{
    let mut tx = conn.transaction();
    let found = read_availability_in_transaction(alloc, &mut tx, uss)?;
    tx.rollback();
    Ok(found)
}

/// Returns the availability that a USS set, if it set one.
///
/// If the tables represent no airspace, the result is unspecified. Returns an error if the store
/// fails or memory runs out.
pub fn read_availability<S: Alter>(
    alloc: Global,
    conn: &mut Connection<S>,
    uss: &UssId,
) -> Result<Option<(Availability, Ovn)>, Error>
    requires { conn.old.in_transaction ≡ false }
    ensures outside { conn.new.in_transaction ≡ false }
    ensures reads { ReadsTables (state S.Store conn.old) (state S.Store conn.new) result
        (λ a found. found ≡ get a.availabilities uss.now) }
{
    connection_facts(conn);
    let found = find_stated_alone(alloc, conn, uss)?;
    is_store_alive(conn)?;
    Ok(found)
}
