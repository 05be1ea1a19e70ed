//! One subscription, read by its id or by its number in the tables.
ghost use Rattle.std.specs.Prelude.{◌≡◌, false};
ghost use Rattle.std.specs.FinMap.{get};
ghost use Rattle.sqlite.specs.Held.{state};
ghost use Rattle.space_sql_schema.specs.Within.{SameConnection, Within};
ghost use Rattle.space_sql_select.specs.Reading.{Reads, ReadsAlone, ReadsTables};
ghost use Rattle.space_sql_lookup.specs.Subscription.{AnswersSub, AnswersSubNumber, FindsSub, FindsSubNumbered};

use crate::subscription_rows::sub_of_head;
use entity_core::entity_id::EntityId;
use entity_core::subscription::Sub;
use space_sql_select::reading::{connection_facts, is_store_alive};
use space_sql_select::select::query;
use sqlite::{Alter, Connection, Error, Row, Transaction, params};
use std::alloc::Global;

// ---- by id

fn query_sub<S: Alter>(
    alloc: Global,
    tx: &mut Transaction<'_, S>,
    id: EntityId,
) -> Result<Vec<Row>, Error>
    ensures same_reference { SameConnection tx.old tx.new }
    ensures reads { Within S.Store tx.old tx.new
        (Reads (λ db rows. AnswersSub id db rows.items)) result }
{
    let text = id.text(alloc)?;
    query(
        tx,
        "SELECT num, id, manager, serial, version, notes, url, for_intents, for_constraints, \
         alt_lower, alt_upper, time_start, time_end FROM subscription WHERE id = ?1",
        params![text.as_str()],
    )
}

fn find_sub<S: Alter>(
    alloc: Global,
    tx: &mut Transaction<'_, S>,
    id: EntityId,
) -> Result<Option<Sub>, Error>
    ensures same_reference { SameConnection tx.old tx.new }
    ensures reads { Within S.Store tx.old tx.new (Reads (FindsSub id)) result }
{
    let _number = id.number();
    let rows = query_sub(alloc, tx, id)?;
    sub_of_head(alloc, tx, rows.as_slice())
}

// Reads in a separate transaction, which is rolled back.
fn find_sub_alone<S: Alter>(
    alloc: Global,
    conn: &mut Connection<S>,
    id: EntityId,
) -> Result<Option<Sub>, Error>
    requires { conn.old.in_transaction ≡ false }
    ensures ended { conn.new.in_transaction ≡ false }
    ensures reads { ReadsAlone (FindsSub id)
        (state S.Store conn.old) (state S.Store conn.new) result }
{
    let mut tx = conn.transaction();
    let found = find_sub(alloc, &mut tx, id)?;
    tx.rollback();
    Ok(found)
}

/// Returns the subscription with an id, if there is one.
///
/// If the tables represent no airspace, the result is unspecified. Returns an error if the store
/// fails or memory runs out.
pub fn read_subscription<S: Alter>(
    alloc: Global,
    conn: &mut Connection<S>,
    id: EntityId,
) -> Result<Option<Sub>, Error>
    requires { conn.old.in_transaction ≡ false }
    ensures outside { conn.new.in_transaction ≡ false }
    ensures reads { ReadsTables (state S.Store conn.old) (state S.Store conn.new) result
        (λ a found. found ≡ get a.subscriptions id) }
{
    connection_facts(conn);
    let found = find_sub_alone(alloc, conn, id)?;
    is_store_alive(conn)?;
    Ok(found)
}

// ---- by number

fn query_sub_numbered<S: Alter>(tx: &mut Transaction<'_, S>, num: i64) -> Result<Vec<Row>, Error>
    ensures same_reference { SameConnection tx.old tx.new }
    ensures reads { Within S.Store tx.old tx.new
        (Reads (λ db rows. AnswersSubNumber num db rows.items)) result }
{
    query(
        tx,
        "SELECT num, id, manager, serial, version, notes, url, for_intents, for_constraints, \
         alt_lower, alt_upper, time_start, time_end FROM subscription WHERE num = ?1",
        params![num],
    )
}

/// Returns the subscription whose row has a number, if there is one.
///
/// If the tables represent no airspace, the result is unspecified.
pub fn read_sub_by_num<S: Alter>(
    alloc: Global,
    tx: &mut Transaction<'_, S>,
    num: i64,
) -> Result<Option<Sub>, Error>
    ensures same_reference { SameConnection tx.old tx.new }
    ensures reads { Within S.Store tx.old tx.new (Reads (FindsSubNumbered num)) result }
{
    let rows = query_sub_numbered(tx, num)?;
    sub_of_head(alloc, tx, rows.as_slice())
}
