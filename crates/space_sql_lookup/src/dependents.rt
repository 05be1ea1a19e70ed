//! The ids of the entities that reference a subscription, read from a connection.
ghost use Rattle.std.specs.Prelude.{◌≡◌, false};
ghost use Rattle.sqlite.specs.Held.{state};
ghost use Rattle.entity_core.specs.Search.{dependents_in};
ghost use Rattle.space_sql_schema.specs.Within.{SameConnection, Within};
ghost use Rattle.space_sql_select.specs.Reading.{Reads, ReadsAlone, ReadsTables};
ghost use Rattle.space_sql_lookup.specs.Dependents.{AnswersSubNum, AnswersNamers, AnswersId, FindsId, FindsIds, FindsDependents};

use crate::values::{id_among, number_among, numbers_of};
use entity_core::entity_id::EntityId;
use space_sql_select::reading::{connection_facts, is_store_alive};
use space_sql_select::select::query;
use sqlite::{Alter, Connection, Error, Row, Transaction, params};
use std::alloc::Global;

fn query_num<S: Alter>(
    alloc: Global,
    tx: &mut Transaction<'_, S>,
    id: EntityId,
) -> Result<Vec<Row>, Error>
    ensures same_reference { SameConnection tx.old tx.new }
    ensures reads { Within S.Store tx.old tx.new
        (Reads (λ db rows. AnswersSubNum id db rows.items)) result }
{
    let text = id.text(alloc)?;
    query(
        tx,
        "SELECT num FROM subscription WHERE id = ?1",
        params![text.as_str()],
    )
}

fn query_namers<S: Alter>(tx: &mut Transaction<'_, S>, num: i64) -> Result<Vec<Row>, Error>
    ensures same_reference { SameConnection tx.old tx.new }
    ensures reads { Within S.Store tx.old tx.new
        (Reads (λ db rows. AnswersNamers num db rows.items)) result }
{
    query(
        tx,
        "SELECT entity FROM naming WHERE subscription = ?1",
        params![num],
    )
}

fn query_id<S: Alter>(tx: &mut Transaction<'_, S>, num: i64) -> Result<Vec<Row>, Error>
    ensures same_reference { SameConnection tx.old tx.new }
    ensures reads { Within S.Store tx.old tx.new
        (Reads (λ db rows. AnswersId num db rows.items)) result }
{
    query(tx, "SELECT id FROM entity WHERE num = ?1", params![num])
}

fn read_id<S: Alter>(tx: &mut Transaction<'_, S>, num: i64) -> Result<EntityId, Error>
    ensures same_reference { SameConnection tx.old tx.new }
    ensures reads { Within S.Store tx.old tx.new (Reads (FindsId num)) result }
{
    let rows = query_id(tx, num)?;
    id_among(rows.as_slice())
}

fn read_ids<S: Alter>(
    alloc: Global,
    tx: &mut Transaction<'_, S>,
    numbers: &[i64],
) -> Result<Vec<EntityId>, Error>
    ensures same_reference { SameConnection tx.old tx.new }
    ensures reads { Within S.Store tx.old tx.new
        (Reads (λ db ids. FindsIds numbers.now db ids.items)) result }
{
    let mut ids = Vec::new(alloc);
    for num in numbers {
        let id = read_id(tx, *num)?;
        ids.push(id)?;
    }
    Ok(ids)
}

fn find_dependents<S: Alter>(
    alloc: Global,
    tx: &mut Transaction<'_, S>,
    id: EntityId,
) -> Result<Vec<EntityId>, Error>
    ensures same_reference { SameConnection tx.old tx.new }
    ensures reads { Within S.Store tx.old tx.new
        (Reads (λ db ids. FindsDependents id db ids.items)) result }
{
    let _number = id.number();
    let nums = query_num(alloc, tx, id)?;
    let Some(num) = number_among(nums.as_slice())? else {
        return Ok(Vec::new(alloc));
    };
    let namers = query_namers(tx, num)?;
    let numbers = numbers_of(alloc, namers.as_slice())?;
    let mut ids = read_ids(alloc, tx, numbers.as_slice())?;
    ids.sort_unstable();
    Ok(ids)
}

// Reads in a separate transaction, which is rolled back.
fn find_dependents_alone<S: Alter>(
    alloc: Global,
    conn: &mut Connection<S>,
    id: EntityId,
) -> Result<Vec<EntityId>, Error>
    requires { conn.old.in_transaction ≡ false }
    ensures ended { conn.new.in_transaction ≡ false }
    ensures reads { ReadsAlone (λ db ids. FindsDependents id db ids.items)
        (state S.Store conn.old) (state S.Store conn.new) result }
{
    let mut tx = conn.transaction();
    let ids = find_dependents(alloc, &mut tx, id)?;
    tx.rollback();
    Ok(ids)
}

/// Returns the ids of the intents that reference a subscription, in ascending order.
///
/// If the tables represent no airspace, the result is unspecified. It reads no cells. Returns an
/// error if the store fails or memory runs out.
pub fn read_dependents<S: Alter>(
    alloc: Global,
    conn: &mut Connection<S>,
    id: EntityId,
) -> Result<Vec<EntityId>, Error>
    requires { conn.old.in_transaction ≡ false }
    ensures outside { conn.new.in_transaction ≡ false }
    ensures reads { ReadsTables (state S.Store conn.old) (state S.Store conn.new) result
        (λ a found. found.items ≡ dependents_in a.entities id) }
{
    connection_facts(conn);
    let ids = find_dependents_alone(alloc, conn, id)?;
    is_store_alive(conn)?;
    Ok(ids)
}
