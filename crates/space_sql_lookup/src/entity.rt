//! One entity, read by its kind and id or by its number in the tables.
ghost use Rattle.std.specs.Prelude.{◌≡◌, false};
ghost use Rattle.std.specs.FinMap.{get};
ghost use Rattle.sqlite.specs.Held.{state};
ghost use Rattle.space_sql_schema.specs.Within.{SameConnection, Within};
ghost use Rattle.space_sql_select.specs.Reading.{Reads, ReadsAlone, ReadsTables};
ghost use Rattle.space_sql_lookup.specs.Entity.{AnswersNamed, AnswersNumber, FindsNamed, FindsNumbered};

use crate::entity_rows::entity_of_head;
use entity_core::entity::Entity;
use entity_core::entity_id::EntityId;
use entity_core::nature::Kind;
use space_rows::numbers::kind_number;
use space_sql_select::reading::{connection_facts, is_store_alive};
use space_sql_select::select::query;
use sqlite::{Alter, Connection, Error, Row, Transaction, params};
use std::alloc::Global;

// ---- by kind and id

fn query_named<S: Alter>(
    alloc: Global,
    tx: &mut Transaction<'_, S>,
    kind: Kind,
    id: EntityId,
) -> Result<Vec<Row>, Error>
    ensures same_reference { SameConnection tx.old tx.new }
    ensures reads { Within S.Store tx.old tx.new
        (Reads (λ db rows. AnswersNamed (kind, id) db rows.items)) result }
{
    let text = id.text(alloc)?;
    query(
        tx,
        "SELECT num, kind, id, manager, state, version, serial, ovn, url \
         FROM entity WHERE kind = ?1 AND id = ?2",
        params![kind_number(kind), text.as_str()],
    )
}

fn find_named<S: Alter>(
    alloc: Global,
    tx: &mut Transaction<'_, S>,
    kind: Kind,
    id: EntityId,
) -> Result<Option<Entity>, Error>
    ensures same_reference { SameConnection tx.old tx.new }
    ensures reads { Within S.Store tx.old tx.new (Reads (FindsNamed (kind, id))) result }
{
    let _number = id.number();
    let rows = query_named(alloc, tx, kind, id)?;
    entity_of_head(alloc, tx, rows.as_slice())
}

// Reads in a separate transaction, which is rolled back.
fn find_entity_alone<S: Alter>(
    alloc: Global,
    conn: &mut Connection<S>,
    kind: Kind,
    id: EntityId,
) -> Result<Option<Entity>, Error>
    requires { conn.old.in_transaction ≡ false }
    ensures ended { conn.new.in_transaction ≡ false }
    ensures reads { ReadsAlone (FindsNamed (kind, id))
        (state S.Store conn.old) (state S.Store conn.new) result }
{
    let mut tx = conn.transaction();
    let found = find_named(alloc, &mut tx, kind, id)?;
    tx.rollback();
    Ok(found)
}

/// Returns the entity with a kind and an id, if there is one.
///
/// If the tables represent no airspace, the result is unspecified. Returns an error if the store
/// fails or memory runs out.
pub fn read_entity<S: Alter>(
    alloc: Global,
    conn: &mut Connection<S>,
    kind: Kind,
    id: EntityId,
) -> Result<Option<Entity>, Error>
    requires { conn.old.in_transaction ≡ false }
    ensures outside { conn.new.in_transaction ≡ false }
    ensures reads { ReadsTables (state S.Store conn.old) (state S.Store conn.new) result
        (λ a found. found ≡ get a.entities (kind, id)) }
{
    connection_facts(conn);
    let found = find_entity_alone(alloc, conn, kind, id)?;
    is_store_alive(conn)?;
    Ok(found)
}

// ---- by number

fn query_numbered<S: Alter>(tx: &mut Transaction<'_, S>, num: i64) -> Result<Vec<Row>, Error>
    ensures same_reference { SameConnection tx.old tx.new }
    ensures reads { Within S.Store tx.old tx.new
        (Reads (λ db rows. AnswersNumber num db rows.items)) result }
{
    query(
        tx,
        "SELECT num, kind, id, manager, state, version, serial, ovn, url \
         FROM entity WHERE num = ?1",
        params![num],
    )
}

/// Returns the entity whose row has a number, if there is one.
///
/// If the tables represent no airspace, the result is unspecified.
pub fn read_entity_by_num<S: Alter>(
    alloc: Global,
    tx: &mut Transaction<'_, S>,
    num: i64,
) -> Result<Option<Entity>, Error>
    ensures same_reference { SameConnection tx.old tx.new }
    ensures reads { Within S.Store tx.old tx.new (Reads (FindsNumbered num)) result }
{
    let rows = query_numbered(tx, num)?;
    entity_of_head(alloc, tx, rows.as_slice())
}
