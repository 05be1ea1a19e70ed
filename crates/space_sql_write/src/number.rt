//! The numbers under which the tables store entities and subscriptions.
ghost use Rattle.std.specs.Prelude.{IfOk};
ghost use Rattle.space_sql_schema.specs.Within.{SameConnection, Within};
ghost use Rattle.space_sql_write.specs.Statements.{FindsNumber, FindsSubNumber, IsShown, Runs, ShowsEntities, ShowsSubs};

use entity_core::entity_id::EntityId;
use entity_core::nature::Kind;
use space_rows::numbers::kind_number;
use sqlite::{Alter, Error, Row, Transaction, params};
use std::alloc::Global;

// Returns the numbers of the rows with a kind and an id.
fn numbers<S: Alter>(tx: &mut Transaction<'_, S>, kind: i64, id: &str) -> Result<Vec<Row>, Error>
    ensures same_reference { SameConnection tx.old tx.new }
    ensures shows { Within S.Store tx.old tx.new
        (Runs (λ rows. ShowsEntities kind id.now rows.items)) result }
{
    tx.query_all(
        "SELECT num FROM entity WHERE kind = ?1 AND id = ?2",
        params![kind, id],
    )
}

// Returns the numbers of the subscriptions with an id.
fn sub_numbers<S: Alter>(tx: &mut Transaction<'_, S>, id: &str) -> Result<Vec<Row>, Error>
    ensures same_reference { SameConnection tx.old tx.new }
    ensures shows { Within S.Store tx.old tx.new
        (Runs (λ rows. ShowsSubs id.now rows.items)) result }
{
    tx.query_all("SELECT num FROM subscription WHERE id = ?1", params![id])
}

// Returns the first of the numbers that are shown, if there is one.
fn first_number(rows: &[Row]) -> Result<Option<i64>, Error>
    ensures { IfOk result (λ found. IsShown rows.now found) }
{
    match rows.first() {
        Some(row) => Ok(Some(row.get(0)?)),
        None => Ok(None),
    }
}

/// Returns the number of an entity, if the tables have it.
pub(crate) fn number_of<S: Alter>(
    alloc: Global,
    tx: &mut Transaction<'_, S>,
    kind: Kind,
    id: EntityId,
) -> Result<Option<i64>, Error>
    ensures same_reference { SameConnection tx.old tx.new }
    ensures finds { Within S.Store tx.old tx.new (Runs (FindsNumber (kind, id))) result }
{
    let _number = id.number();
    let text = id.text(alloc)?;
    let rows = numbers(tx, kind_number(kind), text.as_str())?;
    first_number(rows.as_slice())
}

/// Returns the number of a subscription, if the tables have it.
pub(crate) fn sub_number_of<S: Alter>(
    alloc: Global,
    tx: &mut Transaction<'_, S>,
    id: EntityId,
) -> Result<Option<i64>, Error>
    ensures same_reference { SameConnection tx.old tx.new }
    ensures finds { Within S.Store tx.old tx.new (Runs (FindsSubNumber id)) result }
{
    let _number = id.number();
    let text = id.text(alloc)?;
    let rows = sub_numbers(tx, text.as_str())?;
    first_number(rows.as_slice())
}
