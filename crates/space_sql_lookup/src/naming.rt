//! The subscription that an entity references, read in a transaction.
ghost use Rattle.space_sql_schema.specs.Within.{SameConnection, Within};
ghost use Rattle.space_sql_select.specs.Reading.{Reads};
ghost use Rattle.space_sql_lookup.specs.Naming.{AnswersNaming, AnswersSubId, FindsNaming};

use crate::values::{id_among, number_among};
use entity_core::entity_id::EntityId;
use space_sql_select::select::query;
use sqlite::{Alter, Error, Row, Transaction, params};

fn query_naming<S: Alter>(tx: &mut Transaction<'_, S>, num: i64) -> Result<Vec<Row>, Error>
    ensures same_reference { SameConnection tx.old tx.new }
    ensures reads { Within S.Store tx.old tx.new
        (Reads (λ db rows. AnswersNaming num db rows.items)) result }
{
    query(
        tx,
        "SELECT subscription FROM naming WHERE entity = ?1",
        params![num],
    )
}

fn query_sub_id<S: Alter>(tx: &mut Transaction<'_, S>, num: i64) -> Result<Vec<Row>, Error>
    ensures same_reference { SameConnection tx.old tx.new }
    ensures reads { Within S.Store tx.old tx.new
        (Reads (λ db rows. AnswersSubId num db rows.items)) result }
{
    query(
        tx,
        "SELECT id FROM subscription WHERE num = ?1",
        params![num],
    )
}

/// Returns the id of the subscription that the entity with a number references, if any.
///
/// If the tables represent no airspace, the result is unspecified.
pub(crate) fn read_naming<S: Alter>(
    tx: &mut Transaction<'_, S>,
    num: i64,
) -> Result<Option<EntityId>, Error>
    ensures same_reference { SameConnection tx.old tx.new }
    ensures reads { Within S.Store tx.old tx.new (Reads (FindsNaming num)) result }
{
    let rows = query_naming(tx, num)?;
    let Some(sub) = number_among(rows.as_slice())? else {
        return Ok(None);
    };
    let ids = query_sub_id(tx, sub)?;
    let id = id_among(ids.as_slice())?;
    Ok(Some(id))
}
