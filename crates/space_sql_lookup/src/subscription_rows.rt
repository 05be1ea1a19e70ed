//! The rows of one subscription, read in a transaction.
ghost use Rattle.std.specs.Prelude.{◌≡◌, List, [], ◌∷◌, map, Some, None, IfOk};
ghost use Rattle.entity_core.specs.declared.subscription.Sub.{Sub as ASub};
ghost use Rattle.space_rows.specs.Subs.{SpellsSub};
ghost use Rattle.space_rows.specs.declared.rows.SubRow.{SubRow as ASubRow};
ghost use Rattle.space_rows.specs.declared.rows.SubCellRow.{SubCellRow};
ghost use Rattle.space_sql_schema.specs.Spelling.{sub_values, sub_cell_values};
ghost use Rattle.space_sql_schema.specs.Within.{SameConnection, Within};
ghost use Rattle.space_sql_select.specs.Reading.{Reads};
ghost use Rattle.space_sql_lookup.specs.SubscriptionRows.{AnswersSubCells, FindsSubOfHead};

use entity_core::subscription::Sub;
use space_rows::rows::SubRow;
use space_rows::sub::sub_of;
use space_sql_select::select::query;
use space_sql_select::sub_rows::{sub_cell_rows, sub_row};
use sqlite::{Alter, Error, Row, Transaction, params};
use std::alloc::Global;

fn query_sub_cells<S: Alter>(tx: &mut Transaction<'_, S>, num: i64) -> Result<Vec<Row>, Error>
    ensures same_reference { SameConnection tx.old tx.new }
    ensures reads { Within S.Store tx.old tx.new
        (Reads (λ db rows. AnswersSubCells num db rows.items)) result }
{
    query(
        tx,
        "SELECT subscription, place, token, lo, hi \
         FROM subscription_cell WHERE subscription = ?1 ORDER BY subscription, place",
        params![num],
    )
}

// Returns the row of a subscription, if there is one.
fn sub_head_of(rows: &[Row]) -> Result<Option<SubRow>, Error>
    ensures none { IfOk result (λ o. rows.now ≡ [] → o ≡ None) }
    ensures one { IfOk result (λ o. (x : ASubRow)
        → rows.now ≡ sub_values x ∷ [] → o ≡ Some x) }
{
    let Some(row) = rows.first() else {
        return Ok(None);
    };
    match sub_row(row)? {
        Some(head) => Ok(Some(head)),
        None => Err(Error::QueryReturnedNoRows),
    }
}

// Returns the subscription that its rows represent.
fn sub_in(alloc: Global, head: &SubRow, cells: &[Row]) -> Result<Sub, Error>
    ensures { IfOk result (λ s. (cs : List SubCellRow) (x : ASub)
        → cells.now ≡ map sub_cell_values cs → SpellsSub head.now cs x → s ≡ x) }
{
    let Some(cells) = sub_cell_rows(alloc, cells)? else {
        return Err(Error::QueryReturnedNoRows);
    };
    match sub_of(alloc, head, cells.as_slice())? {
        Some(sub) => Ok(sub),
        None => Err(Error::QueryReturnedNoRows),
    }
}

/// Returns the subscription of the row of `subscription` that was read, if one was.
pub(crate) fn sub_of_head<S: Alter>(
    alloc: Global,
    tx: &mut Transaction<'_, S>,
    heads: &[Row],
) -> Result<Option<Sub>, Error>
    ensures same_reference { SameConnection tx.old tx.new }
    ensures reads { Within S.Store tx.old tx.new (Reads (FindsSubOfHead heads.now)) result }
{
    let Some(head) = sub_head_of(heads)? else {
        return Ok(None);
    };
    let cells = query_sub_cells(tx, head.num)?;
    let sub = sub_in(alloc, &head, cells.as_slice())?;
    Ok(Some(sub))
}
