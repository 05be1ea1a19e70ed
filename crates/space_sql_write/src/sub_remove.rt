//! Removal of the rows of a subscription, cells first.
ghost use Rattle.std.specs.Prelude.{[]};
ghost use Rattle.space_core.specs.declared.space.Change.TheVariants.{RemoveSub};
ghost use Rattle.space_sql_schema.specs.Within.{SameConnection, Within};
ghost use Rattle.space_sql_write.specs.Layout.{Always, IsFree, IsUnnamed, Relays, without_sub_cells, without_sub_row, without_sub_rows};
ghost use Rattle.space_sql_write.specs.Statements.{MakesChange, RelaysSound, Runs};

use crate::number::sub_number_of;
use crate::serial::raise_serial;
use entity_core::entity_id::EntityId;
use sqlite::{Alter, Error, Transaction, params};
use std::alloc::Global;

/// Removes the cells of a subscription.
pub(crate) fn clear_sub_cells<S: Alter>(
    tx: &mut Transaction<'_, S>,
    num: i64,
) -> Result<usize, Error>
    ensures same_reference { SameConnection tx.old tx.new }
    ensures clears { Within S.Store tx.old tx.new
        (Runs (λ _. Relays Always (without_sub_cells num))) result }
{
    tx.execute(
        "DELETE FROM subscription_cell WHERE subscription = ?1",
        params![num],
    )
}

fn clear_sub_row<S: Alter>(tx: &mut Transaction<'_, S>, num: i64) -> Result<usize, Error>
    ensures same_reference { SameConnection tx.old tx.new }
    ensures clears { Within S.Store tx.old tx.new
        (Runs (λ _. RelaysSound (IsFree num) (without_sub_row num))) result }
{
    tx.execute("DELETE FROM subscription WHERE num = ?1", params![num])
}

/// Removes all rows of a subscription that no entity references.
pub(crate) fn clear_sub<S: Alter>(tx: &mut Transaction<'_, S>, num: i64) -> Result<(), Error>
    ensures same_reference { SameConnection tx.old tx.new }
    ensures clears { Within S.Store tx.old tx.new
        (Runs (λ _. RelaysSound (IsUnnamed num) (without_sub_rows num))) result }
{
    clear_sub_cells(tx, num)?;
    clear_sub_row(tx, num)?;
    Ok(())
}

/// Removes the subscription with an id. Returns an error if there is none, or if an intent
/// references it.
pub fn remove_sub<S: Alter>(
    alloc: Global,
    tx: &mut Transaction<'_, S>,
    id: EntityId,
) -> Result<(), Error>
    ensures same_reference { SameConnection tx.old tx.new }
    ensures changes { Within S.Store tx.old tx.new
        (Runs (λ _. MakesChange (RemoveSub id) [])) result }
{
    let Some(num) = sub_number_of(alloc, tx, id)? else {
        return Err(Error::QueryReturnedNoRows);
    };
    clear_sub(tx, num)?;
    raise_serial(tx)?;
    Ok(())
}
