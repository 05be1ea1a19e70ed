//! Notification of subscriptions of a change.
ghost use Rattle.space_sql_schema.specs.Within.{SameConnection, Within};
ghost use Rattle.space_sql_write.specs.Layout.{CanBeNotified, with_notified_row};
ghost use Rattle.space_sql_write.specs.Statements.{RelaysSound, Runs};
ghost use Rattle.space_sql_write.specs.SubPutting.{NotifiesRows, NotifiesRow};

use entity_core::entity_id::EntityId;
use sqlite::{Alter, Error, Transaction, params};
use std::alloc::Global;

// Increases the index of the subscription with an id by one.
fn raise_notes<S: Alter>(tx: &mut Transaction<'_, S>, id: &str) -> Result<usize, Error>
    ensures same_reference { SameConnection tx.old tx.new }
    ensures raises { Within S.Store tx.old tx.new
        (Runs (λ _. RelaysSound (CanBeNotified id.now) (with_notified_row id.now))) result }
{
    tx.execute(
        "UPDATE subscription SET notes = notes + 1 WHERE id = ?1",
        params![id],
    )
}

fn notify_one<S: Alter>(
    alloc: Global,
    tx: &mut Transaction<'_, S>,
    id: EntityId,
) -> Result<(), Error>
    ensures same_reference { SameConnection tx.old tx.new }
    ensures tells { Within S.Store tx.old tx.new (Runs (λ _. NotifiesRow id)) result }
{
    let text = id.text(alloc)?;
    raise_notes(tx, text.as_str())?;
    Ok(())
}

/// Increases the index of each of these subscriptions by one.
pub(crate) fn notify_all<S: Alter>(
    alloc: Global,
    tx: &mut Transaction<'_, S>,
    ids: &[EntityId],
) -> Result<(), Error>
    ensures same_reference { SameConnection tx.old tx.new }
    ensures tells { Within S.Store tx.old tx.new (Runs (λ _. NotifiesRows ids.now)) result }
{
    for id in ids {
        notify_one(alloc, tx, *id)?;
    }
    Ok(())
}
