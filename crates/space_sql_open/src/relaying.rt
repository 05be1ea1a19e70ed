//! Tables of the old order, created anew in the new order with the same rows.
ghost use Rattle.space_sql_schema.specs.Within.{SameConnection, Within};
ghost use Rattle.space_sql_open.specs.Relaying.{Carries, Puts, RelaysAll, RelaysFirst, RelaysFormat, RelaysSettings, listed, with_cells, with_later, with_subs};

use crate::old_rows::Aside;
use crate::reinserting::reinsert_all;
use space_sql_schema::order::{drop_later, lay_anew};
use space_sql_schema::upgrade::set_format;
use space_sql_select::availability_record::AvailabilityRecord;
use sqlite::{Alter, Error, Transaction};

/// Creates the tables after `cell` anew, with these rows in `availability`, within an open
/// transaction. It is for tables of format 1.
pub(crate) fn relay_first<S: Alter>(
    tx: &mut Transaction<'_, S>,
    settings: &[AvailabilityRecord],
) -> Result<(), Error>
    ensures same_reference { SameConnection tx.old tx.new }
    ensures relays { Within S.Store tx.old tx.new (Carries (RelaysFirst settings.now)) result }
{
    lay_anew(tx)?;
    reinsert_all(tx, settings)?;
    Ok(())
}

// Inserts the rows of subscriptions, and those of their cells.
fn reinsert_subs<S: Alter>(tx: &mut Transaction<'_, S>, aside: &Aside) -> Result<(), Error>
    ensures same_reference { SameConnection tx.old tx.new }
    ensures puts { let rows = listed aside.now in
        Within S.Store tx.old tx.new
        (Carries (Puts (λ l. with_cells rows.cells (with_subs rows.subs l)))) result }
{
    reinsert_all(tx, aside.subs.as_slice())?;
    reinsert_all(tx, aside.cells.as_slice())?;
    Ok(())
}

// Inserts the rows of the tables that format 2 added, those of a table before those that refer to
// them.
fn reinsert_later<S: Alter>(tx: &mut Transaction<'_, S>, aside: &Aside) -> Result<(), Error>
    ensures same_reference { SameConnection tx.old tx.new }
    ensures puts { Within S.Store tx.old tx.new
        (Carries (Puts (with_later (listed aside.now)))) result }
{
    reinsert_subs(tx, aside)?;
    reinsert_all(tx, aside.namings.as_slice())?;
    Ok(())
}

// Drops the tables that format 2 added, and creates the tables after `cell` anew, with the rows of
// `availability`.
fn relay_settings<S: Alter>(tx: &mut Transaction<'_, S>, aside: &Aside) -> Result<(), Error>
    ensures same_reference { SameConnection tx.old tx.new }
    ensures relays { Within S.Store tx.old tx.new
        (Carries (RelaysSettings (listed aside.now).settings)) result }
{
    drop_later(tx)?;
    relay_first(tx, aside.settings.as_slice())?;
    Ok(())
}

/// Creates the tables after `cell` anew, with these rows, within an open transaction. It is for
/// tables of format 2 without the index on `naming`.
pub(crate) fn relay_all<S: Alter>(tx: &mut Transaction<'_, S>, aside: &Aside) -> Result<(), Error>
    ensures same_reference { SameConnection tx.old tx.new }
    ensures relays { Within S.Store tx.old tx.new
        (Carries (RelaysAll (listed aside.now))) result }
{
    relay_settings(tx, aside)?;
    reinsert_later(tx, aside)?;
    Ok(())
}

/// Creates the tables after `cell` anew, with these rows in `availability`, and sets the format to
/// 2, within an open transaction. It is for tables of format 1.
pub(crate) fn relay_format_1<S: Alter>(
    tx: &mut Transaction<'_, S>,
    settings: &[AvailabilityRecord],
) -> Result<(), Error>
    ensures same_reference { SameConnection tx.old tx.new }
    ensures relays { Within S.Store tx.old tx.new (Carries (RelaysFormat settings.now)) result }
{
    relay_first(tx, settings)?;
    set_format(tx)?;
    Ok(())
}
