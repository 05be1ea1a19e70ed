//! The check of availabilities.
ghost use Rattle.std.specs.Prelude.{◌↔◌, IsTrue};
ghost use Rattle.space_sql_schema.specs.Within.{SameConnection, Within};
ghost use Rattle.space_sql_select.specs.Reading.{Reads};
ghost use Rattle.space_sql_load.specs.Showing.{ShowsSettings};
ghost use Rattle.space_sql_check.specs.Parts.{HasSettings};

use space_sql_load::settings::settings_in;
use sqlite::{Alter, Error, Row, Transaction};
use std::alloc::Global;

// Returns the rows of `availability`.
fn read_settings<S: Alter>(tx: &mut Transaction<'_, S>) -> Result<Vec<Row>, Error>
    ensures same_reference { SameConnection tx.old tx.new }
    ensures reads { Within S.Store tx.old tx.new
        (Reads (λ db rows. ShowsSettings db rows.items)) result }
{
    tx.query_all("SELECT uss, state, version FROM availability", &[])
}

/// Returns true if the rows of `availability` represent what USSs set.
pub(crate) fn are_settings<S: Alter>(
    alloc: Global,
    tx: &mut Transaction<'_, S>,
) -> Result<bool, Error>
    ensures same_reference { SameConnection tx.old tx.new }
    ensures reads { Within S.Store tx.old tx.new
        (Reads (λ db b. IsTrue b ↔ HasSettings db)) result }
{
    let rows = read_settings(tx)?;
    Ok(settings_in(alloc, rows.as_slice())?.is_some())
}
