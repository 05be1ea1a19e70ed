//! The content of the table `meta`, within an open transaction.
ghost use Rattle.space_sql_schema.specs.Within.{SameConnection, Within};
ghost use Rattle.space_sql_select.specs.Reading.{Reads};
ghost use Rattle.space_sql_select.specs.Meta.{ShowsMeta};

use sqlite::{Alter, Error, Row, Transaction};

/// Returns the rows of `meta`.
pub(crate) fn read_metas<S: Alter>(tx: &mut Transaction<'_, S>) -> Result<Vec<Row>, Error>
    ensures same_reference { SameConnection tx.old tx.new }
    ensures reads { Within S.Store tx.old tx.new
        (Reads (λ db rows. ShowsMeta db rows.items)) result }
{
    tx.query_all("SELECT one, format, serial FROM meta", &[])
}
