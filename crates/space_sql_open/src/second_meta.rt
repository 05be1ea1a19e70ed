//! The content of the table `meta` in tables of format 2 in the old order.
ghost use Rattle.std.specs.Prelude.{◌≡◌};
ghost use Rattle.space_sql_schema.specs.Tables.{format_number, schema_of};
ghost use Rattle.space_sql_schema.specs.Within.{SameConnection, Within};
ghost use Rattle.space_sql_schema.specs.declared.format.Format.{Format};
ghost use Rattle.space_sql_open.specs.FirstMeta.{SaysSecondRows, SaysMeta};
ghost use Rattle.space_sql_open.specs.Inside.{Inside};

use crate::first_meta::read_meta;
use crate::open_fault::OpenFault;
use space_sql_select::meta::{Meta, meta_of};
use sqlite::{Alter, Row, Transaction};

// Returns `Ok` if the rows say format 2, or the fault.
fn said_second(rows: &[Row]) -> Result<(), OpenFault>
    ensures { SaysSecondRows rows.now result }
{
    match meta_of(rows) {
        Meta::Ours(_) => Ok(()),
        Meta::Other => Err(OpenFault::Version),
        Meta::Neither => Err(OpenFault::NotADss),
    }
}

/// Checks, within an open transaction, that `meta` says format 2.
pub(crate) fn second_meta<S: Alter>(tx: &mut Transaction<'_, S>) -> Result<(), OpenFault>
    ensures same_reference { SameConnection tx.old tx.new }
    ensures says { (format : Format) → format_number format ≡ 2
        → Within S.Store tx.old tx.new (Inside (schema_of format) (SaysMeta 2 format)) result }
{
    match read_meta(tx) {
        Ok(rows) => said_second(rows.as_slice()),
        Err(_) => Err(OpenFault::Store),
    }
}
