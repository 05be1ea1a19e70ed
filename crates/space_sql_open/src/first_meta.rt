//! The content of the table `meta` in tables of format 1.
ghost use Rattle.std.specs.Prelude.{◌≡◌, ◌↔◌, pos, IsTrue};
ghost use Rattle.sqlite_value.specs.Order.{column};
ghost use Rattle.sqlite_value.specs.declared.value.Value.TheVariants.{Int};
ghost use Rattle.space_sql_schema.specs.Tables.{format_number, schema_of};
ghost use Rattle.space_sql_schema.specs.declared.format.Format.{Format};
ghost use Rattle.space_sql_schema.specs.Within.{SameConnection, Within};
ghost use Rattle.space_sql_open.specs.FirstMeta.{IsFirstRow, AreFirst, SaysRows, ReadsMeta, SaysMeta};
ghost use Rattle.space_sql_open.specs.Inside.{Inside};

use crate::open_fault::OpenFault;
use space_sql_select::meta::{Meta, meta_of};
use space_sql_select::rows::number_in;
use sqlite::{Alter, Error, Row, Transaction};

fn has_one(row: &Row, at: usize) -> bool
    ensures { IsTrue result ↔ (column row.now at ≡ Int (pos 1)) }
{
    match number_in(row, at) {
        Some(number) => number == 1,
        None => false,
    }
}

fn is_first_row(row: &Row) -> bool
    ensures { IsTrue result ↔ IsFirstRow row.now }
{
    if row.column_count() != 3 {
        return false;
    }
    if !has_one(row, 0) {
        return false;
    }
    if !has_one(row, 1) {
        return false;
    }
    number_in(row, 2).is_some()
}

fn are_first(rows: &[Row]) -> bool
    ensures { IsTrue result ↔ AreFirst rows.now }
{
    match rows.split_first() {
        Some((row, rest)) => {
            if rest.is_empty() {
                is_first_row(row)
            } else {
                false
            }
        }
        None => false,
    }
}

// Returns `Ok` if the rows say format 1, or the fault.
fn said(rows: &[Row]) -> Result<(), OpenFault>
    ensures { SaysRows rows.now result }
{
    if are_first(rows) {
        return Ok(());
    }
    match meta_of(rows) {
        Meta::Other => Err(OpenFault::Version),
        Meta::Ours(_) => Err(OpenFault::NotADss),
        Meta::Neither => Err(OpenFault::NotADss),
    }
}

/// Returns the rows of `meta`, within an open transaction.
pub(crate) fn read_meta<S: Alter>(tx: &mut Transaction<'_, S>) -> Result<Vec<Row>, Error>
    ensures same_reference { SameConnection tx.old tx.new }
    ensures reads { (format : Format)
        → Within S.Store tx.old tx.new (Inside (schema_of format) ReadsMeta) result }
{
    tx.query_all("SELECT one, format, serial FROM meta", &[])
}

/// Checks, within an open transaction, that `meta` says format 1.
pub(crate) fn first_meta<S: Alter>(tx: &mut Transaction<'_, S>) -> Result<(), OpenFault>
    ensures same_reference { SameConnection tx.old tx.new }
    ensures says { (format : Format) → format_number format ≡ 1
        → Within S.Store tx.old tx.new (Inside (schema_of format) (SaysMeta 1 format)) result }
{
    match read_meta(tx) {
        Ok(rows) => said(rows.as_slice()),
        Err(_) => Err(OpenFault::Store),
    }
}
