//! The content of the table `meta`.
ghost use Rattle.std.specs.Prelude.{◌≡◌, ◌↔◌, false, [], ◌∷◌, IfOk, IsTrue};
ghost use Rattle.sqlite_value.specs.Order.{column};
ghost use Rattle.sqlite_value.specs.declared.value.Value.TheVariants.{Int};
ghost use Rattle.sqlite.specs.Held.{state};
ghost use Rattle.sqlite.specs.State.{HasCleanDisk, Survives};
ghost use Rattle.space_sql_schema.specs.Tables.{dss_schema};
ghost use Rattle.space_sql_select.specs.Meta.{AreOtherFormat, IsMeta, IsOtherFormat};

use crate::rows::number_in;
use crate::select::select;
use sqlite::{Alter, Connection, Error, Row};

/// The content of the table `meta`.
#[derive(Clone, Copy)]
pub enum Meta {
    /// One row, of format 2, with this serial.
    Ours(u64),
    /// One row, of a format that is neither 1 nor 2.
    Other,
    Neither,
}

fn has_number(row: &Row, at: usize, number: i64) -> bool
    ensures { IsTrue result ↔ (column row.now at ≡ Int number) }
{
    match number_in(row, at) {
        Some(found) => found == number,
        None => false,
    }
}

fn meta_of_row(row: &Row) -> Meta
    ensures { IsMeta (row.now ∷ []) result }
{
    if row.column_count() != 3 {
        return Meta::Neither;
    }
    if has_number(row, 1, 1) {
        return Meta::Neither;
    }
    if !has_number(row, 1, 2) {
        return Meta::Other;
    }
    if !has_number(row, 0, 1) {
        return Meta::Neither;
    }
    match number_in(row, 2) {
        Some(serial) => {
            if serial < 0 {
                Meta::Neither
            } else {
                Meta::Ours(serial as u64)
            }
        }
        None => Meta::Neither,
    }
}

/// Returns what the rows of `meta` say.
pub fn meta_of(rows: &[Row]) -> Meta
    ensures { IsMeta rows.now result }
{
    match rows.split_first() {
        Some((row, rest)) => {
            if rest.is_empty() {
                meta_of_row(row)
            } else {
                Meta::Neither
            }
        }
        None => Meta::Neither,
    }
}

// Returns true if the rows say another format.
fn is_other(rows: &[Row]) -> bool
    ensures { IsTrue result ↔ AreOtherFormat rows.now }
{
    match meta_of(rows) {
        Meta::Other => true,
        Meta::Ours(_) => false,
        Meta::Neither => false,
    }
}

/// Returns true if the table `meta` has one row, of a format that is neither 1 nor 2.
///
/// It may be called for a database with any tables. The contract describes its result only for one
/// with the schema of format 2.
pub fn has_other_format<S: Alter>(conn: &mut Connection<S>) -> Result<bool, Error>
    requires { conn.old.in_transaction ≡ false }
    ensures outside { conn.new.in_transaction ≡ false }
    ensures told { let old = state S.Store conn.old in
        HasCleanDisk (state S.Store conn.new)
        → IfOk result (λ b. old.now.schema ≡ dss_schema → IsTrue b ↔ IsOtherFormat old.now) }
    ensures survives { Survives (state S.Store conn.old) (state S.Store conn.new) (λ _. ⊥) }
{
    let rows = select(conn, "SELECT one, format, serial FROM meta", &[])?;
    Ok(is_other(rows.as_slice()))
}
