//! Conversion of the rows of a result to rows of the tables that store subscriptions.
ghost use Rattle.std.specs.Prelude.{◌≡◌, ◌↔◌, IfOk, IsTrue};
ghost use Rattle.space_rows.specs.Finds.{Finds, FindsList};
ghost use Rattle.space_sql_schema.specs.Spelling.{sub_values, sub_cell_values};
ghost use Rattle.space_sql_select.specs.Rows.{HasSubTexts, HasSubNumbers, IsSubRow, IsSubCellRow, IsNamingRow, IsWrittenSub, IsWrittenSubCell, IsWrittenNaming, IsRowOf, AreRowsOf, values_of_naming};

use crate::rows::{is_number, is_text, number_at, text_at};
use space_rows::rows::{SubCellRow, SubRow};
use sqlite::{Error, Row};
use std::alloc::Global;

/// A row of the table `naming`.
#[derive(Debug, Drop)]
pub struct NamingRow {
    /// The `num` of an entity.
    pub entity: i64,
    /// The `num` of the subscription that it references.
    pub subscription: i64,
}

fn has_sub_texts(row: &Row) -> bool
    ensures { IsTrue result ↔ HasSubTexts row.now }
{
    is_text(row, 1) && (is_text(row, 2) && (is_text(row, 4) && is_text(row, 6)))
}

fn has_sub_numbers(row: &Row) -> bool
    ensures { IsTrue result ↔ HasSubNumbers row.now }
{
    is_number(row, 0)
        && (is_number(row, 3)
            && (is_number(row, 5)
                && (is_number(row, 7)
                    && (is_number(row, 8)
                        && (is_number(row, 9)
                            && (is_number(row, 10)
                                && (is_number(row, 11) && is_number(row, 12))))))))
}

fn is_sub_row(row: &Row) -> bool
    ensures { IsTrue result ↔ IsSubRow row.now }
{
    row.column_count() == 13 && (has_sub_texts(row) && has_sub_numbers(row))
}

fn is_sub_cell_row(row: &Row) -> bool
    ensures { IsTrue result ↔ IsSubCellRow row.now }
{
    row.column_count() == 5
        && (is_number(row, 0)
            && (is_number(row, 1) && (is_text(row, 2) && (is_number(row, 3) && is_number(row, 4)))))
}

fn is_naming_row(row: &Row) -> bool
    ensures { IsTrue result ↔ IsNamingRow row.now }
{
    row.column_count() == 2 && (is_number(row, 0) && is_number(row, 1))
}

/// Returns the row as one of `subscription`, if its values are of the right kinds and its texts are
/// UTF-8.
pub fn sub_row(row: &Row) -> Result<Option<SubRow>, Error>
    ensures { IfOk result (λ o. Finds (IsRowOf sub_values IsWrittenSub row.now) o) }
{
    if !is_sub_row(row) {
        return Ok(None);
    }
    Ok(Some(SubRow {
        num: number_at(row, 0)?,
        id: text_at(row, 1)?,
        manager: text_at(row, 2)?,
        serial: number_at(row, 3)?,
        version: text_at(row, 4)?,
        notes: number_at(row, 5)?,
        url: text_at(row, 6)?,
        for_intents: number_at(row, 7)?,
        for_constraints: number_at(row, 8)?,
        alt_lower: number_at(row, 9)?,
        alt_upper: number_at(row, 10)?,
        time_start: number_at(row, 11)?,
        time_end: number_at(row, 12)?,
    }))
}

fn sub_cell_row(row: &Row) -> Result<Option<SubCellRow>, Error>
    ensures { IfOk result (λ o. Finds (IsRowOf sub_cell_values IsWrittenSubCell row.now) o) }
{
    if !is_sub_cell_row(row) {
        return Ok(None);
    }
    Ok(Some(SubCellRow {
        subscription: number_at(row, 0)?,
        place: number_at(row, 1)?,
        token: text_at(row, 2)?,
        lo: number_at(row, 3)?,
        hi: number_at(row, 4)?,
    }))
}

fn naming_row(row: &Row) -> Result<Option<NamingRow>, Error>
    ensures { IfOk result (λ o. Finds (IsRowOf values_of_naming IsWrittenNaming row.now) o) }
{
    if !is_naming_row(row) {
        return Ok(None);
    }
    Ok(Some(NamingRow {
        entity: number_at(row, 0)?,
        subscription: number_at(row, 1)?,
    }))
}

/// Returns the rows as rows of `subscription`, if their values are of the right kinds and their
/// texts are UTF-8.
pub fn sub_rows(alloc: Global, rows: &[Row]) -> Result<Option<Vec<SubRow>>, Error>
    ensures { IfOk result (λ o. FindsList (AreRowsOf sub_values IsWrittenSub rows.now) o) }
{
    let mut out = Vec::new(alloc);
    for row in rows {
        match sub_row(row)? {
            Some(read) => out.push(read)?,
            None => return Ok(None),
        }
    }
    Ok(Some(out))
}

/// Returns the rows as rows of `subscription_cell`, if their values are of the right kinds and
/// their texts are UTF-8.
pub fn sub_cell_rows(alloc: Global, rows: &[Row]) -> Result<Option<Vec<SubCellRow>>, Error>
    ensures { IfOk result (λ o. FindsList (AreRowsOf sub_cell_values IsWrittenSubCell rows.now) o) }
{
    let mut out = Vec::new(alloc);
    for row in rows {
        match sub_cell_row(row)? {
            Some(read) => out.push(read)?,
            None => return Ok(None),
        }
    }
    Ok(Some(out))
}

/// Returns the rows as rows of `naming`, if their values are of the right kinds.
pub fn naming_rows(alloc: Global, rows: &[Row]) -> Result<Option<Vec<NamingRow>>, Error>
    ensures { IfOk result (λ o. FindsList (AreRowsOf values_of_naming IsWrittenNaming rows.now) o) }
{
    let mut out = Vec::new(alloc);
    for row in rows {
        match naming_row(row)? {
            Some(read) => out.push(read)?,
            None => return Ok(None),
        }
    }
    Ok(Some(out))
}
