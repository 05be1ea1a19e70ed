//! Conversion of the rows of a result to rows of the tables.
ghost use Rattle.std.specs.Prelude.{◌≡◌, ◌↔◌, IfOk, IsTrue, MatchOption};
ghost use Rattle.sqlite_value.specs.Order.{column};
ghost use Rattle.sqlite_value.specs.declared.value.Value.TheVariants.{Int, Text as Words};
ghost use Rattle.space_rows.specs.Finds.{Finds, FindsList};
ghost use Rattle.space_sql_schema.specs.Spelling.{entity_values, volume_values, cell_values};
ghost use Rattle.space_sql_select.specs.Rows.{IsNumber, IsText, IsEntityRow, IsVolumeRow, IsCellRow, IsNumberRow, IsWrittenEntity, IsWrittenVolume, IsWrittenCell, IsWrittenNumber, IsRowOf, AreRowsOf, number_values};

use entity_core::text::Text;
use space_rows::rows::{CellRow, EntityRow, VolumeRow};
use sqlite::types::ValueRef;
use sqlite::{Error, Row};
use std::alloc::Global;

/// Returns true if a column is a number.
pub(crate) fn is_number(row: &Row, at: usize) -> bool
    ensures { IsTrue result ↔ IsNumber (column row.now at) }
{
    match row.get_ref(at) {
        Ok(ValueRef::Int(_)) => true,
        _ => false,
    }
}

/// Returns true if a column is a UTF-8 text.
pub(crate) fn is_text(row: &Row, at: usize) -> bool
    ensures { IsTrue result ↔ IsText (column row.now at) }
{
    match row.get_ref(at) {
        Ok(ValueRef::Text(bytes)) => std::str::from_utf8(bytes).is_ok(),
        _ => false,
    }
}

/// Returns the number in a column, if it is one.
pub fn number_in(row: &Row, at: usize) -> Option<i64>
    ensures { Finds (λ n. column row.now at ≡ Int n) result }
{
    match row.get_ref(at) {
        Ok(ValueRef::Int(number)) => Some(number),
        _ => None,
    }
}

/// Returns the text in a column, if it is one and UTF-8.
pub fn text_in(row: &Row, at: usize) -> Option<&str>
    ensures { MatchOption result (¬ IsText (column row.now at))
        (λ t. column row.now at ≡ Words t.now) }
{
    match row.get_ref(at) {
        Ok(ValueRef::Text(bytes)) => std::str::from_utf8(bytes).ok(),
        _ => None,
    }
}

/// Returns the number in a column that is one.
pub(crate) fn number_at(row: &Row, at: usize) -> Result<i64, Error>
    ensures { IfOk result (λ n. column row.now at ≡ Int n) }
{
    row.get(at)
}

/// Returns the text in a column that is one and UTF-8.
pub(crate) fn text_at(row: &Row, at: usize) -> Result<Text, Error>
    ensures { IfOk result (λ t. column row.now at ≡ Words t) }
{
    let letters: String = row.get(at)?;
    Ok(Text::from_string(letters))
}

fn is_entity_row(row: &Row) -> bool
    ensures { IsTrue result ↔ IsEntityRow row.now }
{
    row.column_count() == 9
        && (is_number(row, 0)
            && (is_number(row, 1)
                && (is_text(row, 2)
                    && (is_text(row, 3)
                        && (is_number(row, 4)
                            && (is_number(row, 5)
                                && (is_number(row, 6) && (is_text(row, 7) && is_text(row, 8)))))))))
}

fn is_volume_row(row: &Row) -> bool
    ensures { IsTrue result ↔ IsVolumeRow row.now }
{
    row.column_count() == 6
        && (is_number(row, 0)
            && (is_number(row, 1)
                && (is_number(row, 2)
                    && (is_number(row, 3) && (is_number(row, 4) && is_number(row, 5))))))
}

fn is_cell_row(row: &Row) -> bool
    ensures { IsTrue result ↔ IsCellRow row.now }
{
    row.column_count() == 6
        && (is_number(row, 0)
            && (is_number(row, 1)
                && (is_number(row, 2)
                    && (is_text(row, 3) && (is_number(row, 4) && is_number(row, 5))))))
}

fn is_number_row(row: &Row) -> bool
    ensures { IsTrue result ↔ IsNumberRow row.now }
{
    row.column_count() == 1 && is_number(row, 0)
}

/// Returns the row as one of `entity`, if its values are of the right kinds and its texts are
/// UTF-8.
pub fn entity_row(row: &Row) -> Result<Option<EntityRow>, Error>
    ensures { IfOk result (λ o. Finds (IsRowOf entity_values IsWrittenEntity row.now) o) }
{
    if !is_entity_row(row) {
        return Ok(None);
    }
    Ok(Some(EntityRow {
        num: number_at(row, 0)?,
        kind: number_at(row, 1)?,
        id: text_at(row, 2)?,
        manager: text_at(row, 3)?,
        state: number_at(row, 4)?,
        version: number_at(row, 5)?,
        serial: number_at(row, 6)?,
        ovn: text_at(row, 7)?,
        url: text_at(row, 8)?,
    }))
}

fn volume_row(row: &Row) -> Result<Option<VolumeRow>, Error>
    ensures { IfOk result (λ o. Finds (IsRowOf volume_values IsWrittenVolume row.now) o) }
{
    if !is_volume_row(row) {
        return Ok(None);
    }
    Ok(Some(VolumeRow {
        entity: number_at(row, 0)?,
        place: number_at(row, 1)?,
        alt_lower: number_at(row, 2)?,
        alt_upper: number_at(row, 3)?,
        time_start: number_at(row, 4)?,
        time_end: number_at(row, 5)?,
    }))
}

fn cell_row(row: &Row) -> Result<Option<CellRow>, Error>
    ensures { IfOk result (λ o. Finds (IsRowOf cell_values IsWrittenCell row.now) o) }
{
    if !is_cell_row(row) {
        return Ok(None);
    }
    Ok(Some(CellRow {
        entity: number_at(row, 0)?,
        volume: number_at(row, 1)?,
        place: number_at(row, 2)?,
        token: text_at(row, 3)?,
        lo: number_at(row, 4)?,
        hi: number_at(row, 5)?,
    }))
}

fn number_row(row: &Row) -> Result<Option<i64>, Error>
    ensures { IfOk result (λ o. Finds (IsRowOf number_values IsWrittenNumber row.now) o) }
{
    if !is_number_row(row) {
        return Ok(None);
    }
    Ok(Some(number_at(row, 0)?))
}

/// Returns the rows as rows of `entity`, if their values are of the right kinds and their texts are
/// UTF-8.
pub fn entity_rows(alloc: Global, rows: &[Row]) -> Result<Option<Vec<EntityRow>>, Error>
    ensures { IfOk result (λ o. FindsList (AreRowsOf entity_values IsWrittenEntity rows.now) o) }
{
    let mut out = Vec::new(alloc);
    for row in rows {
        match entity_row(row)? {
            Some(read) => out.push(read)?,
            None => return Ok(None),
        }
    }
    Ok(Some(out))
}

/// Returns the rows as rows of `volume`, if their values are of the right kinds.
pub fn volume_rows(alloc: Global, rows: &[Row]) -> Result<Option<Vec<VolumeRow>>, Error>
    ensures { IfOk result (λ o. FindsList (AreRowsOf volume_values IsWrittenVolume rows.now) o) }
{
    let mut out = Vec::new(alloc);
    for row in rows {
        match volume_row(row)? {
            Some(read) => out.push(read)?,
            None => return Ok(None),
        }
    }
    Ok(Some(out))
}

/// Returns the rows as rows of `cell`, if their values are of the right kinds and their texts are
/// UTF-8.
pub fn cell_rows(alloc: Global, rows: &[Row]) -> Result<Option<Vec<CellRow>>, Error>
    ensures { IfOk result (λ o. FindsList (AreRowsOf cell_values IsWrittenCell rows.now) o) }
{
    let mut out = Vec::new(alloc);
    for row in rows {
        match cell_row(row)? {
            Some(read) => out.push(read)?,
            None => return Ok(None),
        }
    }
    Ok(Some(out))
}

/// Returns the rows as numbers, if each one is a single number.
pub fn number_rows(alloc: Global, rows: &[Row]) -> Result<Option<Vec<i64>>, Error>
    ensures { IfOk result (λ o. FindsList (AreRowsOf number_values IsWrittenNumber rows.now) o) }
{
    let mut out = Vec::new(alloc);
    for row in rows {
        match number_row(row)? {
            Some(read) => out.push(read)?,
            None => return Ok(None),
        }
    }
    Ok(Some(out))
}
