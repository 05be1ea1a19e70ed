//! The cells that rows represent, and the rows of cells.
ghost use Rattle.std.specs.Prelude.{◌≡◌, ◌↔◌, ◌≤◌, ◌<◌, pos, IsTrue, IfOk, length, take, drop};
ghost use Rattle.std.specs.List.{AllByRecursion};
ghost use Rattle.grid_core.specs.Cell.{IsCell, lo_of, hi_of};
ghost use Rattle.grid_core.specs.Token.{IsTokenOf};
ghost use Rattle.space_rows.specs.Cells.{IsOfVolume, SpellsToken, SpellsRange, SpellsCells, StartsElse};
ghost use Rattle.space_rows.specs.Finds.{Finds, FindsList};

use crate::row_of_cell::RowOfCell;
use crate::rows::CellRow;
use entity_core::text::Text;
use grid_core::cell::CellId;
use grid_core::token::{parse_token, token};
use std::alloc::{AllocError, Global};

/// Returns true if the number is that of the position.
pub(crate) fn is_at(number: i64, place: usize) -> bool
    ensures { IsTrue result ↔ (number ≡ pos place) }
{
    number >= 0 && number as u64 == place as u64
}

/// Returns true if the two texts are equal.
pub(crate) fn is_same(text: &str, other: &str) -> bool
    ensures { IsTrue result ↔ (text.now ≡ other.now) }
{
    text == other
}

// Returns the cell if the text is its printed token.
fn as_printed(alloc: Global, cell: CellId, text: &str) -> Result<Option<CellId>, AllocError>
    requires valid { IsCell cell }
    requires reads { IsTokenOf text.now cell }
    ensures { IfOk result (λ o. Finds (SpellsToken text.now) o) }
{
    let printed = token(alloc, cell)?;
    if is_same(printed.as_str(), text) {
        Ok(Some(cell))
    } else {
        Ok(None)
    }
}

/// Returns the cell of which the text is the printed token, if there is one.
pub(crate) fn cell_of_token(alloc: Global, text: &str) -> Result<Option<CellId>, AllocError>
    ensures { IfOk result (λ o. Finds (SpellsToken text.now) o) }
{
    match parse_token(text) {
        Ok(cell) => as_printed(alloc, cell, text),
        Err(_) => Ok(None),
    }
}

// Returns true if the cell has this first and this last position.
fn has_range(lo: i64, hi: i64, cell: CellId) -> bool
    ensures { IsTrue result ↔ ((lo ≡ pos (lo_of cell)) × (hi ≡ pos (hi_of cell))) }
{
    lo == i64::from(cell.lo()) && hi == i64::from(cell.hi())
}

/// Returns the cell of which the text is the printed token, if its first and last positions are
/// these.
pub(crate) fn cell_in(
    alloc: Global,
    text: &str,
    lo: i64,
    hi: i64,
) -> Result<Option<CellId>, AllocError>
    ensures { IfOk result (λ o. Finds (SpellsRange text.now lo hi) o) }
{
    match cell_of_token(alloc, text)? {
        Some(cell) => {
            if has_range(lo, hi, cell) {
                Ok(Some(cell))
            } else {
                Ok(None)
            }
        }
        None => Ok(None),
    }
}

/// Returns the token of a cell, and its first and last positions.
pub(crate) fn columns_of(alloc: Global, cell: CellId) -> Result<(Text, i64, i64), AllocError>
    ensures { IfOk result (λ r. SpellsRange r.0 r.1 r.2 cell) }
{
    let _number = cell.raw();
    let text = Text::from_string(token(alloc, cell)?);
    Ok((text, i64::from(cell.lo()), i64::from(cell.hi())))
}

/// Returns the cells that the rows of one volume represent, if they represent any.
pub(crate) fn cells_of<R: RowOfCell>(
    alloc: Global,
    num: i64,
    volume: usize,
    rows: &[R],
) -> Result<Option<Vec<CellId>>, AllocError>
    ensures { IfOk result (λ o. FindsList (SpellsCells (R.is_row num volume) 0 rows.now) o) }
{
    let mut out = Vec::new(alloc);
    for (place, row) in rows.iter().enumerate() {
        match row.cell(alloc, num, volume, place)? {
            Some(cell) => out.push(cell)?,
            None => return Ok(None),
        }
    }
    Ok(Some(out))
}

/// Returns the number of rows at the front that belong to a volume.
pub(crate) fn count_of(rows: &[CellRow], volume: usize) -> usize
    ensures most { result ≤ length rows.now }
    ensures these { AllByRecursion (IsOfVolume volume) (take result rows.now) }
    ensures others { StartsElse volume (drop result rows.now) }
{
    for (i, row) in rows.iter().enumerate() {
        if !is_at(row.volume, volume) {
            return i;
        }
    }
    rows.len()
}

/// Returns the rows of the cells of a volume.
pub(crate) fn cell_rows<R: RowOfCell>(
    alloc: Global,
    num: i64,
    volume: usize,
    cells: &[CellId],
) -> Result<Vec<R>, AllocError>
    requires volume { volume < 32 }
    requires count { length cells.now ≤ 512 }
    ensures { IfOk result (λ rows. SpellsCells (R.is_row num volume) 0 rows.items cells.now) }
{
    let mut rows = Vec::new(alloc);
    for (place, cell) in cells.iter().enumerate() {
        rows.push(R::of_cell(alloc, num, volume, place, *cell)?)?;
    }
    Ok(rows)
}
