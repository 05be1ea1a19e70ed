//! Rows of the tables `cell` and `subscription_cell`, each of which stores a cell.
ghost use Rattle.std.specs.Prelude.{◌≡◌, ◌<◌, ℕ, ℤ, IfOk};
ghost use Rattle.grid_core.specs.Cell.{Cell};
ghost use Rattle.space_rows.specs.Cells.{SpellsCell};
ghost use Rattle.space_rows.specs.Finds.{Finds};

use crate::cells::{cell_in, columns_of, is_at};
use crate::rows::{CellRow, SubCellRow};
use grid_core::cell::CellId;
use std::alloc::{AllocError, Global};

/// A row that stores a cell of a volume. An entity has many volumes. A subscription has one, at
/// position 0.
pub(crate) trait RowOfCell: Drop {
    /// Holds if the row is that of a cell and its position, in the volume at a position, under a
    /// number.
    ghost is_row: { ℤ → ℕ → Self → ℕ × Cell → Type 0 };

    /// Returns the cell, if the row is that of the cell at this position.
    fn cell(
        &self,
        alloc: Global,
        num: i64,
        volume: usize,
        place: usize,
    ) -> Result<Option<CellId>, AllocError>
        ensures { IfOk result (λ o. Finds (SpellsCell (is_row num volume) place self.now) o) };

    /// Returns the row of a cell.
    fn of_cell(
        alloc: Global,
        num: i64,
        volume: usize,
        place: usize,
        cell: CellId,
    ) -> Result<Self, AllocError>
        requires volume { volume < 32 }
        requires place { place < 512 }
        ensures { IfOk result (λ row. SpellsCell (is_row num volume) place row cell) };

    /// States that a row represents at most one cell.
    ghost one_cell: { (num : ℤ) (volume place : ℕ) (row : Self) (c d : Cell)
        → SpellsCell (is_row num volume) place row c → SpellsCell (is_row num volume) place row d
        → c ≡ d };
}

impl RowOfCell for CellRow {
    ghost use Rattle.std.proofs.Common.{sym, ◌∙◌};
    ghost use Rattle.grid_core.proofs.CellNumber.{same_cell};
    ghost use Rattle.space_rows.specs.Cells.{IsRowInVolume};

    ghost is_row = { IsRowInVolume };

    ghost one_cell = { λ num volume place row c d p q. same_cell c d p.valid q.valid
        (p.row_is.token.reads.number ∙ sym q.row_is.token.reads.number) };

    fn cell(
        &self,
        alloc: Global,
        num: i64,
        volume: usize,
        place: usize,
    ) -> Result<Option<CellId>, AllocError> {
        if self.entity == num && (is_at(self.volume, volume) && is_at(self.place, place)) {
            cell_in(alloc, self.token.text(), self.lo, self.hi)
        } else {
            Ok(None)
        }
    }

    fn of_cell(
        alloc: Global,
        num: i64,
        volume: usize,
        place: usize,
        cell: CellId,
    ) -> Result<CellRow, AllocError> {
        let (token, lo, hi) = columns_of(alloc, cell)?;
        Ok(CellRow {
            entity: num,
            volume: volume as i64,
            place: place as i64,
            token,
            lo,
            hi,
        })
    }
}

impl RowOfCell for SubCellRow {
    ghost use Rattle.std.proofs.Common.{sym, ◌∙◌};
    ghost use Rattle.grid_core.proofs.CellNumber.{same_cell};
    ghost use Rattle.space_rows.specs.Subs.{IsSubCellRow};

    ghost is_row = { λ num _. IsSubCellRow num };

    ghost one_cell = { λ num volume place row c d p q. same_cell c d p.valid q.valid
        (p.row_is.token.reads.number ∙ sym q.row_is.token.reads.number) };

    fn cell(
        &self,
        alloc: Global,
        num: i64,
        _volume: usize,
        place: usize,
    ) -> Result<Option<CellId>, AllocError> {
        if self.subscription == num && is_at(self.place, place) {
            cell_in(alloc, self.token.text(), self.lo, self.hi)
        } else {
            Ok(None)
        }
    }

    fn of_cell(
        alloc: Global,
        num: i64,
        _volume: usize,
        place: usize,
        cell: CellId,
    ) -> Result<SubCellRow, AllocError> {
        let (token, lo, hi) = columns_of(alloc, cell)?;
        Ok(SubCellRow {
            subscription: num,
            place: place as i64,
            token,
            lo,
            hi,
        })
    }
}
