//! Conversion between a subscription and its rows.
ghost use Rattle.std.specs.Prelude.{◌≡◌, ◌≤ℤ◌, pos, IfOk};
ghost use Rattle.space_rows.specs.Finds.{Finds};
ghost use Rattle.space_rows.specs.Subs.{SpellsSub};
ghost use Rattle.space_rows.specs.SubHead.{with_volume};

use crate::cells::{cell_rows, cells_of};
use crate::rows::{SubCellRow, SubRow};
use crate::sub_head::{SubHead, bounds_of, sub_head_of, sub_row};
use crate::volumes::bounded;
use entity_core::subscription::Sub;
use grid_core::volume::Volume;
use std::alloc::{AllocError, Global};

fn with_volume(head: SubHead, volume: Volume) -> Sub
    ensures { result ≡ with_volume head volume }
{
    Sub {
        id: head.id,
        manager: head.manager,
        version: head.version,
        serial: head.serial,
        index: head.index,
        volume,
        url: head.url,
        interest: head.interest,
    }
}

/// Returns the subscription that the rows represent, if they represent one.
///
/// The rows of `subscription_cell` come in the order of their positions. In another order they
/// represent none.
pub fn sub_of(alloc: Global, row: &SubRow, cells: &[SubCellRow]) -> Result<Option<Sub>, AllocError>
    ensures { IfOk result (λ o. Finds (SpellsSub row.now cells.now) o) }
{
    let Some(head) = sub_head_of(alloc, row)? else {
        return Ok(None);
    };
    let Some(list) = cells_of(alloc, row.num, 0, cells)? else {
        return Ok(None);
    };
    match bounded(list, &bounds_of(row)) {
        Some(volume) => Ok(Some(with_volume(head, volume))),
        None => Ok(None),
    }
}

/// Returns the rows of a subscription under a number: the row of `subscription`, and the rows of
/// `subscription_cell` in the order of their positions.
pub fn rows_of_sub(
    alloc: Global,
    sub: &Sub,
    num: i64,
) -> Result<(SubRow, Vec<SubCellRow>), AllocError>
    requires least { pos 1 ≤ℤ num }
    requires most { num ≤ℤ pos sub.now.serial }
    ensures num { IfOk result (λ r. r.0.num ≡ num) }
    ensures spells { IfOk result (λ r. SpellsSub r.0 r.1.items sub.now) }
{
    let row = sub_row(alloc, sub, num)?;
    let cells = cell_rows(alloc, num, 0, sub.volume.cells())?;
    Ok((row, cells))
}
