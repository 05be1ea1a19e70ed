//! Conversion between volumes and rows of the tables `volume` and `cell`.
ghost use Rattle.std.specs.Prelude.{◌≡◌, ◌↔◌, ◌≤◌, ◌<◌, pos, IsTrue, IfOk, None, length};
ghost use Rattle.grid_core.specs.Extent.{region_of, region_fault};
ghost use Rattle.space_rows.specs.Finds.{Finds, FindsList};
ghost use Rattle.space_rows.specs.Rows.{IsVolumeRow};
ghost use Rattle.space_rows.specs.Volumes.{HasBounds, SpellsVolume, SpellsVolumes};

use crate::cells::{cell_rows, cells_of, count_of, is_at};
use crate::rows::{CellRow, VolumeRow};
use grid_core::cell::CellId;
use grid_core::volume::Volume;
use std::alloc::{AllocError, Global};

// Returns the volume with these cells and the bounds of a row, if it is valid. The times of the row
// are at least 0.
fn with_times(cells: Vec<CellId>, row: &VolumeRow, first: u64, last: u64) -> Option<Volume>
    requires first { row.now.time_start ≡ pos first }
    requires last { row.now.time_end ≡ pos last }
    ensures { Finds (HasBounds row.now cells.items) result }
{
    match Volume::new(cells, (row.alt_lower, row.alt_upper), (first, last)) {
        Ok(volume) => Some(volume),
        Err(_) => None,
    }
}

/// Returns the volume with these cells and the bounds of a row, if it is valid.
pub(crate) fn bounded(cells: Vec<CellId>, row: &VolumeRow) -> Option<Volume>
    ensures { Finds (HasBounds row.now cells.items) result }
{
    if row.time_start < 0 || row.time_end < 0 {
        return None;
    }
    with_times(cells, row, row.time_start as u64, row.time_end as u64)
}

fn is_volume_placed(row: &VolumeRow, num: i64, place: usize) -> bool
    ensures { IsTrue result ↔ ((row.now.entity ≡ num) × (row.now.place ≡ pos place)) }
{
    row.entity == num && is_at(row.place, place)
}

fn volume_of(
    alloc: Global,
    num: i64,
    place: usize,
    row: &VolumeRow,
    cells: &[CellRow],
) -> Result<Option<Volume>, AllocError>
    ensures { IfOk result (λ o. Finds (SpellsVolume num place row.now cells.now) o) }
{
    if !is_volume_placed(row, num, place) {
        return Ok(None);
    }
    match cells_of(alloc, num, place, cells)? {
        Some(list) => Ok(bounded(list, row)),
        None => Ok(None),
    }
}

/// Returns the volumes that the rows represent, if they represent any, each with the cells of its
/// position.
pub(crate) fn volumes_of(
    alloc: Global,
    num: i64,
    volumes: &[VolumeRow],
    cells: &[CellRow],
) -> Result<Option<Vec<Volume>>, AllocError>
    ensures { IfOk result (λ o. FindsList (SpellsVolumes num 0 volumes.now cells.now) o) }
{
    let mut out = Vec::new(alloc);
    let mut rest = cells;
    for (place, row) in volumes.iter().enumerate() {
        let (own, more) = rest.split_at(count_of(rest, place));
        match volume_of(alloc, num, place, row, own)? {
            Some(volume) => out.push(volume)?,
            None => return Ok(None),
        }
        rest = more;
    }
    if rest.is_empty() {
        Ok(Some(out))
    } else {
        Ok(None)
    }
}

/// Returns the row of a volume at a position.
pub(crate) fn volume_row(num: i64, place: usize, volume: &Volume) -> VolumeRow
    requires { place < 32 }
    ensures row { IsVolumeRow num result (place, volume.now) }
    ensures limits { region_fault (region_of volume.now) ≡ None }
{
    let (alt_lower, alt_upper) = volume.altitude();
    let (first, last) = volume.time();
    VolumeRow {
        entity: num,
        place: place as i64,
        alt_lower,
        alt_upper,
        time_start: first as i64,
        time_end: last as i64,
    }
}

/// Returns the rows of volumes and of their cells.
pub(crate) fn volume_rows(
    alloc: Global,
    num: i64,
    volumes: &[Volume],
) -> Result<(Vec<VolumeRow>, Vec<CellRow>), AllocError>
    requires { length volumes.now ≤ 32 }
    ensures { IfOk result (λ rows. SpellsVolumes num 0 rows.0.items rows.1.items volumes.now) }
{
    let mut rows = Vec::new(alloc);
    let mut cells = Vec::new(alloc);
    for (place, volume) in volumes.iter().enumerate() {
        rows.push(volume_row(num, place, volume))?;
        cells.append(&mut cell_rows(alloc, num, place, volume.cells())?)?;
    }
    Ok((rows, cells))
}
