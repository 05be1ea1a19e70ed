//! An index by the cells of volumes. Its holders are entities or subscriptions.
ghost use Rattle.std.specs.Prelude.{◌≡◌, ◌<◌, OnOk};
ghost use Rattle.std.specs.List.{All};
ghost use Rattle.grid_core.specs.Cell.{IsCell, lo_of, hi_of};
ghost use Rattle.space_memory.specs.CellIndex.{holder_of, mark_of, position_of, AllMarked, Grows, IsMarked, KeepsOthers};

use entity_core::entity::Entity;
use entity_maps::entities::kind_index;
use grid_core::cell::CellId;
use std::alloc::AllocError;
use std::collections::BTreeSet;

/// A holder of cells: a number for its put, and its id.
pub(crate) type Holder = (u64, u128);

/// The position of a cell of a volume, and the holder of the volume.
pub(crate) type Mark = (u64, u64, u128);

/// The number of positions of a cell: one for each volume that an entity can have.
pub(crate) const WIDTH: u64 = 32;

/// The distance between the positions of cells with consecutive first indexes.
pub(crate) const STEP: u64 = 17_179_869_184;

/// Returns the indexes of the first and the last level-13 cell inside a cell, among all cells of
/// that level.
pub(crate) fn interval_of(cell: CellId) -> (u64, u64)
    ensures valid { IsCell cell }
    ensures first { result.0 ≡ lo_of cell }
    ensures last { result.1 ≡ hi_of cell }
    ensures first_small { result.0 < 536870912 }
    ensures last_small { result.1 < 536870912 }
{
    let _raw = cell.raw();
    (cell.range_min() >> 35, cell.range_max() >> 35)
}

/// Returns the position of a cell for volume number 0.
///
/// The position for the next volume follows it.
pub(crate) fn position_of(cell: CellId) -> u64
    ensures valid { IsCell cell }
    ensures place { result ≡ position_of cell }
    ensures narrow { hi_of cell < 536870912 }
    ensures small { result < 9223372036854775808 }
{
    let (lo, hi) = interval_of(cell);
    lo * STEP + hi * WIDTH
}

fn mark(holder: Holder, volume: u8, cell: CellId) -> Mark
    ensures valid { IsCell cell }
    ensures mark { result ≡ mark_of holder volume cell }
    ensures narrow { hi_of cell < 536870912 }
{
    (position_of(cell) + u64::from(volume), holder.0, holder.1)
}

/// Marks cells of a volume of a holder.
///
/// Returns `AllocError` if memory runs out. Some cells can be marked then.
pub(crate) fn mark_cells(
    marks: &mut BTreeSet<Mark>,
    holder: Holder,
    volume: u8,
    cells: &[CellId],
) -> Result<(), AllocError>
    ensures kept { Grows marks.old marks.new }
    ensures marked { OnOk result (All (IsMarked marks.new holder volume) cells.now) }
{
    for cell in cells {
        marks.insert(mark(holder, volume, *cell))?;
    }
    Ok(())
}

/// Removes the marks of cells of a volume of a holder.
pub(crate) fn unmark_cells(marks: &mut BTreeSet<Mark>, holder: Holder, volume: u8, cells: &[CellId])
    ensures { KeepsOthers holder marks.old marks.new }
{
    for cell in cells {
        marks.remove(&mark(holder, volume, *cell));
    }
}

// Returns the entity as a holder. The number of its put combines its serial and its kind.
fn entity_holder(entity: &Entity) -> Holder
    ensures { result ≡ holder_of entity.now }
{
    let kind = u64::from(kind_index(entity.nature.kind()));
    (2 * entity.serial.number() + kind, entity.id.number())
}

/// Marks the cells of an entity, each with the number of its volume.
///
/// Returns `AllocError` if memory runs out. Some cells can be marked then.
pub(crate) fn mark_entity(marks: &mut BTreeSet<Mark>, entity: &Entity) -> Result<(), AllocError>
    ensures kept { Grows marks.old marks.new }
    ensures marked { OnOk result (AllMarked marks.new entity.now) }
{
    for (place, volume) in entity.volumes.items().iter().enumerate() {
        mark_cells(marks, entity_holder(entity), place as u8, volume.cells())?;
    }
    Ok(())
}

/// Removes the marks of an entity.
pub(crate) fn unmark_entity(marks: &mut BTreeSet<Mark>, entity: &Entity)
    ensures { KeepsOthers (holder_of entity.now) marks.old marks.new }
{
    for (place, volume) in entity.volumes.items().iter().enumerate() {
        unmark_cells(marks, entity_holder(entity), place as u8, volume.cells());
    }
}
