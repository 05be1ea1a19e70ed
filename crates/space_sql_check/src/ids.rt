//! The check of rowids in pieces.
ghost use Rattle.std.specs.Prelude.{◌↔◌, IsTrue};
ghost use Rattle.space_sql_schema.specs.Within.{SameConnection, Within};
ghost use Rattle.space_sql_select.specs.Reading.{Reads};
ghost use Rattle.space_sql_check.specs.Parts.{AreAllIdsApart, AreIdsApart, IsOfIds};

use crate::ends::{Counted, piece_end};
use crate::source::{Source, check_none_outside, query_within};
use space_sql_load::rising::are_rising;
use sqlite::{Alter, Error, Transaction};
use std::alloc::Global;

// Returns true if the rowids of a table are different numbers.
fn are_ids_apart<S: Alter>(
    alloc: Global,
    tx: &mut Transaction<'_, S>,
    source: Source,
    counted: Counted,
) -> Result<bool, Error>
    requires { IsOfIds source }
    ensures same_reference { SameConnection tx.old tx.new }
    ensures reads { Within S.Store tx.old tx.new
        (Reads (λ db b. IsTrue b ↔ AreIdsApart source db)) result }
{
    let mut over = i64::MIN;
    for _ in 0..u64::MAX {
        let end = piece_end(tx, counted, over)?;
        let rows = query_within(tx, source, over, end)?;
        if !are_rising(alloc, rows.as_slice())? {
            return Ok(false);
        }
        if end == i64::MAX {
            check_none_outside(tx, source)?;
            return Ok(true);
        }
        over = end;
    }
    Err(Error::QueryReturnedNoRows)
}

/// Returns true if the rowids of each table whose key is not a number are different numbers.
///
/// Returns an error if the store fails, if memory runs out, or if a row belongs to no piece.
pub(crate) fn are_all_ids_apart<S: Alter>(
    alloc: Global,
    tx: &mut Transaction<'_, S>,
) -> Result<bool, Error>
    ensures same_reference { SameConnection tx.old tx.new }
    ensures reads { Within S.Store tx.old tx.new
        (Reads (λ db b. IsTrue b ↔ AreAllIdsApart db)) result }
{
    if !are_ids_apart(alloc, tx, Source::VolumeIds, Counted::VolumeIds)? {
        return Ok(false);
    }
    if !are_ids_apart(alloc, tx, Source::CellIds, Counted::CellIds)? {
        return Ok(false);
    }
    if !are_ids_apart(alloc, tx, Source::SettingIds, Counted::SettingIds)? {
        return Ok(false);
    }
    are_ids_apart(alloc, tx, Source::SubCellIds, Counted::SubCellIds)
}
