//! The check of entities in pieces.
ghost use Rattle.std.specs.Prelude.{◌↔◌, IsTrue, List};
ghost use Rattle.std.specs.Ordering.{int_cmp};
ghost use Rattle.sqlite.specs.Effect.{IsDatabase};
ghost use Rattle.entity_maps.specs.Sorted.{Rise};
ghost use Rattle.space_sql_schema.specs.Spelling.{SubGroup};
ghost use Rattle.space_sql_schema.specs.Within.{SameConnection, Within};
ghost use Rattle.space_sql_select.specs.Reading.{Reads};
ghost use Rattle.space_sql_load.specs.Gathering.{number_pair};
ghost use Rattle.space_sql_check.specs.Parts.{AreNumbered, HasEntities, HasNoOtherEntities, ShowsEntityTables, any_value, is_within};

use crate::ends::{Counted, piece_end};
use crate::source::{Source, check_none_outside, query_within};
use space_sql_load::entities::entities_in;
use space_sql_load::naming::Numbered;
use space_sql_load::tables::EntityTables;
use sqlite::{Alter, Error, Transaction};
use std::alloc::Global;

// Returns the rows of the four tables with a number greater than `over`, up to `end`.
fn query_tables<S: Alter>(
    tx: &mut Transaction<'_, S>,
    over: i64,
    end: i64,
) -> Result<EntityTables, Error>
    ensures same_reference { SameConnection tx.old tx.new }
    ensures reads { Within S.Store tx.old tx.new
        (Reads (λ db t. ShowsEntityTables over end db t)) result }
{
    Ok(EntityTables {
        entities: query_within(tx, Source::Entities, over, end)?,
        volumes: query_within(tx, Source::Volumes, over, end)?,
        cells: query_within(tx, Source::Cells, over, end)?,
        namings: query_within(tx, Source::Namings, over, end)?,
    })
}

// Returns true if the rows with a number greater than `over`, up to `end`, represent entities that
// reference no other subscriptions than those with the given numbers.
fn are_entities_within<S: Alter>(
    alloc: Global,
    tx: &mut Transaction<'_, S>,
    serial: u64,
    numbers: &[Numbered],
    over: i64,
    end: i64,
) -> Result<bool, Error>
    requires { Rise int_cmp number_pair numbers.now }
    ensures same_reference { SameConnection tx.old tx.new }
    ensures reads { Within S.Store tx.old tx.new (Reads (λ db b. IsDatabase db
        → (subs : List SubGroup) → AreNumbered subs numbers.now
        → IsTrue b ↔ HasEntities serial subs (is_within over end) db)) result }
{
    let tables = query_tables(tx, over, end)?;
    Ok(entities_in(alloc, serial, numbers, &tables)?.is_some())
}

// Returns an error if a row of the four tables belongs to no piece.
fn check_none_else<S: Alter>(tx: &mut Transaction<'_, S>) -> Result<(), Error>
    ensures same_reference { SameConnection tx.old tx.new }
    ensures reads { Within S.Store tx.old tx.new (Reads (λ db _. HasNoOtherEntities db)) result }
{
    check_none_outside(tx, Source::Entities)?;
    check_none_outside(tx, Source::Volumes)?;
    check_none_outside(tx, Source::Cells)?;
    check_none_outside(tx, Source::Namings)
}

/// Returns true if the rows of `entity`, `volume`, `cell` and `naming` represent entities, with
/// serials up to the given one, that reference no other subscriptions than those with the given
/// numbers.
///
/// Returns an error if the store fails, if memory runs out, or if a row belongs to no piece.
pub(crate) fn are_entities<S: Alter>(
    alloc: Global,
    tx: &mut Transaction<'_, S>,
    serial: u64,
    numbers: &[Numbered],
) -> Result<bool, Error>
    requires { Rise int_cmp number_pair numbers.now }
    ensures same_reference { SameConnection tx.old tx.new }
    ensures reads { Within S.Store tx.old tx.new (Reads (λ db b. IsDatabase db
        → (subs : List SubGroup) → AreNumbered subs numbers.now
        → IsTrue b ↔ HasEntities serial subs any_value db)) result }
{
    let mut over = i64::MIN;
    for _ in 0..u64::MAX {
        let end = piece_end(tx, Counted::CellsOfEntities, over)?;
        if !are_entities_within(alloc, tx, serial, numbers, over, end)? {
            return Ok(false);
        }
        if end == i64::MAX {
            check_none_else(tx)?;
            return Ok(true);
        }
        over = end;
    }
    Err(Error::QueryReturnedNoRows)
}
