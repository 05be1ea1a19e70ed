//! The check of subscriptions in pieces.
ghost use Rattle.std.specs.Prelude.{◌≡◌, ◌∷◌, IfOk, IfSome, IsTrue};
ghost use Rattle.std.specs.Ordering.{int_cmp};
ghost use Rattle.std.specs.declared.cmp.Ordering.TheVariants.{Less};
ghost use Rattle.sqlite_trees.specs.Tree.{IsAscending};
ghost use Rattle.sqlite.specs.Effect.{IsDatabase};
ghost use Rattle.entity_maps.specs.Sorted.{Rise};
ghost use Rattle.space_sql_schema.specs.Within.{SameConnection, Within};
ghost use Rattle.space_sql_select.specs.Reading.{Reads};
ghost use Rattle.space_sql_load.specs.Gathering.{number_pair};
ghost use Rattle.space_sql_check.specs.Parts.{FindsSubs, HasNoOtherSubs, any_value, is_within, nums_of};

use crate::ends::{Counted, piece_end};
use crate::source::{Source, check_none_outside, query_within};
use space_sql_load::naming::Numbered;
use space_sql_load::subscriptions::subs_in;
use space_sql_load::tables::SubTables;
use sqlite::{Alter, Error, ErrorCode, Transaction};
use std::alloc::Global;

// Returns the numbers and ids of the subscriptions with a number greater than `over`, up to `end`,
// if the rows represent them.
fn subs_within<S: Alter>(
    alloc: Global,
    tx: &mut Transaction<'_, S>,
    serial: u64,
    over: i64,
    end: i64,
) -> Result<Option<Vec<Numbered>>, Error>
    ensures same_reference { SameConnection tx.old tx.new }
    ensures reads { Within S.Store tx.old tx.new
        (Reads (λ db o. IsDatabase db → FindsSubs serial (is_within over end) db o)) result }
{
    let tables = SubTables {
        subscriptions: query_within(tx, Source::Subscriptions, over, end)?,
        cells: query_within(tx, Source::SubCells, over, end)?,
    };
    match subs_in(alloc, serial, &tables)? {
        Some(known) => Ok(Some(known.numbers)),
        None => Ok(None),
    }
}

// Returns an error if a row of the two tables belongs to no piece.
fn check_none_else<S: Alter>(tx: &mut Transaction<'_, S>) -> Result<(), Error>
    ensures same_reference { SameConnection tx.old tx.new }
    ensures reads { Within S.Store tx.old tx.new (Reads (λ db _. HasNoOtherSubs db)) result }
{
    check_none_outside(tx, Source::Subscriptions)?;
    check_none_outside(tx, Source::SubCells)
}

// Returns the numbers and ids of all subscriptions, piece by piece, if the rows represent them.
fn all_subs<S: Alter>(
    alloc: Global,
    tx: &mut Transaction<'_, S>,
    serial: u64,
) -> Result<Option<Vec<Numbered>>, Error>
    ensures same_reference { SameConnection tx.old tx.new }
    ensures reads { Within S.Store tx.old tx.new
        (Reads (λ db o. IsDatabase db → FindsSubs serial any_value db o)) result }
{
    let mut numbers = Vec::new(alloc);
    let mut over = i64::MIN;
    for _ in 0..u64::MAX {
        let end = piece_end(tx, Counted::CellsOfSubscriptions, over)?;
        let Some(more) = subs_within(alloc, tx, serial, over, end)? else {
            return Ok(None);
        };
        numbers.extend_from_slice(more.as_slice())?;
        if end == i64::MAX {
            check_none_else(tx)?;
            return Ok(Some(numbers));
        }
        over = end;
    }
    Err(Error::QueryReturnedNoRows)
}

// Returns true if `first` is less than the first number of `rest`, and each number is less than the
// next one.
fn is_rising_from(first: i64, rest: &[Numbered]) -> bool
    ensures { IsTrue result
        → IsAscending (λ m n. int_cmp m n ≡ Less) (first ∷ nums_of rest.now) }
{
    let mut last = first;
    for next in rest {
        if last >= next.num {
            return false;
        }
        last = next.num;
    }
    true
}

// Returns true if each number is less than the next one.
fn is_rising(numbers: &[Numbered]) -> bool
    ensures { IsTrue result → Rise int_cmp number_pair numbers.now }
{
    match numbers.split_first() {
        Some((first, rest)) => is_rising_from(first.num, rest),
        None => true,
    }
}

/// Returns the numbers and ids of all subscriptions, in ascending order of numbers, if the rows of
/// `subscription` and `subscription_cell` represent them, with serials and indexes up to the given
/// serial.
///
/// Returns an error if the store fails, if memory runs out, or if a row belongs to no piece.
pub(crate) fn check_subs<S: Alter>(
    alloc: Global,
    tx: &mut Transaction<'_, S>,
    serial: u64,
) -> Result<Option<Vec<Numbered>>, Error>
    ensures same_reference { SameConnection tx.old tx.new }
    ensures reads { Within S.Store tx.old tx.new
        (Reads (λ db o. IsDatabase db → FindsSubs serial any_value db o)) result }
    ensures rise { IfOk result (λ o. IfSome o (λ numbers.
        Rise int_cmp number_pair numbers.items)) }
{
    let Some(numbers) = all_subs(alloc, tx, serial)? else {
        return Ok(None);
    };
    if !is_rising(numbers.as_slice()) {
        return Err(Error::SqliteFailure(ErrorCode::DatabaseCorrupt));
    }
    Ok(Some(numbers))
}
