//! Ascending numbers.
ghost use Rattle.std.specs.Prelude.{◌≡◌, ◌↔◌, ◌∷◌, IfOk, IsTrue};
ghost use Rattle.std.specs.Ordering.{int_cmp};
ghost use Rattle.std.specs.declared.cmp.Ordering.TheVariants.{Less};
ghost use Rattle.sqlite_trees.specs.Tree.{IsAscending};
ghost use Rattle.space_sql_load.specs.Gathering.{AreRising};

use space_sql_select::rows::number_rows;
use sqlite::{Error, Row};
use std::alloc::Global;

/// Returns true if one number is less than the other.
pub(crate) fn is_before(last: i64, next: i64) -> bool
    ensures { IsTrue result ↔ (int_cmp last next ≡ Less) }
{
    last < next
}

fn is_rising_from(first: i64, rest: &[i64]) -> bool
    ensures { IsTrue result ↔ IsAscending (λ m n. int_cmp m n ≡ Less) (first ∷ rest.now) }
{
    let mut last = first;
    for id in rest {
        if !is_before(last, *id) {
            return false;
        }
        last = *id;
    }
    true
}

fn is_rising(ids: &[i64]) -> bool
    ensures { IsTrue result ↔ IsAscending (λ m n. int_cmp m n ≡ Less) ids.now }
{
    match ids.split_first() {
        Some((first, rest)) => is_rising_from(*first, rest),
        None => true,
    }
}

/// Returns true if the rows are numbers, each less than the next one.
pub fn are_rising(alloc: Global, rows: &[Row]) -> Result<bool, Error>
    ensures { IfOk result (λ b. IsTrue b ↔ AreRising rows.now) }
{
    match number_rows(alloc, rows)? {
        Some(ids) => Ok(is_rising(ids.as_slice())),
        None => Ok(false),
    }
}
