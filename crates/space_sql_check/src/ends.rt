//! The ends of pieces.
ghost use Rattle.std.specs.Prelude.{◌≡◌, ◌≤ℤ◌, IfOk};
ghost use Rattle.space_sql_schema.specs.Within.{SameConnection, Within};
ghost use Rattle.space_sql_select.specs.Reading.{Reads};
ghost use Rattle.space_sql_check.specs.Source.{next_text};

use space_sql_select::rows::number_in;
use space_sql_select::select::query;
use sqlite::{Alter, Error, Row, Transaction, params};

/// The rows by which the end of a piece is chosen.
#[derive(Clone, Copy, Debug)]
pub(crate) enum Counted {
    CellsOfEntities,
    CellsOfSubscriptions,
    VolumeIds,
    CellIds,
    SettingIds,
    SubCellIds,
}

impl Counted {
    // Returns the text of the query for the numbers of the next 1,024 rows.
    fn text_next(self) -> &'static str
        ensures { result.now ≡ next_text self }
    {
        match self {
            Counted::CellsOfEntities => {
                "SELECT entity FROM cell WHERE entity > ?1 ORDER BY entity LIMIT 1024"
            }
            Counted::CellsOfSubscriptions => {
                "SELECT subscription FROM subscription_cell WHERE subscription > ?1 \
                 ORDER BY subscription LIMIT 1024"
            }
            Counted::VolumeIds => {
                "SELECT rowid FROM volume WHERE rowid > ?1 ORDER BY rowid LIMIT 1024"
            }
            Counted::CellIds => {
                "SELECT rowid FROM cell WHERE rowid > ?1 ORDER BY rowid LIMIT 1024"
            }
            Counted::SettingIds => {
                "SELECT rowid FROM availability WHERE rowid > ?1 ORDER BY rowid LIMIT 1024"
            }
            Counted::SubCellIds => {
                "SELECT rowid FROM subscription_cell WHERE rowid > ?1 ORDER BY rowid LIMIT 1024"
            }
        }
    }
}

// Returns the number of the last row if there are 1,024 rows and it is above `over`. Otherwise
// returns the max number.
fn end_of(rows: &[Row], over: i64) -> i64
    ensures { over ≤ℤ result }
{
    if rows.len() < 1024 {
        return i64::MAX;
    }
    let Some(row) = rows.last() else {
        return i64::MAX;
    };
    match number_in(row, 0) {
        Some(end) if end > over => end,
        _ => i64::MAX,
    }
}

/// Returns the number at which the next piece ends, after that with the number `over`.
///
/// The piece has about 1,024 of the given rows. The last piece ends at the max number.
pub(crate) fn piece_end<S: Alter>(
    tx: &mut Transaction<'_, S>,
    counted: Counted,
    over: i64,
) -> Result<i64, Error>
    ensures same_reference { SameConnection tx.old tx.new }
    ensures later { IfOk result (λ end. over ≤ℤ end) }
    ensures reads { Within S.Store tx.old tx.new (Reads (λ _ _. Unit {0})) result }
{
    let rows = query(tx, counted.text_next(), params![over])?;
    Ok(end_of(rows.as_slice(), over))
}
