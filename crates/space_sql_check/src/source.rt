//! The rows that are read in pieces, by the number in their first column.
ghost use Rattle.std.specs.Prelude.{◌≡◌};
ghost use Rattle.space_sql_schema.specs.Within.{SameConnection, Within};
ghost use Rattle.space_sql_select.specs.Reading.{Reads};
ghost use Rattle.space_sql_check.specs.Source.{outside_text, within_text};
ghost use Rattle.space_sql_check.specs.Parts.{HasNoneOutside, ShowsWithin};

use space_sql_select::select::query;
use sqlite::{Alter, Error, ErrorCode, Row, Transaction, params};

/// The rows of a table, or their rowids.
#[derive(Clone, Copy, Debug)]
pub(crate) enum Source {
    Entities,
    Volumes,
    Cells,
    Namings,
    Subscriptions,
    SubCells,
    VolumeIds,
    CellIds,
    SettingIds,
    SubCellIds,
}

impl Source {
    // Returns the text of the query for the rows with a number greater than the first parameter,
    // up to the second one.
    fn text_within(self) -> &'static str
        ensures { result.now ≡ within_text self }
    {
        match self {
            Source::Entities => {
                "SELECT num, kind, id, manager, state, version, serial, ovn, url \
                 FROM entity WHERE num > ?1 AND num <= ?2 ORDER BY num"
            }
            Source::Volumes => {
                "SELECT entity, place, alt_lower, alt_upper, time_start, time_end \
                 FROM volume WHERE entity > ?1 AND entity <= ?2 ORDER BY entity, place"
            }
            Source::Cells => {
                "SELECT entity, volume, place, token, lo, hi \
                 FROM cell WHERE entity > ?1 AND entity <= ?2 ORDER BY entity, volume, place"
            }
            Source::Namings => {
                "SELECT entity, subscription \
                 FROM naming WHERE entity > ?1 AND entity <= ?2 ORDER BY entity"
            }
            Source::Subscriptions => {
                "SELECT num, id, manager, serial, version, notes, url, \
                 for_intents, for_constraints, alt_lower, alt_upper, time_start, time_end \
                 FROM subscription WHERE num > ?1 AND num <= ?2 ORDER BY num"
            }
            Source::SubCells => {
                "SELECT subscription, place, token, lo, hi FROM subscription_cell \
                 WHERE subscription > ?1 AND subscription <= ?2 ORDER BY subscription, place"
            }
            Source::VolumeIds => {
                "SELECT rowid FROM volume WHERE rowid > ?1 AND rowid <= ?2 ORDER BY rowid"
            }
            Source::CellIds => {
                "SELECT rowid FROM cell WHERE rowid > ?1 AND rowid <= ?2 ORDER BY rowid"
            }
            Source::SettingIds => {
                "SELECT rowid FROM availability WHERE rowid > ?1 AND rowid <= ?2 ORDER BY rowid"
            }
            Source::SubCellIds => {
                "SELECT rowid FROM subscription_cell WHERE rowid > ?1 AND rowid <= ?2 \
                 ORDER BY rowid"
            }
        }
    }

    // Returns the text of the query for the other numbers, and for NULL.
    fn text_outside(self) -> &'static str
        ensures { result.now ≡ outside_text self }
    {
        match self {
            Source::Entities => {
                "SELECT num FROM entity WHERE num IS NULL OR num <= ?1 OR num > ?2"
            }
            Source::Volumes => {
                "SELECT entity FROM volume WHERE entity IS NULL OR entity <= ?1 OR entity > ?2"
            }
            Source::Cells => {
                "SELECT entity FROM cell WHERE entity IS NULL OR entity <= ?1 OR entity > ?2"
            }
            Source::Namings => {
                "SELECT entity FROM naming WHERE entity IS NULL OR entity <= ?1 OR entity > ?2"
            }
            Source::Subscriptions => {
                "SELECT num FROM subscription WHERE num IS NULL OR num <= ?1 OR num > ?2"
            }
            Source::SubCells => {
                "SELECT subscription FROM subscription_cell \
                 WHERE subscription IS NULL OR subscription <= ?1 OR subscription > ?2"
            }
            Source::VolumeIds => {
                "SELECT rowid FROM volume WHERE rowid IS NULL OR rowid <= ?1 OR rowid > ?2"
            }
            Source::CellIds => {
                "SELECT rowid FROM cell WHERE rowid IS NULL OR rowid <= ?1 OR rowid > ?2"
            }
            Source::SettingIds => {
                "SELECT rowid FROM availability WHERE rowid IS NULL OR rowid <= ?1 OR rowid > ?2"
            }
            Source::SubCellIds => {
                "SELECT rowid FROM subscription_cell \
                 WHERE rowid IS NULL OR rowid <= ?1 OR rowid > ?2"
            }
        }
    }
}

/// Returns the rows with a number greater than `over`, up to `end`, in ascending order of keys.
pub(crate) fn query_within<S: Alter>(
    tx: &mut Transaction<'_, S>,
    source: Source,
    over: i64,
    end: i64,
) -> Result<Vec<Row>, Error>
    ensures same_reference { SameConnection tx.old tx.new }
    ensures reads { Within S.Store tx.old tx.new
        (Reads (λ db rows. ShowsWithin over end source db rows.items)) result }
{
    query(tx, source.text_within(), params![over, end])
}

/// Returns an error if a row belongs to no piece: if its number is NULL, at most `i64::MIN`, or
/// greater than `i64::MAX`, in the order of `sqlite`.
pub(crate) fn check_none_outside<S: Alter>(
    tx: &mut Transaction<'_, S>,
    source: Source,
) -> Result<(), Error>
    ensures same_reference { SameConnection tx.old tx.new }
    ensures reads { Within S.Store tx.old tx.new
        (Reads (λ db _. HasNoneOutside source db)) result }
{
    let rows = query(tx, source.text_outside(), params![i64::MIN, i64::MAX])?;
    if rows.is_empty() {
        Ok(())
    } else {
        Err(Error::SqliteFailure(ErrorCode::DatabaseCorrupt))
    }
}
