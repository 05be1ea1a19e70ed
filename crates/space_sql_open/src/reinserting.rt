//! Insertion of the rows that were taken aside into the tables that were created anew.
ghost use Rattle.std.specs.Prelude.{◌≡◌, List, [], ◌∷◌, ◌++◌};
ghost use Rattle.space_sql_schema.specs.Within.{SameConnection, Within};
ghost use Rattle.space_sql_open.specs.Relaying.{Carries, Listed, Puts};

use space_rows::rows::{SubCellRow, SubRow};
use space_sql_select::availability_record::AvailabilityRecord;
use space_sql_select::sub_rows::NamingRow;
use space_sql_write::availability::availability_number;
use sqlite::{Alter, Error, Transaction, params};

/// A row that is inserted into a table that was created anew.
pub(crate) trait Reinserted: Drop {
    /// The rows of the tables with further rows added.
    ghost join: { List Self → Listed → Listed };

    /// Inserts the row.
    fn reinsert<S: Alter>(&self, tx: &mut Transaction<'_, S>) -> Result<usize, Error>
        ensures same_reference { SameConnection tx.old tx.new }
        ensures puts { Within S.Store tx.old tx.new
            (Carries (Puts (join (self.now ∷ [])))) result };

    /// States that adding no rows changes nothing.
    ghost none: { (l : Listed) → join [] l ≡ l };

    /// States that a row can be added after others.
    ghost more: { (rows : List Self) (row : Self) (l : Listed)
        → join (row ∷ []) (join rows l) ≡ join (rows ++ row ∷ []) l };
}

/// Inserts rows, one after the other, within an open transaction.
pub(crate) fn reinsert_all<R: Reinserted, S: Alter>(
    tx: &mut Transaction<'_, S>,
    rows: &[R],
) -> Result<(), Error>
    ensures same_reference { SameConnection tx.old tx.new }
    ensures puts { Within S.Store tx.old tx.new (Carries (Puts (R.join rows.now))) result }
{
    for row in rows {
        row.reinsert(tx)?;
    }
    Ok(())
}

impl Reinserted for SubRow {
    ghost use Rattle.std.proofs.Common.{append-nil, append_assoc};
    ghost use Rattle.space_sql_open.specs.Relaying.{with_subs};

    ghost join = { with_subs };

    ghost none = { λ l i. record l { subs = append-nil l.subs i } };

    ghost more = { λ rows row l i. record l { subs = append_assoc l.subs rows (row ∷ []) i } };

    fn reinsert<S: Alter>(&self, tx: &mut Transaction<'_, S>) -> Result<usize, Error> {
        tx.execute(
            "INSERT INTO subscription (num, id, manager, serial, version, notes, url, \
             for_intents, for_constraints, alt_lower, alt_upper, time_start, time_end) \
             VALUES (?1, ?2, ?3, ?4, ?5, ?6, ?7, ?8, ?9, ?10, ?11, ?12, ?13)",
            params![
                self.num,
                self.id.text(),
                self.manager.text(),
                self.serial,
                self.version.text(),
                self.notes,
                self.url.text(),
                self.for_intents,
                self.for_constraints,
                self.alt_lower,
                self.alt_upper,
                self.time_start,
                self.time_end
            ],
        )
    }
}

impl Reinserted for SubCellRow {
    ghost use Rattle.std.proofs.Common.{append-nil, append_assoc};
    ghost use Rattle.space_sql_open.specs.Relaying.{with_cells};

    ghost join = { with_cells };

    ghost none = { λ l i. record l { cells = append-nil l.cells i } };

    ghost more = { λ rows row l i. record l { cells = append_assoc l.cells rows (row ∷ []) i } };

    fn reinsert<S: Alter>(&self, tx: &mut Transaction<'_, S>) -> Result<usize, Error> {
        tx.execute(
            "INSERT INTO subscription_cell (subscription, place, token, lo, hi) \
             VALUES (?1, ?2, ?3, ?4, ?5)",
            params![
                self.subscription,
                self.place,
                self.token.text(),
                self.lo,
                self.hi
            ],
        )
    }
}

impl Reinserted for NamingRow {
    ghost use Rattle.std.proofs.Common.{append-nil, append_assoc};
    ghost use Rattle.space_sql_open.specs.Relaying.{with_namings};

    ghost join = { with_namings };

    ghost none = { λ l i. record l { namings = append-nil l.namings i } };

    ghost more = { λ rows row l i.
        record l { namings = append_assoc l.namings rows (row ∷ []) i } };

    fn reinsert<S: Alter>(&self, tx: &mut Transaction<'_, S>) -> Result<usize, Error> {
        tx.execute(
            "INSERT INTO naming (entity, subscription) VALUES (?1, ?2)",
            params![self.entity, self.subscription],
        )
    }
}

impl Reinserted for AvailabilityRecord {
    ghost use Rattle.std.proofs.Common.{append-nil, append_assoc};
    ghost use Rattle.space_sql_open.specs.Relaying.{with_settings};

    ghost join = { with_settings };

    ghost none = { λ l i. record l { settings = append-nil l.settings i } };

    ghost more = { λ rows row l i.
        record l { settings = append_assoc l.settings rows (row ∷ []) i } };

    fn reinsert<S: Alter>(&self, tx: &mut Transaction<'_, S>) -> Result<usize, Error> {
        tx.execute(
            "INSERT INTO availability (uss, state, version) VALUES (?1, ?2, ?3)",
            params![
                self.uss.text(),
                availability_number(self.availability),
                self.version.text()
            ],
        )
    }
}
