//! Insertion and update of rows of a subscription, that of the subscription before those of its
//! cells.
ghost use Rattle.std.specs.Prelude.{[], ◌∷◌};
ghost use Rattle.space_sql_schema.specs.Within.{SameConnection, Within};
ghost use Rattle.space_sql_write.specs.Layout.{Always, HasSub, Relays, with_sub_cells, with_sub_row, without_sub_row};
ghost use Rattle.space_sql_write.specs.Statements.{Runs};

use crate::inserted::Inserted;
use space_rows::rows::{SubCellRow, SubRow};
use sqlite::{Alter, Error, Transaction, params};

/// Inserts the row of a subscription.
pub(crate) fn insert_sub_row<S: Alter>(
    tx: &mut Transaction<'_, S>,
    row: &SubRow,
) -> Result<usize, Error>
    ensures same_reference { SameConnection tx.old tx.new }
    ensures inserts { Within S.Store tx.old tx.new
        (Runs (λ _. Relays Always (with_sub_row row.now))) result }
{
    tx.execute(
        "INSERT INTO subscription (num, id, manager, serial, version, notes, url, for_intents, \
         for_constraints, alt_lower, alt_upper, time_start, time_end) \
         VALUES (?1, ?2, ?3, ?4, ?5, ?6, ?7, ?8, ?9, ?10, ?11, ?12, ?13)",
        params![
            row.num,
            row.id.text(),
            row.manager.text(),
            row.serial,
            row.version.text(),
            row.notes,
            row.url.text(),
            row.for_intents,
            row.for_constraints,
            row.alt_lower,
            row.alt_upper,
            row.time_start,
            row.time_end
        ],
    )
}

/// Updates the row of a subscription with its number.
pub(crate) fn update_sub_row<S: Alter>(
    tx: &mut Transaction<'_, S>,
    row: &SubRow,
) -> Result<usize, Error>
    ensures same_reference { SameConnection tx.old tx.new }
    ensures updates { let num = row.now.num in
        Within S.Store tx.old tx.new
        (Runs (λ _. Relays (HasSub num) (λ l.
        with_sub_row row.now (without_sub_row num l)))) result }
{
    tx.execute(
        "UPDATE subscription SET id = ?2, manager = ?3, serial = ?4, version = ?5, notes = ?6, \
         url = ?7, for_intents = ?8, for_constraints = ?9, alt_lower = ?10, alt_upper = ?11, \
         time_start = ?12, time_end = ?13 WHERE num = ?1",
        params![
            row.num,
            row.id.text(),
            row.manager.text(),
            row.serial,
            row.version.text(),
            row.notes,
            row.url.text(),
            row.for_intents,
            row.for_constraints,
            row.alt_lower,
            row.alt_upper,
            row.time_start,
            row.time_end
        ],
    )
}

impl Inserted for SubCellRow {
    ghost use Rattle.std.proofs.Common.{append-nil, append_assoc};

    ghost join = { with_sub_cells };

    ghost none = { λ l i. record l { sub_cells = append-nil l.sub_cells i } };

    ghost more = { λ rows row l i.
        record l { sub_cells = append_assoc l.sub_cells rows (row ∷ []) i } };

    fn insert<S: Alter>(&self, tx: &mut Transaction<'_, S>) -> Result<usize, Error> {
        tx.execute(
            "INSERT INTO subscription_cell (subscription, place, token, lo, hi) \
             VALUES (?1, ?2, ?3, ?4, ?5)",
            params![
                self.subscription,
                self.place,
                self.token.text(),
                self.lo,
                self.hi
            ],
        )
    }
}
