//! Insertion of rows into their table.
ghost use Rattle.std.specs.Prelude.{◌≡◌, List, [], ◌∷◌, ◌++◌};
ghost use Rattle.space_sql_schema.specs.Within.{SameConnection, Within};
ghost use Rattle.space_sql_write.specs.Layout.{Always, Layout, Relays};
ghost use Rattle.space_sql_write.specs.Statements.{Runs};

use sqlite::{Alter, Error, Transaction};

/// A row that is inserted into its table.
pub(crate) trait Inserted: Drop {
    /// The rows of the tables with further rows added.
    ghost join: { List Self → Layout → Layout };

    /// Inserts the row.
    fn insert<S: Alter>(&self, tx: &mut Transaction<'_, S>) -> Result<usize, Error>
        ensures same_reference { SameConnection tx.old tx.new }
        ensures inserts { Within S.Store tx.old tx.new
            (Runs (λ _. Relays Always (join (self.now ∷ [])))) result };

    /// States that adding no rows changes nothing.
    ghost none: { (l : Layout) → join [] l ≡ l };

    /// States that a row can be added after others.
    ghost more: { (rows : List Self) (row : Self) (l : Layout)
        → join (row ∷ []) (join rows l) ≡ join (rows ++ row ∷ []) l };
}

/// Inserts rows, one after the other.
pub(crate) fn insert_all<R: Inserted, S: Alter>(
    tx: &mut Transaction<'_, S>,
    rows: &[R],
) -> Result<(), Error>
    ensures same_reference { SameConnection tx.old tx.new }
    ensures inserts { Within S.Store tx.old tx.new
        (Runs (λ _. Relays Always (R.join rows.now))) result }
{
    for row in rows {
        row.insert(tx)?;
    }
    Ok(())
}
