//! Insertion of the rows of an entity, those of a table before those that refer to them.
ghost use Rattle.std.specs.Prelude.{[], ◌∷◌, Some};
ghost use Rattle.space_sql_schema.specs.Within.{SameConnection, Within};
ghost use Rattle.space_sql_write.specs.Layout.{Always, Relays, with_cells, with_entity_row, with_extents, with_naming, with_rows, with_volumes};
ghost use Rattle.space_sql_write.specs.Statements.{Runs};

use crate::inserted::{Inserted, insert_all};
use space_rows::rows::{CellRow, EntityRow, VolumeRow};
use sqlite::{Alter, Error, Transaction, params};

fn insert_row<S: Alter>(tx: &mut Transaction<'_, S>, row: &EntityRow) -> Result<usize, Error>
    ensures same_reference { SameConnection tx.old tx.new }
    ensures inserts { Within S.Store tx.old tx.new
        (Runs (λ _. Relays Always (with_entity_row row.now))) result }
{
    tx.execute(
        "INSERT INTO entity (num, kind, id, manager, state, version, serial, ovn, url) \
         VALUES (?1, ?2, ?3, ?4, ?5, ?6, ?7, ?8, ?9)",
        params![
            row.num,
            row.kind,
            row.id.text(),
            row.manager.text(),
            row.state,
            row.version,
            row.serial,
            row.ovn.text(),
            row.url.text()
        ],
    )
}

impl Inserted for VolumeRow {
    ghost use Rattle.std.proofs.Common.{append-nil, append_assoc};

    ghost join = { with_volumes };

    ghost none = { λ l i. record l { volumes = append-nil l.volumes i } };

    ghost more = { λ rows row l i.
        record l { volumes = append_assoc l.volumes rows (row ∷ []) i } };

    fn insert<S: Alter>(&self, tx: &mut Transaction<'_, S>) -> Result<usize, Error> {
        tx.execute(
            "INSERT INTO volume (entity, place, alt_lower, alt_upper, time_start, time_end) \
             VALUES (?1, ?2, ?3, ?4, ?5, ?6)",
            params![
                self.entity,
                self.place,
                self.alt_lower,
                self.alt_upper,
                self.time_start,
                self.time_end
            ],
        )
    }
}

impl Inserted for CellRow {
    ghost use Rattle.std.proofs.Common.{append-nil, append_assoc};

    ghost join = { with_cells };

    ghost none = { λ l i. record l { cells = append-nil l.cells i } };

    ghost more = { λ rows row l i.
        record l { cells = append_assoc l.cells rows (row ∷ []) i } };

    fn insert<S: Alter>(&self, tx: &mut Transaction<'_, S>) -> Result<usize, Error> {
        tx.execute(
            "INSERT INTO cell (entity, volume, place, token, lo, hi) \
             VALUES (?1, ?2, ?3, ?4, ?5, ?6)",
            params![
                self.entity,
                self.volume,
                self.place,
                self.token.text(),
                self.lo,
                self.hi
            ],
        )
    }
}

fn insert_naming<S: Alter>(
    tx: &mut Transaction<'_, S>,
    entity: i64,
    subscription: i64,
) -> Result<usize, Error>
    ensures same_reference { SameConnection tx.old tx.new }
    ensures inserts { Within S.Store tx.old tx.new
        (Runs (λ _. Relays Always (with_naming entity (Some subscription)))) result }
{
    tx.execute(
        "INSERT INTO naming (entity, subscription) VALUES (?1, ?2)",
        params![entity, subscription],
    )
}

// Inserts the row of an entity, and those of its volumes and cells.
fn insert_extents<S: Alter>(
    tx: &mut Transaction<'_, S>,
    row: &EntityRow,
    volumes: &[VolumeRow],
    cells: &[CellRow],
) -> Result<(), Error>
    ensures same_reference { SameConnection tx.old tx.new }
    ensures inserts { Within S.Store tx.old tx.new
        (Runs (λ _. Relays Always (with_extents row.now volumes.now cells.now))) result }
{
    insert_row(tx, row)?;
    insert_all(tx, volumes)?;
    insert_all(tx, cells)
}

/// Inserts the rows of an entity, and the row by which it references the subscription with a
/// number.
pub(crate) fn insert_rows<S: Alter>(
    tx: &mut Transaction<'_, S>,
    row: &EntityRow,
    volumes: &[VolumeRow],
    cells: &[CellRow],
    named: Option<i64>,
) -> Result<(), Error>
    ensures same_reference { SameConnection tx.old tx.new }
    ensures inserts { Within S.Store tx.old tx.new
        (Runs (λ _. Relays Always (with_rows row.now volumes.now cells.now named))) result }
{
    insert_extents(tx, row, volumes, cells)?;
    match named {
        Some(subscription) => {
            insert_naming(tx, row.num, subscription)?;
            Ok(())
        }
        None => Ok(()),
    }
}
