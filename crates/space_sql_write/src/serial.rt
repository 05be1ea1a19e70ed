//! The serial of the table `meta`.
ghost use Rattle.std.specs.Prelude.{◌<◌};
ghost use Rattle.entity_core.specs.Serial.{max_serial};
ghost use Rattle.space_sql_schema.specs.Within.{SameConnection, Within};
ghost use Rattle.space_sql_write.specs.Layout.{with_next_serial};
ghost use Rattle.space_sql_write.specs.Statements.{Runs, RelaysSound};

use sqlite::{Alter, Error, Transaction, params};

/// Increases the serial by one.
pub(crate) fn raise_serial<S: Alter>(tx: &mut Transaction<'_, S>) -> Result<usize, Error>
    ensures same_reference { SameConnection tx.old tx.new }
    ensures raises { Within S.Store tx.old tx.new
        (Runs (λ _. RelaysSound (λ l. l.serial < max_serial) with_next_serial)) result }
{
    tx.execute("UPDATE meta SET serial = serial + 1 WHERE one = 1", &[])
}

/// Sets the serial.
pub fn set_serial<S: Alter>(tx: &mut Transaction<'_, S>, serial: i64) -> Result<usize, Error>
    ensures same_reference { SameConnection tx.old tx.new }
{
    tx.execute("UPDATE meta SET serial = ?1 WHERE one = 1", params![serial])
}
