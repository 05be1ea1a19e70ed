//! The serial of the airspace, read from a connection.
ghost use Rattle.std.specs.Prelude.{◌≡◌, false, ℕ, pos, [], ◌∷◌, IfOk};
ghost use Rattle.sqlite_value.specs.declared.value.Value.TheVariants.{Int};
ghost use Rattle.sqlite.specs.Held.{state};
ghost use Rattle.space_sql_select.specs.Reading.{ReadsTables};

use space_sql_select::select::select;
use sqlite::{Alter, Connection, Error, Row};

fn serial_in(rows: &[Row]) -> Result<u64, Error>
    ensures { IfOk result (λ n. (m : ℕ) → rows.now ≡ (Int (pos m) ∷ []) ∷ [] → n ≡ m) }
{
    match rows.first() {
        Some(row) => row.get(0),
        None => Err(Error::QueryReturnedNoRows),
    }
}

/// Returns the serial of the airspace that the tables represent.
///
/// If they represent none, the result is unspecified.
pub fn read_serial<S: Alter>(conn: &mut Connection<S>) -> Result<u64, Error>
    requires { conn.old.in_transaction ≡ false }
    ensures outside { conn.new.in_transaction ≡ false }
    ensures reads { ReadsTables (state S.Store conn.old) (state S.Store conn.new) result
        (λ a serial. serial ≡ a.serial) }
{
    let rows = select(conn, "SELECT serial FROM meta WHERE one = 1", &[])?;
    serial_in(rows.as_slice())
}
