//! Facts about a connection, and a test that its store is alive.
ghost use Rattle.std.specs.Prelude.{◌≡◌, false, Err, OnOk, IsTrue};
ghost use Rattle.sqlite.specs.declared.error.Error.TheVariants.{InvalidQuery};
ghost use Rattle.sqlite.specs.Held.{state};
ghost use Rattle.sqlite.specs.State.{HasCleanDisk, IsLive, IsUnchanged, Survives};

use sqlite::{Alter, Connection, Error, Row};

/// States what holds of a connection at any time. It does nothing.
pub fn connection_facts<S: Alter>(conn: &Connection<S>)
    ensures live { IsLive (state S.Store conn.now) }
    ensures settled { let s = state S.Store conn.now in
        conn.now.in_transaction ≡ false → IsTrue s.is_open → s.now ≡ s.committed }
{
    let _ = conn.schema();
    let _ = conn.is_autocommit();
}

// Returns `Ok` if a text without a statement was rejected as such.
fn refused(told: Result<Row, Error>) -> Result<(), Error>
    ensures { OnOk result (told ≡ Err InvalidQuery) }
{
    match told {
        Err(Error::InvalidQuery) => Ok(()),
        Err(error) => Err(error),
        Ok(_) => Err(Error::QueryReturnedNoRows),
    }
}

/// Tests that the store is alive, with a text without a statement, which an open connection
/// rejects.
///
/// It writes nothing. After the first call it allocates nothing, as long as the connection caches
/// the text.
pub fn is_store_alive<S: Alter>(conn: &mut Connection<S>) -> Result<(), Error>
    requires { conn.old.in_transaction ≡ false }
    ensures outside { conn.new.in_transaction ≡ false }
    ensures same { let new = state S.Store conn.new in
        HasCleanDisk new → OnOk result (IsUnchanged (state S.Store conn.old) new) }
    ensures survives { Survives (state S.Store conn.old) (state S.Store conn.new) (λ _. ⊥) }
{
    refused(conn.query_row("", &[]))
}
