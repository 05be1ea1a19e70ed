//! Conversion of results of a connection to results of a space, and their recording.
ghost use Rattle.std.specs.Prelude.{◌≡◌, false, IsTrue, OnOk};
ghost use Rattle.sqlite.specs.Held.{state};
ghost use Rattle.sqlite.specs.State.{HasCleanDisk, IsUnchanged, Survives};
ghost use Rattle.space_core.specs.Space.{ReportsFault, is_broken_after, refusals_after};
ghost use Rattle.space_core.specs.declared.space.SpaceFault.TheVariants.{Unchanged};
ghost use Rattle.space_sql.specs.Holding.{IsKeeping, Rests};
ghost use Rattle.space_sql.specs.Settling.{Settles};

use space_core::space::SpaceFault;
use space_sql_select::reading::{connection_facts, is_store_alive};
use sqlite::{Alter, Connection, Error};

/// States what holds of a connection outside a transaction. It does nothing.
pub(crate) fn at_rest<S: Alter>(conn: &Connection<S>)
    requires { conn.now.in_transaction ≡ false }
    ensures { Rests (state S.Store conn.now) }
{
    connection_facts(conn);
}

// Returns the fault of a call that failed: `Unchanged` if the store is alive, otherwise `Broken`.
fn fault<S: Alter>(conn: &mut Connection<S>) -> SpaceFault
    requires { conn.old.in_transaction ≡ false }
    ensures outside { conn.new.in_transaction ≡ false }
    ensures same { HasCleanDisk (state S.Store conn.new) → result ≡ Unchanged
        → IsUnchanged (state S.Store conn.old) (state S.Store conn.new) }
    ensures survives { Survives (state S.Store conn.old) (state S.Store conn.new) (λ _. ⊥) }
{
    match is_store_alive(conn) {
        Ok(()) => SpaceFault::Unchanged,
        Err(_) => SpaceFault::Broken,
    }
}

/// Records a result: counts `Unchanged`, and marks the space as broken after `Broken`.
pub(crate) fn note<T>(refusals: &mut u64, broken: &mut bool, answer: &Result<T, SpaceFault>)
    ensures counted { refusals.new ≡ refusals_after refusals.old answer.now }
    ensures breaks { broken.new ≡ is_broken_after broken.old answer.now }
{
    match answer {
        Ok(_) => {}
        Err(SpaceFault::Unchanged) => *refusals = refusals.saturating_add(1),
        Err(SpaceFault::Broken) => *broken = true,
    }
}

// Returns the result for that of a connection. After an error it tests the store, which writes
// nothing.
fn answer_or_fault<S: Alter, T>(
    conn: &mut Connection<S>,
    answer: Result<T, Error>,
) -> Result<T, SpaceFault>
    requires outside { conn.old.in_transaction ≡ false }
    ensures outside { conn.new.in_transaction ≡ false }
    ensures settles { Settles S.Store conn.old conn.new answer result }
{
    match answer {
        Ok(found) => Ok(found),
        Err(_) => Err(fault(conn)),
    }
}

/// Returns the result of an unbroken space, given the result of its connection.
pub(crate) fn answer_of<S: Alter, T>(
    conn: &mut Connection<S>,
    refusals: &mut u64,
    broken: &mut bool,
    answer: Result<T, Error>,
) -> Result<T, SpaceFault>
    requires outside { conn.old.in_transaction ≡ false }
    requires open { HasCleanDisk (state S.Store conn.old)
        → OnOk answer (IsTrue (state S.Store conn.old).is_open) }
    requires works { broken.old ≡ false }
    ensures keeping { IsKeeping (state S.Store conn.new) broken.new }
    ensures tells { ReportsFault refusals.old refusals.new broken.old broken.new result }
    ensures settles { Settles S.Store conn.old conn.new answer result }
{
    let result = answer_or_fault(conn, answer);
    note(refusals, broken, &result);
    at_rest(conn);
    result
}
