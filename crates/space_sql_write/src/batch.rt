//! A batch of changes, made in one transaction.
ghost use Rattle.std.specs.Prelude.{◌≡◌, ◌∷◌, false};
ghost use Rattle.sqlite.specs.Held.{state};
ghost use Rattle.space_core.specs.Batch.{FitAll, changed_all};
ghost use Rattle.space_sql_schema.specs.Within.{SameConnection, Within};
ghost use Rattle.space_sql_write.specs.Committing.{Commits, HoldsAcrossChange};
ghost use Rattle.space_sql_write.specs.Numbering.{KeepsNumbersThroughout};
ghost use Rattle.space_sql_write.specs.Statements.{Runs, MakesRest, MakesBatch};

use crate::change::write_change;
use space_core::batch::BatchChange;
use sqlite::{Alter, Connection, Error, Transaction};
use std::alloc::Global;

fn write_rest<S: Alter>(
    alloc: Global,
    tx: &mut Transaction<'_, S>,
    rest: &[BatchChange],
) -> Result<(), Error>
    ensures same_reference { SameConnection tx.old tx.new }
    ensures changes { Within S.Store tx.old tx.new (Runs (λ _. MakesRest rest.now)) result }
{
    for next in rest {
        write_change(alloc, tx, &next.change, next.notify.as_slice())?;
    }
    Ok(())
}

fn write_batch<S: Alter>(
    alloc: Global,
    tx: &mut Transaction<'_, S>,
    first: &BatchChange,
    rest: &[BatchChange],
) -> Result<(), Error>
    ensures same_reference { SameConnection tx.old tx.new }
    ensures changes { Within S.Store tx.old tx.new
        (Runs (λ _. MakesBatch (first.now ∷ rest.now))) result }
{
    write_change(alloc, tx, &first.change, first.notify.as_slice())?;
    write_rest(alloc, tx, rest)
}

/// Makes the changes of a batch, one after the other, in one transaction, as `commit_change` makes
/// one.
///
/// Each item that exists before the batch and after each of its changes keeps its number. It is for
/// tables that represent an airspace in which the first change fits, and each other one fits the
/// airspace that the previous ones leave.
///
/// # Errors
///
/// Returns an error if the database fails or memory runs out. While the connection stays open, the
/// previously committed database is visible.
pub fn commit_batch<S: Alter>(
    alloc: Global,
    conn: &mut Connection<S>,
    first: &BatchChange,
    rest: &[BatchChange],
) -> Result<(), Error>
    requires { conn.old.in_transaction ≡ false }
    ensures ended { conn.new.in_transaction ≡ false }
    ensures commits { let old = state S.Store conn.old in
        Commits (FitAll (first.now ∷ rest.now)) (changed_all (first.now ∷ rest.now))
        old (state S.Store conn.new) result }
    ensures numbers { let old = state S.Store conn.old in
        HoldsAcrossChange (FitAll (first.now ∷ rest.now))
        (KeepsNumbersThroughout (first.now ∷ rest.now))
        old (state S.Store conn.new) result }
{
    let mut tx = conn.transaction();
    write_batch(alloc, &mut tx, first, rest)?;
    tx.commit()
}
