//! A change of the airspace, made in one transaction.
ghost use Rattle.std.specs.Prelude.{◌≡◌, [], false};
ghost use Rattle.sqlite.specs.Held.{state};
ghost use Rattle.space_core.specs.Space.{Fits, changed};
ghost use Rattle.space_sql_schema.specs.Within.{SameConnection, Within};
ghost use Rattle.space_sql_write.specs.Committing.{Commits, HoldsAcrossChange};
ghost use Rattle.space_sql_write.specs.Numbering.{KeepsNumbers};
ghost use Rattle.space_sql_write.specs.Statements.{Runs, MakesChange};

use crate::availability::set_availability;
use crate::notify::notify_all;
use crate::put::put_entity;
use crate::remove::remove_entity;
use crate::sub_put::put_sub;
use crate::sub_remove::remove_sub;
use entity_core::entity_id::EntityId;
use space_core::space::Change;
use sqlite::{Alter, Connection, Error, Transaction};
use std::alloc::Global;

fn write_one<S: Alter>(
    alloc: Global,
    tx: &mut Transaction<'_, S>,
    change: &Change,
) -> Result<(), Error>
    ensures same_reference { SameConnection tx.old tx.new }
    ensures changes { Within S.Store tx.old tx.new (Runs (λ _. MakesChange change.now [])) result }
{
    match change {
        Change::Put(entity) => put_entity(alloc, tx, entity),
        Change::Remove(kind, id) => remove_entity(alloc, tx, *kind, *id),
        Change::Avail(uss, availability, version) => {
            set_availability(tx, uss, *availability, version)
        }
        Change::PutSub(sub) => put_sub(alloc, tx, sub),
        Change::RemoveSub(id) => remove_sub(alloc, tx, *id),
    }
}

/// Makes a change, and notifies the subscriptions with these ids.
pub(crate) fn write_change<S: Alter>(
    alloc: Global,
    tx: &mut Transaction<'_, S>,
    change: &Change,
    notify: &[EntityId],
) -> Result<(), Error>
    ensures same_reference { SameConnection tx.old tx.new }
    ensures changes { Within S.Store tx.old tx.new
        (Runs (λ _. MakesChange change.now notify.now)) result }
{
    write_one(alloc, tx, change)?;
    notify_all(alloc, tx, notify)
}

/// Makes a change in one transaction, and notifies the subscriptions with these ids. The serial
/// increases by one.
///
/// Each item that exists before and after keeps its number. It is for tables that represent an
/// airspace in which the change fits and can notify these subscriptions. For others, the contract
/// only says that `Ok` leaves a committed database.
///
/// # Errors
///
/// Returns an error if the database fails or memory runs out. While the connection stays open, the
/// previously committed database is visible.
pub fn commit_change<S: Alter>(
    alloc: Global,
    conn: &mut Connection<S>,
    change: &Change,
    notify: &[EntityId],
) -> Result<(), Error>
    requires { conn.old.in_transaction ≡ false }
    ensures ended { conn.new.in_transaction ≡ false }
    ensures commits { let old = state S.Store conn.old in
        Commits (Fits change.now notify.now) (changed change.now notify.now)
        old (state S.Store conn.new) result }
    ensures numbers { let old = state S.Store conn.old in
        HoldsAcrossChange (Fits change.now notify.now)
        (λ a. KeepsNumbers a (changed change.now notify.now a))
        old (state S.Store conn.new) result }
{
    let mut tx = conn.transaction();
    write_change(alloc, &mut tx, change, notify)?;
    tx.commit()
}
