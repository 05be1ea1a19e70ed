//! The check of all tables in pieces, in one transaction that changes nothing.
ghost use Rattle.std.specs.Prelude.{◌≡◌, ◌↔◌, false, IsTrue};
ghost use Rattle.sqlite.specs.Effect.{IsDatabase};
ghost use Rattle.sqlite.specs.Held.{state};
ghost use Rattle.space_sql_schema.specs.Within.{SameConnection, Within};
ghost use Rattle.space_sql_select.specs.Reading.{Reads, ReadsAlive, ReadsAlone};
ghost use Rattle.space_sql_check.specs.Checking.{HasAll, HasItems, HasOthers, JudgesPieces, JudgesSound};

use crate::entities::are_entities;
use crate::ids::are_all_ids_apart;
use crate::meta::read_metas;
use crate::settings::are_settings;
use crate::subscriptions::check_subs;
use space_sql_select::meta::{Meta, meta_of};
use space_sql_select::reading::{connection_facts, is_store_alive};
use sqlite::{Alter, Connection, Error, Transaction};
use std::alloc::Global;

/// The result of the check in pieces.
#[derive(Clone, Copy, Debug)]
pub(crate) enum Verdict {
    /// The tables represent an airspace.
    Valid,
    /// The tables represent no airspace: `meta` has one row, with another format.
    OtherFormat,
    /// The tables represent no airspace, and `meta` gives no other format.
    Invalid,
}

// Returns true if the rows represent subscriptions, and entities that reference them, with serials
// up to the given one.
fn are_items<S: Alter>(
    alloc: Global,
    tx: &mut Transaction<'_, S>,
    serial: u64,
) -> Result<bool, Error>
    ensures same_reference { SameConnection tx.old tx.new }
    ensures reads { Within S.Store tx.old tx.new
        (Reads (λ db b. IsDatabase db → IsTrue b ↔ HasItems serial db)) result }
{
    match check_subs(alloc, tx, serial)? {
        Some(numbers) => are_entities(alloc, tx, serial, numbers.as_slice()),
        None => Ok(false),
    }
}

// Returns true if `availability` represents what USSs set, and rowids are different numbers.
fn are_others<S: Alter>(alloc: Global, tx: &mut Transaction<'_, S>) -> Result<bool, Error>
    ensures same_reference { SameConnection tx.old tx.new }
    ensures reads { Within S.Store tx.old tx.new
        (Reads (λ db b. IsTrue b ↔ HasOthers db)) result }
{
    if !are_settings(alloc, tx)? {
        return Ok(false);
    }
    are_all_ids_apart(alloc, tx)
}

// Returns true if the tables other than `meta` represent an airspace with the given serial.
fn are_all<S: Alter>(alloc: Global, tx: &mut Transaction<'_, S>, serial: u64) -> Result<bool, Error>
    ensures same_reference { SameConnection tx.old tx.new }
    ensures reads { Within S.Store tx.old tx.new
        (Reads (λ db b. IsDatabase db → IsTrue b ↔ HasAll serial db)) result }
{
    if !are_items(alloc, tx, serial)? {
        return Ok(false);
    }
    are_others(alloc, tx)
}

// Checks all tables, within an open transaction.
fn check_all<S: Alter>(alloc: Global, tx: &mut Transaction<'_, S>) -> Result<Verdict, Error>
    ensures same_reference { SameConnection tx.old tx.new }
    ensures reads { Within S.Store tx.old tx.new (Reads JudgesSound) result }
{
    let metas = read_metas(tx)?;
    match meta_of(metas.as_slice()) {
        Meta::Ours(serial) => {
            if are_all(alloc, tx, serial)? {
                Ok(Verdict::Valid)
            } else {
                Ok(Verdict::Invalid)
            }
        }
        Meta::Other => Ok(Verdict::OtherFormat),
        Meta::Neither => Ok(Verdict::Invalid),
    }
}

// Checks all tables in a separate transaction, which is rolled back.
fn check_alone<S: Alter>(alloc: Global, conn: &mut Connection<S>) -> Result<Verdict, Error>
    requires { conn.old.in_transaction ≡ false }
    ensures ended { conn.new.in_transaction ≡ false }
    ensures reads { ReadsAlone JudgesSound
        (state S.Store conn.old) (state S.Store conn.new) result }
{
    let mut tx = conn.transaction();
    let verdict = check_all(alloc, &mut tx)?;
    tx.rollback();
    Ok(verdict)
}

/// Checks all tables in pieces, and leaves them unchanged.
pub(crate) fn check_in_pieces<S: Alter>(
    alloc: Global,
    conn: &mut Connection<S>,
) -> Result<Verdict, Error>
    requires { conn.old.in_transaction ≡ false }
    ensures outside { conn.new.in_transaction ≡ false }
    ensures reads { ReadsAlive JudgesPieces
        (state S.Store conn.old) (state S.Store conn.new) result }
{
    connection_facts(conn);
    let verdict = check_alone(alloc, conn)?;
    is_store_alive(conn)?;
    connection_facts(conn);
    Ok(verdict)
}
