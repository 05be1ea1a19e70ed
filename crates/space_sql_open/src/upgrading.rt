//! Upgrade of tables of an old format, in one transaction, if they represent an airspace.
ghost use Rattle.std.specs.Prelude.{◌≡◌, ◌≢◌, ◌⊎◌, false, IfErr, OnOk, IsTrue};
ghost use Rattle.sqlite.specs.Held.{state};
ghost use Rattle.sqlite.specs.State.{HasCleanDisk, IsUnchanged, Survives};
ghost use Rattle.space_sql_schema.specs.Making.{IsSettled};
ghost use Rattle.space_sql_schema.specs.Tables.{dss_schema, first_schema, schema_of, unindexed_schema};
ghost use Rattle.space_sql_schema.specs.Within.{SameConnection, Within};
ghost use Rattle.space_sql_select.specs.Reading.{GoesBack, IsAsFound};
ghost use Rattle.space_sql_open.specs.Inside.{Inside};
ghost use Rattle.space_sql_open.specs.Upgrading.{Indexes, Judges, Rewrites};
ghost use Rattle.space_sql_open.specs.Opening.{MayHaveUpgraded, UpgradesFormat, format_before};
ghost use Rattle.space_sql_open.specs.declared.open_fault.OpenFault.TheVariants.{Store};

use crate::checking::airspace_or_fault;
use crate::first_meta::first_meta;
use crate::laying::{lay_first, lay_indexed, lay_second};
use crate::old_format::OldFormat;
use crate::open_fault::OpenFault;
use space_sql_load::reading::read_airspace_in_transaction;
use space_sql_schema::upgrade::{add_index, upgrade_in_transaction};
use space_sql_select::reading::{connection_facts, is_store_alive};
use sqlite::{Alter, Connection, Transaction};
use std::alloc::Global;

// Upgrades tables of format 1 to format 2, whatever they represent.
fn rewrite<S: Alter>(tx: &mut Transaction<'_, S>) -> Result<(), OpenFault>
    ensures same_reference { SameConnection tx.old tx.new }
    ensures rewrites { Within S.Store tx.old tx.new (Inside first_schema Rewrites) result }
{
    match upgrade_in_transaction(tx) {
        Ok(()) => Ok(()),
        Err(_) => Err(OpenFault::Store),
    }
}

/// Checks that the tables of format 2 represent an airspace, within an open transaction.
pub(crate) fn check_upgraded<S: Alter>(
    alloc: Global,
    tx: &mut Transaction<'_, S>,
) -> Result<(), OpenFault>
    ensures same_reference { SameConnection tx.old tx.new }
    ensures judges { Within S.Store tx.old tx.new (Inside dss_schema Judges) result }
{
    let read = read_airspace_in_transaction(alloc, tx);
    match airspace_or_fault(read) {
        Ok(_) => Ok(()),
        Err(fault) => Err(fault),
    }
}

fn upgrade_first<S: Alter>(alloc: Global, tx: &mut Transaction<'_, S>) -> Result<(), OpenFault>
    ensures same_reference { SameConnection tx.old tx.new }
    ensures moves { Within S.Store tx.old tx.new
        (Inside first_schema (UpgradesFormat OldFormat.One)) result }
{
    match first_meta(tx) {
        Ok(()) => {}
        Err(fault) => return Err(fault),
    }
    match rewrite(tx) {
        Ok(()) => check_upgraded(alloc, tx),
        Err(fault) => Err(fault),
    }
}

// Adds the index on `naming`, whatever the tables represent.
fn index<S: Alter>(tx: &mut Transaction<'_, S>) -> Result<(), OpenFault>
    ensures same_reference { SameConnection tx.old tx.new }
    ensures indexes { Within S.Store tx.old tx.new (Inside unindexed_schema Indexes) result }
{
    match add_index(tx) {
        Ok(()) => Ok(()),
        Err(_) => Err(OpenFault::Store),
    }
}

fn index_second<S: Alter>(alloc: Global, tx: &mut Transaction<'_, S>) -> Result<(), OpenFault>
    ensures same_reference { SameConnection tx.old tx.new }
    ensures moves { Within S.Store tx.old tx.new
        (Inside unindexed_schema (UpgradesFormat OldFormat.TwoUnindexed)) result }
{
    match index(tx) {
        Ok(()) => check_upgraded(alloc, tx),
        Err(fault) => Err(fault),
    }
}

fn upgrade_inside<S: Alter>(
    alloc: Global,
    tx: &mut Transaction<'_, S>,
    from: OldFormat,
) -> Result<(), OpenFault>
    ensures same_reference { SameConnection tx.old tx.new }
    ensures moves { Within S.Store tx.old tx.new
        (Inside (schema_of (format_before from)) (UpgradesFormat from)) result }
{
    match from {
        OldFormat::One => upgrade_first(alloc, tx),
        OldFormat::TwoUnindexed => index_second(alloc, tx),
        OldFormat::OldOne => lay_first(alloc, tx),
        OldFormat::OldTwoUnindexed => lay_second(alloc, tx),
        OldFormat::OldTwo => lay_indexed(alloc, tx),
    }
}

fn upgrade_tables<S: Alter>(
    alloc: Global,
    conn: &mut Connection<S>,
    from: OldFormat,
) -> Result<(), OpenFault>
    requires { conn.old.in_transaction ≡ false }
    ensures ended { conn.new.in_transaction ≡ false }
    ensures moves { let old = state S.Store conn.old in
        let new = state S.Store conn.new in
        HasCleanDisk new → old.now.schema ≡ schema_of (format_before from)
        → UpgradesFormat from old.now new.now result }
    ensures settled { let new = state S.Store conn.new in
        HasCleanDisk new → OnOk result (IsSettled new) }
    ensures clean { HasCleanDisk (state S.Store conn.new) → HasCleanDisk (state S.Store conn.old) }
    ensures back { let old = state S.Store conn.old in
        let new = state S.Store conn.new in
        HasCleanDisk new → IsTrue new.is_open → old.now.schema ≡ schema_of (format_before from)
        → IfErr result (λ fault. fault ≢ Store → GoesBack old new) }
    ensures left { let old = state S.Store conn.old in
        IfErr result (λ fault. Survives old (state S.Store conn.new)
        (λ trees. (fault ≡ Store) × MayHaveUpgraded from old trees)) }
{
    let mut tx = conn.transaction();
    match upgrade_inside(alloc, &mut tx, from) {
        Ok(()) => {}
        Err(fault) => return Err(fault),
    }
    match tx.commit() {
        Ok(()) => Ok(()),
        Err(_) => Err(OpenFault::Store),
    }
}

// Returns the fault of rejected tables if the store is alive, otherwise `Store`. It writes nothing.
fn fault_if_alive<S: Alter>(conn: &mut Connection<S>, fault: OpenFault) -> OpenFault
    requires { conn.old.in_transaction ≡ false }
    ensures outside { conn.new.in_transaction ≡ false }
    ensures is { (result ≡ fault) ⊎ (result ≡ Store) }
    ensures same { let new = state S.Store conn.new in
        HasCleanDisk new → result ≢ Store → IsUnchanged (state S.Store conn.old) new }
    ensures survives { Survives (state S.Store conn.old) (state S.Store conn.new) (λ _. ⊥) }
{
    match is_store_alive(conn) {
        Ok(()) => fault,
        Err(_) => OpenFault::Store,
    }
}

/// Upgrades tables of the old format to format 2 with its index and in the new order, in one
/// transaction, if they represent an airspace, which stays the same.
///
/// Otherwise it leaves them unchanged. After `NotADss` and `Version`, nothing was written. After
/// `Store`, the tables are those before the upgrade or those after it, with the same airspace.
pub fn upgrade_format<S: Alter>(
    alloc: Global,
    conn: &mut Connection<S>,
    from: OldFormat,
) -> Result<(), OpenFault>
    requires { conn.old.in_transaction ≡ false }
    ensures outside { conn.new.in_transaction ≡ false }
    ensures moves { let old = state S.Store conn.old in
        let new = state S.Store conn.new in
        HasCleanDisk new → old.now.schema ≡ schema_of (format_before from)
        → UpgradesFormat from old.now new.now result }
    ensures settled { let new = state S.Store conn.new in
        HasCleanDisk new → OnOk result (IsSettled new) }
    ensures clean { HasCleanDisk (state S.Store conn.new) → HasCleanDisk (state S.Store conn.old) }
    ensures at_rest { let old = state S.Store conn.old in
        let new = state S.Store conn.new in
        HasCleanDisk new → old.now.schema ≡ schema_of (format_before from)
        → IfErr result (λ fault. fault ≢ Store → IsAsFound old new) }
    ensures left { let old = state S.Store conn.old in
        IfErr result (λ fault. Survives old (state S.Store conn.new)
        (λ trees. (fault ≡ Store) × MayHaveUpgraded from old trees)) }
{
    connection_facts(conn);
    match upgrade_tables(alloc, conn, from) {
        Ok(()) => Ok(()),
        Err(fault) => Err(fault_if_alive(conn, fault)),
    }
}
