//! Upgrade of tables in the old order, within an open transaction.
ghost use Rattle.space_sql_schema.specs.Tables.{old_first_schema, old_second_schema, old_unindexed_schema};
ghost use Rattle.space_sql_schema.specs.Within.{SameConnection, Within};
ghost use Rattle.space_sql_open.specs.Inside.{Inside};
ghost use Rattle.space_sql_open.specs.Opening.{UpgradesFormat};
ghost use Rattle.space_sql_open.specs.Relaying.{MovesFirst, MovesSecond, TakesFirst, TakesSecond, Unindexes, listed};
ghost use Rattle.space_sql_open.specs.declared.old_format.OldFormat.TheVariants.{OldOne, OldTwo, OldTwoUnindexed};

use crate::first_meta::first_meta;
use crate::old_rows::{Aside, take_aside, take_settings};
use crate::open_fault::OpenFault;
use crate::relaying::{relay_all, relay_format_1};
use crate::second_meta::second_meta;
use crate::upgrading::check_upgraded;
use space_sql_schema::order::drop_naming_index;
use space_sql_select::availability_record::AvailabilityRecord;
use sqlite::{Alter, Transaction};
use std::alloc::Global;

// Returns the rows of `availability` of tables of format 1.
fn take_first<S: Alter>(
    alloc: Global,
    tx: &mut Transaction<'_, S>,
) -> Result<Vec<AvailabilityRecord>, OpenFault>
    ensures same_reference { SameConnection tx.old tx.new }
    ensures takes { Within S.Store tx.old tx.new (Inside old_first_schema TakesFirst) result }
{
    match first_meta(tx) {
        Ok(()) => take_settings(alloc, tx),
        Err(fault) => Err(fault),
    }
}

// Returns the rows of the tables of format 2 that are created anew.
fn take_second<S: Alter>(alloc: Global, tx: &mut Transaction<'_, S>) -> Result<Aside, OpenFault>
    ensures same_reference { SameConnection tx.old tx.new }
    ensures takes { Within S.Store tx.old tx.new (Inside old_unindexed_schema TakesSecond) result }
{
    match second_meta(tx) {
        Ok(()) => take_aside(alloc, tx),
        Err(fault) => Err(fault),
    }
}

// Creates tables of format 1 anew, and sets their format to 2.
fn move_first<S: Alter>(
    tx: &mut Transaction<'_, S>,
    settings: &[AvailabilityRecord],
) -> Result<(), OpenFault>
    ensures same_reference { SameConnection tx.old tx.new }
    ensures moves { Within S.Store tx.old tx.new
        (Inside old_first_schema (MovesFirst settings.now)) result }
{
    match relay_format_1(tx, settings) {
        Ok(()) => Ok(()),
        Err(_) => Err(OpenFault::Store),
    }
}

// Creates tables of format 2 anew.
fn move_second<S: Alter>(tx: &mut Transaction<'_, S>, aside: &Aside) -> Result<(), OpenFault>
    ensures same_reference { SameConnection tx.old tx.new }
    ensures moves { Within S.Store tx.old tx.new
        (Inside old_unindexed_schema (MovesSecond (listed aside.now))) result }
{
    match relay_all(tx, aside) {
        Ok(()) => Ok(()),
        Err(_) => Err(OpenFault::Store),
    }
}

/// Upgrades tables of format 1.
pub(crate) fn lay_first<S: Alter>(
    alloc: Global,
    tx: &mut Transaction<'_, S>,
) -> Result<(), OpenFault>
    ensures same_reference { SameConnection tx.old tx.new }
    ensures moves { Within S.Store tx.old tx.new
        (Inside old_first_schema (UpgradesFormat OldOne)) result }
{
    let settings = match take_first(alloc, tx) {
        Ok(settings) => settings,
        Err(fault) => return Err(fault),
    };
    match move_first(tx, settings.as_slice()) {
        Ok(()) => check_upgraded(alloc, tx),
        Err(fault) => Err(fault),
    }
}

/// Upgrades tables of format 2 without the index on `naming`.
pub(crate) fn lay_second<S: Alter>(
    alloc: Global,
    tx: &mut Transaction<'_, S>,
) -> Result<(), OpenFault>
    ensures same_reference { SameConnection tx.old tx.new }
    ensures moves { Within S.Store tx.old tx.new
        (Inside old_unindexed_schema (UpgradesFormat OldTwoUnindexed)) result }
{
    let aside = match take_second(alloc, tx) {
        Ok(aside) => aside,
        Err(fault) => return Err(fault),
    };
    match move_second(tx, &aside) {
        Ok(()) => check_upgraded(alloc, tx),
        Err(fault) => Err(fault),
    }
}

// Drops the index on `naming`, whatever the tables represent.
fn unindex<S: Alter>(tx: &mut Transaction<'_, S>) -> Result<(), OpenFault>
    ensures same_reference { SameConnection tx.old tx.new }
    ensures unindexes { Within S.Store tx.old tx.new (Inside old_second_schema Unindexes) result }
{
    match drop_naming_index(tx) {
        Ok(_) => Ok(()),
        Err(_) => Err(OpenFault::Store),
    }
}

/// Upgrades tables of format 2 with the index on `naming`.
pub(crate) fn lay_indexed<S: Alter>(
    alloc: Global,
    tx: &mut Transaction<'_, S>,
) -> Result<(), OpenFault>
    ensures same_reference { SameConnection tx.old tx.new }
    ensures moves { Within S.Store tx.old tx.new
        (Inside old_second_schema (UpgradesFormat OldTwo)) result }
{
    match unindex(tx) {
        Ok(()) => lay_second(alloc, tx),
        Err(fault) => Err(fault),
    }
}
