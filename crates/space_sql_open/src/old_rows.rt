//! The rows that are taken out of tables in the old order.
ghost use Rattle.std.specs.Prelude.{◌≡◌, IfOk};
ghost use Rattle.space_rows.specs.Finds.{FindsList};
ghost use Rattle.space_sql_schema.specs.Spelling.{sub_values, sub_cell_values, sub_columns, five_columns, two_columns, three_columns};
ghost use Rattle.space_sql_schema.specs.Tables.{old_first_schema, old_unindexed_schema};
ghost use Rattle.space_sql_schema.specs.Trees.{old_subscription_tree, old_subscription_cell_tree, old_naming_tree, old_availability_tree};
ghost use Rattle.space_sql_schema.specs.Within.{SameConnection, Within};
ghost use Rattle.space_sql_select.specs.Rows.{AreRowsOf, IsWrittenSub, IsWrittenSubCell, IsWrittenNaming, values_of_naming};
ghost use Rattle.space_sql_open.specs.Inside.{Inside};
ghost use Rattle.space_sql_open.specs.OldRows.{HoldsAside, HoldsCells, HoldsNamings, HoldsSettings, HoldsSubTables, HoldsOthers, HoldsSubs, IsTyped, IsWrittenRecord, ReadsAll, Takes, WantsAside, WantsCells, WantsNamings, WantsOthers, WantsSettings, WantsSubTables, WantsSubs, record_values};

use crate::open_fault::OpenFault;
use space_rows::rows::{SubCellRow, SubRow};
use space_sql_select::availability_record::{AvailabilityRecord, availability_record_in};
use space_sql_select::sub_rows::{NamingRow, naming_rows, sub_cell_rows, sub_rows};
use sqlite::{Alter, Error, Row, Transaction};
use std::alloc::{AllocError, Global};

/// The rows of the tables that are created anew.
#[derive(Drop)]
pub(crate) struct Aside {
    pub subs: Vec<SubRow>,
    pub cells: Vec<SubCellRow>,
    pub namings: Vec<NamingRow>,
    pub settings: Vec<AvailabilityRecord>,
}

fn read_subs<S: Alter>(tx: &mut Transaction<'_, S>) -> Result<Vec<Row>, Error>
    ensures same_reference { SameConnection tx.old tx.new }
    ensures reads { Within S.Store tx.old tx.new
        (Inside old_unindexed_schema (ReadsAll sub_columns old_subscription_tree)) result }
{
    tx.query_all(
        "SELECT num, id, manager, serial, version, notes, url, \
         for_intents, for_constraints, alt_lower, alt_upper, time_start, time_end \
         FROM subscription ORDER BY num",
        &[],
    )
}

fn read_cells<S: Alter>(tx: &mut Transaction<'_, S>) -> Result<Vec<Row>, Error>
    ensures same_reference { SameConnection tx.old tx.new }
    ensures reads { Within S.Store tx.old tx.new
        (Inside old_unindexed_schema (ReadsAll five_columns old_subscription_cell_tree)) result }
{
    tx.query_all(
        "SELECT subscription, place, token, lo, hi \
         FROM subscription_cell ORDER BY subscription, place",
        &[],
    )
}

fn read_namings<S: Alter>(tx: &mut Transaction<'_, S>) -> Result<Vec<Row>, Error>
    ensures same_reference { SameConnection tx.old tx.new }
    ensures reads { Within S.Store tx.old tx.new
        (Inside old_unindexed_schema (ReadsAll two_columns old_naming_tree)) result }
{
    tx.query_all(
        "SELECT entity, subscription FROM naming ORDER BY entity",
        &[],
    )
}

fn read_settings<S: Alter>(tx: &mut Transaction<'_, S>) -> Result<Vec<Row>, Error>
    ensures same_reference { SameConnection tx.old tx.new }
    ensures reads { Within S.Store tx.old tx.new
        (Inside old_unindexed_schema (ReadsAll three_columns old_availability_tree)) result }
    ensures first { Within S.Store tx.old tx.new
        (Inside old_first_schema (ReadsAll three_columns old_availability_tree)) result }
{
    tx.query_all("SELECT uss, state, version FROM availability", &[])
}

// Returns the rows as availabilities that USSs set, if each one is.
fn setting_records(
    alloc: Global,
    rows: &[Row],
) -> Result<Option<Vec<AvailabilityRecord>>, AllocError>
    ensures { IfOk result (λ o. FindsList (AreRowsOf record_values IsWrittenRecord rows.now) o) }
{
    let mut out = Vec::new(alloc);
    for row in rows {
        match availability_record_in(alloc, row)? {
            Some(read) => out.push(read)?,
            None => return Ok(None),
        }
    }
    Ok(Some(out))
}

fn typed_subs(alloc: Global, rows: &[Row]) -> Result<Vec<SubRow>, OpenFault>
    ensures { IsTyped sub_values IsWrittenSub rows.now result }
{
    match sub_rows(alloc, rows) {
        Ok(Some(typed)) => Ok(typed),
        Ok(None) => Err(OpenFault::NotADss),
        Err(_) => Err(OpenFault::Store),
    }
}

fn typed_cells(alloc: Global, rows: &[Row]) -> Result<Vec<SubCellRow>, OpenFault>
    ensures { IsTyped sub_cell_values IsWrittenSubCell rows.now result }
{
    match sub_cell_rows(alloc, rows) {
        Ok(Some(typed)) => Ok(typed),
        Ok(None) => Err(OpenFault::NotADss),
        Err(_) => Err(OpenFault::Store),
    }
}

fn typed_namings(alloc: Global, rows: &[Row]) -> Result<Vec<NamingRow>, OpenFault>
    ensures { IsTyped values_of_naming IsWrittenNaming rows.now result }
{
    match naming_rows(alloc, rows) {
        Ok(Some(typed)) => Ok(typed),
        Ok(None) => Err(OpenFault::NotADss),
        Err(_) => Err(OpenFault::Store),
    }
}

fn typed_settings(alloc: Global, rows: &[Row]) -> Result<Vec<AvailabilityRecord>, OpenFault>
    ensures { IsTyped record_values IsWrittenRecord rows.now result }
{
    match setting_records(alloc, rows) {
        Ok(Some(typed)) => Ok(typed),
        Ok(None) => Err(OpenFault::NotADss),
        Err(_) => Err(OpenFault::Store),
    }
}

fn take_subs<S: Alter>(alloc: Global, tx: &mut Transaction<'_, S>) -> Result<Vec<SubRow>, OpenFault>
    ensures same_reference { SameConnection tx.old tx.new }
    ensures takes { Within S.Store tx.old tx.new
        (Inside old_unindexed_schema (Takes WantsSubs HoldsSubs)) result }
{
    match read_subs(tx) {
        Ok(rows) => typed_subs(alloc, rows.as_slice()),
        Err(_) => Err(OpenFault::Store),
    }
}

fn take_cells<S: Alter>(
    alloc: Global,
    tx: &mut Transaction<'_, S>,
) -> Result<Vec<SubCellRow>, OpenFault>
    ensures same_reference { SameConnection tx.old tx.new }
    ensures takes { Within S.Store tx.old tx.new
        (Inside old_unindexed_schema (Takes WantsCells HoldsCells)) result }
{
    match read_cells(tx) {
        Ok(rows) => typed_cells(alloc, rows.as_slice()),
        Err(_) => Err(OpenFault::Store),
    }
}

fn take_namings<S: Alter>(
    alloc: Global,
    tx: &mut Transaction<'_, S>,
) -> Result<Vec<NamingRow>, OpenFault>
    ensures same_reference { SameConnection tx.old tx.new }
    ensures takes { Within S.Store tx.old tx.new
        (Inside old_unindexed_schema (Takes WantsNamings HoldsNamings)) result }
{
    match read_namings(tx) {
        Ok(rows) => typed_namings(alloc, rows.as_slice()),
        Err(_) => Err(OpenFault::Store),
    }
}

/// Returns the rows of `availability`, within an open transaction, if each one is what a USS has
/// set.
pub(crate) fn take_settings<S: Alter>(
    alloc: Global,
    tx: &mut Transaction<'_, S>,
) -> Result<Vec<AvailabilityRecord>, OpenFault>
    ensures same_reference { SameConnection tx.old tx.new }
    ensures takes { Within S.Store tx.old tx.new
        (Inside old_unindexed_schema (Takes WantsSettings HoldsSettings)) result }
    ensures first { Within S.Store tx.old tx.new
        (Inside old_first_schema (Takes WantsSettings HoldsSettings)) result }
{
    match read_settings(tx) {
        Ok(rows) => typed_settings(alloc, rows.as_slice()),
        Err(_) => Err(OpenFault::Store),
    }
}

fn take_sub_tables<S: Alter>(
    alloc: Global,
    tx: &mut Transaction<'_, S>,
) -> Result<(Vec<SubRow>, Vec<SubCellRow>), OpenFault>
    ensures same_reference { SameConnection tx.old tx.new }
    ensures takes { Within S.Store tx.old tx.new
        (Inside old_unindexed_schema (Takes WantsSubTables HoldsSubTables)) result }
{
    let first = match take_subs(alloc, tx) {
        Ok(first) => first,
        Err(fault) => return Err(fault),
    };
    match take_cells(alloc, tx) {
        Ok(second) => Ok((first, second)),
        Err(fault) => Err(fault),
    }
}

// Returns the rows of `naming` and `availability`.
fn take_others<S: Alter>(
    alloc: Global,
    tx: &mut Transaction<'_, S>,
) -> Result<(Vec<NamingRow>, Vec<AvailabilityRecord>), OpenFault>
    ensures same_reference { SameConnection tx.old tx.new }
    ensures takes { Within S.Store tx.old tx.new
        (Inside old_unindexed_schema (Takes WantsOthers HoldsOthers)) result }
{
    let first = match take_namings(alloc, tx) {
        Ok(first) => first,
        Err(fault) => return Err(fault),
    };
    match take_settings(alloc, tx) {
        Ok(second) => Ok((first, second)),
        Err(fault) => Err(fault),
    }
}

/// Returns the rows of the tables of format 2 that are created anew, within an open transaction, if
/// their values are of the right kinds.
pub(crate) fn take_aside<S: Alter>(
    alloc: Global,
    tx: &mut Transaction<'_, S>,
) -> Result<Aside, OpenFault>
    ensures same_reference { SameConnection tx.old tx.new }
    ensures takes { Within S.Store tx.old tx.new
        (Inside old_unindexed_schema (Takes WantsAside HoldsAside)) result }
{
    let (subs, cells) = match take_sub_tables(alloc, tx) {
        Ok(first) => first,
        Err(fault) => return Err(fault),
    };
    match take_others(alloc, tx) {
        Ok((namings, settings)) => Ok(Aside {
            subs,
            cells,
            namings,
            settings,
        }),
        Err(fault) => Err(fault),
    }
}
