//! The availability that a USS set, from a row of `availability`.
ghost use Rattle.std.specs.Prelude.{◌≡◌, None, IfOk};
ghost use Rattle.sqlite_value.specs.Order.{column};
ghost use Rattle.sqlite_value.specs.declared.value.Value.TheVariants.{Int, Text as Words};
ghost use Rattle.entity_core.specs.IdTexts.{name_fault, ovn_fault};
ghost use Rattle.space_rows.specs.Finds.{Finds};
ghost use Rattle.space_sql_schema.specs.Spelling.{availability_number};
ghost use Rattle.space_sql_select.specs.AvailabilityRecord.{SaysSetting, stated_by};

use crate::rows::{number_in, text_in};
use entity_core::availability::Availability;
use entity_core::ovn::Ovn;
use entity_core::uss_id::UssId;
use space_rows::texts;
use sqlite::Row;
use std::alloc::{AllocError, Global};

/// The availability that a USS set.
#[derive(Drop)]
pub struct AvailabilityRecord {
    pub uss: UssId,
    pub availability: Availability,
    pub version: Ovn,
}

fn availability_of(number: i64) -> Option<Availability>
    ensures { Finds (λ a. number ≡ availability_number a) result }
{
    match number {
        0 => Some(Availability::Unknown),
        1 => Some(Availability::Normal),
        2 => Some(Availability::Down),
        _ => None,
    }
}

fn uss_in(alloc: Global, row: &Row, at: usize) -> Result<Option<UssId>, AllocError>
    ensures { let value = column row.now at in
        IfOk result (λ o. Finds (λ t. (value ≡ Words t) × (name_fault t ≡ None)) o) }
{
    match text_in(row, at) {
        Some(text) => texts::uss_in(alloc, text),
        None => Ok(None),
    }
}

fn version_in(alloc: Global, row: &Row, at: usize) -> Result<Option<Ovn>, AllocError>
    ensures { let value = column row.now at in
        IfOk result (λ o. Finds (λ t. (value ≡ Words t) × (ovn_fault t ≡ None)) o) }
{
    match text_in(row, at) {
        Some(text) => texts::ovn_in(alloc, text),
        None => Ok(None),
    }
}

fn availability_in(row: &Row, at: usize) -> Option<Availability>
    ensures { let value = column row.now at in
        Finds (λ a. value ≡ Int (availability_number a)) result }
{
    match number_in(row, at) {
        Some(number) => availability_of(number),
        None => None,
    }
}

/// Returns the availability that a row says a USS set, if it says one.
pub fn availability_record_in(
    alloc: Global,
    row: &Row,
) -> Result<Option<AvailabilityRecord>, AllocError>
    ensures { IfOk result (λ o. Finds (λ s. SaysSetting row.now (stated_by s)) o) }
{
    if row.column_count() != 3 {
        return Ok(None);
    }
    let Some(uss) = uss_in(alloc, row, 0)? else {
        return Ok(None);
    };
    let Some(availability) = availability_in(row, 1) else {
        return Ok(None);
    };
    match version_in(alloc, row, 2)? {
        Some(version) => Ok(Some(AvailabilityRecord {
            uss,
            availability,
            version,
        })),
        None => Ok(None),
    }
}
