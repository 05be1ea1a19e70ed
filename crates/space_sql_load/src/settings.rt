//! The availabilities that USSs set, from the rows of `availability`.
ghost use Rattle.std.specs.Prelude.{◌≡◌, ◌↔◌, None, IsTrue, IfOk, MatchOption};
ghost use Rattle.std.specs.FinMap.{get, empty};
ghost use Rattle.entity_core.specs.Airspace.{Availabilities as Map};
ghost use Rattle.entity_maps.specs.Availabilities.{availability_map};
ghost use Rattle.space_rows.specs.Finds.{Finds};
ghost use Rattle.space_sql_select.specs.AvailabilityRecord.{stated_by};
ghost use Rattle.space_sql_load.specs.Gathering.{IsSetting, ReadsAvailabilities};

use entity_core::uss_id::UssId;
use entity_maps::availabilities::Availabilities;
use space_sql_select::availability_record::{AvailabilityRecord, availability_record_in};
use sqlite::Row;
use std::alloc::{AllocError, Global};

fn is_setting_free(out: &Availabilities, uss: &UssId) -> Result<bool, AllocError>
    ensures { IfOk result (λ b. IsTrue b ↔ (get (availability_map out.now) uss.now ≡ None)) }
{
    match out.availability(uss)? {
        Some(_) => Ok(false),
        None => Ok(true),
    }
}

// Returns the availability that a row gives for a USS, if the USS differs from all before it.
fn new_setting(
    alloc: Global,
    row: &Row,
    out: &Availabilities,
) -> Result<Option<AvailabilityRecord>, AllocError>
    ensures { let before = availability_map out.now in
        IfOk result (λ o. Finds (λ s. IsSetting row.now before (stated_by s)) o) }
{
    let Some(setting) = availability_record_in(alloc, row)? else {
        return Ok(None);
    };
    if is_setting_free(out, &setting.uss)? {
        Ok(Some(setting))
    } else {
        Ok(None)
    }
}

/// Returns the availabilities that USSs set, if each row gives one.
pub fn settings_in(alloc: Global, rows: &[Row]) -> Result<Option<Availabilities>, AllocError>
    ensures { let r = rows.now in
        IfOk result (λ o. MatchOption o ((m : Map) → ¬ ReadsAvailabilities r empty m)
        (λ es. ReadsAvailabilities r empty (availability_map es))) }
{
    let mut out = Availabilities::new(alloc);
    for row in rows {
        match new_setting(alloc, row, &out)? {
            Some(setting) => out.put(setting.uss, setting.availability, setting.version)?,
            None => return Ok(None),
        }
    }
    Ok(Some(out))
}
