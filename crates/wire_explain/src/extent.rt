//! Volumes and areas in a body.
use crate::members::{is_object, optional, put_ignored, put_type, required};
use crate::place::Place;
use crate::problem::{JsonType, Problem};
use crate::report::Report;
use grid_core::range::{MAX_ALTITUDE, MAX_TIME, MIN_ALTITUDE};
use grid_core::token::{TokenFault, parse_token};
use serde_json::Value;
use std::alloc::{AllocError, Global};

const MEMBERS: [&str; 5] = [
    "altitude_lower",
    "altitude_upper",
    "cells",
    "time_end",
    "time_start",
];

const MAX_CELLS: usize = 512;

const MAX_VOLUMES: usize = 32;

// The maximum number of cells of all volumes of an entity.
const MAX_TOTAL_CELLS: usize = 2_048;

/// A kind of extent. A volume has all four bounds, and an area may lack any.
#[derive(Clone, Copy, Debug, PartialEq, Eq)]
pub(crate) enum Extent {
    Volume,
    Area,
}

// Returns the bound with this name. Reports a missing one of a volume.
fn bound<'v>(
    report: &mut Report,
    place: Place<'_>,
    value: &'v Value,
    name: &str,
    extent: Extent,
) -> Result<Option<&'v Value>, AllocError> {
    match extent {
        Extent::Volume => required(report, place, value, name),
        Extent::Area => Ok(optional(value, name)),
    }
}

// Reports a bound that is no whole number in the type of its range.
fn put_not_in_range(
    report: &mut Report,
    place: Place<'_>,
    value: &Value,
    range: Problem<'_>,
) -> Result<(), AllocError> {
    if value.is_i64() || value.is_u64() {
        return report.problem(place, range);
    }
    if value.is_number() {
        return report.problem(place, Problem::NotWhole);
    }
    put_type(report, place, value, JsonType::WholeNumber)
}

// Returns the altitude with this name, if it is right. Reports what is wrong with it.
fn altitude_at(
    report: &mut Report,
    place: Place<'_>,
    value: &Value,
    name: &str,
    extent: Extent,
) -> Result<Option<i64>, AllocError> {
    let place = place.member(name);
    let Some(found) = bound(report, place, value, name, extent)? else {
        return Ok(None);
    };
    match found.as_i64() {
        Some(number) if number >= MIN_ALTITUDE && number <= MAX_ALTITUDE => Ok(Some(number)),
        _ => {
            let range = Problem::Range {
                min: MIN_ALTITUDE,
                max: MAX_ALTITUDE,
            };
            put_not_in_range(report, place, found, range)?;
            Ok(None)
        }
    }
}

// Returns the time with this name, if it is right. Reports what is wrong with it.
fn time_at(
    report: &mut Report,
    place: Place<'_>,
    value: &Value,
    name: &str,
    extent: Extent,
) -> Result<Option<u64>, AllocError> {
    let place = place.member(name);
    let Some(found) = bound(report, place, value, name, extent)? else {
        return Ok(None);
    };
    match found.as_u64() {
        Some(number) if number <= MAX_TIME => Ok(Some(number)),
        _ => {
            let range = Problem::Range {
                min: 0,
                max: MAX_TIME as i64,
            };
            put_not_in_range(report, place, found, range)?;
            Ok(None)
        }
    }
}

// Reports what is wrong with the altitudes of an extent.
fn check_altitudes(
    report: &mut Report,
    place: Place<'_>,
    value: &Value,
    extent: Extent,
) -> Result<(), AllocError> {
    let lower = altitude_at(report, place, value, "altitude_lower", extent)?;
    let upper = altitude_at(report, place, value, "altitude_upper", extent)?;
    match (lower, upper) {
        (Some(lower), Some(upper)) if upper < lower => {
            report.problem(place.member("altitude_upper"), Problem::BelowLower)
        }
        _ => Ok(()),
    }
}

// Reports what is wrong with the times of an extent.
fn check_times(
    report: &mut Report,
    place: Place<'_>,
    value: &Value,
    extent: Extent,
) -> Result<(), AllocError> {
    let start = time_at(report, place, value, "time_start", extent)?;
    let end = time_at(report, place, value, "time_end", extent)?;
    match (start, end) {
        (Some(start), Some(end)) if end < start => {
            report.problem(place.member("time_end"), Problem::BeforeStart)
        }
        _ => Ok(()),
    }
}

/// Reports a number of items that is not in this range.
pub(crate) fn check_count(
    report: &mut Report,
    place: Place<'_>,
    found: usize,
    min: usize,
    max: usize,
) -> Result<(), AllocError> {
    if found >= min && found <= max {
        return Ok(());
    }
    report.problem(place, Problem::Items { found, min, max })
}

// Reports what is wrong with a token.
fn check_token(report: &mut Report, place: Place<'_>, value: &Value) -> Result<(), AllocError> {
    let Some(text) = value.as_str() else {
        return put_type(report, place, value, JsonType::String);
    };
    match parse_token(text) {
        Ok(_) => Ok(()),
        Err(TokenFault::Invalid) => report.problem(place, Problem::NoCell),
        Err(_) => report.problem(place, Problem::NotToken),
    }
}

// Reports what is wrong with the cells of an extent, and returns their number.
fn check_cells(report: &mut Report, place: Place<'_>, value: &Value) -> Result<usize, AllocError> {
    let place = place.member("cells");
    let Some(cells) = required(report, place, value, "cells")? else {
        return Ok(0);
    };
    let Some(items) = cells.as_array() else {
        put_type(report, place, cells, JsonType::Array)?;
        return Ok(0);
    };
    check_count(report, place, items.len(), 1, MAX_CELLS)?;
    for (index, item) in items.iter().enumerate() {
        check_token(report, place.item(index), item)?;
    }
    Ok(items.len())
}

/// Reports what is wrong with a volume or an area, and returns the number of its cells.
pub(crate) fn check_extent(
    alloc: Global,
    report: &mut Report,
    place: Place<'_>,
    value: &Value,
    extent: Extent,
) -> Result<usize, AllocError> {
    if !is_object(report, place, value)? {
        return Ok(0);
    }
    check_altitudes(report, place, value, extent)?;
    check_times(report, place, value, extent)?;
    let cells = check_cells(report, place, value)?;
    put_ignored(alloc, report, Some(place), value, MEMBERS.as_slice())?;
    Ok(cells)
}

/// Reports what is wrong with the volumes of an entity.
pub(crate) fn check_volumes(
    alloc: Global,
    report: &mut Report,
    place: Place<'_>,
    value: &Value,
) -> Result<(), AllocError> {
    let Some(items) = value.as_array() else {
        return put_type(report, place, value, JsonType::Array);
    };
    check_count(report, place, items.len(), 1, MAX_VOLUMES)?;
    let mut found = 0usize;
    for (index, item) in items.iter().enumerate() {
        let cells = check_extent(alloc, report, place.item(index), item, Extent::Volume)?;
        found = found.saturating_add(cells);
    }
    if found > MAX_TOTAL_CELLS {
        let max = MAX_TOTAL_CELLS;
        report.problem(place, Problem::Cells { found, max })?;
    }
    Ok(())
}
