//! Volumes and areas from JSON.
ghost use Rattle.std.specs.Prelude.{◌≡◌};
ghost use Rattle.serde_json.specs.View.{view, items_view};
ghost use Rattle.wire_body.specs.Given.{Gives, GivesBy};
ghost use Rattle.wire_body.specs.Member.{each, list_of};
ghost use Rattle.wire_body.specs.Volume.{cell_in, cells_of, altitudes_of, times_of, volume_in, altitude_bounds_of, time_bounds_of, area_in};

use crate::body_fault::BodyFault;
use crate::member::{member, signed_at, signed_if_there, unsigned_at, unsigned_if_there};
use grid_core::cell::CellId;
use grid_core::token::parse_token;
use grid_core::volume::{Area, Volume};
use serde_json::Value;
use std::alloc::Global;

fn cell_in(value: &Value) -> Option<CellId>
    ensures { result ≡ cell_in (view value.now) }
{
    match value.as_str() {
        Some(text) => match parse_token(text) {
            Ok(cell) => Some(cell),
            Err(_) => None,
        },
        None => None,
    }
}

fn each_cell(alloc: Global, items: &[Value]) -> Result<Vec<CellId>, BodyFault>
    ensures { GivesBy (λ v. v.items) result (each cell_in (items_view items.now)) }
{
    let mut cells = Vec::new(alloc);
    for value in items {
        let Some(cell) = cell_in(value) else {
            return Err(BodyFault::Malformed);
        };
        if cells.push(cell).is_err() {
            return Err(BodyFault::Memory);
        }
    }
    Ok(cells)
}

fn cells_in(alloc: Global, value: &Value) -> Result<Vec<CellId>, BodyFault>
    ensures { GivesBy (λ v. v.items) result (list_of cell_in (view value.now)) }
{
    match value.as_array() {
        Some(items) => each_cell(alloc, items.as_slice()),
        None => Err(BodyFault::Malformed),
    }
}

#[tactic(auto, unfolding(crate::specs::Volume::cells_of))]
fn cells_of(alloc: Global, value: &Value) -> Result<Vec<CellId>, BodyFault>
    ensures { GivesBy (λ v. v.items) result (cells_of (view value.now)) }
{
    match member(value, "cells") {
        Some(found) => cells_in(alloc, found),
        None => Err(BodyFault::Malformed),
    }
}

#[tactic(auto, unfolding(crate::specs::Volume::altitudes_of))]
fn altitudes_of(value: &Value) -> Option<(i64, i64)>
    ensures { result ≡ altitudes_of (view value.now) }
{
    let lower = signed_at(value, "altitude_lower")?;
    let upper = signed_at(value, "altitude_upper")?;
    Some((lower, upper))
}

#[tactic(auto, unfolding(crate::specs::Volume::times_of))]
fn times_of(value: &Value) -> Option<(u64, u64)>
    ensures { result ≡ times_of (view value.now) }
{
    let start = unsigned_at(value, "time_start")?;
    let end = unsigned_at(value, "time_end")?;
    Some((start, end))
}

/// Returns a volume with its cells and its four bounds.
#[tactic(auto, unfolding(crate::specs::Volume::volume_in))]
pub(crate) fn volume_in(alloc: Global, value: &Value) -> Result<Volume, BodyFault>
    ensures { Gives result (volume_in (view value.now)) }
{
    let Some(altitudes) = altitudes_of(value) else {
        return Err(BodyFault::Malformed);
    };
    let Some(times) = times_of(value) else {
        return Err(BodyFault::Malformed);
    };
    let cells = cells_of(alloc, value)?;
    match Volume::new(cells, altitudes, times) {
        Ok(volume) => Ok(volume),
        Err(_) => Err(BodyFault::Malformed),
    }
}

#[tactic(auto, unfolding(crate::specs::Volume::altitude_bounds_of))]
fn altitude_bounds_of(value: &Value) -> Option<(Option<i64>, Option<i64>)>
    ensures { result ≡ altitude_bounds_of (view value.now) }
{
    let lower = signed_if_there(value, "altitude_lower")?;
    let upper = signed_if_there(value, "altitude_upper")?;
    Some((lower, upper))
}

#[tactic(auto, unfolding(crate::specs::Volume::time_bounds_of))]
fn time_bounds_of(value: &Value) -> Option<(Option<u64>, Option<u64>)>
    ensures { result ≡ time_bounds_of (view value.now) }
{
    let start = unsigned_if_there(value, "time_start")?;
    let end = unsigned_if_there(value, "time_end")?;
    Some((start, end))
}

/// Returns an area with its cells and those of the four bounds that are present.
#[tactic(auto, unfolding(crate::specs::Volume::area_in))]
pub(crate) fn area_in(alloc: Global, value: &Value) -> Result<Area, BodyFault>
    ensures { Gives result (area_in (view value.now)) }
{
    let Some(altitudes) = altitude_bounds_of(value) else {
        return Err(BodyFault::Malformed);
    };
    let Some(times) = time_bounds_of(value) else {
        return Err(BodyFault::Malformed);
    };
    let cells = cells_of(alloc, value)?;
    match Area::new(cells, altitudes, times) {
        Ok(area) => Ok(area),
        Err(_) => Err(BodyFault::Malformed),
    }
}
