//! The cells of the references of a space.
ghost use Rattle.std.specs.Prelude.{◌≡◌, ◌∷◌, [], IfOk, OnOk, string_bytes};
ghost use Rattle.dss_report.specs.CellLines.{
  AddsPlaces,
  IsPlacesIn,
  IsPlacesOf,
  volume_text,
  cell_prefix,
  place_in,
  place_text,
  places_of,
  places_of_entity,
  places_of_volume,
};
ghost use Rattle.dss_report.specs.Reading.{Reports};

use crate::contents::{Contents, read_contents};
use crate::fault::ReportFault;
use crate::line::{kind_text, state_text};
use entity_core::entity::Entity;
use grid_core::cell::CellId;
use grid_core::token::token;
use grid_core::volume::Volume;
use space_core::space::Space;
use std::alloc::{AllocError, Global};

// Returns the first columns of the lines of an entity.
fn cell_prefix(alloc: Global, entity: &Entity) -> Result<String, AllocError>
    ensures { IfOk result (λ front. string_bytes front ≡ cell_prefix entity.now) }
{
    let kind = kind_text(entity.nature.kind());
    let id = entity.id.text(alloc)?;
    let manager = entity.manager.text();
    let state = state_text(entity.nature);
    format!(in alloc; "{kind} {id} {manager} {state}")
}

// Returns the last columns of the lines of a volume.
fn volume_text(alloc: Global, volume: &Volume) -> Result<String, AllocError>
    ensures { IfOk result (λ bounds. string_bytes bounds ≡ volume_text volume.now) }
{
    let altitude = volume.altitude();
    let (lower, upper) = (altitude.0, altitude.1);
    let time = volume.time();
    let (start, end) = (time.0, time.1);
    format!(in alloc; "{lower} {upper} {start} {end}\n")
}

// Returns the line of a cell with this token.
fn cell_line(
    alloc: Global,
    entity: &Entity,
    volume: &Volume,
    token: &str,
) -> Result<String, AllocError>
    ensures { IfOk result (λ line. string_bytes line
        ≡ place_text token.now entity.now volume.now) }
{
    let front = cell_prefix(alloc, entity)?;
    let bounds = volume_text(alloc, volume)?;
    format!(in alloc; "{front} {token} {bounds}")
}

// Appends the line of a cell of a volume of an entity.
fn put_cell(
    alloc: Global,
    text: &mut Vec<u8>,
    entity: &Entity,
    volume: &Volume,
    cell: CellId,
) -> Result<(), AllocError>
    ensures { OnOk result (AddsPlaces (place_in entity.now volume.now cell ∷ [])
        text.old.items text.new.items) }
{
    let name = token(alloc, cell)?;
    let line = cell_line(alloc, entity, volume, name.as_str())?;
    text.extend_from_slice(line.as_bytes())?;
    Ok(())
}

// Appends the lines of the cells of a volume of an entity.
fn put_volume(
    alloc: Global,
    text: &mut Vec<u8>,
    entity: &Entity,
    volume: &Volume,
) -> Result<(), AllocError>
    ensures { OnOk result (AddsPlaces (places_of_volume entity.now volume.now)
        text.old.items text.new.items) }
{
    for cell in volume.cells() {
        put_cell(alloc, text, entity, volume, *cell)?;
    }
    Ok(())
}

// Appends the lines of the cells of an entity.
fn put_entity(alloc: Global, text: &mut Vec<u8>, entity: &Entity) -> Result<(), AllocError>
    ensures { OnOk result (AddsPlaces (places_of_entity entity.now)
        text.old.items text.new.items) }
{
    for volume in entity.volumes.items() {
        put_volume(alloc, text, entity, volume)?;
    }
    Ok(())
}

// Appends the lines of the cells of entities.
fn put_entities(alloc: Global, text: &mut Vec<u8>, entities: &[Entity]) -> Result<(), AllocError>
    ensures { OnOk result (AddsPlaces (places_of entities.now) text.old.items text.new.items) }
{
    for entity in entities {
        put_entity(alloc, text, entity)?;
    }
    Ok(())
}

// Returns the text of what a space stores.
fn text_of_cells(alloc: Global, kept: &Contents) -> Result<Vec<u8>, AllocError>
    ensures { IfOk result (λ text. IsPlacesIn kept.now text.items) }
{
    let mut text = Vec::new(alloc);
    put_entities(alloc, &mut text, kept.intents.as_slice())?;
    put_entities(alloc, &mut text, kept.constraints.as_slice())?;
    Ok(text)
}

/// Returns the cells of the references of a space: a line for each cell of each volume of each
/// intent by ascending id, then of each constraint by ascending id.
///
/// A line has the kind, the id, the manager, the state (`-` for a constraint), the token of the
/// cell, the lower and upper altitude of the volume in decimetres, and its first and last time in
/// Unix seconds, separated by single spaces. The space is only read.
pub fn cells_text<S: Space + Drop>(alloc: Global, space: &mut S) -> Result<Vec<u8>, ReportFault>
    ensures { Reports S.Space space.old space.new result (λ a text. IsPlacesOf a text.items) }
{
    let kept = match read_contents(space) {
        Ok(kept) => kept,
        Err(_) => return Err(ReportFault::Space),
    };
    Ok(text_of_cells(alloc, &kept)?)
}
