//! Volumes, as requests represent them.
use grid_core::cell::CellId;
use grid_core::token::token;
use grid_core::volume::Volume;
use serde_json::{Map, Value, json};
use std::alloc::{AllocError, Global};

// Returns the cells by their tokens.
fn cells_json(alloc: Global, cells: &[CellId]) -> Result<Value, AllocError> {
    let mut values = Vec::with_capacity(alloc, cells.len())?;
    for cell in cells {
        values.push(Value::from(token(alloc, *cell)?))?;
    }
    Ok(Value::from(values))
}

/// Returns a volume as JSON.
pub(crate) fn volume_json(alloc: Global, volume: &Volume) -> Result<Value, AllocError> {
    let cells = cells_json(alloc, volume.cells())?;
    let (lower, upper) = volume.altitude();
    let (start, end) = volume.time();
    json!(in alloc; {
        "altitude_lower": lower,
        "altitude_upper": upper,
        "cells": cells,
        "time_end": end,
        "time_start": start,
    })
}

/// Returns volumes as JSON, in their order.
pub(crate) fn volumes_json(alloc: Global, volumes: &[Volume]) -> Result<Value, AllocError> {
    let mut values = Vec::with_capacity(alloc, volumes.len())?;
    for volume in volumes {
        values.push(volume_json(alloc, volume)?)?;
    }
    Ok(Value::from(values))
}

/// Returns the number of cells of all volumes.
pub(crate) fn cells_of(volumes: &[Volume]) -> usize {
    let mut count = 0_usize;
    for volume in volumes {
        count = count.saturating_add(volume.cells().len());
    }
    count
}
