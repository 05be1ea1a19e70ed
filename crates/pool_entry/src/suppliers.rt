//! The USSs that the calls of an entry are made for.
ghost use Rattle.std.specs.Prelude.{◌≡◌, map, IfOk};
ghost use Rattle.pool_entry.specs.Suppliers.{supplier_of, suppliers_in};

use crate::batch_fault::ReadError;
use crate::pool_call::PoolCall;
use crate::read::{EntryContent, read_entry};
use entity_core::uss_id::UssId;
use std::alloc::{AllocError, Global};

// Returns the USSs of the calls of a batch.
fn suppliers_of(alloc: Global, batch: Vec<PoolCall>) -> Result<Vec<UssId>, AllocError>
    ensures { IfOk result (λ found. found.items ≡ map supplier_of batch.items) }
{
    let mut suppliers = Vec::new(alloc);
    for call in batch {
        suppliers.push(call.caller.uss)?;
    }
    Ok(suppliers)
}

/// Returns the USSs that the calls of an entry are made for, one for each call. A purge has none,
/// and neither have bytes that represent no entry.
///
/// Returns `AllocError` if memory runs out.
#[tactic(auto, unfolding(crate::specs::Suppliers::suppliers_in))]
pub fn entry_suppliers(alloc: Global, bytes: &[u8]) -> Result<Vec<UssId>, AllocError>
    ensures { IfOk result (λ found. found.items ≡ suppliers_in bytes.now) }
{
    match read_entry(alloc, bytes) {
        Ok(EntryContent::Batch(batch)) => suppliers_of(alloc, batch),
        Ok(EntryContent::Purge(_)) => Ok(Vec::new(alloc)),
        Err(ReadError::Fault(_)) => Ok(Vec::new(alloc)),
        Err(ReadError::Memory) => Err(AllocError),
    }
}
