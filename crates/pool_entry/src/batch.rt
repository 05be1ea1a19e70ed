//! Batches of calls.
use crate::limits::{MAX_BYTES, MAX_CALLS};
use crate::pool_call::PoolCall;
use crate::write::{HEADER, call_bytes};
use std::alloc::{AllocError, Global};
use std::marker::Model;

/// Why a call was not added to a batch.
#[derive(Debug, Drop)]
pub enum PushError {
    /// The batch has no room for the call, which is returned.
    Full(PoolCall),
    /// Memory ran out.
    Memory,
}

/// Calls for one entry of a pool's log, with the entry's bytes.
///
/// Contracts see the list of its calls.
#[derive(Drop)]
pub struct Batch {
    calls: Vec<PoolCall>,
    bytes: Vec<u8>,
}

impl Model for Batch {
    ghost use Rattle.std.specs.Prelude.{List};
    ghost use Rattle.pool_entry.specs.declared.pool_call.PoolCall.{PoolCall};
    ghost use Rattle.pool_entry.specs.Spelling.{SpellsBatch};

    ghost Value = { List PoolCall };

    ghost view = { λ a. a.calls.items };

    ghost invariant = { λ a. SpellsBatch a.bytes.items a.calls.items };
}

impl Batch {
    ghost use Rattle.std.specs.Prelude.{◌≡◌, ◌∷◌, [], ◌++◌, IfOk, IfErr, OnOk, OnErr};
    ghost use Rattle.pool_entry.specs.Spelling.{SpellsBatch};
    ghost use Rattle.pool_entry.specs.Pushing.{Refuses};

    /// Creates a batch of no calls.
    ///
    /// Returns `AllocError` if memory runs out.
    pub fn new(alloc: Global) -> Result<Batch, AllocError>
        ensures { IfOk result (λ batch. batch ≡ []) }
    {
        Ok(Batch {
            calls: Vec::new(alloc),
            bytes: Vec::from_slice(alloc, HEADER)?,
        })
    }

    /// Adds a call.
    ///
    /// Returns `Full` with the call if there would be more than `MAX_CALLS` calls or `MAX_BYTES`
    /// bytes, or `Memory` if memory runs out. The batch is then unchanged.
    pub fn push(&mut self, alloc: Global, call: PoolCall) -> Result<(), PushError>
        ensures ok { OnOk result (self.new ≡ self.old ++ call ∷ []) }
        ensures unchanged { OnErr result (self.new ≡ self.old) }
        ensures full { IfErr result (λ e. Refuses self.old call e) }
    {
        let Ok(text) = call_bytes(alloc, &call) else {
            return Err(PushError::Memory);
        };
        if self.calls.len() >= MAX_CALLS || text.len() > MAX_BYTES - self.bytes.len() {
            return Err(PushError::Full(call));
        }
        let size = self.bytes.len();
        if self.bytes.extend_from_slice(&text).is_err() {
            return Err(PushError::Memory);
        }
        if self.calls.push(call).is_err() {
            self.bytes.truncate(size);
            return Err(PushError::Memory);
        }
        Ok(())
    }

    /// Returns the calls, in the order in which they were added.
    pub fn calls(&self) -> &[PoolCall]
        ensures { result.now ≡ self.now }
    {
        self.calls.as_slice()
    }

    /// Returns the bytes of the entry.
    pub fn bytes(&self) -> &[u8]
        ensures { SpellsBatch result.now self.now }
    {
        self.bytes.as_slice()
    }
}
