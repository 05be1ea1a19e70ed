//! Purges.
ghost use Rattle.std.specs.Prelude.{IfOk};
ghost use Rattle.pool_entry.specs.Spelling.{SpellsPurge};

use crate::write::{PURGE_HEADER, push_number};
use std::alloc::{AllocError, Global};

/// Returns the bytes of an entry that is a purge up to a time, in Unix seconds.
///
/// Returns `AllocError` if memory runs out.
pub fn purge_bytes(alloc: Global, until: u64) -> Result<Vec<u8>, AllocError>
    ensures { IfOk result (λ bytes. SpellsPurge bytes.items until) }
{
    let mut out = Vec::from_slice(alloc, PURGE_HEADER)?;
    push_number(&mut out, b'\n', until)?;
    Ok(out)
}
