//! The numbers of writers.
ghost use Rattle.std.specs.Prelude.{◌≡◌, IfOk};
ghost use Rattle.pool_etcd.specs.Writer.{writer_message, writer_of};

use crate::lines::LINE_FEED;
use sha2::{Digest, Sha256};
use std::alloc::{AllocError, Global};

// Returns the bytes whose digest gives the number of a writer.
fn writer_message(alloc: Global, key: &[u8], number: u64) -> Result<Vec<u8>, AllocError>
    ensures { IfOk result (λ message. message.items ≡ writer_message key.now number) }
{
    let text = format!(in alloc; "{number}")?;
    let mut message = Vec::from_slice(alloc, key)?;
    message.push(LINE_FEED)?;
    message.extend_from_slice(text.as_bytes())?;
    Ok(message)
}

/// Returns the number of the writer that puts values with this number under the key.
///
/// It is the first 8 bytes of a SHA-256 digest (FIPS 180-4), big-endian. So a writer that may put
/// values only under its own key cannot write entries of another.
///
/// Returns `AllocError` if memory runs out.
pub fn writer_of(alloc: Global, key: &[u8], number: u64) -> Result<u64, AllocError>
    ensures { IfOk result (λ writer. writer ≡ writer_of key.now number) }
{
    let message = writer_message(alloc, key, number)?;
    let digest = Sha256::digest(message.as_slice());
    match digest.first_chunk::<8>() {
        Some(first) => Ok(u64::from_be_bytes(*first)),
        None => unreachable!(),
    }
}
