//! Numbers as texts.
ghost use Rattle.std.specs.Prelude.{◌≡◌, IfOk};
ghost use Rattle.pool_etcd.specs.Given.{Gives};
ghost use Rattle.pool_etcd.specs.Number.{number_of};

use crate::response_fault::ResponseFault;
use std::alloc::{AllocError, Global};
use std::str;

/// Returns the number below 2^64 that a text is in decimal, without a sign or leading zeros.
pub(crate) fn number_of(alloc: Global, text: &str) -> Result<u64, ResponseFault>
    ensures { Gives result (number_of text.now) }
{
    let Ok(number) = text.parse::<u64>() else {
        return Err(ResponseFault::Unexpected);
    };
    let Ok(plain) = format!(in alloc; "{number}") else {
        return Err(ResponseFault::Memory);
    };
    if plain.as_str() != text {
        return Err(ResponseFault::Unexpected);
    }
    Ok(number)
}

/// Returns the number that the bytes are in decimal, if they are one.
///
/// Returns `AllocError` if memory runs out.
pub(crate) fn number_in_bytes(alloc: Global, bytes: &[u8]) -> Result<Option<u64>, AllocError>
    ensures { IfOk result (λ number. number ≡ number_of bytes.now) }
{
    let Ok(text) = str::from_utf8(bytes) else {
        return Ok(None);
    };
    match number_of(alloc, text) {
        Ok(number) => Ok(Some(number)),
        Err(ResponseFault::Memory) => Err(AllocError),
        Err(_) => Ok(None),
    }
}
