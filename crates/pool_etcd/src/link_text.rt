//! Links as texts: a count, a space, and a digest in hexadecimal digits.
ghost use Rattle.std.specs.Prelude.{◌≡◌, IfOk, MatchOption};
ghost use Rattle.pool_etcd.specs.LinkText.{IsLinkText, IsNoLinkText, digest_in};

use crate::lines::space_in;
use crate::number::number_in_bytes;
use hex::FromHex;
use pool_chain::link::Link;
use std::alloc::{AllocError, Global};

// Returns the digest that the bytes are in hexadecimal digits, with lower-case letters.
#[tactic(auto, using(crate::proofs::LinkTexts::digest_none, crate::proofs::LinkTexts::digest_some, crate::proofs::LinkTexts::digest_other))]
fn digest_in(alloc: Global, bytes: &[u8]) -> Result<Option<[u8; 32]>, AllocError>
    ensures { IfOk result (λ digest. digest ≡ digest_in bytes.now) }
{
    let Ok(digest) = <[u8; 32] as FromHex>::from_hex(bytes) else {
        return Ok(None);
    };
    let text = hex::encode(alloc, digest.as_slice())?;
    if text.as_bytes() == bytes {
        Ok(Some(digest))
    } else {
        Ok(None)
    }
}

/// Returns the link that the bytes are the text of, or `None` if there is none.
///
/// Returns `AllocError` if memory runs out.
pub(crate) fn read_link(alloc: Global, bytes: &[u8]) -> Result<Option<Link>, AllocError>
    ensures { IfOk result (λ link. MatchOption link
        (IsNoLinkText bytes.now)
        (λ l. IsLinkText bytes.now l)) }
{
    let Some(space) = space_in(bytes) else {
        return Ok(None);
    };
    let Some(count) = number_in_bytes(alloc, &bytes[..space])? else {
        return Ok(None);
    };
    let Some(digest) = digest_in(alloc, &bytes[space + 1..])? else {
        return Ok(None);
    };
    Ok(Some(Link { count, digest }))
}
