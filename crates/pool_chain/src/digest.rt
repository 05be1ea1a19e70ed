//! The digest over one more item.
ghost use Rattle.std.specs.Prelude.{◌≡◌, ◌++◌, ℕ, List, Some, None};
ghost use Rattle.sha2.specs.Hashers.{Holds256};
ghost use Rattle.pool_chain.specs.Chain.{next_digest};
ghost use Rattle.pool_chain.specs.Item.{sized};

use itoa::Buffer;
use sha2::{Digest, Sha256};

// The byte behind the length of bytes.
const COLON: &[u8] = b":";

// The text of no value.
const NONE: &[u8] = b"-";

// Adds the text of bytes behind their length.
fn update_sized(hasher: &mut Sha256, bytes: &[u8])
    ensures { (m : List ℕ) → Holds256 hasher.old m
        → Holds256 hasher.new (m ++ sized bytes.now) }
{
    let mut buffer = Buffer::new();
    hasher.update(buffer.format(bytes.len()).as_bytes());
    hasher.update(COLON);
    hasher.update(bytes);
}

/// Returns the digest behind this one with a key that got a value.
#[tactic(auto, using(std::proofs::lemmas::List::append_assoc), unfolding(crate::specs::Chain::next_digest))]
pub(crate) fn digest_after_put(digest: &[u8; 32], key: &[u8], value: &[u8]) -> [u8; 32]
    ensures { result ≡ next_digest digest.now (record { key = key.now; value = Some value.now }) }
{
    let mut hasher = Sha256::new();
    hasher.update(digest.as_slice());
    update_sized(&mut hasher, key);
    update_sized(&mut hasher, value);
    hasher.finalize()
}

/// Returns the digest behind this one with a key that was deleted.
#[tactic(auto, using(std::proofs::lemmas::List::append_assoc), unfolding(crate::specs::Chain::next_digest))]
pub(crate) fn digest_after_deletion(digest: &[u8; 32], key: &[u8]) -> [u8; 32]
    ensures { result ≡ next_digest digest.now (record { key = key.now; value = None }) }
{
    let mut hasher = Sha256::new();
    hasher.update(digest.as_slice());
    update_sized(&mut hasher, key);
    hasher.update(NONE);
    hasher.finalize()
}
