//! The SHA-256 digest of a file (FIPS 180-4).
use sha2::{Digest, Sha256};
use std::fs::File;
use std::io::{self, Read};

/// A digest.
pub(crate) type FileDigest = [u8; 32];

// The bytes of a chunk.
const CHUNK: usize = 65_536;

/// Returns the digest of the file of that name.
pub(crate) fn digest_of(rt: &HostRuntime, path: &str) -> io::Result<FileDigest> {
    let mut file = File::open(rt, path)?;
    let mut hasher = Sha256::new();
    let mut chunk = vec![in rt.alloc(); 0_u8; CHUNK]?;
    for _ in 0..u64::MAX {
        let length = file.read(&mut chunk)?.min(CHUNK);
        if length == 0 {
            break;
        }
        if let Some(read) = chunk.get(..length) {
            hasher.update(read);
        }
    }
    Ok(hasher.finalize())
}

/// Returns the first 8 bytes of a digest, big-endian.
pub(crate) fn number_of(digest: &FileDigest) -> u64 {
    match digest.first_chunk::<8>() {
        Some(first) => u64::from_be_bytes(*first),
        None => unreachable!(),
    }
}
