//! A file to which the content of a database in memory is written.
use crate::file_digest::FileDigest;
use crate::private::DATABASE;
use sha2::{Digest, Sha256};
use space_copy::memory_file::MemoryFile;
use std::fs::{File, OpenOptions};
use std::io::{self, Write};
use std::os::fd::AsRawFd;
use std::os::unix::fs::OpenOptionsExt;

// The bytes of a chunk.
const CHUNK: usize = 131_072;

/// A file, and the digest of the bytes that it has so far.
#[derive(Drop)]
pub(crate) struct NextFile {
    file: File,
    hasher: Sha256,
    // The number of bytes that were written.
    written: usize,
}

// Returns the chunk of the content at this place.
fn chunk_at(content: &[u8], at: usize) -> &[u8] {
    match content.get(at..) {
        Some(rest) => rest.get(..CHUNK).unwrap_or(rest),
        None => &[],
    }
}

// Asks the system to begin to store what was written, so that a sync waits for little. The system
// does so before it drops its copy of a page. If it does not, the sync takes longer.
fn begin_to_store(file: &File) {
    let _ = libc::posix_fadvise(file.as_raw_fd(), 0, 0, libc::POSIX_FADV_DONTNEED);
}

impl NextFile {
    /// Creates the file of that name, which only its owner can read and write.
    pub(crate) fn create(rt: &HostRuntime, path: &str) -> io::Result<NextFile> {
        let file = OpenOptions::new()
            .write(true)
            .create_new(true)
            .mode(DATABASE)
            .open(rt, path)?;
        Ok(NextFile {
            file,
            hasher: Sha256::new(),
            written: 0,
        })
    }

    /// Writes the next chunk of the content. Returns true if it was the last one.
    pub(crate) fn write(&mut self, content: &MemoryFile) -> io::Result<bool> {
        let bytes = content.bytes();
        let chunk = chunk_at(bytes, self.written);
        self.file.write_all(chunk)?;
        begin_to_store(&self.file);
        self.hasher.update(chunk);
        self.written = self.written.saturating_add(chunk.len());
        Ok(self.written >= bytes.len())
    }

    /// Waits until the system has stored the file. Returns the digest of its content.
    pub(crate) fn finish(self) -> io::Result<FileDigest> {
        self.file.sync_all()?;
        Ok(self.hasher.finalize())
    }
}
