//! A copy of a file that is complete or does not exist. It is written under a temporary name chunk
//! by chunk, synced, and only then renamed.
use crate::private::NO_OTHERS;
use dss_command::backup_fault::BackupFault;
use dss_command::fault::{Fault, io_fault};
use std::fs::{File, OpenOptions};
use std::io::{ErrorKind, Read, Write};
use std::os::unix::fs::{OpenOptionsExt, PermissionsExt};
use std::path::PathBuf;
use std::{fs, io};

// The bytes of a chunk.
const CHUNK: usize = 65_536;

// The suffix of the temporary name.
const BEGUN: &str = ".begun";

// The suffixes of the files that are read together with a database.
const BESIDE: [&str; 2] = ["-wal", "-journal"];

fn unread_source(cause: io::Error) -> Fault {
    io_fault(&cause, Fault::Copy(BackupFault::Read))
}

fn unwritten(cause: io::Error) -> Fault {
    io_fault(&cause, Fault::Copy(BackupFault::Write))
}

// Returns the length of the file of that name, if it exists.
fn length_of(rt: &HostRuntime, name: &str) -> Result<Option<u64>, Fault> {
    match fs::symlink_metadata(rt, name) {
        Ok(found) => Ok(Some(found.len())),
        Err(cause) if cause.kind() == ErrorKind::NotFound => Ok(None),
        Err(cause) => Err(unwritten(cause)),
    }
}

/// Rejects the name of a copy if a file of that name exists, or a log or journal of it that is not
/// empty. SQLite would read such a log as the copy's.
pub(crate) fn is_free(rt: &HostRuntime, to: &str) -> Result<(), Fault> {
    if length_of(rt, to)?.is_some() {
        return Err(Fault::Copy(BackupFault::Exists));
    }
    for end in BESIDE {
        let name = format!(in rt.alloc(); "{to}{end}").map_err(|_| Fault::Memory)?;
        if length_of(rt, name.as_str())?.unwrap_or(0) != 0 {
            return Err(Fault::Copy(BackupFault::Exists));
        }
    }
    Ok(())
}

// Removes a file, if it exists.
fn remove(rt: &HostRuntime, name: &str) -> io::Result<()> {
    match fs::remove_file(rt, name) {
        Err(cause) if cause.kind() == ErrorKind::NotFound => Ok(()),
        done => done,
    }
}

/// Opens the directory of a file.
pub(crate) fn folder_of(rt: &HostRuntime, name: &str) -> io::Result<File> {
    let mut folder = PathBuf::from_str(rt.alloc(), name)?;
    folder.pop();
    match folder.as_str() {
        "" => File::open(rt, "."),
        folder => File::open(rt, folder),
    }
}

// Creates a file with the permissions of the source, but for those of others.
fn new_file(rt: &HostRuntime, name: &str, source: &File) -> io::Result<File> {
    let mode = source.metadata()?.permissions().mode() & NO_OTHERS;
    remove(rt, name)?;
    OpenOptions::new()
        .write(true)
        .create_new(true)
        .mode(mode)
        .open(rt, name)
}

/// A copy in progress.
#[derive(Drop)]
pub(crate) struct Copying<'a> {
    rt: &'a HostRuntime,
    source: File,
    copy: File,
    // The temporary name.
    begun: String,
    // The final name.
    to: String,
    chunk: Vec<u8>,
}

impl<'a> Copying<'a> {
    /// Begins a copy of the file from its current position. Removes what an aborted copy of that
    /// name left.
    pub(crate) fn begin(rt: &'a HostRuntime, source: File, to: &str) -> Result<Copying<'a>, Fault> {
        is_free(rt, to)?;
        let alloc = rt.alloc();
        let chunk = vec![in alloc; 0; CHUNK].map_err(|_| Fault::Memory)?;
        let begun = format!(in alloc; "{to}{BEGUN}").map_err(|_| Fault::Memory)?;
        let to = String::from_str(alloc, to).map_err(|_| Fault::Memory)?;
        let copy = new_file(rt, begun.as_str(), &source).map_err(unwritten)?;
        Ok(Copying {
            rt,
            source,
            copy,
            begun,
            to,
            chunk,
        })
    }

    /// Copies the next chunk, and returns true if there was one. After a fault the copy must be
    /// aborted.
    pub(crate) fn go_on(&mut self) -> Result<bool, Fault> {
        let length = self.source.read(&mut self.chunk).map_err(unread_source)?;
        let read = &self.chunk[..length];
        self.copy.write_all(read).map_err(unwritten)?;
        Ok(length != 0)
    }

    // Renames the copy to its final name.
    fn put(&self) -> Result<(), Fault> {
        self.copy.sync_all().map_err(unwritten)?;
        let folder = folder_of(self.rt, self.to.as_str()).map_err(unwritten)?;
        is_free(self.rt, self.to.as_str())?;
        fs::rename(self.rt, self.begun.as_str(), self.to.as_str()).map_err(unwritten)?;
        if let Err(cause) = folder.sync_all() {
            let _ = remove(self.rt, self.to.as_str());
            return Err(unwritten(cause));
        }
        Ok(())
    }

    /// Renames the copy to its final name and syncs it, or removes it.
    pub(crate) fn finish(self) -> Result<(), Fault> {
        let put = self.put();
        if put.is_err() {
            self.abort();
        }
        put
    }

    /// Removes the copy.
    pub(crate) fn abort(self) {
        let _ = remove(self.rt, self.begun.as_str());
    }
}
