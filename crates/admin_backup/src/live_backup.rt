//! A backup directory that is complete or absent. Its files are written under a temporary name and
//! synced, and then the directory is renamed.
use crate::backup_copy::{FILE_NAME, LOG_NAME, new_file, sync_folder, unwritten};
use crate::live_reader::DatabaseBytes;
use admin_http::backup::BackupResult;
use std::fs::{self, DirBuilder};
use std::hash::{BuildHasher, RandomState};
use std::io::{self, ErrorKind};
use std::os::unix::fs::{DirBuilderExt, FileExt};

// The maximum number of bytes that are written before a sync. A sync of another process on the same
// disk may wait for them.
const CHUNK: usize = 1_048_576;

// Returns the directory of a path, and the name in it.
fn split_path(path: &str) -> (&str, &str) {
    match path.rsplit_once('/') {
        Some(("", name)) => ("/", name),
        Some((folder, name)) => (folder, name),
        None => (".", path),
    }
}

// Writes a new file that only its owner can read, and syncs it after each chunk.
fn write_file(rt: &HostRuntime, name: &str, bytes: &[u8]) -> io::Result<()> {
    let file = new_file(rt, name)?;
    let mut at = 0_u64;
    for chunk in bytes.chunks(CHUNK) {
        file.write_all_at(chunk, at)?;
        file.sync_data()?;
        at = at.saturating_add(chunk.len() as u64);
    }
    file.sync_all()
}

/// A backup in progress.
#[derive(Drop)]
pub struct LiveBackup<'a> {
    rt: &'a HostRuntime,
    // The directory in which the backup is made, the temporary name, and the final one.
    folder: String,
    begun: String,
    whole: String,
}

impl<'a> LiveBackup<'a> {
    // Returns a backup of that name, of which nothing exists.
    fn named(rt: &'a HostRuntime, to: &str) -> io::Result<LiveBackup<'a>> {
        let alloc = rt.alloc();
        let whole = to.trim_end_matches('/');
        let (folder, name) = split_path(whole);
        let random = RandomState::new(rt)?.hash_one(&0_u8);
        Ok(LiveBackup {
            rt,
            folder: String::from_str(alloc, folder)?,
            begun: format!(in alloc; "{folder}/.{name}.{random}.live")?,
            whole: String::from_str(alloc, whole)?,
        })
    }

    // Rejects a final name that exists.
    fn is_free(&self) -> Result<(), BackupResult> {
        match fs::symlink_metadata(self.rt, self.whole.as_str()) {
            Ok(_) => Err(BackupResult::Exists),
            Err(cause) if cause.kind() == ErrorKind::NotFound => Ok(()),
            Err(cause) => Err(unwritten(cause)),
        }
    }

    /// Creates the temporary directory of a backup with that path, of which nothing exists.
    pub fn begin(rt: &'a HostRuntime, to: &str) -> Result<LiveBackup<'a>, BackupResult> {
        let backup = LiveBackup::named(rt, to).map_err(unwritten)?;
        backup.is_free()?;
        DirBuilder::new()
            .mode(0o700)
            .create(rt, backup.begun.as_str())
            .map_err(unwritten)?;
        Ok(backup)
    }

    // Returns the path of a file of the backup under its temporary name.
    fn path(&self, name: &str) -> io::Result<String> {
        let begun = self.begun.as_str();
        Ok(format!(in self.rt.alloc(); "{begun}/{name}")?)
    }

    // Writes and syncs the files.
    fn write_files(&self, bytes: &DatabaseBytes) -> io::Result<()> {
        write_file(self.rt, self.path(FILE_NAME)?.as_str(), &bytes.file)?;
        write_file(self.rt, self.path(LOG_NAME)?.as_str(), &bytes.log)?;
        sync_folder(self.rt, self.begun.as_str())
    }

    /// Writes and syncs the files under the temporary name. Returns the path of the database file.
    pub fn write(&self, bytes: &DatabaseBytes) -> Result<String, BackupResult> {
        self.write_files(bytes).map_err(unwritten)?;
        self.path(FILE_NAME).map_err(unwritten)
    }

    // Renames the directory.
    fn rename(&self) -> io::Result<()> {
        fs::rename(self.rt, self.begun.as_str(), self.whole.as_str())?;
        let synced = sync_folder(self.rt, self.folder.as_str());
        if synced.is_err() {
            let _ = fs::remove_dir_all(self.rt, self.whole.as_str());
        }
        synced
    }

    /// Gives the backup its final name. After an error nothing of it exists.
    pub fn finish(self) -> Result<(), BackupResult> {
        let done = match self.is_free() {
            Ok(()) => self.rename().map_err(unwritten),
            taken => taken,
        };
        if done.is_err() {
            self.abort();
        }
        done
    }

    /// Removes what was written.
    pub fn abort(self) {
        let _ = fs::remove_dir_all(self.rt, self.begun.as_str());
    }
}
