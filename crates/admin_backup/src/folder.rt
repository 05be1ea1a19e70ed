//! The backup directory of a database that is being served.
use crate::backup_copy::{BackupCopy, BackupPaths, SourcePaths, unwritten};
use admin_http::backup::BackupResult;
use std::io::ErrorKind;
use std::time::{Duration, Instant};
use std::{fs, io};

// The suffix of the name of a partial backup. Such a name begins with a dot, unlike that of a
// backup.
const BEGUN: &str = ".begun";

// The bytes of a chunk (minimum, first and maximum), and the maximum and minimum target time of a
// chunk in milliseconds. Clients wait meanwhile.
const MIN_CHUNK: usize = 32_768;

const FIRST_CHUNK: usize = 262_144;

const MAX_CHUNK: usize = 1_048_576;

const LONG: u64 = 6;

const SHORT: u64 = 3;

/// The backup directory of a database.
#[derive(Drop)]
pub struct BackupDir<'a> {
    rt: &'a HostRuntime,
    sources: SourcePaths,
    folder: String,
    copy: Option<BackupCopy>,
    chunk: Vec<u8>,
    // The bytes of the next chunk.
    length: usize,
}

// Removes partial backups.
fn remove_begun(rt: &HostRuntime, folder: &str) -> io::Result<()> {
    for entry in fs::read_dir(rt, folder)? {
        let entry = entry?;
        let name = entry.file_name();
        if name.starts_with('.') && name.ends_with(BEGUN) {
            fs::remove_dir_all(rt, entry.path())?;
        }
    }
    Ok(())
}

// Tests if the directory can be written.
fn try_folder(rt: &HostRuntime, folder: &str) -> io::Result<()> {
    let name = format!(in rt.alloc(); "{folder}/.{BEGUN}")?;
    fs::create_dir(rt, name.as_str())?;
    fs::remove_dir(rt, name.as_str())
}

impl<'a> BackupDir<'a> {
    /// Opens the directory of that name, for the open database of that name. Tests that the
    /// directory can be written, and removes partial backups.
    pub fn new(rt: &'a HostRuntime, database: &str, folder: &str) -> io::Result<BackupDir<'a>> {
        let alloc = rt.alloc();
        let path = fs::canonicalize(rt, database)?;
        let file = String::from_str(alloc, path.as_str())?;
        let log = format!(in alloc; "{file}-wal")?;
        remove_begun(rt, folder)?;
        try_folder(rt, folder)?;
        Ok(BackupDir {
            rt,
            sources: SourcePaths { file, log },
            folder: String::from_str(alloc, folder)?,
            copy: None,
            chunk: Vec::new(alloc),
            length: FIRST_CHUNK,
        })
    }

    // Returns the paths of a backup of that name.
    fn places(&self, name: &str) -> io::Result<BackupPaths> {
        let (alloc, folder) = (self.rt.alloc(), self.folder.as_str());
        Ok(BackupPaths {
            begun: format!(in alloc; "{folder}/.{name}{BEGUN}")?,
            whole: format!(in alloc; "{folder}/{name}")?,
            folder: String::from_str(alloc, folder)?,
        })
    }

    // Begins a backup if none of its name exists.
    fn begun(&mut self, name: &str) -> Result<BackupCopy, BackupResult> {
        let places = self.places(name).map_err(unwritten)?;
        match fs::symlink_metadata(self.rt, places.whole.as_str()) {
            Ok(_) => return Err(BackupResult::Exists),
            Err(cause) if cause.kind() == ErrorKind::NotFound => {}
            Err(cause) => return Err(unwritten(cause)),
        }
        self.chunk = vec![in self.rt.alloc(); 0; MAX_CHUNK].map_err(|_| BackupResult::Memory)?;
        self.length = FIRST_CHUNK;
        let begun = String::from_str(self.rt.alloc(), places.begun.as_str());
        let begun = begun.map_err(|_| BackupResult::Memory)?;
        let copy = BackupCopy::begin(self.rt, &self.sources, places);
        if copy.is_err() {
            let _ = fs::remove_dir_all(self.rt, begun.as_str());
        }
        copy
    }

    // Makes the next step of a backup.
    fn make_chunk(&mut self, copy: &mut BackupCopy) -> Result<Option<u64>, BackupResult> {
        let length = self.length.min(self.chunk.len());
        let before = Instant::now(self.rt).map_err(unwritten)?;
        let made = copy.go_on(self.rt, &mut self.chunk[..length])?;
        let taken = Instant::now(self.rt)
            .map_err(unwritten)?
            .saturating_duration_since(before);
        if taken > Duration::from_millis(LONG) {
            self.length = (self.length / 2).max(MIN_CHUNK);
        } else if taken < Duration::from_millis(SHORT) {
            self.length = self.length.saturating_mul(2).min(MAX_CHUNK);
        }
        Ok(made)
    }

    /// Begins a backup of that name. Returns the result at once if the backup does not go on.
    pub fn begin(&mut self, name: &str) -> Option<BackupResult> {
        match self.begun(name) {
            Ok(copy) => {
                self.copy = Some(copy);
                None
            }
            Err(backup) => Some(backup),
        }
    }

    /// Makes the next step of the backup in progress. Returns its result once it has ended.
    pub fn step(&mut self) -> Option<BackupResult> {
        let Some(mut copy) = self.copy.take() else {
            return Some(BackupResult::ReadFailed);
        };
        match self.make_chunk(&mut copy) {
            Ok(None) => {
                self.copy = Some(copy);
                None
            }
            Ok(Some(size)) => Some(BackupResult::Made(size)),
            Err(backup) => {
                copy.abort(self.rt);
                Some(backup)
            }
        }
    }

    /// Aborts the backup in progress and removes its partial files.
    pub fn abort(&mut self) {
        if let Some(copy) = self.copy.take() {
            copy.abort(self.rt);
        }
    }
}
