//! One backup, made while the service runs: a copy of the database file, and then of its log.
use crate::log_frames::LogHeader;
use crate::page_set::PageSet;
use admin_http::backup::BackupResult;
use std::alloc::Global;
use std::fs::{self, DirBuilder, File, OpenOptions};
use std::io::ErrorKind;
use std::os::unix::fs::{DirBuilderExt, FileExt, OpenOptionsExt};
use std::{io, mem};

/// The name of the database file in a backup.
pub(crate) const FILE_NAME: &str = "dss.db";

/// The name of the log in a backup.
pub(crate) const LOG_NAME: &str = "dss.db-wal";

// The maximum number of bytes of changed pages that are copied at once with the log.
const LAST_PAGES: u64 = 2_097_152;

// The maximum number of bytes that a new log overwrites of the previous one beyond its own frames,
// because it writes zeros ahead.
const WRITTEN_AHEAD: u64 = 1_048_576;

// The maximum numbers of restarts of a backup, and of chunks of changed pages.
const MAX_STARTS: u32 = 8;

const MAX_CHANGED: u32 = 10_000;

// Returns the result of a failed read of the database files.
fn unread(cause: io::Error) -> BackupResult {
    match cause.kind() {
        ErrorKind::OutOfMemory => BackupResult::Memory,
        _ => BackupResult::ReadFailed,
    }
}

/// Returns the result of a failed write to the backup directory.
pub(crate) fn unwritten(cause: io::Error) -> BackupResult {
    match cause.kind() {
        ErrorKind::OutOfMemory => BackupResult::Memory,
        _ => BackupResult::WriteFailed,
    }
}

/// Creates a file that only its owner can read.
pub(crate) fn new_file(rt: &HostRuntime, name: &str) -> io::Result<File> {
    OpenOptions::new()
        .write(true)
        .create_new(true)
        .mode(0o600)
        .open(rt, name)
}

// Creates the temporary directory of a backup, and its files.
fn begun_files(rt: &HostRuntime, begun: &str) -> io::Result<(File, File)> {
    DirBuilder::new().mode(0o700).create(rt, begun)?;
    let alloc = rt.alloc();
    let copied = new_file(rt, format!(in alloc; "{begun}/{FILE_NAME}")?.as_str())?;
    let backup_log = new_file(rt, format!(in alloc; "{begun}/{LOG_NAME}")?.as_str())?;
    Ok((copied, backup_log))
}

/// Syncs a directory.
pub(crate) fn sync_folder(rt: &HostRuntime, name: &str) -> io::Result<()> {
    File::open(rt, name)?.sync_all()
}

// The next stage of a backup.
#[derive(Drop)]
enum Stage {
    // the file is to be copied from this byte on
    File(u64),
    // the log is to be written, from this byte on
    Log(Vec<u8>, usize),
    // everything is written
    Written,
    // everything is synced
    Synced,
}

/// The paths of the database files to back up.
#[derive(Drop)]
pub(crate) struct SourcePaths {
    pub(crate) file: String,
    pub(crate) log: String,
}

/// The temporary and the final path of a backup.
#[derive(Drop)]
pub(crate) struct BackupPaths {
    pub(crate) begun: String,
    pub(crate) whole: String,
    pub(crate) folder: String,
}

/// A backup in progress.
#[derive(Drop)]
pub(crate) struct BackupCopy {
    places: BackupPaths,
    file: File,
    log: File,
    copied: File,
    backup_log: File,
    stage: Stage,
    // The log when it was last read: its header, its frames, and their pages.
    header: LogHeader,
    frames: u64,
    logged: PageSet,
    // The pages that checkpoints wrote into the file since its copy began.
    changed: PageSet,
    page: Vec<u8>,
    starts: u32,
    changed_chunks: u32,
    size: u64,
}

impl BackupCopy {
    /// Begins a backup, and creates its directory.
    pub(crate) fn begin(
        rt: &HostRuntime,
        sources: &SourcePaths,
        places: BackupPaths,
    ) -> Result<BackupCopy, BackupResult> {
        let alloc = rt.alloc();
        let file = File::open(rt, sources.file.as_str()).map_err(unread)?;
        let log = File::open(rt, sources.log.as_str()).map_err(unread)?;
        let Some(header) = LogHeader::read(&log).map_err(unread)? else {
            return Err(BackupResult::ReadFailed);
        };
        let page_size = usize::try_from(header.page_size()).unwrap_or(0);
        let page = vec![in alloc; 0; page_size].map_err(|_| BackupResult::Memory)?;
        let (copied, backup_log) = begun_files(rt, places.begun.as_str()).map_err(unwritten)?;
        Ok(BackupCopy {
            places,
            file,
            log,
            copied,
            backup_log,
            stage: Stage::File(0),
            header,
            frames: 0,
            logged: PageSet::new(alloc),
            changed: PageSet::new(alloc),
            page,
            starts: 1,
            changed_chunks: 0,
            size: 0,
        })
    }

    /// Removes the partial backup.
    pub(crate) fn abort(self, rt: &HostRuntime) {
        let _ = fs::remove_dir_all(rt, self.places.begun.as_str());
    }

    // Reads the log, and records what checkpoints may have changed in the file since the last read.
    // Returns false if that is unknown.
    fn look(&mut self, alloc: Global) -> io::Result<bool> {
        let Some(header) = LogHeader::read(&self.log)? else {
            return Err(io::Error::from(ErrorKind::InvalidData));
        };
        if header == self.header {
            self.frames = header.mark_from(&self.file, &self.log, self.frames, &mut self.logged)?;
            return Ok(true);
        }
        let mut logged = PageSet::new(alloc);
        let frames = header.mark_from(&self.file, &self.log, 0, &mut logged)?;
        let overwritten = header.length(frames).saturating_add(WRITTEN_AHEAD);
        let is_known = header.is_next_of(self.header)
            && overwritten <= self.header.length(self.frames);
        if is_known {
            self.header
                .mark_from(&self.file, &self.log, self.frames, &mut self.logged)?;
            self.changed.absorb(&mut self.logged)?;
        }
        self.header = header;
        self.frames = frames;
        self.logged = logged;
        Ok(is_known)
    }

    // Restarts the copy of the file.
    fn start_anew(&mut self) -> Result<(), BackupResult> {
        if self.starts >= MAX_STARTS {
            return Err(BackupResult::TooManyChanges);
        }
        self.starts = self.starts.saturating_add(1);
        self.changed.clear();
        self.stage = Stage::File(0);
        Ok(())
    }

    // Copies a chunk of the file.
    fn copy_chunk(&mut self, from: u64, chunk: &mut [u8]) -> Result<(), BackupResult> {
        let count = self.file.read_at(chunk, from).map_err(unread)?;
        self.copied
            .write_all_at(&chunk[..count], from)
            .map_err(unwritten)?;
        self.copied.sync_data().map_err(unwritten)?;
        self.stage = Stage::File(from.saturating_add(count as u64));
        Ok(())
    }

    // Copies one page of the file.
    fn copy_page(&mut self, number: u32) -> Result<(), BackupResult> {
        let at = u64::from(number)
            .saturating_sub(1)
            .saturating_mul(self.header.page_size());
        let count = self.file.read_at(&mut self.page, at).map_err(unread)?;
        self.copied
            .write_all_at(&self.page[..count], at)
            .map_err(unwritten)
    }

    // Copies changed pages of so many bytes in total.
    fn copy_changed(&mut self, bytes: u64) -> Result<(), BackupResult> {
        let most = bytes / self.header.page_size().max(1);
        for _ in 0..most.max(1) {
            let Some(number) = self.changed.pop() else {
                return Ok(());
            };
            self.copy_page(number)?;
        }
        Ok(())
    }

    // Copies a chunk of the changed pages, if there are many.
    fn catch_up(&mut self, bytes: u64) -> Result<(), BackupResult> {
        if self.changed_chunks >= MAX_CHANGED {
            return Err(BackupResult::TooManyChanges);
        }
        self.changed_chunks = self.changed_chunks.saturating_add(1);
        self.copy_changed(bytes)?;
        self.copied.sync_data().map_err(unwritten)
    }

    // Copies the remaining changed pages, and reads the log, between the same two batches.
    fn copy_log(&mut self, alloc: Global, length: u64) -> Result<(), BackupResult> {
        self.copy_changed(u64::MAX)?;
        self.copied.set_len(length).map_err(unwritten)?;
        let Ok(size) = usize::try_from(self.header.length(self.frames)) else {
            return Err(BackupResult::Memory);
        };
        let mut log = vec![in alloc; 0; size].map_err(|_| BackupResult::Memory)?;
        self.log.read_exact_at(&mut log, 0).map_err(unread)?;
        self.size = length.saturating_add(self.header.length(self.frames));
        self.stage = Stage::Log(log, 0);
        Ok(())
    }

    // Makes the next step of the file's copy, which has this length so far.
    fn go_on_with_file(
        &mut self,
        alloc: Global,
        copied: u64,
        chunk: &mut [u8],
    ) -> Result<(), BackupResult> {
        self.stage = Stage::File(copied);
        if !self.look(alloc).map_err(unread)? {
            return self.start_anew();
        }
        let length = self.file.metadata().map_err(unread)?.len();
        if copied < length {
            return self.copy_chunk(copied, chunk);
        }
        let changed = self
            .header
            .page_size()
            .saturating_mul(self.changed.len() as u64);
        if changed > LAST_PAGES {
            return self.catch_up(chunk.len() as u64);
        }
        self.copy_log(alloc, length)
    }

    // Writes the next chunk of the log.
    fn write_log(&mut self, log: Vec<u8>, written: usize, most: usize) -> Result<(), BackupResult> {
        let from = written.min(log.len());
        let until = from.saturating_add(most).min(log.len());
        self.backup_log
            .write_all_at(&log[from..until], from as u64)
            .map_err(unwritten)?;
        self.backup_log.sync_data().map_err(unwritten)?;
        self.stage = if until < log.len() {
            Stage::Log(log, until)
        } else {
            Stage::Written
        };
        Ok(())
    }

    // Syncs the whole backup.
    fn sync(&mut self, rt: &HostRuntime) -> io::Result<()> {
        self.copied.sync_all()?;
        self.backup_log.sync_all()?;
        self.stage = Stage::Synced;
        sync_folder(rt, self.places.begun.as_str())
    }

    // Renames the backup to its final name.
    fn name_it(&self, rt: &HostRuntime) -> io::Result<()> {
        fs::rename(rt, self.places.begun.as_str(), self.places.whole.as_str())?;
        sync_folder(rt, self.places.folder.as_str())
    }

    /// Makes the next step. Returns the size of the backup once it is complete.
    pub(crate) fn go_on(
        &mut self,
        rt: &HostRuntime,
        chunk: &mut [u8],
    ) -> Result<Option<u64>, BackupResult> {
        match mem::replace(&mut self.stage, Stage::Written) {
            Stage::File(copied) => self.go_on_with_file(rt.alloc(), copied, chunk)?,
            Stage::Log(log, written) => self.write_log(log, written, chunk.len())?,
            Stage::Written => self.sync(rt).map_err(unwritten)?,
            Stage::Synced => {
                self.name_it(rt).map_err(unwritten)?;
                return Ok(Some(self.size));
            }
        }
        Ok(None)
    }
}
