//! A copy of a database that another process may be changing: its file, and then its log.
//!
//! The copy is one state of the database, with every change that was committed before the copy
//! began, for these reasons. The process that changes the database appends frames to the log, and
//! never changes a committed frame. Only a checkpoint writes into the file. It writes pages of
//! committed frames of the log, syncs the file, clears the first byte of the log's header, and then
//! writes a header with the next number. Only after that are frames overwritten.
//!
//! - The log is read after the last page of the file, and its header must be the same before and
//!   after that. So whatever a checkpoint wrote into the file since that header was written is
//!   among the frames that were read, also if a page was read while it was written. Every other
//!   page of the file stayed as it was read.
//! - If there was one checkpoint since the last look at the log, the pages of all frames of the
//!   earlier log are read again. Its frames after the last known one are still in the file if that
//!   last known frame is, since a log is overwritten from its start. Otherwise, or if there were
//!   more checkpoints, the copy begins anew, a bounded number of times.
//! - The copied log ends with a commit. Frames that are appended while it is read are not copied,
//!   since its length was known before. SQLite takes the frames up to the last commit and ignores
//!   the rest.
//! - Pages that the file gets at its end come from a checkpoint, like changed ones. The file is
//!   read to its end after each look.
//! - If there is no log, or it has no header, the file alone is the database. The copy is that file
//!   if there is still no header after the last page was read, and if the length and the times of
//!   the file are then the same as before the first page was read. Otherwise the copy begins anew.
//! - A header that appears makes the copy begin anew. So does a process that ends: it makes a
//!   checkpoint and cuts the log, and no known frame remains.
//! - While the first byte of the header is cleared, the copy waits. If it stays cleared, the file
//!   alone is the database, since it was synced before.
//! - A file with a rollback journal of SQLite is rejected: only SQLite can play it back.
use crate::log_frames::{HEADER, LogHeader, LogStart};
use crate::page_set::PageSet;
use std::fs::{self, File};
use std::io::{self, ErrorKind};
use std::os::unix::fs::{FileExt, MetadataExt};
use std::thread;
use std::time::Duration;

// The maximum number of bytes of the file that are read between two looks at the log.
const CHUNK: u64 = 1_048_576;

// The maximum number of changed pages that are read again between two looks at the log.
const PAGES: usize = 256;

// The maximum numbers of starts of a copy, of waits for a header, and of looks at the log.
const MAX_STARTS: u32 = 16;

const MAX_WAITS: u32 = 1_000;

const MAX_LOOKS: u32 = 100_000_000;

// The time between two looks at a log whose header is being written, in milliseconds.
const WAIT: u64 = 10;

/// The bytes of a database file and of its log.
#[derive(Drop)]
pub struct DatabaseBytes {
    /// The bytes of the file.
    pub file: Vec<u8>,
    /// The bytes of the log up to its last commit. Empty if the file alone is the database.
    pub log: Vec<u8>,
}

/// The reason why a database was not read.
#[derive(Clone, Copy, Debug, PartialEq, Eq)]
pub enum ReadFault {
    /// Its files cannot be read, or it has a rollback journal.
    Unread,
    /// It changed faster than it was read.
    TooManyChanges,
    /// Its log has a page number that no database has.
    Damaged,
    /// Memory ran out.
    Memory,
}

// Returns the fault of a failed read.
fn unread(cause: io::Error) -> ReadFault {
    match cause.kind() {
        ErrorKind::OutOfMemory => ReadFault::Memory,
        ErrorKind::InvalidData => ReadFault::Damaged,
        _ => ReadFault::Unread,
    }
}

// The length of a file, and when its content and its attributes last changed.
#[derive(Clone, Copy, Debug, PartialEq, Eq)]
struct Stamp {
    length: u64,
    changed: (i64, i64),
    touched: (i64, i64),
}

impl Stamp {
    // Returns the stamp of an open file.
    fn of(file: &File) -> io::Result<Stamp> {
        let found = file.metadata()?;
        Ok(Stamp {
            length: found.len(),
            changed: (found.mtime(), found.mtime_nsec()),
            touched: (found.ctime(), found.ctime_nsec()),
        })
    }
}

// What a look at the log found.
#[derive(Clone, Copy, Debug, PartialEq, Eq)]
enum Look {
    // the pages that a checkpoint may have changed since the last look are known
    Known,
    // they are not
    Unknown,
    // a checkpoint is writing the header
    Waiting,
}

// The files of the database, and what is known of them.
#[derive(Drop)]
struct LiveReader<'a> {
    rt: &'a HostRuntime,
    file: File,
    log: Option<File>,
    file_name: String,
    log_name: String,
    journal_name: String,
    // The stamp of the file when the copy began to follow a log. `None` before the first look.
    stamp: Option<Stamp>,
    // The log when it was last read: its header, its frames, and their pages.
    header: Option<LogHeader>,
    frames: u64,
    logged: PageSet,
    // The pages that checkpoints may have changed since they were read.
    changed: PageSet,
    copied: Vec<u8>,
    starts: u32,
    waits: u32,
}

// Opens the file of that name, if there is one.
fn open_existing(rt: &HostRuntime, name: &str) -> io::Result<Option<File>> {
    match File::open(rt, name) {
        Ok(file) => Ok(Some(file)),
        Err(cause) if cause.kind() == ErrorKind::NotFound => Ok(None),
        Err(cause) => Err(cause),
    }
}

// Returns an error unless the open file is a regular one, and is still the file of that name.
fn is_named(rt: &HostRuntime, file: &File, name: &str) -> io::Result<()> {
    let (found, named) = (file.metadata()?, fs::metadata(rt, name)?);
    if found.is_file() && found.dev() == named.dev() && found.ino() == named.ino() {
        return Ok(());
    }
    Err(io::Error::from(ErrorKind::InvalidInput))
}

// Returns an error if there is a rollback journal of that name that SQLite would play back. It
// ignores one that is empty or begins with a zero.
fn has_no_journal(rt: &HostRuntime, name: &str) -> io::Result<()> {
    match fs::symlink_metadata(rt, name) {
        Ok(found) if found.is_file() => {}
        Ok(_) => return Err(io::Error::from(ErrorKind::InvalidInput)),
        Err(cause) if cause.kind() == ErrorKind::NotFound => return Ok(()),
        Err(cause) => return Err(cause),
    }
    let mut first = [0];
    if File::open(rt, name)?.read_at(&mut first, 0)? == 0 || first[0] == 0 {
        return Ok(());
    }
    Err(io::Error::from(ErrorKind::InvalidInput))
}

// Returns the length of the header of a log that is no log, or 0 if the file alone is the database:
// if the log has no header, or a checkpoint has cleared it.
fn damaged_header(log: &File) -> io::Result<u64> {
    let mut bytes = [0; HEADER];
    let found = log.read_at(&mut bytes, 0)?;
    Ok(if found < HEADER || bytes[0] == 0 {
        0
    } else {
        HEADER as u64
    })
}

impl<'a> LiveReader<'a> {
    // Opens the files of the database of that name.
    fn open(rt: &'a HostRuntime, name: &str) -> io::Result<LiveReader<'a>> {
        let alloc = rt.alloc();
        let path = fs::canonicalize(rt, name)?;
        let file = File::open(rt, path.as_str())?;
        let log_name = format!(in alloc; "{}-wal", path.as_str())?;
        let log = open_existing(rt, log_name.as_str())?;
        let reader = LiveReader {
            rt,
            file,
            log,
            file_name: String::from_str(alloc, path.as_str())?,
            log_name,
            journal_name: format!(in alloc; "{}-journal", path.as_str())?,
            stamp: None,
            header: None,
            frames: 0,
            logged: PageSet::new(alloc),
            changed: PageSet::new(alloc),
            copied: Vec::new(alloc),
            starts: 0,
            waits: 0,
        };
        reader.are_named()?;
        Ok(reader)
    }

    // Returns an error unless the open files still have their names, and there is no journal. Others
    // may have replaced them.
    fn are_named(&self) -> io::Result<()> {
        has_no_journal(self.rt, self.journal_name.as_str())?;
        is_named(self.rt, &self.file, self.file_name.as_str())?;
        match &self.log {
            Some(log) => is_named(self.rt, log, self.log_name.as_str()),
            None => Ok(()),
        }
    }

    // Reads the start of the log.
    fn log_start(&mut self) -> io::Result<LogStart> {
        if self.log.is_none() {
            self.log = open_existing(self.rt, self.log_name.as_str())?;
        }
        match &self.log {
            Some(log) => LogStart::read(log),
            None => Ok(LogStart::Nothing),
        }
    }

    // Reads the header of the log, if there is one.
    fn header_now(&mut self) -> io::Result<Option<LogHeader>> {
        match self.log_start()? {
            LogStart::Header(header) => Ok(Some(header)),
            LogStart::Cleared | LogStart::Nothing => Ok(None),
        }
    }

    // Begins to follow the log that has this header, or the file alone.
    fn follow(&mut self, header: Option<LogHeader>) -> io::Result<()> {
        self.stamp = Some(Stamp::of(&self.file)?);
        self.header = header;
        self.frames = 0;
        self.logged.clear();
        self.mark_new()
    }

    // Records the pages of the new frames of the log that is followed.
    fn mark_new(&mut self) -> io::Result<()> {
        if let (Some(header), Some(log)) = (self.header, &self.log) {
            self.frames = header.mark_from(&self.file, log, self.frames, &mut self.logged)?;
        }
        Ok(())
    }

    // Records the pages of the remaining frames of the followed log, which a checkpoint has copied
    // into the file. Returns false if frames may be missing.
    fn mark_last(&mut self, next: LogHeader) -> io::Result<bool> {
        let (Some(header), Some(log)) = (self.header, &self.log) else {
            return Ok(false);
        };
        if self.frames == 0 || !next.is_next_of(header) {
            return Ok(false);
        }
        header.mark_from(&self.file, log, self.frames, &mut self.logged)?;
        if !header.has_frame(log, self.frames.saturating_sub(1))? {
            return Ok(false);
        }
        self.changed.absorb(&mut self.logged)?;
        Ok(true)
    }

    // Reads the log, and records which pages checkpoints may have changed since the last look.
    fn look(&mut self) -> io::Result<Look> {
        let found = match self.log_start()? {
            LogStart::Cleared if self.waits < MAX_WAITS => {
                self.waits = self.waits.saturating_add(1);
                return Ok(Look::Waiting);
            }
            LogStart::Header(header) => {
                self.waits = 0;
                Some(header)
            }
            LogStart::Cleared | LogStart::Nothing => None,
        };
        if self.stamp.is_some() && found == self.header {
            self.mark_new()?;
            return Ok(Look::Known);
        }
        let is_known = match found {
            Some(next) => self.mark_last(next)?,
            None => false,
        };
        self.follow(found)?;
        Ok(if is_known { Look::Known } else { Look::Unknown })
    }

    // Begins the copy anew.
    fn start_anew(&mut self) -> Result<(), ReadFault> {
        if self.starts >= MAX_STARTS {
            return Err(ReadFault::TooManyChanges);
        }
        self.starts = self.starts.saturating_add(1);
        self.changed.clear();
        self.copied.clear();
        Ok(())
    }

    // Reads the next chunk of a file of that length.
    fn read_chunk(&mut self, length: u64) -> io::Result<()> {
        let from = self.copied.len();
        let rest = length.saturating_sub(from as u64);
        if from == 0 {
            let room = usize::try_from(length).unwrap_or(0);
            self.copied.reserve(room)?;
        }
        let count = usize::try_from(rest.min(CHUNK)).unwrap_or(0);
        self.copied.resize(from.saturating_add(count), 0)?;
        let read = match self.copied.as_mut_slice().get_mut(from..) {
            Some(chunk) => self.file.read_at(chunk, from as u64)?,
            None => 0,
        };
        self.copied.truncate(from.saturating_add(read));
        Ok(())
    }

    // Reads a page of the file again, as far as it was read before.
    fn read_page(&mut self, number: u32, page_size: u64) -> io::Result<()> {
        let at = u64::from(number)
            .saturating_sub(1)
            .saturating_mul(page_size);
        let Ok(from) = usize::try_from(at) else {
            return Ok(());
        };
        let until = usize::try_from(at.saturating_add(page_size)).unwrap_or(usize::MAX);
        let until = until.min(self.copied.len());
        if from < until
            && let Some(page) = self.copied.as_mut_slice().get_mut(from..until)
        {
            self.file.read_exact_at(page, at)?;
        }
        Ok(())
    }

    // Reads some of the changed pages again.
    fn read_changed(&mut self, page_size: u64) -> io::Result<()> {
        for _ in 0..PAGES {
            let Some(number) = self.changed.pop() else {
                return Ok(());
            };
            self.read_page(number, page_size)?;
        }
        Ok(())
    }

    // Reads the log up to its last known commit, as far as the file has it. Returns `None` if the log
    // was cut meanwhile.
    fn read_log(&self) -> io::Result<Option<Vec<u8>>> {
        let alloc = self.rt.alloc();
        let Some(log) = &self.log else {
            return Ok(Some(Vec::new(alloc)));
        };
        let length = match self.header {
            Some(header) => header.length(self.frames),
            None => damaged_header(log)?,
        };
        let length = length.min(log.metadata()?.len());
        let Ok(size) = usize::try_from(length) else {
            return Err(io::Error::from(ErrorKind::OutOfMemory));
        };
        let mut bytes = vec![in alloc; 0; size]?;
        match log.read_exact_at(&mut bytes, 0) {
            Ok(()) => Ok(Some(bytes)),
            Err(cause) if cause.kind() == ErrorKind::UnexpectedEof => Ok(None),
            Err(cause) => Err(cause),
        }
    }

    // Reads what is missing of the file. Returns true if nothing is missing.
    fn go_on(&mut self) -> io::Result<bool> {
        let length = self.file.metadata()?.len();
        if (self.copied.len() as u64) < length {
            self.read_chunk(length)?;
            return Ok(false);
        }
        if let Ok(length) = usize::try_from(length) {
            self.copied.truncate(length);
        }
        if self.changed.len() != 0
            && let Some(header) = self.header
        {
            self.read_changed(header.page_size())?;
            return Ok(false);
        }
        Ok(true)
    }

    // Tests if what was read is one state of the database: the log still has the same header, or
    // there is none and the file alone has not changed.
    fn is_one_state(&mut self) -> io::Result<bool> {
        if self.header_now()? != self.header {
            return Ok(false);
        }
        if self.header.is_some() || self.stamp == Some(Stamp::of(&self.file)?) {
            return Ok(true);
        }
        self.stamp = None;
        Ok(false)
    }

    // Makes the next step of the copy. Returns the log once the copy is complete.
    fn step(&mut self) -> Result<Option<Vec<u8>>, ReadFault> {
        match self.look().map_err(unread)? {
            Look::Known => {}
            Look::Unknown => {
                self.start_anew()?;
                return Ok(None);
            }
            Look::Waiting => {
                thread::sleep(self.rt, Duration::from_millis(WAIT));
                return Ok(None);
            }
        }
        if !self.go_on().map_err(unread)? {
            return Ok(None);
        }
        let Some(log) = self.read_log().map_err(unread)? else {
            return Ok(None);
        };
        self.are_named().map_err(unread)?;
        let is_whole = self.is_one_state().map_err(unread)?;
        Ok(if is_whole { Some(log) } else { None })
    }
}

/// Reads the database of that name, which another process may be changing. The result is one state
/// of the database, with every change that was committed before the call.
pub fn read_database(rt: &HostRuntime, name: &str) -> Result<DatabaseBytes, ReadFault> {
    let mut reader = LiveReader::open(rt, name).map_err(unread)?;
    for _ in 0..MAX_LOOKS {
        if let Some(log) = reader.step()? {
            let LiveReader { copied, .. } = reader;
            return Ok(DatabaseBytes { file: copied, log });
        }
    }
    Err(ReadFault::TooManyChanges)
}
