//! The directory of a pool's files. Each file is a database that has the calls and purges of the
//! log up to a revision of etcd. Its name has this revision, the number of the pool's settings, and
//! the number of the airspace at the beginning of the log, in 20 digits each. So a rename gives a
//! database its place in the log.
use crate::backup::copy_file;
use crate::cause::Cause;
use crate::chain_file::{OwnFile, check_content};
use crate::pool_file_check::check_file;
use crate::private::NO_OTHERS;
use dss_command::fault::{Fault, io_fault};
use dss_command::pool_fault::PoolFault;
use std::alloc::{AllocError, Global};
use std::fs::{File, OpenOptions, TryLockError};
use std::io::{ErrorKind, Write};
use std::os::unix::fs::OpenOptionsExt;
use std::{fs, io};

// The name of the database that is not complete yet.
const NEXT: &str = "next.db";

// The name of a chain that is not complete yet.
const NEXT_CHAIN: &str = "next.chain";

// The name of the file that is locked while another one is written.
const LOCK: &str = "lock";

// The name of the file that is locked while another one is loaded, and while others are removed.
const TURN: &str = "turn";

// How the name of a database ends, and that of its chain.
const DATABASE: &str = ".db";

const CHAIN: &str = ".chain";

// The suffixes of what can lie beside a database: its log, and what a stopped process left.
const BESIDE: [&str; 4] = ["-wal", "-journal", ".begun", ".new"];

// The number of digits of a number in a name.
const DIGITS: usize = 20;

// Returns the number that a text of 20 digits is.
fn number_of(text: &str) -> Option<u64> {
    if text.len() != DIGITS || !text.as_bytes().iter().all(|b| b.is_ascii_digit()) {
        return None;
    }
    match text.parse::<u64>() {
        Ok(number) => Some(number),
        Err(_) => None,
    }
}

/// The name of a file.
#[derive(Clone, Copy, Debug, PartialEq, Eq)]
pub(crate) struct FileName {
    /// The revision of the last change whose calls and purges the file has. It is 0 before the
    /// first one.
    pub(crate) revision: u64,
    /// The number of the pool's settings.
    pub(crate) settings: u64,
    /// The number of the airspace at the beginning of the log. That of the empty one is 0.
    pub(crate) beginning: u64,
}

impl FileName {
    // Parses a name that ends so. Returns `None` if it is no name of a file of a pool.
    fn parse(text: &str, end: &str) -> Option<FileName> {
        let (revision, numbers) = text.strip_suffix(end)?.split_once('-')?;
        let (settings, beginning) = numbers.split_once('-')?;
        Some(FileName {
            revision: number_of(revision)?,
            settings: number_of(settings)?,
            beginning: number_of(beginning)?,
        })
    }

    /// Returns the name as a text.
    pub(crate) fn text(self, alloc: Global) -> Result<String, AllocError> {
        let FileName {
            revision,
            settings,
            beginning,
        } = self;
        format!(in alloc; "{revision:020}-{settings:020}-{beginning:020}.db")
    }

    // Returns the name of the chain of the file as a text.
    fn chain_text(self, alloc: Global) -> Result<String, AllocError> {
        let FileName {
            revision,
            settings,
            beginning,
        } = self;
        format!(in alloc; "{revision:020}-{settings:020}-{beginning:020}.chain")
    }
}

/// Returns the number of the airspace at the beginning of the log, which the newest file tells.
/// Without a file, it is that of the empty airspace.
pub(crate) fn beginning_of(newest: Option<FileName>) -> u64 {
    match newest {
        Some(name) => name.beginning,
        None => 0,
    }
}

/// Prints the name of a file on a line.
pub(crate) fn print_name<W: Write>(
    rt: &HostRuntime,
    name: FileName,
    output: &mut W,
) -> Result<(), Fault> {
    let Ok(text) = name.text(rt.alloc()) else {
        return Err(Fault::Memory);
    };
    match writeln!(output, "{text}") {
        Ok(()) => Ok(()),
        Err(_) => Err(Fault::Output),
    }
}

// Returns the name with the greatest revision.
fn newest_of(names: &[FileName]) -> Option<FileName> {
    let mut newest: Option<FileName> = None;
    for name in names {
        newest = match newest {
            Some(found) if found.revision >= name.revision => Some(found),
            _ => Some(*name),
        };
    }
    newest
}

// Returns the least revision of the two newest files, or 0 if there are fewer.
fn kept_from(names: &[FileName]) -> u64 {
    let (mut first, mut second) = (0, 0);
    for name in names {
        if name.revision > first {
            second = first;
            first = name.revision;
        } else if name.revision > second {
            second = name.revision;
        }
    }
    second
}

// Returns true if a file has a revision below that one.
fn has_older(names: &[FileName], least: u64) -> bool {
    for name in names {
        if name.revision < least {
            return true;
        }
    }
    false
}

// Removes a file, if it exists.
fn remove(rt: &HostRuntime, path: &str) -> io::Result<()> {
    match fs::remove_file(rt, path) {
        Err(cause) if cause.kind() == ErrorKind::NotFound => Ok(()),
        done => done,
    }
}

/// The directory of a pool's files.
#[derive(Clone, Copy)]
pub(crate) struct PoolFiles<'a> {
    rt: &'a HostRuntime,
    folder: &'a str,
}

impl<'a> PoolFiles<'a> {
    /// Creates the view of the directory of that name. Opens nothing.
    pub(crate) fn new(rt: &'a HostRuntime, folder: &'a str) -> PoolFiles<'a> {
        PoolFiles { rt, folder }
    }

    // Returns the path of a file of the directory.
    fn path(&self, name: &str) -> Result<String, AllocError> {
        let folder = self.folder;
        format!(in self.rt.alloc(); "{folder}/{name}")
    }

    /// Returns the path of the file of that name.
    pub(crate) fn path_of(&self, name: FileName) -> Result<String, AllocError> {
        let text = name.text(self.rt.alloc())?;
        self.path(text.as_str())
    }

    // Returns the path of the chain of the file of that name.
    fn chain_path_of(&self, name: FileName) -> Result<String, AllocError> {
        let text = name.chain_text(self.rt.alloc())?;
        self.path(text.as_str())
    }

    /// Makes a file with these bytes for a chain, after the system has stored it, and gives it the
    /// name of the chain of that file.
    pub(crate) fn put_chain(&self, name: FileName, text: &[u8]) -> io::Result<()> {
        let (next, path) = (self.path(NEXT_CHAIN)?, self.chain_path_of(name)?);
        remove(self.rt, next.as_str())?;
        let mut file = OpenOptions::new()
            .write(true)
            .create_new(true)
            .mode(NO_OTHERS)
            .open(self.rt, next.as_str())?;
        file.write_all(text)?;
        file.sync_all()?;
        fs::rename(self.rt, next.as_str(), path.as_str())
    }

    /// Returns the text of the chain of the file of that name.
    pub(crate) fn chain(&self, name: FileName) -> io::Result<String> {
        let path = self.chain_path_of(name)?;
        fs::read_to_string(self.rt, path.as_str())
    }

    /// Returns the path of the database that is not complete yet.
    pub(crate) fn next(&self) -> Result<String, AllocError> {
        self.path(NEXT)
    }

    /// Returns the fault of a failed call of the system, and records its cause.
    pub(crate) fn fault(&self, error: &io::Error, cause: &mut Cause) -> Fault {
        cause.record_file(self.folder, error);
        io_fault(error, Fault::Pool(PoolFault::Files))
    }

    // Opens a file that processes lock.
    fn open_lock(&self, name: &str) -> io::Result<File> {
        let path = self.path(name)?;
        OpenOptions::new()
            .write(true)
            .create(true)
            .mode(NO_OTHERS)
            .open(self.rt, path.as_str())
    }

    // Locks a file until it is dropped. Returns `None` if another process has locked it.
    fn try_lock(&self, name: &str) -> io::Result<Option<File>> {
        let file = self.open_lock(name)?;
        match file.try_lock() {
            Ok(()) => Ok(Some(file)),
            Err(TryLockError::WouldBlock) => Ok(None),
            Err(TryLockError::Error(error)) => Err(error),
        }
    }

    /// Waits until no other process loads a file, since only one can have a database open. Then
    /// this process has its turn until the file is dropped, and no file is removed meanwhile.
    /// Returns this file, and the name of the newest file. Returns `None` if there is no file of a
    /// pool.
    pub(crate) fn wait_for_turn(&self) -> io::Result<Option<(File, FileName)>> {
        if self.newest()?.is_none() {
            return Ok(None);
        }
        let turn = self.open_lock(TURN)?;
        turn.lock()?;
        match self.newest()? {
            Some(name) => Ok(Some((turn, name))),
            None => Ok(None),
        }
    }

    // Returns the names of the files whose names end so.
    fn names(&self, end: &str) -> io::Result<Vec<FileName>> {
        let mut names = Vec::new(self.rt.alloc());
        for entry in fs::read_dir(self.rt, self.folder)? {
            let entry = entry?;
            if let Some(name) = FileName::parse(entry.file_name(), end) {
                names.push(name)?;
            }
        }
        Ok(names)
    }

    /// Returns the name of the newest file, if there is one.
    pub(crate) fn newest(&self) -> io::Result<Option<FileName>> {
        let names = self.names(DATABASE)?;
        Ok(newest_of(names.as_slice()))
    }

    // Removes a database, after the files beside it.
    fn remove_database(&self, path: &str) -> io::Result<()> {
        self.remove_beside(path)?;
        remove(self.rt, path)
    }

    // Removes the files beside a database that is closed, or of that name.
    fn remove_beside(&self, path: &str) -> io::Result<()> {
        for end in BESIDE {
            let beside = format!(in self.rt.alloc(); "{path}{end}")?;
            remove(self.rt, beside.as_str())?;
        }
        Ok(())
    }

    /// Removes the database and the chain that are not complete, if there are any.
    pub(crate) fn clear(&self) -> io::Result<()> {
        let (next, chain) = (self.next()?, self.path(NEXT_CHAIN)?);
        remove(self.rt, chain.as_str())?;
        self.remove_database(next.as_str())
    }

    /// Locks the directory, and removes what a process left that was stopped. Returns the file that
    /// has the lock, and the name of the newest file. Returns `None` if another process has locked
    /// the directory.
    pub(crate) fn lock_and_clear(&self) -> io::Result<Option<(File, Option<FileName>)>> {
        let Some(lock) = self.try_lock(LOCK)? else {
            return Ok(None);
        };
        self.clear()?;
        let newest = self.newest()?;
        Ok(Some((lock, newest)))
    }

    /// Locks the directory for a process that writes to it, and removes what a process left that
    /// was stopped. Returns the file that has the lock, and the name of the newest file. Returns a
    /// fault if another process has locked the directory.
    pub(crate) fn take(&self, cause: &mut Cause) -> Result<(File, Option<FileName>), Fault> {
        match self.lock_and_clear() {
            Ok(Some(taken)) => Ok(taken),
            Ok(None) => Err(Fault::Pool(PoolFault::FilesBusy)),
            Err(error) => Err(self.fault(&error, cause)),
        }
    }

    /// Makes a copy of the file of that name, which is not complete yet. The file must have an
    /// airspace, and be the one that its chain names.
    pub(crate) fn copy(
        &self,
        name: FileName,
        own_file: Option<OwnFile>,
        cause: &mut Cause,
    ) -> Result<(), Fault> {
        let (Ok(from), Ok(to)) = (self.path_of(name), self.next()) else {
            return Err(Fault::Memory);
        };
        check_file(self.rt, from.as_str(), cause)?;
        check_content(self.rt, from.as_str(), name, own_file, cause)?;
        match copy_file(self.rt, from.as_str(), to.as_str()) {
            Err(Fault::Copy(_)) => Err(Fault::Pool(PoolFault::Files)),
            done => done,
        }
    }

    /// Gives the complete database that name, after the system has stored it. The database is
    /// closed, so that its log has nothing.
    pub(crate) fn put(&self, name: FileName) -> io::Result<()> {
        let (next, path) = (self.next()?, self.path_of(name)?);
        let folder = File::open(self.rt, self.folder)?;
        File::open(self.rt, next.as_str())?.sync_all()?;
        self.remove_beside(next.as_str())?;
        self.remove_beside(path.as_str())?;
        fs::rename(self.rt, next.as_str(), path.as_str())?;
        folder.sync_all()
    }

    /// Removes all files except the two newest, with their chains, and the older chains of files
    /// that a stopped process did not make. If another process has its turn, removes nothing: that
    /// process can be about to open one of the others.
    pub(crate) fn keep_two(&self) -> io::Result<()> {
        let (names, chains) = (self.names(DATABASE)?, self.names(CHAIN)?);
        let least = kept_from(names.as_slice());
        if !has_older(names.as_slice(), least) && !has_older(chains.as_slice(), least) {
            return Ok(());
        }
        let Some(_turn) = self.try_lock(TURN)? else {
            return Ok(());
        };
        for name in &names {
            if name.revision < least {
                let path = self.path_of(*name)?;
                self.remove_database(path.as_str())?;
            }
        }
        for name in &chains {
            if name.revision < least {
                let chain = self.chain_path_of(*name)?;
                remove(self.rt, chain.as_str())?;
            }
        }
        Ok(())
    }
}
