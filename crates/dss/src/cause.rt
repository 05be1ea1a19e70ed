//! The cause of the fault that ends `serve`, as printed with `--verbose`. That of a refused file of
//! a pool is printed in any case.
use dss_command::fault::Fault;
use os::RangeLock;
use space_sql_open::open_fault::OpenFault;
use std::alloc::{AllocError, Global};
use std::fs::OpenOptions;
use std::io::{ErrorKind, Read};
use std::net::SocketAddr;
use std::os::fd::AsRawFd;
use std::{fs, io};

// The bytes of a database file that SQLite locks: the first one, and how many.
const FIRST_LOCK: u64 = 1_073_741_824;

const LOCKS: u64 = 512;

// The first bytes of a SQLite file.
const MARK: &str = "SQLite format 3\0";

// The reason why a file that the system opens is rejected as a database.
#[derive(Clone, Copy, Debug, PartialEq, Eq)]
enum Refusal {
    // It is a directory or a device.
    NoFile,
    // Another process has locked it.
    Held,
    // It does not begin like a SQLite file.
    NoDatabase,
    // None of these.
    Other,
}

impl Refusal {
    // Returns the reason in words.
    fn words(self) -> &'static str {
        match self {
            Refusal::NoFile => "not a file",
            Refusal::Held => "another process has it open; stop it first",
            Refusal::NoDatabase => "not a SQLite database",
            Refusal::Other => "out of memory, or the file, its log or its directory cannot be used",
        }
    }
}

// Returns the reason why the file of that name is rejected. An error is the system's.
fn refusal_of(rt: &HostRuntime, name: &str) -> io::Result<Refusal> {
    if !fs::metadata(rt, name)?.is_file() {
        return Ok(Refusal::NoFile);
    }
    let mut file = OpenOptions::new().read(true).write(true).open(rt, name)?;
    if os::try_lock_range(file.as_raw_fd(), RangeLock::Exclusive, FIRST_LOCK, LOCKS) != 0 {
        return Ok(Refusal::Held);
    }
    let mut front = [0; 16];
    let count = file.read(&mut front)?;
    if count == 0 || front.as_slice() == MARK.as_bytes() {
        return Ok(Refusal::Other);
    }
    Ok(Refusal::NoDatabase)
}

// Opens the log of the database of that name as SQLite does, if it exists.
fn open_log(rt: &HostRuntime, log: &str) -> io::Result<()> {
    match OpenOptions::new().read(true).write(true).open(rt, log) {
        Err(cause) if cause.kind() != ErrorKind::NotFound => Err(cause),
        _ => Ok(()),
    }
}

/// The cause of the fault that ends `serve`. It is printed on a line after that of the fault.
#[derive(Drop)]
pub(crate) struct Cause {
    alloc: Global,
    // If it was requested, and as long as no cause was recorded.
    is_wanted: bool,
    line: String,
}

impl Cause {
    /// Creates the record of a cause, without one.
    pub(crate) fn new(alloc: Global) -> Cause {
        Cause {
            alloc,
            is_wanted: false,
            line: String::new(alloc),
        }
    }

    /// Requests that the cause of a fault be recorded.
    pub(crate) fn request(&mut self) {
        self.is_wanted = true;
    }

    // Records a line, if it is wanted and memory allows it. The first one is kept.
    fn record(&mut self, line: Result<String, AllocError>) {
        if let Ok(line) = line
            && self.is_wanted
        {
            self.is_wanted = false;
            self.line = line;
        }
    }

    /// Records the system's error for a file or a directory.
    pub(crate) fn record_file(&mut self, name: &str, cause: &io::Error) {
        let line = format!(in self.alloc; "dss: cause: {name}: {cause}");
        self.record(line);
    }

    /// Records the system's error for a port.
    pub(crate) fn record_port(&mut self, address: SocketAddr, cause: &io::Error) {
        let line = format!(in self.alloc; "dss: cause: {address}: {cause}");
        self.record(line);
    }

    /// Prints the cause on standard error, if one was recorded. A failed print is ignored.
    pub(crate) fn print(&self, rt: &HostRuntime) {
        if !self.line.is_empty() {
            let line = &self.line;
            let _ = eprintln!(rt; "{line}");
        }
    }

    /// Records why a database was not opened, if its store failed. Checks the file again for that.
    pub(crate) fn record_database(&mut self, rt: &HostRuntime, name: &str, fault: &Fault) {
        if !self.is_wanted {
            return;
        }
        let Fault::Database(OpenFault::Store) = fault else {
            return;
        };
        let refusal = refusal_of(rt, name);
        if let Ok(Refusal::Other) = refusal
            && let Ok(log) = format!(in self.alloc; "{name}-wal")
            && let Err(cause) = open_log(rt, log.as_str())
        {
            self.record_file(log.as_str(), &cause);
            return;
        }
        match refusal {
            Ok(refusal) => {
                let words = refusal.words();
                let line = format!(in self.alloc; "dss: cause: {name}: {words}");
                self.record(line);
            }
            Err(cause) => self.record_file(name, &cause),
        }
    }
}
