//! The times of the last change of a database. `serve` compares its clock with them at a start, so
//! a command that only reads puts them back.
use dss_command::fault::Fault;
use space_sql_open::open_fault::OpenFault;
use std::fs::File;
use std::path::PathBuf;
use std::time::SystemTime;
use std::{fs, io};

// The suffix of the log of a database.
const LOG: &str = "-wal";

// Returns the time of the last change of a regular file, if the system returns one.
fn time_of(rt: &HostRuntime, name: &str) -> Option<SystemTime> {
    let Ok(found) = fs::metadata(rt, name) else {
        return None;
    };
    if !found.is_file() {
        return None;
    }
    match found.modified() {
        Ok(time) => Some(time),
        Err(_) => None,
    }
}

// Puts a time back, if there was one. Without the right to do so, the file keeps its time.
fn put_back(rt: &HostRuntime, name: &str, time: Option<SystemTime>) {
    if let Some(time) = time
        && let Ok(file) = File::open(rt, name)
    {
        let _ = file.set_modified(time);
    }
}

/// Returns the paths of a database and its log, which lie where a link leads.
pub(crate) fn paths_of(rt: &HostRuntime, name: &str) -> io::Result<(PathBuf, String)> {
    let file = fs::canonicalize(rt, name)?;
    let path = file.as_str();
    let log = format!(in rt.alloc(); "{path}{LOG}")?;
    Ok((file, log))
}

/// The times of the last change of a database file and of its log.
#[derive(Clone, Copy)]
pub(crate) struct ChangeTimes {
    file: Option<SystemTime>,
    log: Option<SystemTime>,
}

impl ChangeTimes {
    /// Reads the times of the files of a database, before a command opens it.
    pub(crate) fn of(rt: &HostRuntime, name: &str) -> ChangeTimes {
        let Ok((file, log)) = paths_of(rt, name) else {
            return ChangeTimes {
                file: None,
                log: None,
            };
        };
        ChangeTimes {
            file: time_of(rt, file.as_str()),
            log: time_of(rt, log.as_str()),
        }
    }

    /// Ends a command that has closed the database: puts the times back, and returns the command's
    /// result. A log that is new gets the time of the file.
    ///
    /// If the store failed, another process may have the database open. Then the times stay as they
    /// are.
    pub(crate) fn end(
        self,
        rt: &HostRuntime,
        name: &str,
        done: Result<(), Fault>,
    ) -> Result<(), Fault> {
        if let Err(Fault::Database(OpenFault::Store)) = &done {
            return done;
        }
        if let Ok((file, log)) = paths_of(rt, name) {
            put_back(rt, file.as_str(), self.file);
            put_back(rt, log.as_str(), self.log.or(self.file));
        }
        done
    }
}
