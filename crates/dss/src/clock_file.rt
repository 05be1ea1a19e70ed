//! The file beside a database with the last time of the clock that `serve` trusted. It has the name
//! of the database and `-clock`, and one line: the time, and the time to which the clock jumped
//! since then, if it did. Both are in Unix seconds.
use crate::copying::folder_of;
use crate::regular::read_regular;
use server_base::trusted_time::TrustedTime;
use std::alloc::AllocError;
use std::fs::OpenOptions;
use std::io::{ErrorKind, Write};
use std::os::unix::fs::OpenOptionsExt;
use std::{fs, io};

// The time that stands for a file that cannot be read. It holds purges until an operator confirms
// the clock.
const UNREADABLE: TrustedTime = TrustedTime {
    moment: 0,
    jumped_to: None,
};

// Returns the name of the file.
fn name_of(rt: &HostRuntime, database: &str) -> Result<String, AllocError> {
    format!(in rt.alloc(); "{database}-clock")
}

// Returns the number that a text is.
fn number_of(text: &str) -> Option<u64> {
    match text.parse::<u64>() {
        Ok(number) => Some(number),
        Err(_) => None,
    }
}

// Returns the time that the text of the file is.
fn time_of(text: &str) -> Option<TrustedTime> {
    let line = text.strip_suffix("\n")?;
    match line.split_once(' ') {
        Some((moment, jumped_to)) => Some(TrustedTime {
            moment: number_of(moment)?,
            jumped_to: Some(number_of(jumped_to)?),
        }),
        None => Some(TrustedTime {
            moment: number_of(line)?,
            jumped_to: None,
        }),
    }
}

/// Reads the file. Returns `None` if there is none. A file that cannot be read, or has anything
/// else, counts as the time 0.
pub(crate) fn read_time(rt: &HostRuntime, database: &str) -> Option<TrustedTime> {
    let Ok(name) = name_of(rt, database) else {
        return Some(UNREADABLE);
    };
    let bytes = match read_regular(rt, name.as_str()) {
        Ok(bytes) => bytes,
        Err(cause) if cause.kind() == ErrorKind::NotFound => return None,
        Err(_) => return Some(UNREADABLE),
    };
    match str::from_utf8(&bytes) {
        Ok(text) => Some(time_of(text).unwrap_or(UNREADABLE)),
        Err(_) => Some(UNREADABLE),
    }
}

/// Replaces the file by one with this time. It is synced and renamed, so after a crash there is the
/// old one or the new one.
pub(crate) fn write_time(rt: &HostRuntime, database: &str, time: TrustedTime) -> io::Result<()> {
    let name = name_of(rt, database)?;
    let begun = format!(in rt.alloc(); "{database}-clock.begun")?;
    let mut file = OpenOptions::new()
        .write(true)
        .create(true)
        .truncate(true)
        .mode(0o600)
        .open(rt, begun.as_str())?;
    let moment = time.moment;
    match time.jumped_to {
        Some(jumped_to) => writeln!(file, "{moment} {jumped_to}")?,
        None => writeln!(file, "{moment}")?,
    }
    file.sync_all()?;
    let folder = folder_of(rt, name.as_str())?;
    fs::rename(rt, begun.as_str(), name.as_str())?;
    folder.sync_all()
}

/// Removes the file, if there is one.
pub(crate) fn remove_time(rt: &HostRuntime, database: &str) {
    if let Ok(name) = name_of(rt, database) {
        let _ = fs::remove_file(rt, name.as_str());
    }
}
