//! The file of the access log.
use crate::private::LOG;
use crate::regular::check_regular;
use dss_command::request_log::LogFile;
use std::fs::{File, OpenOptions};
use std::io::Write;
use std::os::unix::fs::{MetadataExt, OpenOptionsExt};
use std::time::{Duration, Instant, SystemTime, UNIX_EPOCH};
use std::{fs, io};

// The interval in seconds between checks if the file was moved away.
const LOOKS: u64 = 1;

// A file that is open under its name, and the time of the last check.
#[derive(Drop)]
struct Named<'a> {
    name: &'a str,
    file: File,
    looked: Option<Instant>,
}

// The target of the lines.
#[derive(Drop)]
enum LogTarget<'a> {
    StandardError,
    File(Named<'a>),
}

/// The target of the access log: standard error, or a file. The file is opened again under its name
/// after it was moved away.
#[derive(Drop)]
pub(crate) struct SystemLog<'a> {
    rt: &'a HostRuntime,
    place: LogTarget<'a>,
}

// Opens the regular file of that name at its end. Creates it if it does not exist.
fn open(rt: &HostRuntime, name: &str) -> io::Result<File> {
    check_regular(rt, name)?;
    OpenOptions::new()
        .append(true)
        .create(true)
        .mode(LOG)
        .open(rt, name)
}

// Returns true if the name still refers to that file.
fn is_found(rt: &HostRuntime, name: &str, file: &File) -> bool {
    match (fs::metadata(rt, name), file.metadata()) {
        (Ok(found), Ok(open)) => found.ino() == open.ino() && found.dev() == open.dev(),
        _ => false,
    }
}

impl<'a> Named<'a> {
    // Opens the file again if its name no longer refers to it. Checks that each second. If the open
    // fails, lines go to the old file.
    fn find(&mut self, rt: &HostRuntime) {
        let Ok(now) = Instant::now(rt) else {
            return;
        };
        if let Some(looked) = self.looked
            && now.saturating_duration_since(looked) < Duration::from_secs(LOOKS)
        {
            return;
        }
        self.looked = Some(now);
        if !is_found(rt, self.name, &self.file)
            && let Ok(file) = open(rt, self.name)
        {
            self.file = file;
        }
    }
}

impl<'a> SystemLog<'a> {
    /// Opens the log of that name; `-` is standard error.
    pub(crate) fn open(rt: &'a HostRuntime, name: &'a str) -> io::Result<SystemLog<'a>> {
        let place = match name {
            "-" => LogTarget::StandardError,
            _ => LogTarget::File(Named {
                name,
                file: open(rt, name)?,
                looked: None,
            }),
        };
        Ok(SystemLog { rt, place })
    }
}

impl<'a> LogFile for SystemLog<'a> {
    fn time(&self) -> Option<Duration> {
        let Ok(now) = SystemTime::now(self.rt) else {
            return None;
        };
        now.duration_since(UNIX_EPOCH).ok()
    }

    fn append(&mut self, bytes: &[u8]) -> io::Result<usize> {
        match &mut self.place {
            LogTarget::StandardError => self.rt.stderr().write(bytes),
            LogTarget::File(named) => {
                named.find(self.rt);
                named.file.write(bytes)
            }
        }
    }
}
