//! The access log: a line for each request, written at the end of its batch.
use crate::log_line::log_line;
use jiff_core::Timestamp;
use server_base::server_log::LoggedRequest;
use std::alloc::{AllocError, Global};
use std::io;
use std::time::Duration;

/// A file for the lines of a log.
pub trait LogFile {
    /// Returns the time since 1970 in UTC, if the system clock returns one.
    fn time(&self) -> Option<Duration>;

    /// Appends the first of these bytes in one write, and returns how many.
    fn append(&mut self, bytes: &[u8]) -> io::Result<usize>;
}

/// The access log.
///
/// The lines of a batch are buffered until it ends, and then written at once. Lines that could not
/// be buffered or written completely are dropped and counted.
#[derive(Drop)]
pub(crate) struct RequestLog<L> {
    alloc: Global,
    file: L,
    // The line end of a line that was cut off, if any, and then the buffered lines.
    lines: Vec<u8>,
    dropped: u64,
    // True if the last write ended within a line.
    is_cut: bool,
}

// Returns how many lines end in the bytes.
fn line_ends(bytes: &[u8]) -> u64 {
    let mut count = 0_u64;
    for byte in bytes {
        if *byte == b'\n' {
            count = count.saturating_add(1);
        }
    }
    count
}

// Returns the timestamp of a time since 1970.
fn timestamp_at(time: Duration) -> Option<Timestamp> {
    let Ok(nanoseconds) = i128::try_from(time.as_nanos()) else {
        return None;
    };
    Timestamp::from_nanosecond(nanoseconds).ok()
}

impl<L: LogFile> RequestLog<L> {
    /// Creates a log that writes to that file.
    pub(crate) fn new(alloc: Global, file: L) -> RequestLog<L> {
        RequestLog {
            alloc,
            file,
            lines: Vec::new(alloc),
            dropped: 0,
            is_cut: false,
        }
    }

    // Buffers a line.
    fn hold(&mut self, line: &str) -> Result<(), AllocError> {
        if self.lines.is_empty() {
            self.lines.push(b'\n')?;
        }
        self.lines.extend_from_slice(line.as_bytes())?;
        Ok(())
    }

    /// Buffers the line of a request that was answered now.
    pub(crate) fn note(&mut self, request: &LoggedRequest<'_>) {
        let moment = match self.file.time() {
            Some(time) => timestamp_at(time),
            None => None,
        };
        let held = match log_line(self.alloc, moment, request) {
            Ok(line) => self.hold(line.as_str()),
            Err(_) => Err(AllocError),
        };
        if held.is_err() {
            self.dropped = self.dropped.saturating_add(1);
        }
    }

    // Writes the buffered lines. Drops those that were not written completely.
    fn write_buffered(&mut self) {
        let start = if self.is_cut { 0 } else { 1 };
        let Some(bytes) = self.lines.get(start..) else {
            return;
        };
        let count = match self.file.append(bytes) {
            Ok(count) => count,
            Err(_) => 0,
        };
        if let Some(taken) = bytes.get(..count)
            && let Some(last) = taken.last()
        {
            self.is_cut = *last != b'\n';
        }
        let end = start.saturating_add(count).max(1);
        if let Some(rest) = self.lines.get(end..) {
            self.dropped = self.dropped.saturating_add(line_ends(rest));
        }
    }

    /// Writes the buffered lines. Returns how many were dropped since the start.
    pub(crate) fn write(&mut self) -> u64 {
        if !self.lines.is_empty() {
            self.write_buffered();
            self.lines.clear();
        }
        self.dropped
    }
}
