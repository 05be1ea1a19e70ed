//! The parts of a database's write-ahead log that a backup reads: its header, and the pages of its
//! frames.
use crate::page_set::PageSet;
use std::fs::File;
use std::io::{self, ErrorKind};
use std::os::unix::fs::FileExt;

/// The length of a header of a log.
pub(crate) const HEADER: usize = 32;

/// The length of a header of a frame.
pub(crate) const FRAME_HEADER: usize = 24;

// The first byte of the header's first salt, which each checkpoint increments, is at least 1.
const MIN_COUNT: u32 = 0x100_0000;

// The lowest number that is not a page number. A frame with such a number describes frames next to
// it.
const NO_PAGE: u32 = 0xff00_0000;

// The maximum number of pages by which the file may have become shorter.
const CUT_PAGES: u64 = 1_048_576;

/// Returns the big-endian number of four bytes.
pub(crate) fn number(bytes: &[u8], at: usize) -> u32 {
    let mut found = 0_u32;
    for place in at..at.saturating_add(4) {
        if let Some(byte) = bytes.get(place) {
            found = found.wrapping_mul(256).wrapping_add(u32::from(*byte));
        }
    }
    found
}

// Reads up to the length of the chunk, as far as the file has bytes.
fn read_up_to(file: &File, chunk: &mut [u8], at: u64) -> io::Result<usize> {
    file.read_at(chunk, at)
}

/// The start of a log.
#[derive(Clone, Copy, Debug, PartialEq, Eq)]
pub(crate) enum LogStart {
    /// A header.
    Header(LogHeader),
    /// A header whose first byte a checkpoint has cleared.
    Cleared,
    /// No header. The log is short, or something else is there.
    Nothing,
}

impl LogStart {
    /// Reads the start of the log in that file.
    pub(crate) fn read(log: &File) -> io::Result<LogStart> {
        let mut bytes = [0; HEADER];
        let found = read_up_to(log, &mut bytes, 0)?;
        if found < HEADER {
            return Ok(LogStart::Nothing);
        }
        if number(&bytes, 0) & 0xffff_fffe == 0x377f_0682 {
            return Ok(LogStart::Header(LogHeader {
                page_size: number(&bytes, 8),
                count: number(&bytes, 16),
                random: number(&bytes, 20),
            }));
        }
        Ok(if bytes[0] == 0 {
            LogStart::Cleared
        } else {
            LogStart::Nothing
        })
    }
}

/// The header of a log. A checkpoint leads to a new one.
#[derive(Clone, Copy, Debug, PartialEq, Eq)]
pub(crate) struct LogHeader {
    page_size: u32,
    // The salt that each checkpoint increments.
    count: u32,
    random: u32,
}

impl LogHeader {
    /// Reads the header of the log in that file, if there is one.
    pub(crate) fn read(log: &File) -> io::Result<Option<LogHeader>> {
        match LogStart::read(log)? {
            LogStart::Header(header) => Ok(Some(header)),
            LogStart::Cleared | LogStart::Nothing => Ok(None),
        }
    }

    /// Returns the bytes of a page.
    pub(crate) fn page_size(self) -> u64 {
        u64::from(self.page_size)
    }

    /// Returns true if there was exactly one checkpoint since the log had that header.
    pub(crate) fn is_next_of(self, earlier: LogHeader) -> bool {
        self.page_size == earlier.page_size
            && self.count == earlier.count.wrapping_add(1).max(MIN_COUNT)
    }

    /// Returns the length of a log with so many frames.
    pub(crate) fn length(self, frames: u64) -> u64 {
        let frame = self.page_size().saturating_add(FRAME_HEADER as u64);
        frame.saturating_mul(frames).saturating_add(HEADER as u64)
    }

    // Returns the page of a frame, and whether the frame ends a commit. Returns `None` if this log
    // has no such frame.
    fn frame(self, log: &File, index: u64) -> io::Result<Option<(u32, bool)>> {
        let mut bytes = [0; FRAME_HEADER];
        let found = read_up_to(log, &mut bytes, self.length(index))?;
        let is_of_this = number(&bytes, 8) == self.count && number(&bytes, 12) == self.random;
        if found < FRAME_HEADER || !is_of_this {
            return Ok(None);
        }
        Ok(Some((number(&bytes, 0), number(&bytes, 4) != 0)))
    }

    /// Returns true if the file still has the frame of this log with that index.
    pub(crate) fn has_frame(self, log: &File, index: u64) -> io::Result<bool> {
        Ok(self.frame(log, index)?.is_some())
    }

    // Returns the number of pages of the database file.
    fn pages_of(self, file: &File) -> io::Result<u64> {
        let length = file.metadata()?.len();
        Ok(length.checked_div(self.page_size()).unwrap_or(0))
    }

    /// Adds the pages of the frames of this log from that index on to the set. Returns the number
    /// of frames up to the last commit. A frame adds at most one page to the database, so a higher
    /// page number is damaged, and the error is `InvalidData`.
    pub(crate) fn mark_from(
        self,
        file: &File,
        log: &File,
        from: u64,
        pages: &mut PageSet,
    ) -> io::Result<u64> {
        let most = self.pages_of(file)?.saturating_add(CUT_PAGES);
        let mut frames = from;
        for index in from..u64::MAX {
            let Some((page, ends)) = self.frame(log, index)? else {
                return Ok(frames);
            };
            if page < NO_PAGE {
                if u64::from(page) > most.saturating_add(index) {
                    return Err(io::Error::from(ErrorKind::InvalidData));
                }
                pages.insert(page)?;
            }
            if ends {
                frames = index.saturating_add(1);
            }
        }
        Ok(frames)
    }
}
