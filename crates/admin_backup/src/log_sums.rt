//! The checksums of a write-ahead log, which find damaged frames.
use crate::log_frames::{FRAME_HEADER, HEADER, number};

// The first bytes of a header. The last one says in which order the bytes of a number are summed.
const MAGIC: u32 = 0x377f_0682;

// The running checksum of SQLite.
#[derive(Clone, Copy, Debug, PartialEq, Eq)]
struct LogSum {
    first: u32,
    second: u32,
}

impl LogSum {
    // Returns the checksum that is stored there.
    fn stored(bytes: &[u8], at: usize) -> LogSum {
        LogSum {
            first: number(bytes, at),
            second: number(bytes, at.saturating_add(4)),
        }
    }

    // Continues the checksum over these bytes.
    fn over(self, is_big: bool, bytes: &[u8]) -> LogSum {
        let mut sum = self;
        for pair in bytes.chunks_exact(8) {
            let (mut one, mut two) = (number(pair, 0), number(pair, 4));
            if !is_big {
                (one, two) = (one.swap_bytes(), two.swap_bytes());
            }
            sum.first = sum.first.wrapping_add(one).wrapping_add(sum.second);
            sum.second = sum.second.wrapping_add(two).wrapping_add(sum.first);
        }
        sum
    }
}

// Returns the checksum after a frame, if the frame has it.
fn sum_after(before: LogSum, is_big: bool, frame: &[u8]) -> Option<LogSum> {
    let (head, content) = (frame.get(..8)?, frame.get(FRAME_HEADER..)?);
    let sum = before.over(is_big, head).over(is_big, content);
    if sum == LogSum::stored(frame, 16) {
        Some(sum)
    } else {
        None
    }
}

/// Tests if the header of a log and each of its frames have their checksums. An empty log has no
/// damage.
pub fn has_sums(log: &[u8]) -> bool {
    let Some((header, frames)) = log.split_at_checked(HEADER) else {
        return true;
    };
    let is_big = number(header, 0) == MAGIC | 1;
    if !is_big && number(header, 0) != MAGIC {
        return false;
    }
    let Some(summed) = header.get(..24) else {
        return true;
    };
    let nothing = LogSum {
        first: 0,
        second: 0,
    };
    let mut sum = LogSum::stored(header, 24);
    if nothing.over(is_big, summed) != sum {
        return false;
    }
    let page_size = number(header, 8) as usize;
    for frame in frames.chunks(page_size.saturating_add(FRAME_HEADER)) {
        match sum_after(sum, is_big, frame) {
            Some(after) => sum = after,
            None => return false,
        }
    }
    true
}
