//! The input of a stream, read within its turns.
ghost use Rattle.std.specs.Prelude.{◌≡◌, ◌<◌, ◌≤◌, ◌+◌, max, length, drop, true, false, OnOk, IfOk};
ghost use Rattle.std.specs.Io.KnownBytes.{IsAtEnd};
ghost use Rattle.wire_http.specs.Source.{ReadsSource, ahead_of, bytes_of};

use crate::buffered::HEAD_LIMIT;
use crate::counted::Counted;
use crate::fault::StreamFault;
use std::io::Read;

// The maximum number of bytes of one read: enough for a complete head, and for part of a body.
const CHUNK: usize = 16_384;

/// The input of a stream.
#[derive(Drop)]
pub(crate) struct Source<'s, R> {
    /// The reader of the input.
    pub(crate) reader: &'s mut Counted<R>,
    /// The number of reads that are left.
    pub(crate) turns: u32,
    /// The bytes that were read and belong to no earlier request. They are borrowed, since the
    /// proof cannot follow the reader in a struct that owns memory.
    pub(crate) buffer: &'s mut Vec<u8>,
}

impl<R: Read> Source<'_, R> {
    // Reads at most `room` bytes in one turn, by way of the chunk, and appends them to the buffer.
    //
    // Returns `false` at the end of the input.
    fn read_more(&mut self, chunk: &mut [u8; CHUNK], room: usize) -> Result<bool, StreamFault>
        requires { 0 < room }
        ensures reads { ReadsSource R.remaining self.old self.new result }
        ensures short { OnOk result
            (length (bytes_of self.new) ≤ length (bytes_of self.old) + room) }
        ensures end { IfOk result (λ came. came ≡ false
            → (bytes_of self.new ≡ bytes_of self.old) × IsAtEnd (ahead_of R.remaining self.new)) }
        ensures fewer { OnOk result (self.new.turns + 1 ≡ self.old.turns) }
    {
        if self.turns == 0 {
            return Err(StreamFault::Turns);
        }
        self.turns -= 1;
        let most = room.min(CHUNK);
        match self.reader.read(&mut chunk[..most]) {
            Ok(0) => Ok(false),
            Ok(n) => match self.buffer.extend_from_slice(&chunk[..n]) {
                Ok(()) => Ok(true),
                Err(_) => Err(StreamFault::Memory),
            },
            Err(_) => Err(StreamFault::Read),
        }
    }

    /// Reads until the buffer holds `count` bytes. Fills it to at most the larger of `count` and the
    /// maximum size of a head.
    ///
    /// Returns `false` if the input ended before.
    pub(crate) fn fill(&mut self, count: usize) -> Result<bool, StreamFault>
        ensures reads { ReadsSource R.remaining self.old self.new result }
        ensures short { OnOk result (length (bytes_of self.new)
            ≤ max (length (bytes_of self.old)) (max count HEAD_LIMIT)) }
        ensures whole { IfOk result (λ whole. whole ≡ true → count ≤ length (bytes_of self.new)) }
        ensures ended { IfOk result (λ whole. whole ≡ false
            → (length (bytes_of self.new) < count) × IsAtEnd (ahead_of R.remaining self.new)) }
        ensures fewer { IfOk result (λ whole. whole ≡ true → length (bytes_of self.old) < count
            → self.new.turns < self.old.turns) }
    {
        let mut chunk = [0u8; CHUNK];
        'filling: while self.buffer.len() < count {
            let room = count.max(HEAD_LIMIT) - self.buffer.len();
            if !self.read_more(&mut chunk, room)? {
                return Ok(false);
            }
        }
        Ok(true)
    }
}

/// Removes the first `count` bytes of the buffer. Allocates nothing.
pub(crate) fn shift(buffer: &mut Vec<u8>, count: usize)
    requires { count ≤ length buffer.old.items }
    ensures { buffer.new.items ≡ drop count buffer.old.items }
{
    buffer.drain(..count);
}
