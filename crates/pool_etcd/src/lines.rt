//! Lines of a stream of bytes.
ghost use Rattle.std.specs.Prelude.{◌≡◌, ◌+◌, ◌<◌, ◌++◌, [], length, take, drop, OnOk, OnErr, IfOk, IfNone, IfSome};
ghost use Rattle.pool_etcd.specs.Lines.{BeginsWith, IsOneLine, Lacks, SplitsAt};

use bytes::BytesMut;
use memchr::memchr;
use std::alloc::{AllocError, Global};
use std::marker::Model;

/// The byte that ends a line.
pub(crate) const LINE_FEED: u8 = 10;

// The byte that ends a word.
const SPACE: u8 = 32;

/// The bytes of a stream that are in no line yet.
///
/// Contracts see their list.
#[derive(Drop)]
pub struct Lines {
    bytes: BytesMut,
}

impl Model for Lines {
    ghost use Rattle.std.specs.Prelude.{List, ℕ};

    ghost Value = { List ℕ };

    ghost view = { λ a. a.bytes.items };
}

impl Lines {
    /// Creates an empty stream.
    pub fn new(alloc: Global) -> Lines
        ensures { result ≡ [] }
    {
        Lines {
            bytes: BytesMut::new(alloc),
        }
    }

    /// Adds bytes that arrived.
    ///
    /// Returns `AllocError` if memory runs out.
    pub fn push(&mut self, chunk: &[u8]) -> Result<(), AllocError>
        ensures ok { OnOk result (self.new ≡ self.old ++ chunk.now) }
        ensures err { OnErr result (self.new ≡ self.old) }
    {
        self.bytes.extend_from_slice(chunk)
    }

    /// Returns the number of bytes that are in no line yet.
    pub fn len(&self) -> usize
        ensures { result ≡ length self.now }
    {
        self.bytes.len()
    }

    /// Takes the next line, without its line feed, if it is whole.
    ///
    /// Returns `AllocError` if memory runs out.
    pub fn next_line(&mut self, alloc: Global) -> Result<Option<Vec<u8>>, AllocError>
        ensures none { IfOk result (λ line. IfNone line
            (IsOneLine self.old × (self.new ≡ self.old))) }
        ensures some { IfOk result
            (λ line. IfSome line (λ l. BeginsWith self.old l.items self.new)) }
        ensures err { OnErr result (self.new ≡ self.old) }
    {
        let Some(end) = line_end(self.bytes.as_slice()) else {
            return Ok(None);
        };
        let line = Vec::from_slice(alloc, &self.bytes.as_slice()[..end])?;
        self.bytes.advance(end + 1);
        Ok(Some(line))
    }
}

/// Returns the position of the first line feed.
pub(crate) fn line_end(bytes: &[u8]) -> Option<usize>
    ensures none { IfNone result (IsOneLine bytes.now) }
    ensures some { IfSome result (λ end. BeginsWith bytes.now (take end bytes.now)
        (drop (end + 1) bytes.now)) }
    ensures within { IfSome result (λ end. end < length bytes.now) }
{
    memchr(LINE_FEED, bytes)
}

/// Returns the position of the first space.
pub(crate) fn space_in(bytes: &[u8]) -> Option<usize>
    ensures none { IfNone result (Lacks 32 bytes.now) }
    ensures some { IfSome result (λ space. SplitsAt 32 bytes.now (take space bytes.now)
        (drop (space + 1) bytes.now)) }
    ensures within { IfSome result (λ space. space < length bytes.now) }
{
    memchr(SPACE, bytes)
}
