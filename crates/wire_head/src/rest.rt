//! What bytes say of a head, before and at the end of the input.
ghost use Rattle.std.specs.Prelude.{◌≡◌, length};
ghost use Rattle.wire_head.specs.Rest.{has_feed, has_line, skip_ends, feeds, IsSoFar, EndsAs};

use httparse::spans::{HeaderSpan, RequestSpans, parse_request};
use httparse::{Error, Status};

/// The maximum number of fields in a head.
pub const FIELD_LIMIT: usize = 64;

/// What the bytes so far say of a head.
#[derive(Clone, Copy)]
pub enum PartialHead {
    /// Nothing yet: more bytes are needed.
    More,
    /// The head is complete.
    Head(RequestSpans),
    /// No bytes that follow can make a valid head.
    Bad,
    /// The head has more fields than allowed.
    Large,
}

/// What an input begins with.
#[derive(Clone, Copy)]
pub enum FinalHead {
    /// The input is empty.
    Nothing,
    /// The input ends within a head.
    Part,
    /// The head is complete.
    Head(RequestSpans),
    /// The input begins with no valid head.
    Bad,
    /// The head is too large.
    Large,
}

// Returns true if the bytes have a line feed.
fn feed_in(bytes: &[u8]) -> bool
    ensures { result ≡ has_feed bytes.now }
{
    bytes.iter().any(|b| *b == b'\n')
}

// Returns true if a request line has ended.
fn line_in(bytes: &[u8]) -> bool
    ensures { result ≡ has_line bytes.now }
{
    let mut at = 0;
    while at < bytes.len() {
        let b = bytes[at];
        at += 1;
        if b != b'\r' && b != b'\n' {
            return feed_in(&bytes[at..]);
        }
    }
    false
}

// Returns the bytes after the leading empty lines.
fn skip_ends(bytes: &[u8]) -> &[u8]
    ensures { result.now ≡ skip_ends bytes.now }
{
    let mut left = bytes;
    'skipping: while let Some((b, rest)) = left.split_first() {
        if *b != b'\r' && *b != b'\n' {
            break;
        }
        left = rest;
    }
    left
}

// Returns the number of line feeds.
fn feeds_in(bytes: &[u8]) -> usize
    ensures { result ≡ feeds bytes.now }
{
    bytes.iter().filter(|b| **b == b'\n').count()
}

/// Parses a head from the bytes so far. Returns `More` until a request line has ended.
///
/// `fields` must have `FIELD_LIMIT` elements.
pub fn head_so_far(bytes: &[u8], fields: &mut [HeaderSpan]) -> PartialHead
    requires { length fields.old ≡ FIELD_LIMIT }
    ensures { IsSoFar bytes.now fields.new result }
{
    if !line_in(bytes) {
        return PartialHead::More;
    }
    match parse_request(bytes, fields) {
        Ok(Status::Complete(head)) => PartialHead::Head(head),
        Ok(Status::Partial) => PartialHead::More,
        Err(Error::TooManyHeaders) => PartialHead::Large,
        Err(_) => PartialHead::Bad,
    }
}

/// Classifies the bytes at the end of the input, after parsing has returned `More`.
pub fn at_end(bytes: &[u8]) -> FinalHead
    ensures { EndsAs bytes.now result }
{
    if bytes.is_empty() {
        return FinalHead::Nothing;
    }
    if feeds_in(skip_ends(bytes)) < FIELD_LIMIT + 2 {
        FinalHead::Part
    } else {
        FinalHead::Large
    }
}
