//! The length of a request body.
ghost use Rattle.std.specs.Prelude.{◌≡◌, ◌≤◌, length, map, true, min, All, IfOk};
ghost use Rattle.std.specs.List.{list_all};
ghost use Rattle.std.specs.Char.{is_ascii_digit};
ghost use Rattle.std.specs.Str.Parse.{digits_value};
ghost use Rattle.httparse.specs.Spans.{header_bytes, IsHeaderWithin};
ghost use Rattle.wire_head.specs.Length.{content_length, declared_length};

use crate::fields::{Occurrence, only};
use crate::rule::WireRule;
use httparse::spans::HeaderSpan;

// The maximum length of a body, in bytes.
const BODY_LIMIT: usize = 1_048_576;

// Returns the number that the digits represent, capped at one more than the limit.
fn capped(digits: &[u8]) -> usize
    requires { list_all is_ascii_digit digits.now ≡ true }
    ensures { result ≡ min (digits_value 10 digits.now) 1048577 }
{
    let mut total = 0;
    for b in digits {
        if b.is_ascii_digit() {
            total = (total * 10 + usize::from(*b - b'0')).min(BODY_LIMIT + 1);
        }
    }
    total
}

// Returns true if each byte is a digit.
fn are_digits(text: &[u8]) -> bool
    ensures { result ≡ list_all is_ascii_digit text.now }
{
    text.iter().all(|b| b.is_ascii_digit())
}

// Returns the length that the value of a field gives.
fn declared_length(text: &[u8]) -> Result<usize, WireRule>
    ensures { result ≡ declared_length text.now }
{
    if text.is_empty() || !are_digits(text) {
        return Err(WireRule::Length);
    }
    let total = capped(text);
    if total <= BODY_LIMIT {
        Ok(total)
    } else {
        Err(WireRule::BodySize)
    }
}

/// Returns the length of the body after a head with these fields.
///
/// Returns the first rule that the fields break otherwise.
pub fn content_length(buffer: &[u8], fields: &[HeaderSpan]) -> Result<usize, WireRule>
    requires { All (IsHeaderWithin (length buffer.now)) fields.now }
    ensures { result ≡ content_length (map (header_bytes buffer.now) fields.now) }
{
    let Occurrence::Absent = only(buffer, fields, b"transfer-encoding") else {
        return Err(WireRule::Transfer);
    };
    match only(buffer, fields, b"content-length") {
        Occurrence::Absent => Ok(0),
        Occurrence::One(value) => declared_length(value.of(buffer)),
        Occurrence::Many => Err(WireRule::Length),
    }
}
