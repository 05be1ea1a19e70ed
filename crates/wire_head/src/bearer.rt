//! The bearer token of a request (RFC 6750, section 2.1).
ghost use Rattle.std.specs.Prelude.{◌≡◌, ◌≤◌, length, map, All, codes, MatchOption, None, Some};
ghost use Rattle.std.specs.List.{list_all};
ghost use Rattle.std.specs.Char.{is_ascii_graphic};
ghost use Rattle.httparse.specs.Spans.{header_bytes, IsHeaderWithin};
ghost use Rattle.wire_head.specs.Bearer.{skip_spaces, visible, spaced, bearer_in, bearer_token};

use crate::fields::{Occurrence, equals_ignoring_case, only};
use httparse::spans::HeaderSpan;

// Returns the bytes after the leading spaces.
fn skip_spaces(bytes: &[u8]) -> &[u8]
    ensures { result.now ≡ skip_spaces bytes.now }
{
    let mut left = bytes;
    'skipping: while let Some((b, rest)) = left.split_first() {
        if *b != b' ' {
            break;
        }
        left = rest;
    }
    left
}

// Returns true if each byte is a visible ASCII character.
fn are_visible(text: &[u8]) -> bool
    ensures { result ≡ list_all is_ascii_graphic text.now }
{
    text.iter().all(|b| b.is_ascii_graphic())
}

// Returns the text if it can be a token.
fn visible(text: &[u8]) -> Option<&str>
    ensures { MatchOption result (visible text.now ≡ None)
        (λ token. visible text.now ≡ Some token.now) }
{
    if text.is_empty() || !are_visible(text) {
        return None;
    }
    let Ok(token) = str::from_utf8(text) else {
        unreachable!();
    };
    Some(token)
}

// Returns the token after one or more spaces.
fn spaced(bytes: &[u8]) -> Option<&str>
    ensures { MatchOption result (spaced bytes.now ≡ None)
        (λ token. spaced bytes.now ≡ Some token.now) }
{
    let (b, rest) = bytes.split_first()?;
    if *b != b' ' {
        return None;
    }
    visible(skip_spaces(rest))
}

// Returns the token in the value of a field Authorization.
fn bearer_in(value: &[u8]) -> Option<&str>
    ensures { MatchOption result (bearer_in value.now ≡ None)
        (λ token. bearer_in value.now ≡ Some token.now) }
{
    if value.len() < 6 || !equals_ignoring_case(&value[..6], b"Bearer") {
        return None;
    }
    spaced(&value[6..])
}

/// Returns the bearer token, if exactly one field Authorization is present and has the scheme
/// `Bearer`.
pub fn bearer_token<'b>(buffer: &'b [u8], fields: &[HeaderSpan]) -> Option<&'b str>
    requires { All (IsHeaderWithin (length buffer.now)) fields.now }
    ensures { MatchOption result (bearer_token (map (header_bytes buffer.now) fields.now) ≡ None)
        (λ token. bearer_token (map (header_bytes buffer.now) fields.now) ≡ Some token.now) }
{
    match only(buffer, fields, b"Authorization") {
        Occurrence::One(value) => bearer_in(value.of(buffer)),
        Occurrence::Absent => None,
        Occurrence::Many => None,
    }
}
