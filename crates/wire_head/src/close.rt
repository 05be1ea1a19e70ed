//! Closing a connection (RFC 9112, section 9.6).
ghost use Rattle.std.specs.Prelude.{◌≡◌, ◌≤◌, length, map, reverse, codes, All};
ghost use Rattle.std.specs.List.{list_any};
ghost use Rattle.httparse.specs.Grammar.{skip_ows, trim_ows};
ghost use Rattle.httparse.specs.Spans.{header_bytes, IsHeaderWithin};
ghost use Rattle.wire_head.specs.Fields.{values_of};
ghost use Rattle.wire_head.specs.Close.{is_close, is_close_option, closes_by};

use crate::fields::equals_ignoring_case;
use httparse::spans::HeaderSpan;

// Returns the bytes after the leading spaces and tabs.
fn skip_front(bytes: &[u8]) -> &[u8]
    ensures { result.now ≡ skip_ows bytes.now }
{
    let mut left = bytes;
    'skipping: while let Some((b, rest)) = left.split_first() {
        if *b != b' ' && *b != b'\t' {
            break;
        }
        left = rest;
    }
    left
}

// Returns the bytes before the trailing spaces and tabs.
fn skip_back(bytes: &[u8]) -> &[u8]
    ensures { result.now ≡ reverse (skip_ows (reverse bytes.now)) }
{
    let mut left = bytes;
    'skipping: while let Some((b, rest)) = left.split_last() {
        if *b != b' ' && *b != b'\t' {
            break;
        }
        left = rest;
    }
    left
}

// Returns the bytes without leading and trailing spaces and tabs.
fn trimmed(bytes: &[u8]) -> &[u8]
    ensures { result.now ≡ trim_ows bytes.now }
{
    skip_back(skip_front(bytes))
}

// Returns true if an option is `close`.
fn is_close(word: &[u8]) -> bool
    ensures { result ≡ is_close word.now }
{
    equals_ignoring_case(trimmed(word), b"close")
}

// Returns true if `close` is one of the comma-separated options.
fn is_close_option(value: &[u8]) -> bool
    ensures { result ≡ is_close_option value.now }
{
    value.split(|b| *b == b',').any(|word| is_close(word))
}

// Returns true if a field Connection has the option `close`.
fn fields_close(buffer: &[u8], fields: &[HeaderSpan]) -> bool
    requires { All (IsHeaderWithin (length buffer.now)) fields.now }
    ensures { result ≡ list_any is_close_option
        (values_of (codes "connection") (map (header_bytes buffer.now) fields.now)) }
{
    let Some((field, rest)) = fields.split_first() else {
        return false;
    };
    if equals_ignoring_case(field.name.of(buffer), b"connection")
        && is_close_option(field.value.of(buffer))
    {
        return true;
    }
    fields_close(buffer, rest)
}

/// Returns true if the connection closes after a request with this minor version and these fields.
pub fn closes_connection(buffer: &[u8], minor: u8, fields: &[HeaderSpan]) -> bool
    requires { All (IsHeaderWithin (length buffer.now)) fields.now }
    ensures { result ≡ closes_by minor (map (header_bytes buffer.now) fields.now) }
{
    minor == 0 || fields_close(buffer, fields)
}
