//! The fields of a head.
ghost use Rattle.std.specs.Prelude.{◌≡◌, ◌≤◌, length, map, All};
ghost use Rattle.httparse.specs.Spans.{header_bytes, IsHeaderWithin};
ghost use Rattle.wire_head.specs.Fields.{values_of, IsOccurrence, equals_ignoring_case};

use httparse::spans::{HeaderSpan, Span};

/// The result of a search for the only field of a name.
#[derive(Clone, Copy)]
pub(crate) enum Occurrence {
    /// No field has the name.
    Absent,
    /// The value of the only field with the name.
    One(Span),
    /// Two or more fields have the name.
    Many,
}

/// Returns true if two texts are equal without case.
pub(crate) fn equals_ignoring_case(text: &[u8], word: &[u8]) -> bool
    ensures { result ≡ equals_ignoring_case word.now text.now }
{
    text.eq_ignore_ascii_case(word)
}

/// Searches for the only field with a name.
pub(crate) fn only(buffer: &[u8], fields: &[HeaderSpan], name: &[u8]) -> Occurrence
    requires { All (IsHeaderWithin (length buffer.now)) fields.now }
    ensures { IsOccurrence buffer.now
        (values_of name.now (map (header_bytes buffer.now) fields.now)) result }
{
    let Some((field, rest)) = fields.split_first() else {
        return Occurrence::Absent;
    };
    let later = only(buffer, rest, name);
    if !equals_ignoring_case(field.name.of(buffer), name) {
        return later;
    }
    match later {
        Occurrence::Absent => Occurrence::One(field.value),
        Occurrence::One(_) => Occurrence::Many,
        Occurrence::Many => Occurrence::Many,
    }
}
