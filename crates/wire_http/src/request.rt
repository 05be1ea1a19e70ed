//! The next request of a stream.
ghost use Rattle.std.specs.Prelude.{◌≡◌, length, true, IfOk};
ghost use Rattle.wire_http.specs.BufferState.{BufferedFits, IsHeld};
ghost use Rattle.wire_http.specs.Input.{known_bytes};
ghost use Rattle.wire_http.specs.Next.{IsNext, NextFits};
ghost use Rattle.wire_http.specs.Source.{ReadsSource, ahead_of, bytes_of};

use crate::buffered::{BufferState, next_buffered};
use crate::end::End;
use crate::fault::StreamFault;
use crate::source::Source;
use httparse::spans::{HeaderSpan, RequestSpans};
use std::io::Read;
use wire_head::rest::FIELD_LIMIT;

/// What the unread input gives next.
#[derive(Clone, Copy)]
pub(crate) enum Next {
    /// A complete request: where the parts of its head are, and how many bytes its body has.
    Request(RequestSpans, usize),
    /// No complete request, or one that breaks a protocol rule: the stream ends in this way.
    Stop(End),
}

// Returns what the bytes give if the input ends after them.
fn last_buffered(bytes: &[u8], fields: &mut [HeaderSpan]) -> Next
    requires room { length fields.old ≡ FIELD_LIMIT }
    ensures held { IsHeld bytes.now true fields.new (BufferState.Gives result) }
    ensures fits { NextFits bytes.now fields.new result }
{
    match next_buffered(bytes, true, fields) {
        BufferState::Gives(next) => next,
        BufferState::Wants(_) => unreachable!(),
    }
}

/// Reads the next request of the unread input.
pub(crate) fn next_request<R: Read>(
    source: &mut Source<'_, R>,
    fields: &mut [HeaderSpan],
) -> Result<Next, StreamFault>
    requires room { length fields.old ≡ FIELD_LIMIT }
    ensures reads { ReadsSource R.remaining source.old source.new result }
    // The result does not depend on the chunks in which the input arrived.
    ensures next { IfOk result (IsNext (known_bytes (ahead_of R.remaining source.new))
        (bytes_of source.new) fields.new) }
    ensures within { IfOk result (NextFits (bytes_of source.new) fields.new) }
{
    'reading: loop {
        match next_buffered(source.buffer.as_slice(), false, fields) {
            BufferState::Gives(next) => return Ok(next),
            BufferState::Wants(count) => {
                if !source.fill(count)? {
                    return Ok(last_buffered(source.buffer.as_slice(), fields));
                }
            }
        }
    }
}
