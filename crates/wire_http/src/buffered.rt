//! What the buffered bytes of a stream give next, without reading.
ghost use Rattle.std.specs.Prelude.{◌≡◌, ◌++◌, ℕ, List, length, IsUtf8};
ghost use Rattle.httparse.specs.Grammar.{RequestHead};
ghost use Rattle.httparse.specs.Spans.{IsRequestWithin, span_bytes};
ghost use Rattle.wire_head.specs.FinalHead.{Covers};
ghost use Rattle.wire_head.specs.Rest.{IsKind, whole, window};
ghost use Rattle.wire_http.specs.BufferState.{IsHeld, BufferedFits};

use crate::end::End;
use crate::request::Next;
use httparse::spans::{HeaderSpan, RequestSpans};
use wire_head::length::content_length;
use wire_head::rest::{FIELD_LIMIT, FinalHead, PartialHead, at_end, head_so_far};
use wire_head::rule::WireRule;

/// The maximum size of a head in bytes, with the empty lines before it.
pub(crate) const HEAD_LIMIT: usize = 8192;

/// What the buffered bytes give next.
#[derive(Clone, Copy)]
pub(crate) enum BufferState {
    /// A complete request, or an end.
    Gives(Next),
    /// Nothing yet: no request is complete with fewer bytes than this.
    Wants(usize),
}

// Returns the body after a head that is in the first bytes.
fn buffered_body(
    bytes: &[u8],
    front: &[u8],
    ended: bool,
    fields: &[HeaderSpan],
    spans: RequestSpans,
) -> BufferState
    requires front { front.now ≡ window bytes.now }
    requires within { IsRequestWithin front.now fields.now spans }
    requires text { IsUtf8 (span_bytes front.now spans.path) }
    ensures held { (h : RequestHead)
        → ((later : List ℕ) → IsKind (front.now ++ later) (whole h))
        → Covers front.now fields.now spans h
        → IsHeld bytes.now ended fields.now result }
    ensures fits { BufferedFits bytes.now fields.now result }
{
    let size = match content_length(front, &fields[..spans.headers]) {
        Ok(size) => size,
        Err(rule) => return BufferState::Gives(Next::Stop(End::Wire(rule))),
    };
    if bytes.len() - spans.len >= size {
        return BufferState::Gives(Next::Request(spans, size));
    }
    if ended {
        BufferState::Gives(Next::Stop(End::Cut))
    } else {
        BufferState::Wants(spans.len + size)
    }
}

/// Returns what the buffered bytes give next. `ended` says whether the input ends after them.
pub(crate) fn next_buffered(bytes: &[u8], ended: bool, fields: &mut [HeaderSpan]) -> BufferState
    requires room { length fields.old ≡ FIELD_LIMIT }
    ensures held { IsHeld bytes.now ended fields.new result }
    ensures fits { BufferedFits bytes.now fields.new result }
{
    let front = &bytes[..bytes.len().min(HEAD_LIMIT)];
    match head_so_far(front, fields) {
        PartialHead::Head(spans) => return buffered_body(bytes, front, ended, fields, spans),
        PartialHead::Bad => return BufferState::Gives(Next::Stop(End::Wire(WireRule::Head))),
        PartialHead::Large => {
            return BufferState::Gives(Next::Stop(End::Wire(WireRule::HeadSize)));
        }
        PartialHead::More => {}
    }
    if bytes.len() >= HEAD_LIMIT {
        return BufferState::Gives(Next::Stop(End::Wire(WireRule::HeadSize)));
    }
    if !ended {
        return BufferState::Wants(bytes.len() + 1);
    }
    match at_end(front) {
        FinalHead::Nothing => BufferState::Gives(Next::Stop(End::End)),
        FinalHead::Part => BufferState::Gives(Next::Stop(End::Cut)),
        FinalHead::Large => BufferState::Gives(Next::Stop(End::Wire(WireRule::HeadSize))),
        _ => unreachable!(),
    }
}
