//! One connection, as steps over bytes. It makes no system call: the caller moves the bytes.
ghost use Rattle.std.specs.Prelude.{◌≡◌, ◌<◌, ◌≤◌, ◌+◌, ◌-◌, length, drop, Some};
ghost use Rattle.std.specs.Prelude.{◌++◌, OnOk, OnErr, map, string_bytes, vec_len, vec_capacity};
ghost use Rattle.std.specs.List.{concat};
ghost use Rattle.std.specs.Option.{ForSome};
ghost use Rattle.token_conf.specs.TokenFile.{callers_of};
ghost use Rattle.wire_http.specs.BufferState.{HasNoneBelow, HasNoRequest, IsLight, max_buffered};
ghost use Rattle.wire_http.specs.DeferredResponse.{StandsWithin};
ghost use Rattle.wire_http.specs.Peek.{IsPartPeek};
ghost use Rattle.wire_http.specs.Text.{noted_text, response_text, end_texts};

pub(crate) mod awaited;
mod next;
mod outcomes;

use crate::buffered::{BufferState, HEAD_LIMIT, next_buffered};
use crate::call::find_caller;
use crate::connection::awaited::Awaited;
use crate::end::End;
use crate::request::Next;
use crate::request_info::{RequestInfo, record_reply};
use crate::serve::REQUESTS;
use crate::text::{noted_text, response_text, rule_text};
use httparse::spans::{EMPTY_HEADER_SPAN, HeaderSpan};
pub use next::{NextRequest, NextStep};
use policy_core::scope::Caller;
use service_step::reply::Reply;
use std::alloc::{AllocError, Global};
use token_conf::token_table::TokenTable;
use wire_head::rest::{FIELD_LIMIT, PartialHead, head_so_far};
use wire_route::endpoint::Endpoint;

// The maximum number of buffered bytes: those of a head and a body.
const MAX_BUFFERED: usize = 1_056_768;

// The maximum memory of an empty buffer, in bytes.
const MAX_RETAINED: usize = 65_536;

/// What became of a connection in one step.
#[derive(Clone, Copy, Debug, PartialEq, Eq)]
pub enum Step {
    /// Nothing was done: no request is complete, and more input may arrive.
    NeedsInput,
    /// A request was answered. The number is that of the requests that may follow.
    Answered(u32),
    /// The stream ended in this way, and no more requests are answered.
    Ended(End),
}

/// What the buffered bytes give next, before a request is answered.
#[derive(Clone, Copy)]
pub enum Peeked<'t> {
    /// No complete request is buffered, and nothing new is known of it.
    NeedsInput,
    /// A head of this caller is buffered, but not all of its body.
    Head(Option<&'t Caller>),
    /// A complete request of this caller is buffered.
    Request(Option<&'t Caller>),
    /// The stream ends.
    Ends,
}

// Releases the memory of a large buffer that holds little. An empty one keeps at most 64 KB.
fn shrink(buffer: &mut Vec<u8>)
    ensures same { buffer.new.items ≡ buffer.old.items }
    ensures light { IsLight (vec_len buffer.new) (vec_capacity buffer.new) }
{
    if buffer.len() < MAX_RETAINED && buffer.capacity() > MAX_RETAINED {
        buffer.shrink_to_fit();
    }
}

// Appends bytes to a buffer. If memory runs out, appends none.
fn put_behind(buffer: &mut Vec<u8>, bytes: &[u8]) -> Result<(), AllocError>
    ensures whole { OnOk result (buffer.new.items ≡ buffer.old.items ++ bytes.now) }
    ensures same { OnErr result (buffer.new.items ≡ buffer.old.items) }
    ensures light { IsLight (vec_len buffer.new) (vec_capacity buffer.new) }
{
    let done = buffer.extend_from_slice(bytes);
    if buffer.is_empty() {
        shrink(buffer);
    }
    done
}

// Appends the response to a reply to the output. If memory runs out, appends nothing.
fn answer_behind(
    alloc: Global,
    output: &mut Vec<u8>,
    endpoint: Option<Endpoint>,
    closing: bool,
    reply: &Reply,
) -> Result<(), AllocError>
    requires light { IsLight (vec_len output.old) (vec_capacity output.old) }
    ensures whole { OnOk result
        (output.new.items ≡ output.old.items ++ response_text endpoint closing reply.now) }
    ensures same { OnErr result (output.new.items ≡ output.old.items) }
    ensures light { IsLight (vec_len output.new) (vec_capacity output.new) }
{
    let Ok(text) = response_text(alloc, endpoint, closing, reply) else {
        return Err(AllocError);
    };
    match put_behind(output, text.as_slice()) {
        Ok(()) => Ok(()),
        Err(_) => Err(AllocError),
    }
}

// Appends the response with these texts to the output. If memory runs out, appends nothing.
fn noted_behind(
    alloc: Global,
    output: &mut Vec<u8>,
    notes: &[String],
    endpoint: Option<Endpoint>,
    closing: bool,
    reply: &Reply,
) -> Result<(), AllocError>
    requires light { IsLight (vec_len output.old) (vec_capacity output.old) }
    ensures whole { OnOk result (output.new.items
        ≡ output.old.items ++ noted_text (map string_bytes notes.now) endpoint closing reply.now) }
    ensures same { OnErr result (output.new.items ≡ output.old.items) }
    ensures light { IsLight (vec_len output.new) (vec_capacity output.new) }
{
    let Ok(text) = noted_text(alloc, notes, endpoint, closing, reply) else {
        return Err(AllocError);
    };
    let bytes = text.as_slice();
    match put_behind(output, bytes) {
        Ok(()) => Ok(()),
        Err(_) => Err(AllocError),
    }
}

// Appends the text after the responses at the end of a stream: that of a protocol rule.
fn end_behind(alloc: Global, output: &mut Vec<u8>, end: End) -> Result<(), AllocError>
    requires light { IsLight (vec_len output.old) (vec_capacity output.old) }
    ensures whole { OnOk result (output.new.items ≡ output.old.items ++ concat (end_texts end)) }
    ensures same { OnErr result (output.new.items ≡ output.old.items) }
    ensures some { OnErr result (0 < length (concat (end_texts end))) }
    ensures light { IsLight (vec_len output.new) (vec_capacity output.new) }
{
    let End::Wire(rule) = end else {
        return Ok(());
    };
    let Ok(refusal) = rule_text(alloc, rule) else {
        return Err(AllocError);
    };
    match put_behind(output, refusal.as_slice()) {
        Ok(()) => Ok(()),
        Err(_) => Err(AllocError),
    }
}

// Returns the caller of the next request if its head is complete, when its body is not.
fn peek_head<'t>(tokens: &'t TokenTable, held: &[u8], fields: &mut [HeaderSpan]) -> Peeked<'t>
    requires room { length fields.old ≡ FIELD_LIMIT }
    ensures { HasNoRequest held.now → IsPartPeek (callers_of tokens.now) held.now result }
{
    let front = &held[..held.len().min(HEAD_LIMIT)];
    match head_so_far(front, fields) {
        PartialHead::Head(spans) => {
            Peeked::Head(find_caller(tokens, front, &fields[..spans.headers]))
        }
        _ => Peeked::NeedsInput,
    }
}

// The deferred response, the last of all: where its text begins, the endpoint of its request, and
// whether the connection closes after it.
#[derive(Clone, Copy)]
pub(crate) struct DeferredResponse {
    start: usize,
    endpoint: Option<Endpoint>,
    closing: bool,
}

/// The state of one connection: the received bytes that belong to no earlier request, and the
/// unsent bytes of responses.
///
/// The response to the last request is deferred: none of its bytes is sent until the caller
/// releases or replaces it.
#[derive(Drop)]
pub struct Connection {
    held: Vec<u8>,
    // No request is complete while fewer bytes are buffered.
    wanted: usize,
    ended: bool,
    left: u32,
    done: bool,
    answers: Vec<u8>,
    sent: usize,
    deferred_response: Option<DeferredResponse>,
    awaited: Option<Awaited>,
    noted: Option<RequestInfo>,
    ghost held_fits: { length held.items ≤ max_buffered },
    ghost wanted_fits: { wanted ≤ max_buffered },
    ghost none_below: { HasNoneBelow held.items wanted },
    ghost sent_fits: { sent ≤ length answers.items },
    ghost last_fits: { ForSome deferred_response (StandsWithin sent (length answers.items)) },
    // An empty buffer keeps little memory.
    ghost held_light: { IsLight (vec_len held) (vec_capacity held) },
    ghost answers_light: { IsLight (vec_len answers) (vec_capacity answers) },
}

impl Connection {
    ghost use Rattle.std.specs.Prelude.{[], true, false, min, IsTrue, ◌↔◌, Err};
    ghost use Rattle.std.specs.Prelude.{None, option_map};
    ghost use Rattle.wire_http.specs.Peek.{IsPeek};
    ghost use Rattle.wire_http.specs.Connection.{buffered_of, left_of, has_ended, is_done};
    ghost use Rattle.wire_http.specs.Connection.{awaited_of, output_of, ready_of, deferred_of};
    ghost use Rattle.wire_http.specs.Connection.{holds_back, is_waiting, slot_of, noted_of, HasRoom};
    ghost use Rattle.wire_http.specs.NextRequest.{IsStopped};
    ghost use Rattle.wire_http.specs.DeferredResponse.{text_at};
    ghost use Rattle.wire_http.specs.RequestInfo.{noted_instead};

    /// Creates a connection from which nothing was received. Allocates nothing.
    pub fn new(alloc: Global) -> Connection
        ensures held { buffered_of result ≡ [] }
        ensures output { output_of result ≡ [] }
        ensures left { left_of result ≡ 100 }
        ensures ended { has_ended result ≡ false }
        ensures done { is_done result ≡ false }
        ensures slot { slot_of result ≡ None }
        ensures awaited { awaited_of result ≡ None }
        ensures noted { noted_of result ≡ None }
    {
        Connection {
            held: Vec::new(alloc),
            wanted: 0,
            ended: false,
            left: REQUESTS,
            done: false,
            answers: Vec::new(alloc),
            sent: 0,
            deferred_response: None,
            awaited: None,
            noted: None,
        }
    }

    /// Returns the number of bytes that can still be received. It is zero if a head and a body of
    /// the maximum sizes are buffered.
    pub fn remaining_capacity(&self) -> usize
        ensures { result ≡ max_buffered - length (buffered_of self.now) }
    {
        MAX_BUFFERED - self.held.len()
    }

    /// Returns the number of buffered bytes.
    pub fn buffered_len(&self) -> usize
        ensures held { result ≡ length (buffered_of self.now) }
        ensures most { result ≤ max_buffered }
    {
        self.held.len()
    }

    /// Returns true if bytes are buffered.
    pub fn has_buffered(&self) -> bool
        ensures { IsTrue result ↔ (0 < length (buffered_of self.now)) }
    {
        !self.held.is_empty()
    }

    /// Returns the information about the last response, and its outcome.
    ///
    /// Returns `None` before the first response. The text of a protocol rule is a response as well.
    pub fn last_request(&self) -> Option<&RequestInfo>
        ensures { option_map (λ noted. noted.now) result ≡ noted_of self.now }
    {
        self.noted.as_ref()
    }

    /// Returns true if no more requests are answered.
    pub fn is_done(&self) -> bool
        ensures { result ≡ is_done self.now }
    {
        self.done
    }

    /// Appends received bytes to the buffer. If memory runs out, appends none.
    ///
    /// `bytes` must fit into `remaining_capacity`.
    pub fn receive(&mut self, bytes: &[u8]) -> Result<(), AllocError>
        requires room { HasRoom self.old bytes.now }
        ensures held { OnOk result (buffered_of self.new ≡ buffered_of self.old ++ bytes.now) }
        ensures none { OnErr result (buffered_of self.new ≡ buffered_of self.old) }
        ensures output { output_of self.new ≡ output_of self.old }
        ensures ready { ready_of self.new ≡ ready_of self.old }
        ensures slot { slot_of self.new ≡ slot_of self.old }
        ensures awaited { awaited_of self.new ≡ awaited_of self.old }
        ensures left { left_of self.new ≡ left_of self.old }
        ensures ended { has_ended self.new ≡ has_ended self.old }
        ensures done { is_done self.new ≡ is_done self.old }
        ensures noted { noted_of self.new ≡ noted_of self.old }
    {
        match put_behind(&mut self.held, bytes) {
            Ok(()) => Ok(()),
            Err(_) => Err(AllocError),
        }
    }

    /// Marks the end of the input: no more bytes arrive.
    pub fn end_of_input(&mut self)
        ensures held { buffered_of self.new ≡ buffered_of self.old }
        ensures output { output_of self.new ≡ output_of self.old }
        ensures ready { ready_of self.new ≡ ready_of self.old }
        ensures slot { slot_of self.new ≡ slot_of self.old }
        ensures awaited { awaited_of self.new ≡ awaited_of self.old }
        ensures left { left_of self.new ≡ left_of self.old }
        ensures ended { has_ended self.new ≡ true }
        ensures done { is_done self.new ≡ is_done self.old }
        ensures noted { noted_of self.new ≡ noted_of self.old }
    {
        self.ended = true;
    }

    /// Makes the next request the last one, unless none may come. Its response then says that the
    /// connection closes.
    pub fn limit_to_one_request(&mut self)
        ensures held { buffered_of self.new ≡ buffered_of self.old }
        ensures output { output_of self.new ≡ output_of self.old }
        ensures ready { ready_of self.new ≡ ready_of self.old }
        ensures slot { slot_of self.new ≡ slot_of self.old }
        ensures awaited { awaited_of self.new ≡ awaited_of self.old }
        ensures left { left_of self.new ≡ min (left_of self.old) 1 }
        ensures ended { has_ended self.new ≡ has_ended self.old }
        ensures done { is_done self.new ≡ is_done self.old }
        ensures noted { noted_of self.new ≡ noted_of self.old }
    {
        self.left = self.left.min(1);
    }

    /// Returns the bytes to send next: those of responses that are not deferred.
    pub fn output(&self) -> &[u8]
        ensures { result.now ≡ ready_of self.now }
    {
        match self.deferred_response {
            Some(last) => &self.answers[self.sent..last.start],
            None => &self.answers[self.sent..],
        }
    }

    /// Returns true if there are bytes to send.
    pub fn wants_write(&self) -> bool
        ensures { IsTrue result ↔ (0 < length (ready_of self.now)) }
    {
        !self.output().is_empty()
    }

    /// Removes the first `count` bytes of the output, which were sent.
    pub fn mark_sent(&mut self, count: usize)
        requires { count ≤ length (ready_of self.old) }
        ensures held { buffered_of self.new ≡ buffered_of self.old }
        ensures output { output_of self.new ≡ drop count (output_of self.old) }
        ensures ready { ready_of self.new ≡ drop count (ready_of self.old) }
        ensures slot { slot_of self.new ≡ slot_of self.old }
        ensures awaited { awaited_of self.new ≡ awaited_of self.old }
        ensures left { left_of self.new ≡ left_of self.old }
        ensures ended { has_ended self.new ≡ has_ended self.old }
        ensures done { is_done self.new ≡ is_done self.old }
        ensures noted { noted_of self.new ≡ noted_of self.old }
    {
        if self.deferred_response.is_none() && self.answers.len() - self.sent <= count {
            self.answers.clear();
            self.sent = 0;
            shrink(&mut self.answers);
        } else {
            self.sent += count;
        }
    }

    /// Returns true if a response is deferred.
    pub fn has_deferred(&self) -> bool
        ensures { result ≡ holds_back self.now }
    {
        self.deferred_response.is_some()
    }

    /// Returns true if a response is deferred, or a request waits for its reply.
    pub fn is_waiting(&self) -> bool
        ensures { result ≡ is_waiting self.now }
    {
        self.deferred_response.is_some() || self.awaited.is_some()
    }

    /// Returns the deferred response, or no bytes if none is deferred.
    pub fn deferred(&self) -> &[u8]
        ensures { result.now ≡ deferred_of self.now }
    {
        match self.deferred_response {
            Some(last) => &self.answers[last.start..],
            None => &[],
        }
    }

    /// Answers no more requests.
    pub fn abort(&mut self)
        ensures { IsStopped self.old self.new }
    {
        self.done = true;
    }

    /// Releases the deferred response for sending.
    pub fn release(&mut self)
        ensures held { buffered_of self.new ≡ buffered_of self.old }
        ensures output { output_of self.new ≡ output_of self.old }
        ensures ready { ready_of self.new ≡ output_of self.old }
        ensures slot { slot_of self.new ≡ None }
        ensures awaited { awaited_of self.new ≡ awaited_of self.old }
        ensures left { left_of self.new ≡ left_of self.old }
        ensures ended { has_ended self.new ≡ has_ended self.old }
        ensures done { is_done self.new ≡ is_done self.old }
        ensures noted { noted_of self.new ≡ noted_of self.old }
    {
        self.deferred_response = None;
    }

    // Replaces the deferred response by the response to this reply, and releases it. If memory runs
    // out, no byte of either is sent, and no more requests are answered.
    fn replace_deferred(&mut self, alloc: Global, reply: &Reply) -> Result<(), AllocError>
        ensures held { buffered_of self.new ≡ buffered_of self.old }
        ensures output { OnOk result
            (output_of self.new ≡ ready_of self.old ++ text_at (slot_of self.old) reply.now) }
        ensures dropped { OnErr result (output_of self.new ≡ ready_of self.old) }
        ensures ready { ready_of self.new ≡ output_of self.new }
        ensures slot { slot_of self.new ≡ None }
        ensures awaited { awaited_of self.new ≡ awaited_of self.old }
        ensures left { left_of self.new ≡ left_of self.old }
        ensures ended { has_ended self.new ≡ has_ended self.old }
        ensures done { OnOk result (is_done self.new ≡ is_done self.old) }
        ensures aborts { OnErr result (is_done self.new ≡ true) }
        ensures noted { noted_of self.new
            ≡ noted_instead (slot_of self.old) reply.now (noted_of self.old) }
    {
        let Some(last) = self.deferred_response else {
            return Ok(());
        };
        self.deferred_response = None;
        record_reply(&mut self.noted, reply);
        self.answers.truncate(last.start);
        shrink(&mut self.answers);
        match answer_behind(alloc, &mut self.answers, last.endpoint, last.closing, reply) {
            Ok(()) => Ok(()),
            Err(_) => {
                self.done = true;
                Err(AllocError)
            }
        }
    }

    /// Returns what the buffered bytes give next, with the caller of the next request. The next
    /// step is the same as without this call.
    pub fn peek<'t>(&mut self, tokens: &'t TokenTable) -> Peeked<'t>
        ensures peeked { IsPeek (callers_of tokens.now) (left_of self.old) (has_ended self.old)
            (buffered_of self.old) result }
        ensures held { buffered_of self.new ≡ buffered_of self.old }
        ensures output { output_of self.new ≡ output_of self.old }
        ensures ready { ready_of self.new ≡ ready_of self.old }
        ensures slot { slot_of self.new ≡ slot_of self.old }
        ensures awaited { awaited_of self.new ≡ awaited_of self.old }
        ensures left { left_of self.new ≡ left_of self.old }
        ensures ended { has_ended self.new ≡ has_ended self.old }
        ensures done { is_done self.new ≡ is_done self.old }
        ensures noted { noted_of self.new ≡ noted_of self.old }
    {
        if self.left == 0 {
            return Peeked::Ends;
        }
        if !self.ended && self.held.len() < self.wanted {
            return Peeked::NeedsInput;
        }
        let mut fields = [EMPTY_HEADER_SPAN; 64];
        let held = self.held.as_slice();
        match next_buffered(held, self.ended, &mut fields) {
            BufferState::Gives(Next::Request(spans, _)) => {
                Peeked::Request(find_caller(tokens, held, &fields[..spans.headers]))
            }
            BufferState::Gives(Next::Stop(_)) => Peeked::Ends,
            BufferState::Wants(wanted) => {
                let peeked = peek_head(tokens, held, &mut fields);
                self.wanted = wanted;
                peeked
            }
        }
    }
}
