//! The next request of a connection, which nothing consumes until its response or its wait.
ghost use Rattle.std.specs.Prelude.{◌≡◌, ◌<◌, IfOk, option_copied};
ghost use Rattle.token_conf.specs.TokenFile.{callers_of};
ghost use Rattle.wire_http.specs.BufferState.{BufferedFits, IsHeld};
ghost use Rattle.wire_http.specs.NextRequest.{FitsIn, IsFront};

use crate::buffered::{BufferState, next_buffered};
use crate::call::{Received, RoutedOperation, left_after, route};
use crate::connection::{Connection, end_behind};
use crate::end::End;
use crate::explaining::Explaining;
use crate::fault::StreamFault;
use crate::request::Next;
use crate::request_info::record_end;
use crate::request_parts::RequestParts;
use crate::texts::Texts;
use httparse::spans::{EMPTY_HEADER_SPAN, HeaderSpan, RequestSpans, Span};
use policy_core::call::Call;
use service_step::reply::Reply;
use std::alloc::{AllocError, Global};
use token_conf::token_table::TokenTable;
use wire_head::target::path_of;
use wire_route::routes::Routes;

/// The next request of a connection, with the call that is made for it.
///
/// The call is that of the request, or one with the same caller that is denied alike: the body is
/// not read if P3 or P4 denies the request.
#[derive(Drop)]
pub struct NextRequest {
    method: Span,
    path: Span,
    // The sizes of its head and of its body in bytes.
    pub(crate) head: usize,
    pub(crate) body: usize,
    // The number of requests that may follow.
    pub(crate) left: u32,
    pub(crate) routed: RoutedOperation,
}

/// What a connection does next.
#[derive(Drop)]
pub enum NextStep {
    /// No request is complete, and more input may arrive.
    NeedsInput,
    /// This request is to be answered.
    Request(NextRequest),
    /// The stream ended in this way, and no more requests are answered.
    Ended(End),
}

impl NextRequest {
    ghost use Rattle.wire_http.specs.NextRequest.{call_in, left_in};

    /// Returns the call that is made for it.
    pub fn call(&self) -> &Call
        ensures { result.now ≡ call_in self.now }
    {
        &self.routed.call
    }

    /// Returns the number of requests that may follow.
    pub fn left(&self) -> u32
        ensures { result ≡ left_in self.now }
    {
        self.left
    }
}

impl Connection {
    ghost use Rattle.std.specs.Prelude.{◌+◌, false, OnErr};
    ghost use Rattle.wire_http.specs.Connection.{awaited_of, buffered_of, has_ended, is_done};
    ghost use Rattle.wire_http.specs.Connection.{is_waiting, left_of};
    ghost use Rattle.wire_http.specs.NextRequest.{IsNextBy, LosesNext, body_in, call_in};
    ghost use Rattle.wire_http.specs.NextRequest.{method_in, path_in};
    ghost use Rattle.wire_http.specs.Texts.{MayBeTexts};

    // Returns the first buffered request.
    fn first_request(
        &self,
        alloc: Global,
        routes: &Routes,
        tokens: &TokenTable,
        fields: &[HeaderSpan],
        spans: RequestSpans,
        size: usize,
    ) -> Result<NextRequest, AllocError>
        requires some { 0 < left_of self.now }
        requires held { IsHeld (buffered_of self.now) (has_ended self.now) fields.now
            (BufferState.Gives (Next.Request spans size)) }
        requires fits { BufferedFits (buffered_of self.now) fields.now
            (BufferState.Gives (Next.Request spans size)) }
        ensures { IfOk result (IsFront (callers_of tokens.now) (left_of self.now)
            (buffered_of self.now)) }
    {
        let received = Received {
            buffer: self.held.as_slice(),
            fields,
            spans,
            size,
        };
        let left = left_after(received, self.left - 1);
        let routed = route(alloc, routes, tokens, received)?;
        Ok(NextRequest {
            method: spans.method,
            path: spans.path,
            head: spans.len,
            body: size,
            left,
            routed,
        })
    }

    /// Returns the next request, if it is complete, or ends the stream. Consumes no request.
    ///
    /// If memory runs out, no more requests are answered, and nothing was appended to the output.
    pub fn next(
        &mut self,
        alloc: Global,
        routes: &Routes,
        tokens: &TokenTable,
    ) -> Result<NextStep, AllocError>
        requires not_done { is_done self.old ≡ false }
        requires none_waits { is_waiting self.old ≡ false }
        ensures next { IfOk result (IsNextBy (callers_of tokens.now) self.old self.new) }
        ensures lost { OnErr result (LosesNext self.old self.new) }
        ensures awaited { awaited_of self.new ≡ awaited_of self.old }
    {
        if self.left == 0 {
            self.done = true;
            return Ok(NextStep::Ended(End::Close));
        }
        if !self.ended && self.held.len() < self.wanted {
            return Ok(NextStep::NeedsInput);
        }
        let mut fields = [EMPTY_HEADER_SPAN; 64];
        match next_buffered(self.held.as_slice(), self.ended, &mut fields) {
            BufferState::Gives(Next::Request(spans, size)) => {
                match self.first_request(alloc, routes, tokens, &fields, spans, size) {
                    Ok(next) => Ok(NextStep::Request(next)),
                    Err(_) => {
                        self.done = true;
                        Err(AllocError)
                    }
                }
            }
            BufferState::Gives(Next::Stop(end)) => {
                self.done = true;
                match end_behind(alloc, &mut self.answers, end) {
                    Ok(()) => {
                        record_end(&mut self.noted, end);
                        Ok(NextStep::Ended(end))
                    }
                    Err(_) => Err(AllocError),
                }
            }
            BufferState::Wants(count) => {
                self.wanted = count;
                Ok(NextStep::NeedsInput)
            }
        }
    }

    /// Returns the parts of its next request. Copies nothing.
    pub fn parts<'c>(&'c self, next: &'c NextRequest) -> RequestParts<'c>
        requires { FitsIn (buffered_of self.now) next.now }
        ensures caller { option_copied result.caller ≡ (call_in next.now).caller }
        ensures method { result.method.now ≡ method_in (buffered_of self.now) next.now }
        ensures path { result.path.now ≡ path_in (buffered_of self.now) next.now }
        ensures body { result.body.now ≡ body_in (buffered_of self.now) next.now }
    {
        let held = self.held.as_slice();
        let Ok(target) = str::from_utf8(next.path.of(held)) else {
            unreachable!();
        };
        RequestParts {
            caller: next.routed.call.caller.as_ref(),
            method: next.method.of(held),
            path: path_of(target),
            body: &held[next.head..next.head + next.body],
        }
    }

    /// Returns the texts of the response to its next request, at a time, whatever its reply is.
    pub fn texts(
        &self,
        alloc: Global,
        explaining: Explaining,
        routes: &Routes,
        next: &NextRequest,
        moment: u64,
    ) -> Texts
        requires { FitsIn (buffered_of self.now) next.now }
        ensures { MayBeTexts explaining result }
    {
        let parts = self.parts(next);
        Texts::new(alloc, explaining, routes, parts, next.routed.kind, moment)
    }

    /// Returns the same texts for this reply alone. The texts for another reply are not made.
    pub fn texts_for_reply(
        &self,
        alloc: Global,
        explaining: Explaining,
        routes: &Routes,
        next: &NextRequest,
        moment: u64,
        reply: &Reply,
    ) -> Texts
        requires { FitsIn (buffered_of self.now) next.now }
        ensures { MayBeTexts explaining result }
    {
        let parts = self.parts(next);
        let kind = next.routed.kind;
        Texts::for_reply(alloc, explaining, routes, parts, kind, moment, reply)
    }
}
