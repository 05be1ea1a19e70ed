//! What becomes of the next request of a connection: it is answered, refused, or waits for its reply.
ghost use Rattle.std.specs.Prelude.{◌≡◌, ◌≤◌, ◌++◌, OnErr, OnOk, length, vec_len, vec_capacity};
ghost use Rattle.wire_http.specs.BufferState.{IsLight};
ghost use Rattle.wire_http.specs.NextRequest.{FitsIn, IsStopped};
ghost use Rattle.wire_http.specs.Outcomes.{Answers, Drafts, Refuses, Resolves, Takes, Waits};
ghost use Rattle.wire_http.specs.RequestInfo.{outcome_without};
ghost use Rattle.wire_http.specs.Text.{unavailable_text};

use crate::connection::awaited::Awaited;
use crate::connection::next::NextRequest;
use crate::connection::{Connection, DeferredResponse, noted_behind, put_behind, shrink};
use crate::request_info::{Outcome, RequestInfo, info_of, outcome_of, record_outcome, supplier_of};
use crate::source::shift;
use crate::text::unavailable_text;
use crate::texts::Texts;
use crate::unavailable::Unavailable;
use service_step::reply::Reply;
use std::alloc::{AllocError, Global};

// Returns the recorded outcome of a request without a reply.
fn outcome_without(reason: Unavailable) -> Outcome
    ensures { result ≡ outcome_without reason }
{
    match reason {
        Unavailable::Unreachable | Unavailable::Unassigned => Outcome::Stopped,
        Unavailable::Unknown => Outcome::Fault,
    }
}

// Appends a response without a reply to the output. If memory runs out, appends nothing.
fn unreplied_behind(
    alloc: Global,
    output: &mut Vec<u8>,
    closing: bool,
    reason: Unavailable,
) -> Result<(), AllocError>
    requires light { IsLight (vec_len output.old) (vec_capacity output.old) }
    ensures whole { OnOk result
        (output.new.items ≡ output.old.items ++ unavailable_text closing reason) }
    ensures same { OnErr result (output.new.items ≡ output.old.items) }
    ensures grows { length output.old.items ≤ length output.new.items }
    ensures light { IsLight (vec_len output.new) (vec_capacity output.new) }
{
    let Ok(text) = unavailable_text(alloc, closing, reason) else {
        return Err(AllocError);
    };
    match put_behind(output, text.as_slice()) {
        Ok(()) => Ok(()),
        Err(_) => Err(AllocError),
    }
}

impl Connection {
    ghost use Rattle.std.specs.Prelude.{[], None, Some, true, false, drop};
    ghost use Rattle.wire_http.specs.Awaited.{info_in, outcome_text, refusal_in, refusal_text, text_in};
    ghost use Rattle.wire_http.specs.Connection.{awaited_of, buffered_of, is_done, is_waiting};
    ghost use Rattle.wire_http.specs.Connection.{has_ended, holds_back, left_of};
    ghost use Rattle.wire_http.specs.Connection.{noted_of, output_of, ready_of, slot_of};
    ghost use Rattle.wire_http.specs.Outcomes.{KeepsRequests, noted_as};
    ghost use Rattle.wire_http.specs.RequestInfo.{outcome_of, recorded_as};

    // Removes the first `count` bytes of the buffer, which were a request.
    fn pass(&mut self, count: usize, left: u32)
        requires fits { count ≤ length (buffered_of self.old) }
        ensures held { buffered_of self.new ≡ drop count (buffered_of self.old) }
        ensures output { output_of self.new ≡ output_of self.old }
        ensures ready { ready_of self.new ≡ ready_of self.old }
        ensures slot { slot_of self.new ≡ slot_of self.old }
        ensures awaited { awaited_of self.new ≡ awaited_of self.old }
        ensures left { left_of self.new ≡ left }
        ensures ended { has_ended self.new ≡ has_ended self.old }
        ensures done { is_done self.new ≡ is_done self.old }
        ensures noted { noted_of self.new ≡ noted_of self.old }
    {
        shift(&mut self.held, count);
        shrink(&mut self.held);
        self.wanted = 0;
        self.left = left;
    }

    // Consumes the next request, and records this outcome of it.
    fn take(&mut self, next: NextRequest, outcome: Outcome)
        requires fits { FitsIn (buffered_of self.old) next }
        ensures takes { Takes next self.old self.new }
        ensures output { output_of self.new ≡ output_of self.old }
        ensures ready { ready_of self.new ≡ ready_of self.old }
        ensures slot { slot_of self.new ≡ slot_of self.old }
        ensures awaited { awaited_of self.new ≡ awaited_of self.old }
        ensures noted { noted_of self.new ≡ Some (noted_as next outcome) }
    {
        self.pass(next.head + next.body, next.left);
        self.noted = Some(info_of(next.routed, outcome));
    }

    /// Consumes the next request. Appends the response to its reply, and defers it until it is
    /// released or another one takes its place.
    ///
    /// If memory runs out, no more requests are answered, and nothing was appended to the output.
    pub fn draft(
        &mut self,
        alloc: Global,
        next: NextRequest,
        texts: Texts,
        reply: &Reply,
    ) -> Result<(), AllocError>
        requires none_waits { is_waiting self.old ≡ false }
        requires fits { FitsIn (buffered_of self.old) next }
        ensures drafts { OnOk result (Drafts next texts reply.now self.old self.new) }
        ensures lost { OnErr result (IsStopped self.old self.new) }
    {
        let start = self.answers.len();
        let closing = next.left == 0;
        let endpoint = next.routed.endpoint;
        let notes = texts.on(reply);
        match noted_behind(alloc, &mut self.answers, notes, endpoint, closing, reply) {
            Ok(()) => {
                self.deferred_response = Some(DeferredResponse {
                    start,
                    endpoint,
                    closing,
                });
                self.take(next, outcome_of(reply));
                Ok(())
            }
            Err(_) => {
                self.done = true;
                Err(AllocError)
            }
        }
    }

    /// Consumes the next request, and appends the response to its reply.
    ///
    /// If memory runs out, no more requests are answered, and nothing was appended to the output.
    pub fn answer(
        &mut self,
        alloc: Global,
        next: NextRequest,
        texts: Texts,
        reply: &Reply,
    ) -> Result<(), AllocError>
        requires none_waits { is_waiting self.old ≡ false }
        requires fits { FitsIn (buffered_of self.old) next }
        ensures answers { OnOk result (Answers next texts reply.now self.old self.new) }
        ensures lost { OnErr result (IsStopped self.old self.new) }
    {
        self.draft(alloc, next, texts, reply)?;
        self.release();
        Ok(())
    }

    /// Consumes the next request, and appends status 503 as its response: its call was not made. The
    /// recorded outcome is `Outcome::Fault` for `Unavailable::Unknown`, and `Outcome::Stopped`
    /// otherwise.
    ///
    /// If memory runs out, no more requests are answered, and nothing was appended to the output.
    pub fn refuse(
        &mut self,
        alloc: Global,
        next: NextRequest,
        reason: Unavailable,
    ) -> Result<(), AllocError>
        requires none_waits { is_waiting self.old ≡ false }
        requires fits { FitsIn (buffered_of self.old) next }
        ensures refuses { OnOk result (Refuses next reason self.old self.new) }
        ensures lost { OnErr result (IsStopped self.old self.new) }
    {
        match unreplied_behind(alloc, &mut self.answers, next.left == 0, reason) {
            Ok(()) => {
                self.take(next, outcome_without(reason));
                Ok(())
            }
            Err(_) => {
                self.done = true;
                Err(AllocError)
            }
        }
    }

    /// Consumes the next request, which waits for its reply. Keeps the texts of its response.
    pub fn wait(&mut self, next: NextRequest, texts: Texts)
        requires none_waits { is_waiting self.old ≡ false }
        requires fits { FitsIn (buffered_of self.old) next }
        ensures { Waits next texts self.old self.new }
    {
        let count = next.head + next.body;
        let left = next.left;
        self.pass(count, left);
        let routed = next.routed;
        self.awaited = Some(Awaited {
            endpoint: routed.endpoint,
            closing: left == 0,
            texts,
            operation: routed.kind,
            entity: routed.entity,
            supplier: supplier_of(routed.call),
        });
    }

    // Appends the response to this reply to the request that waited.
    fn answer_awaited(
        &mut self,
        alloc: Global,
        awaited: Awaited,
        reply: &Reply,
    ) -> Result<(), AllocError>
        requires none_back { holds_back self.old ≡ false }
        ensures output { OnOk result
            (output_of self.new ≡ output_of self.old ++ text_in (Some awaited) reply.now) }
        ensures dropped { OnErr result (output_of self.new ≡ output_of self.old) }
        ensures noted { noted_of self.new ≡ Some (info_in awaited (outcome_of reply.now)) }
        ensures kept { KeepsRequests self.old self.new }
        ensures done { OnOk result (is_done self.new ≡ is_done self.old) }
        ensures aborts { OnErr result (is_done self.new ≡ true) }
    {
        let Awaited {
            endpoint,
            closing,
            texts,
            operation,
            supplier,
            entity,
        } = awaited;
        self.noted = Some(RequestInfo {
            operation,
            supplier,
            entity,
            outcome: outcome_of(reply),
        });
        let notes = texts.on(reply);
        match noted_behind(alloc, &mut self.answers, notes, endpoint, closing, reply) {
            Ok(()) => Ok(()),
            Err(_) => {
                self.done = true;
                Err(AllocError)
            }
        }
    }

    // Appends status 503 as the response to the request that waited.
    fn refuse_awaited(
        &mut self,
        alloc: Global,
        awaited: Awaited,
        reason: Unavailable,
    ) -> Result<(), AllocError>
        requires none_back { holds_back self.old ≡ false }
        ensures output { OnOk result
            (output_of self.new ≡ output_of self.old ++ refusal_in (Some awaited) reason) }
        ensures dropped { OnErr result (output_of self.new ≡ output_of self.old) }
        ensures noted { noted_of self.new ≡ Some (info_in awaited (outcome_without reason)) }
        ensures kept { KeepsRequests self.old self.new }
        ensures done { OnOk result (is_done self.new ≡ is_done self.old) }
        ensures aborts { OnErr result (is_done self.new ≡ true) }
    {
        let Awaited {
            endpoint: _,
            closing,
            texts: _,
            operation,
            supplier,
            entity,
        } = awaited;
        self.noted = Some(RequestInfo {
            operation,
            supplier,
            entity,
            outcome: outcome_without(reason),
        });
        match unreplied_behind(alloc, &mut self.answers, closing, reason) {
            Ok(()) => Ok(()),
            Err(_) => {
                self.done = true;
                Err(AllocError)
            }
        }
    }

    // Puts status 503 in the place of the deferred response, and releases it.
    fn refuse_deferred(
        &mut self,
        alloc: Global,
        last: DeferredResponse,
        reason: Unavailable,
    ) -> Result<(), AllocError>
        requires is { self.old.deferred_response ≡ Some last }
        ensures output { OnOk result
            (output_of self.new ≡ ready_of self.old ++ unavailable_text last.closing reason) }
        ensures dropped { OnErr result (output_of self.new ≡ ready_of self.old) }
        ensures ready { ready_of self.new ≡ output_of self.new }
        ensures slot { slot_of self.new ≡ None }
        ensures awaited { awaited_of self.new ≡ awaited_of self.old }
        ensures held { buffered_of self.new ≡ buffered_of self.old }
        ensures left { left_of self.new ≡ left_of self.old }
        ensures ended { has_ended self.new ≡ has_ended self.old }
        ensures done { OnOk result (is_done self.new ≡ is_done self.old) }
        ensures aborts { OnErr result (is_done self.new ≡ true) }
        ensures noted { noted_of self.new ≡ recorded_as (outcome_without reason)
            (noted_of self.old) }
    {
        self.deferred_response = None;
        record_outcome(&mut self.noted, outcome_without(reason));
        self.answers.truncate(last.start);
        shrink(&mut self.answers);
        match unreplied_behind(alloc, &mut self.answers, last.closing, reason) {
            Ok(()) => Ok(()),
            Err(_) => {
                self.done = true;
                Err(AllocError)
            }
        }
    }

    /// Appends the response to this reply: instead of a deferred response, or to the request that
    /// waits. Does nothing if there is neither.
    ///
    /// If memory runs out, no byte of it or of a deferred response is sent, and no more requests are
    /// answered.
    pub fn resolve(&mut self, alloc: Global, reply: &Reply) -> Result<(), AllocError>
        ensures resolves { OnOk result (Resolves
            (outcome_text (slot_of self.old) (awaited_of self.old) reply.now)
            (outcome_of reply.now) self.old self.new) }
        ensures lost { OnErr result (Resolves [] (outcome_of reply.now) self.old self.new) }
        ensures done { OnOk result (is_done self.new ≡ is_done self.old) }
        ensures aborts { OnErr result (is_done self.new ≡ true) }
    {
        if self.has_deferred() {
            self.awaited = None;
            return self.replace_deferred(alloc, reply);
        }
        match self.awaited.take() {
            Some(awaited) => self.answer_awaited(alloc, awaited, reply),
            None => Ok(()),
        }
    }

    /// Appends status 503: instead of a deferred response, or to the request that waits. Does nothing
    /// if there is neither. The recorded outcome is that of `refuse`.
    ///
    /// If memory runs out, no byte of it or of a deferred response is sent, and no more requests are
    /// answered.
    pub fn resolve_unavailable(
        &mut self,
        alloc: Global,
        reason: Unavailable,
    ) -> Result<(), AllocError>
        ensures resolves { OnOk result (Resolves
            (refusal_text (slot_of self.old) (awaited_of self.old) reason)
            (outcome_without reason) self.old self.new) }
        ensures lost { OnErr result (Resolves [] (outcome_without reason) self.old self.new) }
        ensures done { OnOk result (is_done self.new ≡ is_done self.old) }
        ensures aborts { OnErr result (is_done self.new ≡ true) }
    {
        if let Some(last) = self.deferred_response {
            self.awaited = None;
            return self.refuse_deferred(alloc, last, reason);
        }
        match self.awaited.take() {
            Some(awaited) => self.refuse_awaited(alloc, awaited, reason),
            None => Ok(()),
        }
    }
}
