//! Serving a stream by a service.
ghost use Rattle.std.specs.Prelude.{◌≡◌, ◌<◌, ◌≤◌, ◌+◌, ◌-◌, ◌⊎◌, ℕ, List, true};
ghost use Rattle.std.specs.Prelude.{length, take, Err, OnErr, OnOk, IfErr, IfOk};
ghost use Rattle.std.specs.List.{concat};
ghost use Rattle.std.specs.Io.KnownBytes.{Appends};
ghost use Rattle.token_conf.specs.TokenFile.{callers_of};
ghost use Rattle.service_calls.specs.Held.{Stays};
ghost use Rattle.wire_http.specs.declared.explaining.Explaining.TheVariants.{Off};
ghost use Rattle.wire_http.specs.Counted.{inner_of, calls_of, failures_of, has_failed};
ghost use Rattle.wire_http.specs.Count.{FailsLast, IsMax, one_more};
ghost use Rattle.wire_http.specs.Count.{max_reads, max_requests};
ghost use Rattle.wire_http.specs.Fault.{AbortedResponse, ReportsFailure};
ghost use Rattle.wire_http.specs.Reply.{Replies, RepliesPart};
ghost use Rattle.wire_http.specs.Source.{HasSpent, ahead_of, bytes_of};
ghost use Rattle.wire_http.specs.Stream.{ServesStream, ServesStreamPart};
ghost use Rattle.wire_http.specs.Text.{end_texts};
ghost use Rattle.wire_http.specs.Turn.{IsTurn, IsTurnPart, MayGoOn};

use crate::call::{Received, RoutedCall, ask, left_after};
use crate::counted::Counted;
use crate::end::{End, Served};
use crate::fault::StreamFault;
use crate::moments::Moments;
use crate::request::{Next, next_request};
use crate::source::{Source, shift};
use crate::text::{response_text, rule_text};
use crate::write::write_whole;
use httparse::spans::EMPTY_HEADER_SPAN;
use service_calls::service::Service;
use space_core::space::Space;
use std::alloc::Global;
use std::io::{Read, Write};
use token_conf::token_table::TokenTable;
use wire_route::routes::Routes;

// The maximum number of reads of a stream.
const TURNS: u32 = 1_000_000;

/// The maximum number of requests of a stream.
pub(crate) const REQUESTS: u32 = 100;

// Makes a call once, and writes the text of the response.
fn answer<S: Space + Drop, W: Write>(
    alloc: Global,
    service: &mut Service<S>,
    writer: &mut Counted<W>,
    pending: &RoutedCall,
    closing: bool,
) -> Result<(), StreamFault>
    ensures replies { OnOk result (Replies Off S.Space service.old service.new
        pending.now.moment pending.now.call pending.now.endpoint closing
        (W.contents (inner_of writer.old)) (W.contents (inner_of writer.new))) }
    ensures part { OnErr result (RepliesPart S.Space service.old service.new
        pending.now.moment pending.now.call pending.now.endpoint closing
        (W.contents (inner_of writer.old)) (W.contents (inner_of writer.new))) }
    ensures good { OnOk result (failures_of writer.new ≡ failures_of writer.old) }
    ensures err { IfErr result (AbortedResponse (failures_of writer.old) (failures_of writer.new)
        (has_failed writer.new)) }
    ensures rises { calls_of writer.old ≤ calls_of writer.new }
    ensures stays { Stays S.Space service.old service.new }
{
    let reply = service.call(alloc, pending.moment, &pending.call);
    let Ok(text) = response_text(alloc, pending.endpoint, closing, &reply) else {
        return Err(StreamFault::Memory);
    };
    match write_whole(writer, text.as_slice()) {
        Ok(()) => Ok(()),
        Err(_) => Err(StreamFault::Write),
    }
}

// Writes the text after the responses at the end of a stream: that of a protocol rule.
fn end_with<W: Write>(alloc: Global, writer: &mut Counted<W>, end: End) -> Result<(), StreamFault>
    ensures whole { OnOk result (Appends (W.contents (inner_of writer.old))
        (W.contents (inner_of writer.new)) (concat (end_texts end))) }
    ensures part { OnErr result ((size : ℕ) × (size < length (concat (end_texts end)))
        × Appends (W.contents (inner_of writer.old)) (W.contents (inner_of writer.new))
        (take size (concat (end_texts end)))) }
    ensures good { OnOk result (failures_of writer.new ≡ failures_of writer.old) }
    ensures err { IfErr result (AbortedResponse (failures_of writer.old) (failures_of writer.new)
        (has_failed writer.new)) }
    ensures rises { calls_of writer.old ≤ calls_of writer.new }
{
    let End::Wire(rule) = end else {
        return Ok(());
    };
    let Ok(refusal) = rule_text(alloc, rule) else {
        return Err(StreamFault::Memory);
    };
    match write_whole(writer, refusal.as_slice()) {
        Ok(()) => Ok(()),
        Err(_) => Err(StreamFault::Write),
    }
}

// What one turn of a stream gives.
#[derive(Clone, Copy)]
enum Turn {
    // A request was answered. The number is that of the requests that may follow.
    Answered(u32),
    // The stream ended in this way.
    Ended(End),
}

// Serves the next request of a stream that may have `count` more, or ends the stream.
fn serve_one<S: Space + Drop, M: Moments, R: Read, W: Write>(
    alloc: Global,
    routes: &Routes,
    service: &mut Service<S>,
    tokens: &TokenTable,
    moments: &mut M,
    source: &mut Source<'_, R>,
    writer: &mut Counted<W>,
    count: u32,
) -> Result<Turn, StreamFault>
    requires some { 0 < count }
    ensures turn { IfOk result (IsTurn S.Space M.gives (callers_of tokens.now) (count - 1)
        service.old service.new moments.old moments.new
        (W.contents (inner_of writer.old)) (W.contents (inner_of writer.new))
        (ahead_of R.remaining source.old) (ahead_of R.remaining source.new)
        (bytes_of source.old) (bytes_of source.new)) }
    ensures part { IfErr result (IsTurnPart S.Space M.gives (callers_of tokens.now) (count - 1)
        service.old service.new moments.old moments.new
        (W.contents (inner_of writer.old)) (W.contents (inner_of writer.new))
        (ahead_of R.remaining source.old) (bytes_of source.old)) }
    ensures goes_on { IfOk result (MayGoOn count) }
    ensures tells { ReportsFailure source.old source.new writer.old writer.new
        (M.failures moments.old) (M.failures moments.new) result }
    ensures rises { calls_of writer.old ≤ calls_of writer.new }
    ensures spends { HasSpent source.old source.new }
    ensures stays { Stays S.Space service.old service.new }
{
    let mut fields = [EMPTY_HEADER_SPAN; 64];
    let (spans, size) = match next_request(source, &mut fields)? {
        Next::Request(spans, size) => (spans, size),
        Next::Stop(end) => {
            end_with(alloc, writer, end)?;
            return Ok(Turn::Ended(end));
        }
    };
    let received = Received {
        buffer: source.buffer.as_slice(),
        fields: &fields,
        spans,
        size,
    };
    let left = left_after(received, count - 1);
    let pending = ask(alloc, routes, tokens, moments, received)?;
    answer(alloc, service, writer, &pending, left == 0)?;
    shift(source.buffer, spans.len + size);
    Ok(Turn::Answered(left))
}

/// Serves the requests of a stream.
///
/// Reads each request, calls the service once at the next time of the clock, and writes the
/// response. The routes are the same for every stream.
///
/// A stream has at most 100 requests. The connection closes after the last of them, after one of
/// version 1.0, and after one with the option `close` in a field Connection. A request that breaks
/// a protocol rule gets a response that says so, and ends the stream.
///
/// After a fault a prefix of the responses was written. At most one call was made whose response
/// was not written completely; its effect stands. Write nothing more on that stream. The service
/// can be used for the next one.
pub fn serve_stream<S: Space + Drop, M: Moments, R: Read, W: Write>(
    alloc: Global,
    routes: &Routes,
    service: &mut Service<S>,
    tokens: &TokenTable,
    moments: &mut M,
    reader: &mut Counted<R>,
    writer: &mut Counted<W>,
) -> Result<Served, StreamFault>
    // The calls that the input represents were made and answered, whatever the chunks in which it
    // arrived. If the bytes of a reader are unknown, as for a file or a socket, there is an input
    // for which this holds.
    ensures serves { IfOk result (ServesStream S.Space M.gives tokens.now
        (R.remaining (inner_of reader.old))
        (service.old, moments.old, W.contents (inner_of writer.old))
        (service.new, moments.new, W.contents (inner_of writer.new))) }
    ensures part { IfErr result (ServesStreamPart S.Space M.gives tokens.now
        (R.remaining (inner_of reader.old))
        (service.old, moments.old, W.contents (inner_of writer.old))
        (service.new, moments.new, W.contents (inner_of writer.new))) }

    // The reported device failed once, and a reader or a writer was not called after it.
    ensures read { result ≡ Err StreamFault.Read
        → FailsLast (failures_of reader.old) (failures_of reader.new) (has_failed reader.new) }
    ensures write { result ≡ Err StreamFault.Write
        → FailsLast (failures_of writer.old) (failures_of writer.new) (has_failed writer.new) }
    ensures clock { result ≡ Err StreamFault.Clock
        → M.failures moments.new ≡ one_more (M.failures moments.old) }
    // No other count of failures rose: every failure is reported.
    ensures told_reader { (result ≡ Err StreamFault.Read)
        ⊎ (failures_of reader.new ≡ failures_of reader.old) }
    ensures told_writer { (result ≡ Err StreamFault.Write)
        ⊎ (failures_of writer.new ≡ failures_of writer.old) }
    ensures told_clock { (result ≡ Err StreamFault.Clock)
        ⊎ (M.failures moments.new ≡ M.failures moments.old) }
    ensures turns { result ≡ Err StreamFault.Turns
        → (calls_of reader.new ≡ calls_of reader.old + max_reads) ⊎ IsMax
        (calls_of reader.new) }
    ensures reads { (calls_of reader.new ≤ calls_of reader.old + max_reads)
        ⊎ IsMax (calls_of reader.new) }
    // No count of calls falls.
    ensures rises_reader { calls_of reader.old ≤ calls_of reader.new }
    ensures rises_writer { calls_of writer.old ≤ calls_of writer.new }

    // The invariants of the service hold for any input.
    ensures stays { Stays S.Space service.old service.new }
{
    let mut buffer = Vec::new(alloc);
    let mut source = Source {
        reader,
        turns: TURNS,
        buffer: &mut buffer,
    };
    let mut left = REQUESTS;
    let mut count = 0;
    'serving: while left > 0 {
        match serve_one(
            alloc,
            routes,
            service,
            tokens,
            moments,
            &mut source,
            writer,
            left,
        )? {
            Turn::Answered(then) => {
                count += 1;
                left = then;
            }
            Turn::Ended(end) => return Ok(Served { count, end }),
        }
    }
    Ok(Served {
        count,
        end: End::Close,
    })
}
