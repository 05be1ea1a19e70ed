//! The plain policy of a pool: the calls of the log, one after the other, over a space in memory.
ghost use Rattle.std.specs.Prelude.{◌≡◌, false};
ghost use Rattle.wire_http.specs.Connection.{buffered_of, is_waiting};
ghost use Rattle.wire_http.specs.NextRequest.{FitsIn};

use crate::journal::Answered;
use crate::pool_log::{LogState, Offered, Stored};
use crate::reference::Reference;
use crate::shared::SECOND;
use crate::verdict::Flaw;
use policy_core::call::{Call, Operation};
use policy_core::early::early;
use pool_core::purge::purge_all;
use pool_entry::batch_fault::ReadError;
use pool_entry::entry::{EntryActs, entry_acts};
use pool_entry::pool_call::PoolCall;
use pool_entry::read::read_batch;
use service_calls::service::Service;
use service_step::reply::Reply;
use space_memory::memory::MemorySpace;
use std::alloc::Global;
use token_conf::token_table::TokenTable;
use wire_http::{Connection, Explaining, NextRequest, NextStep, RequestParts, Unavailable};
use wire_route::routes::Routes;

// How long a request waits at least before it is given up, whose call was offered or not.
const UNSENT: u64 = 2 * SECOND;

const SENT: u64 = 10 * SECOND;

// The size of the response `unassigned`, and how much longer it is if the connection closes.
const UNASSIGNED: usize = 112;

const CLOSE: usize = 19;

// A call of an own entry, and its reply, which no client got yet. `entry` is the index of the entry.
#[derive(Drop)]
struct OwnCall {
    entry: usize,
    call: PoolCall,
    reply: Reply,
}

// What a response says.
enum Response {
    Reply(Reply),
    Unavailable(Unavailable),
}

/// What a request asks for.
#[derive(Clone, Copy, Debug, PartialEq, Eq)]
pub(crate) enum Kind {
    /// A change, for which the log is needed.
    Change,
    /// Anything else.
    Other,
}

/// What is known of an answered request besides its response.
#[derive(Clone, Copy, Debug)]
pub(crate) struct Asked {
    /// Since when it can have been received: when it was read, and when the one before it of its
    /// client was answered.
    pub(crate) since: u64,
    /// How many entries the log had then.
    pub(crate) stored: usize,
}

/// The plain policy of a pool, with one connection for each client.
#[derive(Drop)]
pub(crate) struct PoolReference<'a> {
    pub(crate) reference: Reference<'a>,
    list: CallList<'a>,
}

// The calls of the log up to a place.
#[derive(Drop)]
struct CallList<'a> {
    alloc: Global,
    routes: &'a Routes,
    number: u64,
    service: Service<MemorySpace>,
    // How many entries were made.
    made: usize,
    own: Vec<OwnCall>,
}

// Returns true if an operation only reads.
fn reads(op: &Operation) -> bool {
    matches!(
        op,
        Operation::Query(_, _)
            | Operation::Read(_, _)
            | Operation::ReadAvail(_)
            | Operation::QuerySub(_)
            | Operation::ReadSub(_)
    )
}

// Returns what a call asks for.
fn kind_of(call: &Call) -> Kind {
    if early(call).is_some() || reads(&call.op) {
        Kind::Other
    } else {
        Kind::Change
    }
}

// Returns true if a call of an entry is that of a request.
fn is_of(call: &PoolCall, parts: RequestParts<'_>) -> bool {
    let Some(caller) = parts.caller else {
        return false;
    };
    call.caller.uss.is(&caller.uss)
        && call.caller.scopes == caller.scopes
        && call.method.as_slice() == parts.method
        && call.path.text() == parts.path
        && call.body.as_slice() == parts.body
}

// Returns true if the call of a request was offered.
fn was_offered(alloc: Global, offers: &[Offered], parts: RequestParts<'_>) -> bool {
    for offer in offers {
        if let Ok(calls) = read_batch(alloc, offer.bytes.as_slice())
            && calls.iter().any(|call| is_of(call, parts))
        {
            return true;
        }
    }
    false
}

// Returns true if the instance may act for the USS of a request.
fn is_admitted(log: &LogState<'_>, call: &Call) -> bool {
    match (&call.caller, log.course.excluded) {
        (Some(caller), Some(excluded)) => caller.uss.text() != excluded,
        _ => true,
    }
}

/// Makes the calls of an entry, or its purge. Returns the replies, or `None` if memory runs out.
pub(crate) fn make_entry(
    alloc: Global,
    routes: &Routes,
    service: &mut Service<MemorySpace>,
    bytes: &[u8],
) -> Option<Vec<Reply>> {
    let mut replies = Vec::new(alloc);
    match entry_acts(alloc, routes, bytes) {
        Ok(EntryActs::Calls(calls)) => {
            for timed in &calls {
                replies.push(service.call(alloc, timed.0, &timed.1)).ok()?;
            }
        }
        Ok(EntryActs::Purge(until)) => {
            let _count = purge_all(service, until).ok()?;
        }
        Err(ReadError::Fault(_)) => {}
        Err(ReadError::Memory) => return None,
    }
    Some(replies)
}

impl<'a> CallList<'a> {
    // Keeps the replies to the calls of an own entry with that index.
    fn keep(&mut self, entry: usize, bytes: &[u8], replies: Vec<Reply>) -> Option<()> {
        let Ok(calls) = read_batch(self.alloc, bytes) else {
            return Some(());
        };
        let mut replies = replies.into_iter();
        for call in calls {
            let reply = replies.next()?;
            self.own.push(OwnCall { entry, call, reply }).ok()?;
        }
        Some(())
    }

    // Makes the next entry.
    fn make_next(&mut self, entry: &Stored) -> Option<()> {
        let bytes = entry.bytes.as_slice();
        let replies = make_entry(self.alloc, self.routes, &mut self.service, bytes)?;
        let index = self.made;
        self.made = index.saturating_add(1);
        if entry.writer == self.number {
            return self.keep(index, bytes, replies);
        }
        Some(())
    }

    // Makes the entries up to a place.
    fn make_until(&mut self, entries: &[Stored], place: usize) -> Result<(), Flaw> {
        for index in self.made..place {
            let Some(entry) = entries.get(index) else {
                return Err(Flaw::Extra);
            };
            if self.make_next(entry).is_none() {
                return Err(Flaw::Memory);
            }
        }
        Ok(())
    }

    // Removes and returns the reply to a request whose call an own entry has.
    fn take_reply(&mut self, parts: RequestParts<'_>) -> Option<Reply> {
        let place = self.own.iter().position(|own| is_of(&own.call, parts))?;
        if place >= self.own.len() {
            return None;
        }
        let OwnCall {
            entry: _,
            call: _,
            reply,
        } = self.own.remove(place);
        Some(reply)
    }

    // Returns true if the stop failed a request that has no reply: it came before the stop, and the own
    // entry with its call was taken after it. The client gets its response a round after the stop.
    fn is_stopped(&self, parts: RequestParts<'_>, answered: &Answered) -> bool {
        answered.status == 500
            && self.own.iter().any(|own| own.entry >= answered.first_after_stop
                && is_of(&own.call, parts))
    }

    // Returns the reason for status 503 that a response gives. Its request was not offered.
    fn unsent_reason(
        &self,
        log: &LogState<'_>,
        call: &Call,
        closes: bool,
        answered: &Answered,
        asked: Asked,
    ) -> Result<Unavailable, Flaw> {
        let unassigned = UNASSIGNED.saturating_add(if closes { CLOSE } else { 0 });
        if !is_admitted(log, call) && answered.size == unassigned {
            return Ok(Unavailable::Unassigned);
        }
        let waited = answered.reached.now.saturating_sub(asked.since);
        if waited < UNSENT && !answered.is_stopping && !answered.is_lost {
            return Err(Flaw::Refused);
        }
        Ok(Unavailable::Unreachable)
    }

    // Returns the response of a request that has no reply.
    fn refusal(
        &self,
        log: &LogState<'_>,
        call: &Call,
        parts: RequestParts<'_>,
        closes: bool,
        answered: &Answered,
        asked: Asked,
    ) -> Result<Response, Flaw> {
        let offered = was_offered(self.alloc, log.offers.as_slice(), parts);
        if answered.status != 503 {
            let waited = answered.reached.now.saturating_sub(asked.since);
            let is_late = waited >= SENT || answered.is_stopping || answered.is_lost;
            if !offered || !is_late {
                return Err(Flaw::Refused);
            }
            return Ok(Response::Unavailable(Unavailable::Unknown));
        }
        if offered {
            return Err(Flaw::Refused);
        }
        let reason = self.unsent_reason(log, call, closes, answered, asked)?;
        Ok(Response::Unavailable(reason))
    }

    // Returns the reply to a request that was not offered, behind all entries that the instance took. A
    // change must be denied there.
    fn reply_after(&mut self, call: &Call, moment: u64) -> Result<Reply, Flaw> {
        if reads(&call.op) {
            return Ok(self.service.call(self.alloc, moment, call));
        }
        match self.service.deny(self.alloc, moment, call) {
            Some(reply) => Ok(reply),
            None => Err(Flaw::Extra),
        }
    }

    // Returns true if the instance took the entries of all batches that it offered before it received
    // the request.
    fn has_outcomes(&self, log: &LogState<'_>, answered: &Answered) -> bool {
        let before = log
            .offers
            .iter()
            .filter(|offer| offer.at < answered.received)
            .count();
        let taken = log
            .entries
            .iter()
            .take(answered.given)
            .skip(log.first)
            .filter(|entry| entry.writer == self.number)
            .count();
        before <= taken
    }

    // Returns what the response to a request says. A change that was offered stands at its place in the
    // log, any other request behind all entries that the instance took. A change that was not offered
    // comes after the batches that were offered before it.
    fn response(
        &mut self,
        log: &LogState<'_>,
        call: &Call,
        parts: RequestParts<'_>,
        closes: bool,
        answered: &Answered,
        asked: Asked,
    ) -> Result<Response, Flaw> {
        self.make_until(log.entries.as_slice(), answered.given)?;
        if early(call).is_some() {
            let reply = self.service.call(self.alloc, answered.moment, call);
            return Ok(Response::Reply(reply));
        }
        if self.is_stopped(parts, answered) {
            return Ok(Response::Unavailable(Unavailable::Unknown));
        }
        if let Some(reply) = self.take_reply(parts) {
            return Ok(Response::Reply(reply));
        }
        if answered.status == 503 || answered.status == 500 {
            return self.refusal(log, call, parts, closes, answered, asked);
        }
        if answered.given < asked.stored {
            return Err(Flaw::Old);
        }
        if !reads(&call.op) && !self.has_outcomes(log, answered) {
            return Err(Flaw::Unsettled);
        }
        Ok(Response::Reply(self.reply_after(call, answered.moment)?))
    }

    // Makes the next response of a connection. Returns what its request asked for.
    fn advance(
        &mut self,
        log: &LogState<'_>,
        connection: &mut Connection,
        tokens: &TokenTable,
        answered: &Answered,
        asked: Asked,
    ) -> Result<Kind, Flaw> {
        if connection.is_done() || connection.is_waiting() {
            return Err(Flaw::Extra);
        }
        match connection.next(self.alloc, self.routes, tokens) {
            Ok(NextStep::Request(next)) => {
                let parts = connection.parts(&next);
                let closes = next.left() == 0;
                let kind = kind_of(next.call());
                let response = self.response(log, next.call(), parts, closes, answered, asked)?;
                self.put(connection, next, answered.moment, response)?;
                Ok(kind)
            }
            Ok(NextStep::Ended(_)) => Ok(Kind::Other),
            Ok(NextStep::NeedsInput) | Err(_) => Err(Flaw::Extra),
        }
    }

    // Puts the response to the next request of a connection.
    fn put(
        &self,
        connection: &mut Connection,
        next: NextRequest,
        moment: u64,
        response: Response,
    ) -> Result<(), Flaw>
        requires none_waits { is_waiting connection.old ≡ false }
        requires fits { FitsIn (buffered_of connection.old) next }
    {
        let (alloc, routes) = (self.alloc, self.routes);
        let put = match response {
            Response::Reply(reply) => {
                let texts = connection.texts_for_reply(
                    alloc,
                    Explaining::Off,
                    routes,
                    &next,
                    moment,
                    &reply,
                );
                connection.answer(alloc, next, texts, &reply)
            }
            Response::Unavailable(reason) => connection.refuse(alloc, next, reason),
        };
        match put {
            Ok(()) => Ok(()),
            Err(_) => Err(Flaw::Memory),
        }
    }
}

impl<'a> PoolReference<'a> {
    /// Creates the plain policy of the process with this number, over a service that has made the
    /// entries up to a place.
    pub(crate) fn new(
        alloc: Global,
        routes: &'a Routes,
        reference: Reference<'a>,
        number: u64,
        service: Service<MemorySpace>,
        made: usize,
    ) -> PoolReference<'a> {
        PoolReference {
            reference,
            list: CallList {
                alloc,
                routes,
                number,
                service,
                made,
                own: Vec::new(alloc),
            },
        }
    }

    /// Makes the response to an answered request, and checks that a pool may give it. Returns what
    /// the request asked for.
    pub(crate) fn answer(
        &mut self,
        log: &LogState<'_>,
        answered: &Answered,
        asked: Asked,
        table: usize,
        is_limited: bool,
    ) -> Result<Kind, Flaw> {
        let Some(name) = self.reference.name_of(answered.connection) else {
            return Err(Flaw::Extra);
        };
        let Some((connection, tokens)) = self.reference.connection_and_table(name, table) else {
            return Err(Flaw::Extra);
        };
        if is_limited {
            connection.limit_to_one_request();
        }
        self.list.advance(log, connection, tokens, answered, asked)
    }

    /// Makes the entries up to a place, and returns the space.
    pub(crate) fn space_at(
        &mut self,
        entries: &[Stored],
        place: usize,
    ) -> Result<&MemorySpace, Flaw> {
        self.list.make_until(entries, place)?;
        Ok(self.list.service.space_ref())
    }
}
