//! The service to many clients at once, on one thread.
ghost use Rattle.std.specs.Prelude.{◌≡◌, IsTrue, OnOk, is_some, true};
ghost use Rattle.server_clients.specs.ClientSet.{KeepsClients, clients_of};
ghost use Rattle.server_clients.specs.ServerEvents.{Setup};
ghost use Rattle.server.specs.Numbers.{AreNumbered};
ghost use Rattle.server.specs.Rounds.{EndsRound, ServesClients, ServesToEnd};
ghost use Rattle.server.specs.Runs.{IsQuiet, RunsTo};
ghost use Rattle.server.specs.Watches.{MayConfirm, server_state, setup_of, stops_in};

use crate::event_loop::EventLoop;
use crate::watches::Watches;
use admin_http::build::BuildInfo;
use server_backend::backend::Backend;
use server_base::backups::MakeBackups;
use server_base::limits::Limits;
use server_base::server_log::ServerLog;
use server_base::sockets::Sockets;
use server_clients::request_context::RequestContext;
use server_watch::clock_watch::ClockWatch;
use server_watch::time_record::TimeRecord;
use server_watch::token_watch::{TokenSource, TokenWatch, in_force};
use std::alloc::Global;
use std::io;
use std::io::ErrorKind;
use std::time::Duration;
use token_conf::token_table::TokenTable;
use wire_http::{Explaining, Moments};
use wire_route::routes::Routes;

// Confirms the clock if an operator requested that.
fn confirm<N: Sockets + Drop, K: Drop, T: TokenSource>(
    event_loop: &mut EventLoop<N, K>,
    watches: &mut Watches<T>,
)
    ensures clients { KeepsClients N.Client.name event_loop.old.clients event_loop.new.clients }
    ensures watches { MayConfirm watches.old watches.new }
{
    if !event_loop.take_confirmation() {
        return;
    }
    watches.confirm_clock();
}

// Answers the admin port, and does what operators requested: confirms the clock, or begins the
// stop. Returns true if a stop is complete.
fn operate<B: Backend, M: Moments, N: Sockets + Drop, K: MakeBackups<B> + Drop, T: TokenSource>(
    event_loop: &mut EventLoop<N, K>,
    sockets: &N,
    context: RequestContext<'_>,
    watches: &mut Watches<T>,
    backend: &mut B,
    _moments: &M,
    operated: Option<BuildInfo<'_>>,
    now: Duration,
) -> bool
    ensures runs { (setup : Setup) → setup.is_operated ≡ is_some operated.entry
        → RunsTo B.Backend M.Moments T.TokenSource setup IsQuiet IsQuiet
        (server_state backend.old (clients_of N.Client.name event_loop.old.clients)
        _moments.now context.entry.tokens.now watches.old)
        (server_state backend.new (clients_of N.Client.name event_loop.new.clients)
        _moments.now context.entry.tokens.now watches.new)
        (N.history sockets.now) (N.history sockets.now) }
    ensures stopped { IsTrue result → stops_in watches.new ≡ true }
    ensures operated { IsTrue result → is_some operated.entry ≡ true }
{
    let Some(build) = operated else {
        return false;
    };
    event_loop.answer_operators(sockets, build, watches, backend, now);
    if watches.stops() {
        if !watches.is_overdue(now) && !event_loop.is_served() {
            return false;
        }
        event_loop.abort_backup::<B>();
        return true;
    }
    confirm(event_loop, watches);
    if !event_loop.is_stop_requested() {
        return false;
    }
    watches.stop(now);
    event_loop.stop();
    backend.stop();
    false
}

// Ends a round: the backend does what is due besides requests, its outcomes are delivered, requests
// that waited are answered if they can be, late clients are ended, and the admin port is answered.
// Returns true if an operator requested the stop and it is complete.
fn end_round<
    B: Backend,
    M: Moments,
    N: Sockets + Drop,
    K: MakeBackups<B> + Drop,
    T: TokenSource,
    J: ServerLog,
>(
    event_loop: &mut EventLoop<N, K>,
    sockets: &mut N,
    context: RequestContext<'_>,
    watches: &mut Watches<T>,
    backend: &mut B,
    moments: &mut M,
    operated: Option<BuildInfo<'_>>,
    now: Duration,
    journal: &mut J,
) -> bool
    requires numbered { AreNumbered B.Backend backend.old
        (clients_of N.Client.name event_loop.old.clients) }
    ensures runs { (setup : Setup) → setup.explaining ≡ context.entry.explaining
        → setup.is_operated ≡ is_some operated.entry
        → EndsRound B.Backend M.Moments T.TokenSource setup now
        (server_state backend.old (clients_of N.Client.name event_loop.old.clients)
        moments.old context.entry.tokens.now watches.old)
        (server_state backend.new (clients_of N.Client.name event_loop.new.clients)
        moments.new context.entry.tokens.now watches.new)
        (N.history sockets.old) (N.history sockets.new) }
    ensures stopped { IsTrue result → stops_in watches.new ≡ true }
    ensures operated { IsTrue result → is_some operated.entry ≡ true }
{
    let moment = watches.read_clock(moments, now, journal);
    event_loop.advance(context, backend, moment, watches.is_held(), now, journal);
    event_loop.tell_all(sockets, context, watches, backend, moments, 0, now, journal);
    event_loop.answer_due(sockets, context, watches, backend, moments, now, journal);
    event_loop.store_time(sockets, watches.trusted_time(), now, journal);
    event_loop.end_all_late(sockets, now, journal);
    event_loop.forget_gone(backend);
    event_loop.flush_log(journal);
    operate(
        event_loop, sockets, context, watches, backend, moments, operated, now,
    )
}

/// Answers the requests of the accepted clients by a backend, until the number of connections in
/// `limits` was accepted and the last of them is closed, the backend has ended, or an operator
/// stopped the server.
///
/// The backend receives requests one after the other, in one order for all clients, each with the
/// caller of its token and a time of the clock. Clients have turns in the order of the fair queue,
/// each at most one in a round. What is sent to a client is the texts of the outcomes that the
/// backend gave for its requests, in their order, each once, and none before the backend gave it.
/// The laws of `server_clients` state this of the events in the contract.
///
/// Responses that the backend drafted are deferred until it gives their outcome. At the end of the
/// turns of each round the batch ends and all outcomes are given. A request of a client that is not
/// aborted is lost only if the clock fails or memory runs out.
///
/// Each call is checked against one token table. The token file is checked each second. If it has
/// changed and is valid, with the same salt, its table becomes active. Otherwise the reason is
/// logged.
///
/// The clock is read in each round, and compared with the monotonic clock and, at the start, with
/// the last known time. While it contradicts them, the backend is advanced with `is_held`, and a
/// database purges nothing. This ends when the clock returns or an operator confirms it. With
/// a record, times that are trusted are stored through the sockets for the next start.
///
/// With a build there is an admin port, whose connections are answered in the same rounds. An admin
/// request is no request of the backend, and reads it by `&`. Backups are made between batches, one
/// step a round.
///
/// With `Explaining::On`, responses have explanations: the body of a denial that the request alone
/// causes may have one more member, and a success one more field.
///
/// Returns an error of the system that ends the service; what was answered before it stands. A
/// fault of a client is logged, and ends only the connection of that client.
pub fn serve<
    B: Backend,
    M: Moments,
    N: Sockets + Drop,
    K: MakeBackups<B> + Drop,
    T: TokenSource + Drop,
    J: ServerLog,
>(
    alloc: Global,
    routes: &Routes,
    tokens: &TokenTable,
    watch: TokenWatch<T>,
    clock: ClockWatch,
    record: Option<TimeRecord>,
    backend: &mut B,
    moments: &mut M,
    sockets: &mut N,
    backups: Option<K>,
    limits: Limits,
    explaining: Explaining,
    operated: Option<BuildInfo<'_>>,
    journal: &mut J,
) -> io::Result<()>
    ensures clients { ServesClients B.Backend M.Moments T.TokenSource
        (setup_of explaining tokens.now (is_some operated.entry) (is_some limits.count))
        clock watch backend.old backend.new moments.old moments.new
        (N.history sockets.old) (N.history sockets.new) }
    ensures ends { OnOk result (ServesToEnd B.Backend M.Moments T.TokenSource
        (setup_of explaining tokens.now (is_some operated.entry) (is_some limits.count))
        clock watch backend.old backend.new moments.old moments.new
        (N.history sockets.old) (N.history sockets.new)) }
{
    let is_counted = limits.count.is_some();
    let mut newer = None;
    let mut watches = Watches::new(clock, watch);
    let mut event_loop = EventLoop::<N, K>::new(
        alloc,
        limits,
        operated.is_some(),
        backups,
        record,
        backend.share(),
    )?;
    let mut now = sockets.monotonic_time()?;
    for _ in 0..u64::MAX {
        if backend.has_ended() {
            return Ok(());
        }
        if is_counted && event_loop.is_done() {
            return Ok(());
        }
        event_loop.wait(sockets, watches.stops(), backend.patience(now), now)?;
        now = sockets.monotonic_time()?;
        event_loop.accept(sockets, watches.stops(), now, journal)?;
        newer = watches.look(alloc, tokens, now, journal).or(newer);
        let context = RequestContext {
            alloc,
            routes,
            tokens: in_force(tokens, &newer),
            explaining,
        };
        event_loop.run_once(sockets, context, &watches, backend, moments, now, journal);
        let is_over = end_round(
            &mut event_loop,
            sockets,
            context,
            &mut watches,
            backend,
            moments,
            operated,
            now,
            journal,
        );
        if is_over {
            return Ok(());
        }
    }
    // more rounds than can ever run
    Err(io::Error::from(ErrorKind::TimedOut))
}
