//! Laws of what clients are sent. Each is the contract of a function that does nothing.
ghost use Rattle.pool_laws.specs.Clients.{PoolServesEachClient};
ghost use Rattle.pool_laws.specs.Program.{ProgramServes};
ghost use Rattle.pool_laws.specs.Purges.{PoolReadersMayLookBack};

use pool_backend::pool::PoolInstance;
use pool_core::log::Log;
use pool_core::log_io::LogIo;
use server_backend::backend::Backend;
use server_clients::laws::{each_client_is_served, texts_are_of_replies};
use server_watch::token_watch::TokenSource;
use space_core::purge_ended::PurgeEnded;
use space_snapshot::snapshot::SnapshotSource;
use wire_http::Moments;

/// States that one list of calls and purges explains what the clients of all instances of a pool are
/// sent.
///
/// Each client is sent the texts of the responses to its requests, in order, each once. A text is
/// that of the policy's reply at the place of the request in the list, or one of status 503. A
/// response of which a byte was sent before another request was received, at whichever instances, is
/// earlier in the list.
///
/// The instances can start from files. It assumes that the events are those at one log of entries,
/// and nothing of instances that do not serve.
pub fn pool_serves_each_client<
    L: Log + Drop,
    I: LogIo<L> + Drop,
    S: PurgeEnded + SnapshotSource + Drop,
    M: Moments,
    T: TokenSource,
>()
    ensures { PoolServesEachClient I L.Log S.Space ⟦<PoolInstance<L, I, S> as Backend>⟧ M.Moments
        T.TokenSource }
{
    each_client_is_served::<PoolInstance<L, I, S>, M, T>();
    texts_are_of_replies::<PoolInstance<L, I, S>, M, T>();
}

/// States that an instance which served its clients as `dss_command::pool::serve_pool_port` says is
/// one that `pool_serves_each_client` asks for.
///
/// The steps are those of all processes of the pool in one order, in which each has its own.
pub fn program_serves<
    L: Log + Drop,
    I: LogIo<L> + Drop,
    S: PurgeEnded + SnapshotSource + Drop,
    M: Moments,
    T: TokenSource,
>()
    ensures { ProgramServes I L.Log S.Space ⟦<PoolInstance<L, I, S> as Backend>⟧ M.Moments
        T.TokenSource }
{}

/// States that forward-looking calls of a pool get the replies that they get without its purges, even
/// if other calls read what has ended.
///
/// Every call that is not forward-looking must change nothing. So one read of a flight that has ended
/// leaves the law as it is for all others.
pub fn readers_may_look_back()
    ensures { PoolReadersMayLookBack }
{}
