//! The command `serve` above the operating system.
ghost use Rattle.std.specs.Prelude.{◌≡◌, ◌⊎◌, OnOk, OnErr, IsSome, is_some};
ghost use Rattle.token_conf.specs.TokenFile.{salt_of};
ghost use Rattle.dss_command.specs.Fault.{EndsServing};
ghost use Rattle.dss_command.specs.Service.{MayServe, ServesClients, setup_in};

use crate::fault::{Fault, io_fault};
use crate::ports::{AdminListener, Listen, build_of, hosts_of, operators_address, print_ports};
use crate::request_log::LogFile;
use crate::server_lines::Lines;
use admin_http::build::BuildInfo;
use database_backend::database::Database;
use database_laws::laws::calls_of_clients_are_one_list;
use entity_core::salt::Salt;
use server::laws::rounds_are_settled;
use server::serve::serve;
use server_backend::backend::Backend;
use server_base::backups::MakeBackups;
use server_base::limits::Limits;
use server_base::server_log::ServerLog;
use server_base::sockets::Sockets;
use server_base::trusted_time::LastTime;
use server_watch::clock_watch::ClockWatch;
use server_watch::time_record::TimeRecord;
use server_watch::token_watch::{TokenSource, TokenWatch};
use service_calls::service::Service;
use space_core::purge_ended::PurgeEnded;
use space_snapshot::snapshot::SnapshotSource;
use std::alloc::Global;
use std::io;
use std::io::Write;
use std::net::SocketAddr;
use token_conf::token_table::TokenTable;
use wire_http::{Explaining, Moments};
use wire_route::routes::Routes;

// Returns how the command ends, given the result of the service.
fn end_of_serving(served: io::Result<()>) -> Result<(), Fault>
    ensures { EndsServing served result }
{
    match served {
        Ok(()) => Ok(()),
        Err(cause) => Err(io_fault(&cause, Fault::Socket)),
    }
}

/// The configuration with which clients are answered.
#[derive(Clone, Copy)]
pub struct ServeConfig<'a> {
    /// The token file of the start.
    pub tokens: &'a TokenTable,
    /// The addresses and ports to listen on.
    pub addresses: &'a [SocketAddr],
    /// The limits on connections.
    pub limits: Limits,
    /// Whether responses have explanations.
    pub explaining: Explaining,
    /// The retention of what has ended in seconds; nothing is purged if `None`.
    pub keep: Option<u64>,
    /// The last known time of the clock from before the start, if there is one.
    pub last: Option<LastTime>,
    /// The admin port, if there is one.
    pub operated: Option<AdminListener>,
    /// True if failed commits and their recovery are reported, too.
    pub verbose: bool,
}

// Returns the record of trusted times, if the clock is watched.
fn record_of(is_watched: bool, last: Option<LastTime>) -> Option<TimeRecord> {
    if is_watched {
        Some(TimeRecord::new(last))
    } else {
        None
    }
}

// Answers the clients of the sockets with a service over a space.
fn serve_sockets<
    S: PurgeEnded + SnapshotSource + Drop,
    M: Moments,
    N: Sockets + Drop,
    B: MakeBackups<Database<S>> + Drop,
    T: TokenSource + Drop,
    J: ServerLog,
>(
    alloc: Global,
    space: S,
    salt: Salt,
    routes: &Routes,
    given: ServeConfig<'_>,
    build: Option<BuildInfo<'_>>,
    watch: TokenWatch<T>,
    moments: &mut M,
    sockets: &mut N,
    backups: Option<B>,
    journal: &mut J,
) -> (Result<(), Fault>, S)
    requires salt { salt ≡ salt_of given.tokens.now }
    requires operated { is_some build ≡ is_some given.operated }
    ensures served { ServesClients S.Space S.GroupCommit.own ⟦<Database<S> as Backend>⟧
        M.Moments T.TokenSource (setup_in given.entry) given.entry.keep watch
        space result.1 moments.old moments.new (N.history sockets.old) (N.history sockets.new) }
    ensures counted { OnOk result.0 (IsSome given.entry.limits.count
        ⊎ IsSome given.entry.operated) }
{
    calls_of_clients_are_one_list::<S, M, T>();
    rounds_are_settled::<Database<S>, M, T>();
    let is_watched = given.keep.is_some() || build.is_some();
    let clock = ClockWatch::new(given.keep, given.last, is_watched);
    let record = record_of(is_watched, given.last);
    let service = Service::new(space, salt);
    let mut backend = Database::new(service, given.keep);
    let served = serve(
        alloc,
        routes,
        given.tokens,
        watch,
        clock,
        record,
        &mut backend,
        moments,
        sockets,
        backups,
        given.limits,
        given.explaining,
        build,
        journal,
    );
    (end_of_serving(served), backend.into_service().into_space())
}

/// Opens the ports of the sockets, and answers their clients with a new service over a space.
/// Returns the space after the last batch has ended, when the ports are closed.
///
/// Meanwhile the token file is watched, and what ended at least the retention ago is purged between
/// batches. Prints that the port is open, and later the fault of each aborted client, and why a
/// changed token file was not loaded. Logs each answered request.
///
/// Returns `Ok` only if the number of connections is limited, or there is an admin port.
pub fn serve_port<
    S: PurgeEnded + SnapshotSource + Drop,
    M: Moments,
    N: Listen + Drop,
    B: MakeBackups<Database<S>> + Drop,
    L: LogFile + Drop,
    T: TokenSource + Drop,
    E: Write,
>(
    alloc: Global,
    space: S,
    salt: Salt,
    given: ServeConfig<'_>,
    watch: TokenWatch<T>,
    moments: &mut M,
    sockets: &mut N,
    backups: Option<B>,
    log: Option<L>,
    error: &mut E,
) -> (Result<(), Fault>, S)
    requires { salt ≡ salt_of given.tokens.now }
    ensures served { OnOk result.0 (ServesClients S.Space S.GroupCommit.own
        ⟦<Database<S> as Backend>⟧ M.Moments T.TokenSource (setup_in given.entry)
        given.entry.keep watch space result.1 moments.old moments.new
        (N.history sockets.old) (N.history sockets.new)) }
    ensures part { OnErr result.0 (MayServe S.Space S.GroupCommit.own
        ⟦<Database<S> as Backend>⟧ M.Moments T.TokenSource (setup_in given.entry)
        given.entry.keep watch space result.1 moments.old moments.new
        (N.history sockets.old) (N.history sockets.new)) }
    ensures counted { OnOk result.0 (IsSome given.entry.limits.count
        ⊎ IsSome given.entry.operated) }
{
    let Ok(routes) = Routes::new(alloc) else {
        return (Err(Fault::Memory), space);
    };
    let Ok(hosts) = hosts_of(alloc, given.operated) else {
        return (Err(Fault::Memory), space);
    };
    if let Err(cause) = sockets.listen(given.addresses, operators_address(given.operated)) {
        return (Err(io_fault(&cause, Fault::Socket)), space);
    }
    print_ports(given.addresses, given.operated, error);
    let mut journal = Lines::new(alloc, error, log, given.verbose);
    let served = serve_sockets(
        alloc,
        space,
        salt,
        &routes,
        given,
        build_of(given.operated, &hosts),
        watch,
        moments,
        sockets,
        backups,
        &mut journal,
    );
    sockets.close();
    served
}
