//! The command `serve --pool` above the operating system.
ghost use Rattle.std.specs.Prelude.{◌≡◌, ◌⊎◌, IfErr, IfOk, IsSome, OnOk, is_some};
ghost use Rattle.pool_instance.specs.Parts.{retention_in};
ghost use Rattle.pool_backend.specs.Pool.{IsNewPool};
ghost use Rattle.dss_command.specs.Pool.{EndsPool, MayServePool, ServesPoolClients, StartsOver, pool_setup_in};
ghost use Rattle.dss_command.specs.declared.fault.Fault.TheVariants.{Memory};

use crate::fault::{Fault, io_fault};
use crate::pool_fault::PoolFault;
use crate::ports::{AdminListener, Listen, build_of, hosts_of, operators_address, print_ports};
use crate::request_log::LogFile;
use crate::server_lines::Lines;
use crate::tokens::salt_of;
use admin_http::build::BuildInfo;
use pool_backend::laws::outcomes_are_given;
use pool_backend::pool::PoolInstance;
use pool_backend::timeouts::Timeouts;
use pool_core::log::Log;
use pool_core::log_io::LogIo;
use pool_instance::instance::Instance;
use server::serve::serve;
use server_backend::backend::Backend;
use server_base::backups::MakeBackups;
use server_base::limits::{Limits, MAX_CONNECTIONS};
use server_base::server_log::ServerLog;
use server_base::sockets::Sockets;
use server_clients::laws::events_are_the_backends;
use server_watch::clock_watch::ClockWatch;
use server_watch::token_watch::{TokenSource, TokenWatch};
use service_calls::service::Service;
use space_core::purge_ended::PurgeEnded;
use space_core::space::Space;
use space_memory::memory::MemorySpace;
use space_snapshot::snapshot::SnapshotSource;
use std::alloc::Global;
use std::io;
use std::io::Write;
use std::net::SocketAddr;
use token_conf::token_table::TokenTable;
use wire_http::{Explaining, Moments};
use wire_route::routes::Routes;

/// The configuration with which an instance of a pool answers clients.
#[derive(Clone, Copy)]
pub struct PoolConfig<'a> {
    /// The token file of the start.
    pub tokens: &'a TokenTable,
    /// The addresses and ports to listen on.
    pub addresses: &'a [SocketAddr],
    /// The limits on connections.
    pub limits: Limits,
    /// Whether responses have explanations.
    pub explaining: Explaining,
    /// The retention of what has ended in seconds; no purge is offered if `None`.
    pub keep: Option<u64>,
    /// The admin port, if there is one.
    pub operated: Option<AdminListener>,
    /// True if the causes of faults are reported, too.
    pub verbose: bool,
}

/// Creates an instance of a pool over that log, with the salt of a token file. It starts from the
/// airspace of a space in memory. That of a new space is empty. With a retention it offers purges of
/// what ended at least that number of seconds ago.
///
/// The only possible fault is `Memory`.
pub fn new_instance<G: Log + Drop>(
    alloc: Global,
    log: G,
    space: MemorySpace,
    tokens: &TokenTable,
    retention: Option<u64>,
) -> Result<Instance<G, MemorySpace>, Fault>
    ensures starts { IfOk result (StartsOver G.Log ⟦<MemorySpace as Space>⟧ tokens.now
        (G.history log) space) }
    ensures retention { IfOk result (λ instance. retention_in instance ≡ retention) }
{
    let salt = salt_of(tokens)?;
    let service = Service::new(space, salt);
    Ok(Instance::new(alloc, log, service, retention))
}

/// Creates the backend of an instance, with the input and output of its log. At most `most` requests
/// wait for the log at once.
///
/// The only possible fault is `Memory`.
pub fn new_backend<G: Log + Drop, I: LogIo<G> + Drop>(
    alloc: Global,
    instance: Instance<G, MemorySpace>,
    log_io: I,
    most: usize,
) -> Result<PoolInstance<G, I, MemorySpace>, Fault>
    ensures new { IfOk result (IsNewPool instance) }
    ensures memory { IfErr result (λ fault. fault ≡ Memory) }
{
    let Ok(routes) = Routes::new(alloc) else {
        return Err(Fault::Memory);
    };
    let most = most.min(MAX_CONNECTIONS);
    match PoolInstance::new(alloc, instance, log_io, routes, Timeouts::usual(), most) {
        Ok(backend) => Ok(backend),
        Err(_) => Err(Fault::Memory),
    }
}

// Returns how the command ends, given the result of the service.
fn end_of_pool(served: io::Result<()>, is_ended: bool) -> Result<(), Fault>
    ensures { EndsPool served is_ended result }
{
    match served {
        Ok(()) if is_ended => Err(Fault::Pool(PoolFault::Ended)),
        Ok(()) => Ok(()),
        Err(cause) => Err(io_fault(&cause, Fault::Socket)),
    }
}

// Answers the clients of the sockets with an instance.
fn serve_sockets<
    G: Log + Drop,
    I: LogIo<G> + Drop,
    S: SnapshotSource + PurgeEnded + Drop,
    M: Moments,
    N: Sockets + Drop,
    K: MakeBackups<PoolInstance<G, I, S>> + Drop,
    T: TokenSource + Drop,
    J: ServerLog,
>(
    alloc: Global,
    routes: &Routes,
    backend: &mut PoolInstance<G, I, S>,
    given: PoolConfig<'_>,
    build: Option<BuildInfo<'_>>,
    watch: TokenWatch<T>,
    moments: &mut M,
    sockets: &mut N,
    backups: Option<K>,
    journal: &mut J,
) -> Result<(), Fault>
    requires { is_some build ≡ is_some given.operated }
    ensures served { ServesPoolClients G.Log S.Space ⟦<PoolInstance<G, I, S> as Backend>⟧ M.Moments
        T.TokenSource (pool_setup_in given.entry) watch backend.old backend.new
        moments.old moments.new (N.history sockets.old) (N.history sockets.new) }
    ensures counted { OnOk result (IsSome given.entry.limits.count
        ⊎ IsSome given.entry.operated) }
{
    events_are_the_backends::<PoolInstance<G, I, S>, M, T>();
    outcomes_are_given::<G, I, S>();
    let is_watched = given.keep.is_some() || build.is_some();
    let clock = ClockWatch::new(given.keep, None, is_watched);
    let served = serve(
        alloc,
        routes,
        given.tokens,
        watch,
        clock,
        None,
        backend,
        moments,
        sockets,
        backups,
        given.limits,
        given.explaining,
        build,
        journal,
    );
    end_of_pool(served, backend.has_ended())
}

/// Opens the ports of the sockets, and answers their clients with an instance of a pool, whatever
/// airspace it starts from, until the instance ends, the number of connections in `limits` is
/// reached, or an operator stops it. Then the ports are closed.
///
/// Meanwhile the token file is watched. Prints that the port is open, and later the fault of each
/// aborted client, and why a changed token file was not loaded. Logs each answered request.
///
/// Returns `Ok` only if the connections were counted and all are closed, or an operator stopped the
/// service on the admin port, where files are requested, too. If the instance has ended, returns `PoolFault::Ended`; the log knows
/// whether it is lost, and why.
pub fn serve_pool_port<
    G: Log + Drop,
    I: LogIo<G> + Drop,
    M: Moments,
    N: Listen + Drop,
    K: MakeBackups<PoolInstance<G, I, MemorySpace>> + Drop,
    L: LogFile + Drop,
    T: TokenSource + Drop,
    E: Write,
>(
    alloc: Global,
    backend: &mut PoolInstance<G, I, MemorySpace>,
    given: PoolConfig<'_>,
    watch: TokenWatch<T>,
    moments: &mut M,
    sockets: &mut N,
    files: Option<K>,
    log: Option<L>,
    error: &mut E,
) -> Result<(), Fault>
    ensures served { MayServePool G.Log ⟦<MemorySpace as Space>⟧
        ⟦<PoolInstance<G, I, MemorySpace> as Backend>⟧ M.Moments T.TokenSource
        (pool_setup_in given.entry) watch backend.old backend.new moments.old moments.new
        (N.history sockets.old) (N.history sockets.new) }
    ensures counted { OnOk result (IsSome given.entry.limits.count
        ⊎ IsSome given.entry.operated) }
{
    let Ok(routes) = Routes::new(alloc) else {
        return Err(Fault::Memory);
    };
    let Ok(hosts) = hosts_of(alloc, given.operated) else {
        return Err(Fault::Memory);
    };
    if let Err(cause) = sockets.listen(given.addresses, operators_address(given.operated)) {
        return Err(io_fault(&cause, Fault::Socket));
    }
    print_ports(given.addresses, given.operated, error);
    let mut journal = Lines::new(alloc, error, log, given.verbose);
    let served = serve_sockets(
        alloc,
        &routes,
        backend,
        given,
        build_of(given.operated, &hosts),
        watch,
        moments,
        sockets,
        files,
        &mut journal,
    );
    sockets.close();
    served
}
