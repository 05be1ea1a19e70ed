//! The command `serve --pool`: an instance of a pool whose log is in etcd.
use crate::cause::Cause;
use crate::chain_file::{OwnFile, chain_of, check_content};
use crate::clock::SystemClock;
use crate::etcd_io::EtcdIo;
use crate::log_file::SystemLog;
use crate::pool_file_check::check_file;
use crate::pool_file_maker::PoolFileMaker;
use crate::pool_files::{FileName, PoolFiles, beginning_of};
use crate::pool_log::{LogArgs, check_settings, new_poll, open_log, settings_of, with_loss};
use crate::serving::{admin_listener, clients_of, explaining, log_of, served_tokens};
use crate::sockets::PortSockets;
use crate::tokens::TokenFile;
use dss_args::pool_args::PoolArgs;
use dss_command::fault::{Fault, io_fault};
use dss_command::limits::print_limits;
use dss_command::pool::{PoolConfig, new_backend, new_instance, serve_pool_port};
use dss_command::pool_fault::PoolFault;
use dss_database::pool_files::load;
use mio::{Poll, Registry};
use pool_etcd::etcd_log::EtcdLog;
use server_base::limits::Limits;
use server_watch::token_watch::TokenWatch;
use space_memory::memory::MemorySpace;
use sqlite::Start;
use std::fs::File;
use std::io::Write;
use token_conf::token_table::TokenTable;

// The budget for unsent bytes of responses.
const RESPONSE_MEMORY: usize = 64 * 1_048_576;

// The file from which an instance starts. It is not removed while the instance has its turn.
#[derive(Drop)]
struct StartFile<'a> {
    files: PoolFiles<'a>,
    name: FileName,
    // Drops the turn last.
    turn: File,
}

// Waits for the turn of this instance. Returns the newest file of the directory of that name, if
// one is given. It must have a file.
fn newest_file<'a>(
    rt: &'a HostRuntime,
    folder: Option<&'a str>,
    cause: &mut Cause,
) -> Result<Option<StartFile<'a>>, Fault> {
    let Some(folder) = folder else {
        return Ok(None);
    };
    let files = PoolFiles::new(rt, folder);
    match files.wait_for_turn() {
        Ok(Some((turn, name))) => Ok(Some(StartFile { files, name, turn })),
        Ok(None) => Err(Fault::Pool(PoolFault::NoFile)),
        Err(error) => Err(files.fault(&error, cause)),
    }
}

// Loads the airspace of that file. It is empty if there is no file.
fn airspace_of<F: Start>(
    rt: &HostRuntime,
    file: Option<StartFile<'_>>,
    own_file: Option<OwnFile>,
    start: F,
    cause: &mut Cause,
) -> Result<MemorySpace, Fault> {
    let Some(StartFile { files, name, turn }) = file else {
        return Ok(MemorySpace::new(rt.alloc()));
    };
    let Ok(path) = files.path_of(name) else {
        return Err(Fault::Memory);
    };
    check_file(rt, path.as_str(), cause)?;
    check_content(rt, path.as_str(), name, own_file, cause)?;
    match load(rt, path.as_str(), start) {
        Ok((space, loaded)) => {
            drop(loaded);
            drop(turn);
            Ok(space)
        }
        Err(failure) => {
            // Drops the files first, as the command `serve` does.
            let fault = Fault::from(failure);
            cause.request();
            cause.record_database(rt, path.as_str(), &fault);
            Err(fault)
        }
    }
}

// What an instance is made of: its log, its access log, what watches sockets, and the airspace from
// which it starts.
#[derive(Drop)]
struct Beginning<'a> {
    log: EtcdLog,
    access_log: Option<SystemLog<'a>>,
    poll: Poll,
    registry: Registry,
    space: MemorySpace,
    // The number of the own settings, and that of the airspace at the beginning of the log.
    agreed: u64,
    beginning: u64,
}

// Opens the log of an instance, and loads the newest file of its directory.
fn begin<'a, F: Start>(
    rt: &'a HostRuntime,
    given: &'a PoolArgs<'_>,
    tokens: &TokenTable,
    start: F,
    cause: &mut Cause,
) -> Result<Beginning<'a>, Fault> {
    let file = newest_file(rt, given.files, cause)?;
    let newest = match &file {
        Some(found) => Some(found.name),
        None => None,
    };
    let beginning = beginning_of(newest);
    let agreed = settings_of(rt, tokens, beginning)?;
    check_settings(newest, agreed)?;
    let found = chain_of(rt, given.files, newest, cause)?;
    let log_args = LogArgs {
        endpoints: given.endpoints.as_slice(),
        name: given.name,
        etcd_user: given.etcd_user,
        chain: found.chain,
        file: newest,
        agreed,
    };
    let log = open_log(rt, log_args, cause)?;
    let access_log = log_of(rt, given.access_log, cause)?;
    let (poll, registry) = new_poll(rt)?;
    let space = airspace_of(rt, file, found.own_file, start, cause)?;
    Ok(Beginning {
        log,
        access_log,
        poll,
        registry,
        space,
        agreed,
        beginning,
    })
}

// Returns the maker of files of an instance, if a directory is given.
fn files_of<'a>(
    rt: &'a HostRuntime,
    folder: Option<&'a str>,
    agreed: u64,
    beginning: u64,
) -> Option<PoolFileMaker<'a>> {
    let files = PoolFiles::new(rt, folder?);
    Some(PoolFileMaker::new(rt, files, agreed, beginning))
}

// Answers clients with an instance, until it ends.
fn serve_from<'a, E: Write>(
    rt: &'a HostRuntime,
    given: &'a PoolArgs<'_>,
    text: String,
    tokens: &TokenTable,
    begun: Beginning<'_>,
    cause: &mut Cause,
    error: &mut E,
) -> Result<(), Fault> {
    let Beginning {
        log,
        access_log,
        poll,
        registry,
        space,
        agreed,
        beginning,
    } = begun;
    let instance = new_instance(rt.alloc(), log, space, tokens, given.retention)?;
    let clients = clients_of(rt, given.max_connections);
    let log_io = EtcdIo::new(rt, registry);
    let mut backend = new_backend(rt.alloc(), instance, log_io, clients)?;
    let config = PoolConfig {
        tokens,
        addresses: given.listen.as_slice(),
        limits: Limits {
            count: given.count,
            clients,
            response_memory: RESPONSE_MEMORY,
        },
        explaining: explaining(given.explain),
        keep: given.retention,
        operated: admin_listener(rt, given.admin_port),
        verbose: given.verbose,
    };
    let mut sockets = match PortSockets::new(rt, poll, None, cause) {
        Ok(sockets) => sockets,
        Err(error) => return Err(io_fault(&error, Fault::Socket)),
    };
    let served = serve_pool_port(
        rt.alloc(),
        &mut backend,
        config,
        TokenWatch::new(TokenFile::named(rt, given.tokens), text),
        &mut SystemClock::new(rt),
        &mut sockets,
        files_of(rt, given.files, agreed, beginning),
        access_log,
        error,
    );
    match served {
        Ok(()) => Ok(()),
        Err(fault) => Err(with_loss(fault, backend.instance().log().loss())),
    }
}

/// Runs the command, until the instance ends, the connections were counted and all are closed, or
/// an operator stops it.
pub(crate) fn serve<F: Start, E: Write>(
    rt: &HostRuntime,
    given: PoolArgs<'_>,
    start: F,
    cause: &mut Cause,
    error: &mut E,
) -> Result<(), Fault> {
    if given.verbose {
        cause.request();
    }
    let (text, tokens) = served_tokens(rt, given.tokens, given.verbose, cause, error)?;
    if given.verbose {
        let _ = print_limits(given.max_connections, given.count, None, error);
    }
    let begun = begin(rt, &given, &tokens, start, cause)?;
    serve_from(rt, &given, text, &tokens, begun, cause, error)
}
