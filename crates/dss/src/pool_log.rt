//! The log of a pool, as the commands `serve --pool` and `follow` open it.
use crate::cause::Cause;
use crate::etcd_user::read_user;
use crate::pool_files::FileName;
use crate::sockets::{LOG_REQUESTS, LOG_WATCH};
use dss_command::fault::{Fault, io_fault};
use dss_command::pool_fault::PoolFault;
use mio::{Poll, Registry};
use pool_chain::chain::Chain;
use pool_etcd::etcd_fault::Loss;
use pool_etcd::etcd_log::EtcdLog;
use pool_etcd::settings::{EtcdSettings, POLICY, User, settings_number};
use std::alloc::AllocError;
use std::io;
use std::net::SocketAddr;
use std::random::RandomSource;
use token_conf::token_table::TokenTable;

// Returns the fault of a lost log.
fn fault_of(loss: Loss) -> Fault {
    Fault::Pool(match loss {
        Loss::Replaced => PoolFault::Replaced,
        Loss::Compacted(_) => PoolFault::Compacted,
        Loss::Deleted => PoolFault::Deleted,
        Loss::Shortened => PoolFault::Shortened,
        Loss::Settings => PoolFault::Settings,
        Loss::Suppliers => PoolFault::Suppliers,
        Loss::Unlinked => PoolFault::Unlinked,
        Loss::Diverged => PoolFault::Diverged,
        Loss::Unmade => PoolFault::Unmade,
    })
}

/// Returns the fault of a command whose log is lost if this is why it ended, or otherwise its own
/// fault.
pub(crate) fn with_loss(fault: Fault, loss: Option<Loss>) -> Fault {
    match (fault, loss) {
        (Fault::Pool(PoolFault::Ended), Some(loss)) => fault_of(loss),
        (fault, _) => fault,
    }
}

// Returns the number of this process: 64 random bits of the system.
fn process_number(rt: &HostRuntime) -> Result<u64, Fault> {
    let mut bytes = [0; 8];
    match rt.fill_bytes(&mut bytes) {
        Ok(()) => Ok(u64::from_be_bytes(bytes)),
        Err(cause) => Err(io_fault(&cause, Fault::Pool(PoolFault::NoRandom))),
    }
}

/// Returns the number of the settings with which this release makes calls with the salt of a token
/// file, if the log begins with the airspace of that number.
pub(crate) fn settings_of(
    rt: &HostRuntime,
    tokens: &TokenTable,
    beginning: u64,
) -> Result<u64, Fault> {
    match settings_number(rt.alloc(), POLICY, beginning, tokens.salt().text()) {
        Ok(number) => Ok(number),
        Err(_) => Err(Fault::Memory),
    }
}

/// The arguments of a command that opens the log of a pool.
#[derive(Drop)]
pub(crate) struct LogArgs<'a> {
    /// The addresses of etcd.
    pub(crate) endpoints: &'a [SocketAddr],
    /// The name under which the process writes.
    pub(crate) name: &'a str,
    /// The name of the file of etcd's user, if there is one.
    pub(crate) etcd_user: Option<&'a str>,
    /// The file behind whose revision the log begins, if there is one.
    pub(crate) file: Option<FileName>,
    /// The chain over the changes up to there.
    pub(crate) chain: Chain,
    /// The number of the own settings.
    pub(crate) agreed: u64,
}

// Returns the number of the pool's settings, if the file tells it. Behind revision 0 the first
// fence of the log tells it, as if there were no file: the log may have begun with another
// airspace.
fn pool_settings(file: FileName) -> Option<u64> {
    match file.revision {
        0 => None,
        _ => Some(file.settings),
    }
}

/// Returns a fault if the file is of a pool with other settings than these.
pub(crate) fn check_settings(file: Option<FileName>, agreed: u64) -> Result<(), Fault> {
    match file {
        Some(file) if file.settings != agreed => Err(Fault::Pool(PoolFault::Settings)),
        _ => Ok(()),
    }
}

// Creates a log that has received nothing.
fn new_log(
    rt: &HostRuntime,
    given: LogArgs<'_>,
    user: Option<User>,
    number: u64,
) -> Result<EtcdLog, AllocError> {
    let (revision, pool) = match given.file {
        Some(file) => (file.revision, pool_settings(file)),
        None => (0, None),
    };
    let settings = EtcdSettings {
        endpoints: Vec::from_slice(rt.alloc(), given.endpoints)?,
        user,
        name: String::from_str(rt.alloc(), given.name)?,
        number,
        revision,
        count: 0,
        chain: given.chain,
        agreed: given.agreed,
        pool,
    };
    EtcdLog::new(rt.alloc(), settings, LOG_REQUESTS, LOG_WATCH)
}

/// Creates the log of a process, which has received nothing.
pub(crate) fn open_log(
    rt: &HostRuntime,
    given: LogArgs<'_>,
    cause: &mut Cause,
) -> Result<EtcdLog, Fault> {
    let user = match given.etcd_user {
        Some(file) => Some(read_user(rt, file, cause)?),
        None => None,
    };
    let number = process_number(rt)?;
    let Ok(log) = new_log(rt, given, user, number) else {
        return Err(Fault::Memory);
    };
    match log.loss() {
        Some(loss) => Err(fault_of(loss)),
        None => Ok(log),
    }
}

// Creates what watches sockets, and the registry for the connections to etcd.
fn poll_and_registry(rt: &HostRuntime) -> io::Result<(Poll, Registry)> {
    let poll = Poll::new(rt)?;
    let registry = poll.registry().try_clone()?;
    Ok((poll, registry))
}

/// Creates what watches sockets, and the registry for the connections to etcd.
pub(crate) fn new_poll(rt: &HostRuntime) -> Result<(Poll, Registry), Fault> {
    match poll_and_registry(rt) {
        Ok(made) => Ok(made),
        Err(cause) => Err(io_fault(&cause, Fault::Socket)),
    }
}
