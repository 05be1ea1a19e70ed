//! The command `follow`: does the acts of a pool's log over a copy of the newest file, which
//! becomes the next file.
use crate::cause::Cause;
use crate::chain_file::{OwnFile, chain_of, write_chain};
use crate::etcd_io::EtcdIo;
use crate::etcd_waiting::EtcdWaiting;
use crate::new_database::make_database;
use crate::pool_files::{FileName, PoolFiles, beginning_of, print_name};
use crate::pool_log::{LogArgs, check_settings, new_poll, open_log, settings_of, with_loss};
use crate::serving::served_tokens;
use dss_args::follow_args::FollowArgs;
use dss_command::fault::{Fault, io_fault};
use dss_command::tokens::salt_of;
use dss_database::pool_files::follow as follow_log;
use entity_core::salt::Salt;
use pool_etcd::etcd_log::EtcdLog;
use sqlite::Start;
use std::io;
use std::io::Write;

// A file is written after so many changes of the log, even if no entry is among them. So etcd can
// drop the fences of processes that found nothing to do.
const IDLE_CHANGES: u64 = 1_000;

// Does the calls and purges of the log over the next database, and closes it. Returns the log.
fn make_calls<F: Start>(
    rt: &HostRuntime,
    path: &str,
    start: F,
    salt: Salt,
    log: EtcdLog,
    cause: &mut Cause,
) -> Result<EtcdLog, Fault> {
    let (poll, registry) = new_poll(rt)?;
    let mut waiting = match EtcdWaiting::new(rt, poll) {
        Ok(waiting) => waiting,
        Err(error) => return Err(io_fault(&error, Fault::Socket)),
    };
    let mut io = EtcdIo::new(rt, registry);
    let (done, log) = follow_log(rt, path, start, salt, log, &mut io, &mut waiting);
    match done {
        Ok(_files) => Ok(log),
        Err(failure) => {
            // Drops the files first, as the command `serve` does.
            let fault = Fault::from(failure);
            cause.record_database(rt, path, &fault);
            Err(with_loss(fault, log.loss()))
        }
    }
}

// Follows the log behind the newest file. Returns the log.
fn follow_behind<F: Start>(
    rt: &HostRuntime,
    files: PoolFiles<'_>,
    newest: Option<FileName>,
    own_file: Option<OwnFile>,
    start: F,
    salt: Salt,
    log: EtcdLog,
    cause: &mut Cause,
) -> Result<EtcdLog, Fault> {
    let Ok(path) = files.next() else {
        return Err(Fault::Memory);
    };
    match newest {
        Some(newest) => files.copy(newest, own_file, cause)?,
        None => make_database(rt, path.as_str())?,
    }
    make_calls(rt, path.as_str(), start, salt, log, cause)
}

// Gives the next database and its chain their names if entries came, or many changes, or there was
// no file. Returns the name of the newest file.
fn put_next(
    rt: &HostRuntime,
    files: PoolFiles<'_>,
    newest: Option<FileName>,
    made: FileName,
    log: &EtcdLog,
) -> io::Result<FileName> {
    let (_, count) = log.position();
    if let Some(newest) = newest
        && count == 0
        && made.revision.saturating_sub(newest.revision) < IDLE_CHANGES
    {
        files.clear()?;
        return Ok(newest);
    }
    write_chain(rt, files, made, log.chain())?;
    files.put(made)?;
    files.keep_two()?;
    Ok(made)
}

/// Runs the command. After a fault, the files are those of before.
pub(crate) fn follow<F: Start, W: Write, E: Write>(
    rt: &HostRuntime,
    given: FollowArgs<'_>,
    start: F,
    cause: &mut Cause,
    output: &mut W,
    error: &mut E,
) -> Result<(), Fault> {
    if given.verbose {
        cause.request();
    }
    let (_, tokens) = served_tokens(rt, given.tokens, given.verbose, cause, error)?;
    let salt = salt_of(&tokens)?;
    let files = PoolFiles::new(rt, given.files);
    let (lock, newest) = files.take(cause)?;
    let beginning = beginning_of(newest);
    let settings = settings_of(rt, &tokens, beginning)?;
    check_settings(newest, settings)?;
    let found = chain_of(rt, Some(given.files), newest, cause)?;
    let log_args = LogArgs {
        endpoints: given.endpoints.as_slice(),
        name: given.name,
        etcd_user: given.etcd_user,
        chain: found.chain,
        file: newest,
        agreed: settings,
    };
    let log = open_log(rt, log_args, cause)?;
    let log = match follow_behind(rt, files, newest, found.own_file, start, salt, log, cause) {
        Ok(log) => log,
        Err(fault) => {
            let _ = files.clear();
            return Err(fault);
        }
    };
    let (revision, _) = log.position();
    let made = FileName {
        revision,
        settings,
        beginning,
    };
    let name = match put_next(rt, files, newest, made, &log) {
        Ok(name) => name,
        Err(error) => return Err(files.fault(&error, cause)),
    };
    drop(lock);
    print_name(rt, name, output)
}
