//! The command `begin`: copies a database, which becomes the first file of a pool.
use crate::backup::backup;
use crate::cause::Cause;
use crate::file_digest::{digest_of, number_of};
use crate::live::check;
use crate::pool_files::{FileName, PoolFiles, print_name};
use crate::pool_log::settings_of;
use crate::serving::served_tokens;
use dss_args::begin_args::BeginArgs;
use dss_command::backup_fault::BackupFault;
use dss_command::fault::Fault;
use dss_command::pool_fault::PoolFault;
use sqlite::Start;
use std::io::Write;
use token_conf::token_table::TokenTable;

// Makes the next database of the directory: a checked copy of a database that no process has open.
fn copy<F: Start>(
    rt: &HostRuntime,
    files: PoolFiles<'_>,
    database: &str,
    start: F,
    cause: &mut Cause,
) -> Result<(), Fault> {
    let Ok(next) = files.next() else {
        return Err(Fault::Memory);
    };
    match backup(rt, database, next.as_str(), start) {
        Ok(()) => check(rt, next.as_str()),
        Err(Fault::Copy(BackupFault::Exists)) | Err(Fault::Copy(BackupFault::Write)) => {
            Err(Fault::Pool(PoolFault::Files))
        }
        Err(fault) => {
            cause.record_database(rt, database, &fault);
            Err(fault)
        }
    }
}

// Gives the next database the name of the first file of a pool. The number of the airspace at the
// beginning is that of the bytes, so that all instances start with the same file.
fn put_first(
    rt: &HostRuntime,
    files: PoolFiles<'_>,
    tokens: &TokenTable,
    cause: &mut Cause,
) -> Result<FileName, Fault> {
    let Ok(next) = files.next() else {
        return Err(Fault::Memory);
    };
    let beginning = match digest_of(rt, next.as_str()) {
        Ok(digest) => number_of(&digest),
        Err(error) => return Err(files.fault(&error, cause)),
    };
    let name = FileName {
        revision: 0,
        settings: settings_of(rt, tokens, beginning)?,
        beginning,
    };
    match files.put(name) {
        Ok(()) => Ok(name),
        Err(error) => Err(files.fault(&error, cause)),
    }
}

// Makes the first file of the pool.
fn first_file<F: Start>(
    rt: &HostRuntime,
    files: PoolFiles<'_>,
    database: &str,
    tokens: &TokenTable,
    start: F,
    cause: &mut Cause,
) -> Result<FileName, Fault> {
    copy(rt, files, database, start, cause)?;
    put_first(rt, files, tokens, cause)
}

/// Runs the command. After a fault, the directory has no new file of a pool, or the whole one.
pub(crate) fn begin<F: Start, W: Write, E: Write>(
    rt: &HostRuntime,
    given: BeginArgs<'_>,
    start: F,
    cause: &mut Cause,
    output: &mut W,
    error: &mut E,
) -> Result<(), Fault> {
    if given.verbose {
        cause.request();
    }
    let (_, tokens) = served_tokens(rt, given.tokens, given.verbose, cause, error)?;
    let files = PoolFiles::new(rt, given.files);
    let (lock, newest) = files.take(cause)?;
    if newest.is_some() {
        return Err(Fault::Pool(PoolFault::HasFile));
    }
    let name = match first_file(rt, files, given.database, &tokens, start, cause) {
        Ok(name) => name,
        Err(fault) => {
            let _ = files.clear();
            return Err(fault);
        }
    };
    drop(lock);
    print_name(rt, name, output)
}
