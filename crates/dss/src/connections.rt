//! The command `serve`: connections to a port of this machine, many at once.
use crate::backups::PortBackups;
use crate::cause::Cause;
use crate::change_time::paths_of;
use crate::clock::SystemClock;
use crate::clock_file::{read_time, remove_time, write_time};
use crate::new_database::make_database;
use crate::serving::{admin_listener, clients_of, explaining, log_of, served_tokens};
use crate::sockets::PortSockets;
use crate::tokens::TokenFile;
use admin_backup::folder::BackupDir;
use dss_args::serve_args::ServeArgs;
use dss_command::backup_fault::BackupFault;
use dss_command::clients::ServeConfig;
use dss_command::fault::{Fault, io_fault};
use dss_command::limits::print_limits;
use dss_command::moment::seconds_of;
use dss_command::tokens::salt_of;
use dss_database::files::{self, close_database, open_database};
use mio::Poll;
use server_base::limits::Limits;
use server_base::trusted_time::{LastTime, TrustedTime};
use server_watch::token_watch::TokenWatch;
use sqlite::Start;
use std::io::Write;
use std::{fs, io};

const MEBIBYTE: usize = 1_048_576;

// Returns the limits of a command line.
fn limits_of(rt: &HostRuntime, given: &ServeArgs<'_>) -> Limits {
    Limits {
        count: given.count,
        clients: clients_of(rt, given.max_connections),
        response_memory: match usize::try_from(given.response_memory) {
            Ok(mebibytes) => mebibytes.saturating_mul(MEBIBYTE),
            Err(_) => usize::MAX,
        },
    }
}

// Opens the backup directory of a command line.
fn backups_of<'a>(
    rt: &'a HostRuntime,
    given: &ServeArgs<'_>,
    cause: &mut Cause,
) -> Result<Option<PortBackups<'a>>, Fault> {
    let Some(folder) = given.backup_dir else {
        return Ok(None);
    };
    match BackupDir::new(rt, given.database, folder) {
        Ok(folder) => Ok(Some(PortBackups { folder })),
        Err(error) => {
            cause.record_file(folder, &error);
            Err(io_fault(&error, Fault::Copy(BackupFault::Write)))
        }
    }
}

// Returns the time of the last change of a file in Unix seconds, if the system returns one.
fn change_of(rt: &HostRuntime, name: &str) -> Option<u64> {
    let Ok(found) = fs::metadata(rt, name) else {
        return None;
    };
    let Ok(changed) = found.modified() else {
        return None;
    };
    seconds_of(changed)
}

// Returns the time of the last change of a database or its log. Opening the database changes it.
fn last_change(rt: &HostRuntime, database: &str) -> Option<u64> {
    let Ok((file, log)) = paths_of(rt, database) else {
        return None;
    };
    change_of(rt, file.as_str()).max(change_of(rt, log.as_str()))
}

// Returns the last known time of the clock: the stored one or, if none is, that of the last change.
fn last_time(rt: &HostRuntime, database: &str) -> Option<LastTime> {
    if let Some(time) = read_time(rt, database) {
        return Some(LastTime::Trusted(time));
    }
    match last_change(rt, database) {
        Some(changed) => Some(LastTime::Changed(changed)),
        None => None,
    }
}

// Stores the time of the last change before the database is opened, if the service purges and no
// time is stored. Returns true if it did.
fn keep_change(rt: &HostRuntime, given: &ServeArgs<'_>, last: Option<LastTime>) -> bool {
    let (Some(LastTime::Changed(moment)), Some(_)) = (last, given.retention) else {
        return false;
    };
    let time = TrustedTime {
        moment,
        jumped_to: None,
    };
    write_time(rt, given.database, time).is_ok()
}

// Creates sockets without ports.
fn sockets_of<'a>(
    rt: &'a HostRuntime,
    database: &'a str,
    cause: &'a mut Cause,
) -> io::Result<PortSockets<'a>> {
    PortSockets::new(rt, Poll::new(rt)?, Some(database), cause)
}

/// Runs the command over the database, which is closed last.
pub(crate) fn serve<F: Start, E: Write>(
    rt: &HostRuntime,
    given: &ServeArgs<'_>,
    start: F,
    cause: &mut Cause,
    error: &mut E,
) -> Result<(), Fault> {
    if given.verbose {
        cause.request();
    }
    let (text, tokens) = served_tokens(rt, given.tokens, given.verbose, cause, error)?;
    if given.verbose {
        let _ = print_limits(given.max_connections, given.count, given.quota, error);
    }
    let salt = salt_of(&tokens)?;
    let log = log_of(rt, given.access_log, cause)?;
    let last = last_time(rt, given.database);
    if let Err(fault) = make_database(rt, given.database) {
        cause.record_database(rt, given.database, &fault);
        return Err(fault);
    }
    let is_kept = keep_change(rt, given, last);
    let (space, listed) = match open_database(rt, given.database, start) {
        Ok(taken) => taken,
        Err(failure) => {
            // Drops the files first. Otherwise `dss` would report their locks as those of another
            // process.
            let fault = Fault::from(failure);
            if is_kept {
                remove_time(rt, given.database);
            }
            cause.record_database(rt, given.database, &fault);
            return Err(fault);
        }
    };
    let backups = match backups_of(rt, given, cause) {
        Ok(backups) => backups,
        Err(fault) => {
            let _files = close_database(Err(fault), space)?;
            return Ok(());
        }
    };
    let answering = ServeConfig {
        tokens: &tokens,
        addresses: given.listen.as_slice(),
        limits: limits_of(rt, given),
        explaining: explaining(given.explain),
        keep: given.retention,
        last,
        operated: admin_listener(rt, given.admin_port),
        verbose: given.verbose,
    };
    let watch = TokenWatch::new(TokenFile::named(rt, given.tokens), text);
    let mut clock = SystemClock::new(rt);
    let mut sockets = match sockets_of(rt, given.database, cause) {
        Ok(sockets) => sockets,
        Err(error) => {
            let fault = io_fault(&error, Fault::Socket);
            let _files = close_database(Err(fault), space)?;
            return Ok(());
        }
    };
    let _files = files::serve(
        rt.alloc(),
        space,
        listed,
        given.quota,
        salt,
        answering,
        watch,
        &mut clock,
        &mut sockets,
        backups,
        log,
        error,
    )?;
    Ok(())
}
