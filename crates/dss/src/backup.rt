//! The command `backup`: a backup of a database that no process has open.
use crate::change_time::ChangeTimes;
use crate::copying::{Copying, is_free};
use dss_command::backup_fault::BackupFault;
use dss_command::fault::{Fault, io_fault};
use dss_database::files::checkpoint_database;
use space_sql_open::open_fault::OpenFault;
use sqlite::Start;
use std::fs;
use std::fs::File;

// Returns an error if there is no such file. An open would create one in order to copy it.
fn is_database(rt: &HostRuntime, name: &str) -> Result<(), Fault> {
    match fs::metadata(rt, name) {
        Ok(found) if found.is_file() => Ok(()),
        _ => Err(Fault::Database(OpenFault::Store)),
    }
}

/// Copies a file. The copy is complete, or does not exist.
pub(crate) fn copy_file(rt: &HostRuntime, name: &str, to: &str) -> Result<(), Fault> {
    let source = match File::open(rt, name) {
        Ok(source) => source,
        Err(cause) => return Err(io_fault(&cause, Fault::Copy(BackupFault::Read))),
    };
    let mut copying = Copying::begin(rt, source, to)?;
    for _ in 0..u64::MAX {
        match copying.go_on() {
            Ok(true) => {}
            Ok(false) => return copying.finish(),
            Err(fault) => {
                copying.abort();
                return Err(fault);
            }
        }
    }
    copying.abort();
    Err(Fault::Copy(BackupFault::Read))
}

// Copies a database that no process has open.
fn copy_database<F: Start>(
    rt: &HostRuntime,
    database: &str,
    to: &str,
    start: F,
) -> Result<(), Fault> {
    let _files = checkpoint_database(rt, database, start)?;
    copy_file(rt, database, to)
}

/// Runs the command. No other program opens the database during the copy.
pub(crate) fn backup<F: Start>(
    rt: &HostRuntime,
    database: &str,
    to: &str,
    start: F,
) -> Result<(), Fault> {
    is_free(rt, to)?;
    is_database(rt, database)?;
    let times = ChangeTimes::of(rt, database);
    let done = copy_database(rt, database, to, start);
    times.end(rt, database, done)
}
