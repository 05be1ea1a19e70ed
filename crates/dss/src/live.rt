//! The commands `backup --live` and `verify`, which read a database that the service may be
//! changing.
ghost use Rattle.std.specs.Prelude.{IfOk, IsTrue};
ghost use Rattle.sqlite_disk.specs.Memory.{memory_is_usable};

use admin_backup::live_backup::LiveBackup;
use admin_backup::live_reader::{DatabaseBytes, ReadFault, read_database};
use admin_backup::log_sums::has_sums;
use admin_http::backup::BackupResult;
use dss_command::backup_fault::BackupFault;
use dss_command::fault::Fault;
use dss_database::copies::{self, copied_files, open_copy};
use sqlite_disk::{Files, Memory};
use std::fs;
use std::hash::{BuildHasher, RandomState};
use std::io::Write;

// Returns the fault of a backup that was not made.
fn fault_of(backup: BackupResult) -> Fault {
    match backup {
        BackupResult::Exists => Fault::Copy(BackupFault::Exists),
        BackupResult::Memory => Fault::Memory,
        _ => Fault::Copy(BackupFault::Write),
    }
}

// Returns the fault of a database that was not read.
fn read_fault(fault: ReadFault) -> Fault {
    match fault {
        ReadFault::Unread => Fault::Copy(BackupFault::Read),
        ReadFault::TooManyChanges => Fault::Copy(BackupFault::TooManyChanges),
        ReadFault::Damaged => Fault::Copy(BackupFault::Damaged),
        ReadFault::Memory => Fault::Memory,
    }
}

// Returns a random number for the logs of a database in memory.
fn seed(rt: &HostRuntime) -> Result<u64, Fault> {
    match RandomState::new(rt) {
        Ok(state) => Ok(state.hash_one(&0_u8)),
        Err(_) => Err(Fault::Memory),
    }
}

// Reads the database of that name into memory. Rejects a log with damaged frames.
fn read_files(rt: &HostRuntime, name: &str) -> Result<Files<Memory>, Fault>
    ensures { IfOk result (λ files.
        IsTrue (memory_is_usable files.db) × IsTrue (memory_is_usable files.log)) }
{
    let DatabaseBytes { file, log } = read_database(rt, name).map_err(read_fault)?;
    if !has_sums(&log) {
        return Err(Fault::Copy(BackupFault::Damaged));
    }
    copied_files(rt.alloc(), &file, &log)
}

/// Opens the database of that name from memory, without changing it.
pub(crate) fn check(rt: &HostRuntime, name: &str) -> Result<(), Fault> {
    let files = read_files(rt, name)?;
    let _space = open_copy(rt.alloc(), files, seed(rt)?)?;
    Ok(())
}

// Writes the files of a backup, and checks them.
fn written(rt: &HostRuntime, backup: &LiveBackup<'_>, database: &str) -> Result<(), Fault> {
    let bytes = read_database(rt, database).map_err(read_fault)?;
    let name = backup.write(&bytes).map_err(fault_of)?;
    drop(bytes);
    check(rt, name.as_str())
}

/// Runs the command `backup --live`.
pub(crate) fn back_up(rt: &HostRuntime, database: &str, to: &str) -> Result<(), Fault> {
    let backup = LiveBackup::begin(rt, to).map_err(fault_of)?;
    if let Err(fault) = written(rt, &backup, database) {
        backup.abort();
        return Err(fault);
    }
    backup.finish().map_err(fault_of)
}

// Tests if there is a directory of that name.
fn is_folder(rt: &HostRuntime, name: &str) -> bool {
    match fs::metadata(rt, name) {
        Ok(found) => found.is_dir(),
        Err(_) => false,
    }
}

// Reads the backup in a directory. Rejects one without a log.
fn read_backup(rt: &HostRuntime, folder: &str) -> Result<Files<Memory>, Fault>
    ensures { IfOk result (λ files.
        IsTrue (memory_is_usable files.db) × IsTrue (memory_is_usable files.log)) }
{
    let name = format!(in rt.alloc(); "{folder}/dss.db").map_err(|_| Fault::Memory)?;
    let files = read_files(rt, name.as_str())?;
    let log = format!(in rt.alloc(); "{folder}/dss.db-wal").map_err(|_| Fault::Memory)?;
    match fs::metadata(rt, log.as_str()) {
        Ok(_) => Ok(files),
        Err(_) => Err(Fault::Copy(BackupFault::Damaged)),
    }
}

/// Runs the command `verify` over a backup or a database file.
pub(crate) fn verify<W: Write>(rt: &HostRuntime, name: &str, output: &mut W) -> Result<(), Fault> {
    let files = if is_folder(rt, name) {
        read_backup(rt, name)?
    } else {
        read_files(rt, name)?
    };
    let _space = copies::verify(rt.alloc(), files, seed(rt)?, output)?;
    Ok(())
}
