//! Copies of a database in memory, which are opened as the service opens its files. The database
//! itself is not changed.
ghost use Rattle.std.specs.Prelude.{◌≡◌, IfOk, IfSome, IsTrue, false};
ghost use Rattle.sqlite.specs.Files.{file_state, image_of};
ghost use Rattle.sqlite.specs.Held.{state};
ghost use Rattle.sqlite.specs.Recovery.{Image};
ghost use Rattle.sqlite_disk.specs.Memory.{memory_bytes, memory_is_usable};
ghost use Rattle.space_sql.specs.Found.{FindsSpelt, IsOver};
ghost use Rattle.dss_database.specs.Copies.{ReportsCopy};

use crate::files::report_tables;
use dss_command::backup_fault::BackupFault;
use dss_command::fault::Fault;
use space_core::space::Space;
use space_sql::open::AdoptResult;
use space_sql::space::SqlSpace;
use space_sql_open::open_fault::OpenFault;
use space_sql_schema::presence::{Presence, presence_of};
use sqlite::{Alter, Connection, Error, ErrorCode, FileStore, Files, Options};
use sqlite_disk::{Disk, Memory};
use std::alloc::Global;
use std::io::Write;

// Returns a file in memory with these bytes.
fn memory_of(alloc: Global, bytes: &[u8]) -> Option<Memory>
    ensures { IfSome result (λ memory. (memory_bytes memory ≡ bytes.now)
        × IsTrue (memory_is_usable memory)) }
{
    let mut memory = Memory::new(alloc);
    match memory.write_at(0, bytes) {
        Ok(()) if memory.bytes() == bytes => Some(memory),
        _ => None,
    }
}

/// Returns files in memory with the bytes of a database file and of its log.
pub fn copied_files(alloc: Global, file: &[u8], log: &[u8]) -> Result<Files<Memory>, Fault>
    ensures file { IfOk result (λ files. memory_bytes files.db ≡ file.now) }
    ensures log { IfOk result (λ files. memory_bytes files.log ≡ log.now) }
    ensures usable { IfOk result (λ files. IsTrue (memory_is_usable files.db)
        × IsTrue (memory_is_usable files.log)) }
{
    match (memory_of(alloc, file), memory_of(alloc, log)) {
        (Some(db), Some(log)) => Ok(Files { log, db }),
        _ => Err(Fault::Memory),
    }
}

// Returns the fault of files that hold no database.
fn unopened(error: &Error) -> Fault {
    match error {
        Error::SqliteFailure(ErrorCode::OutOfMemory) => Fault::Memory,
        _ => Fault::Copy(BackupFault::Damaged),
    }
}

// Opens the database in these files. `seed` is a random number.
fn connect_copy<D: Disk + Drop>(
    alloc: Global,
    files: Files<D>,
    seed: u64,
) -> Result<Connection<FileStore<D>>, Fault>
    requires log { IsTrue (D.Disk.is_usable files.log) }
    requires db { IsTrue (D.Disk.is_usable files.db) }
    ensures opened { IfOk result (λ conn. IsOver (image_of D.Disk files) (file_state conn)) }
    ensures outside { IfOk result (λ conn. conn.in_transaction ≡ false) }
{
    match Connection::open_files(alloc, files, Options::new(seed)) {
        Ok(conn) => Ok(conn),
        Err((error, _)) => Err(unopened(&error)),
    }
}

// Adopts a connection that was opened over files, whatever their content.
fn adopt_found<S: Alter>(alloc: Global, conn: Connection<S>) -> AdoptResult<S>
    requires { conn.in_transaction ≡ false }
    ensures { (image : Image) → IsOver image (state S.Store conn)
        → IfOk result (λ t. FindsSpelt image ⟦<SqlSpace<S> as Space>⟧ t.0) }
{
    SqlSpace::adopt(alloc, conn)
}

// Adopts a connection that was opened over files. Rejects a database without a table of an
// airspace.
fn adopt_copy<S: Alter + Drop>(alloc: Global, conn: Connection<S>) -> Result<SqlSpace<S>, Fault>
    requires { conn.in_transaction ≡ false }
    ensures { (image : Image) → IsOver image (state S.Store conn)
        → IfOk result (FindsSpelt image ⟦<SqlSpace<S> as Space>⟧) }
{
    if presence_of(conn.schema()) == Presence::Missing {
        return Err(Fault::Database(OpenFault::NotADss));
    }
    match adopt_found(alloc, conn) {
        Ok((space, _)) => Ok(space),
        Err((fault, _)) => Err(Fault::Database(fault)),
    }
}

/// Opens the database in these files as the service opens its own. Rejects files without a table of
/// an airspace. `seed` is a random number.
pub fn open_copy<D: Disk + Drop>(
    alloc: Global,
    files: Files<D>,
    seed: u64,
) -> Result<SqlSpace<FileStore<D>>, Fault>
    requires log { IsTrue (D.Disk.is_usable files.log) }
    requires db { IsTrue (D.Disk.is_usable files.db) }
    ensures { IfOk result (FindsSpelt (image_of D.Disk files)
        ⟦<SqlSpace<FileStore<D>> as Space>⟧) }
{
    adopt_copy(alloc, connect_copy(alloc, files, seed)?)
}

/// Runs the command `verify` over a copy of a database: opens it, and prints its report.
pub fn verify<D: Disk + Drop, W: Write>(
    alloc: Global,
    files: Files<D>,
    seed: u64,
    output: &mut W,
) -> Result<SqlSpace<FileStore<D>>, Fault>
    requires log { IsTrue (D.Disk.is_usable files.log) }
    requires db { IsTrue (D.Disk.is_usable files.db) }
    ensures { IfOk result (ReportsCopy ⟦<SqlSpace<FileStore<D>> as Space>⟧ (image_of D.Disk files)
        (W.contents output.old) (W.contents output.new)) }
{
    let mut space = open_copy(alloc, files, seed)?;
    report_tables(alloc, &mut space, false, output)?;
    Ok(space)
}
