//! The check of a file of a pool before it is opened as a database. Opening makes a missing file,
//! and makes the tables of an empty airspace in a file without them.
use crate::cause::Cause;
use crate::live::check;
use crate::regular::check_regular;
use dss_command::fault::{Fault, io_fault};
use dss_command::pool_fault::PoolFault;
use space_sql_open::open_fault::OpenFault;
use std::fs::File;
use std::io;
use std::io::Read;

// The bytes of the first page of a database, in which the texts of its tables begin.
const PAGE: usize = 4_096;

// The first bytes of a SQLite file.
const MARK: &str = "SQLite format 3\0";

// The text that makes the first table of an airspace.
const TABLE: &str = "CREATE TABLE meta (";

// Returns the first page of a file, or the whole file if it is shorter.
fn first_page(rt: &HostRuntime, path: &str) -> io::Result<Vec<u8>> {
    check_regular(rt, path)?;
    let mut file = File::open(rt, path)?;
    let mut page = vec![in rt.alloc(); 0_u8; PAGE]?;
    let length = file.read(&mut page)?;
    page.truncate(length);
    Ok(page)
}

// Returns true if these bytes have the text of the table.
fn has_table(page: &[u8]) -> bool {
    for at in 0..page.len() {
        if page[at..].starts_with(TABLE.as_bytes()) {
            return true;
        }
    }
    false
}

// Returns true if the first page of a file shows a table of an airspace. Returns an error if the
// file is no database.
fn shows_table(rt: &HostRuntime, path: &str) -> io::Result<bool> {
    let page = first_page(rt, path)?;
    if page.is_empty() {
        return Err(io::Error::other("a file of 0 bytes"));
    }
    if !page.as_slice().starts_with(MARK.as_bytes()) {
        return Err(io::Error::other("not a SQLite database"));
    }
    Ok(has_table(page.as_slice()))
}

// Returns the fault of a file that is refused. Its name and the reason are printed also without
// `--verbose`.
fn refused(path: &str, error: &io::Error, cause: &mut Cause) -> Fault {
    cause.request();
    cause.record_file(path, error);
    io_fault(error, Fault::Pool(PoolFault::NoAirspace))
}

/// Rejects a file of a pool that is gone, that has 0 bytes, or that has no table of an airspace.
/// Changes nothing. If the first page shows no such table, opens the whole file from memory.
pub(crate) fn check_file(rt: &HostRuntime, path: &str, cause: &mut Cause) -> Result<(), Fault> {
    match shows_table(rt, path) {
        Ok(true) => return Ok(()),
        Ok(false) => {}
        Err(error) => return Err(refused(path, &error, cause)),
    }
    match check(rt, path) {
        Err(Fault::Database(OpenFault::NotADss)) => {
            let error = io::Error::other("without the tables of an airspace");
            Err(refused(path, &error, cause))
        }
        done => done,
    }
}
