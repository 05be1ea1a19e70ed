//! New databases. Their pages have 1,024 bytes, since a commit writes whole pages: with the 4,096
//! that SQLite takes, the same change writes three times as many bytes. An existing database keeps
//! its own.
use crate::copying::{folder_of, is_free};
use crate::private::{DATABASE, make_empty};
use dss_command::fault::Fault;
use std::alloc::{AllocError, Global};
use std::fs::{File, OpenOptions};
use std::io::{ErrorKind, Write};
use std::os::unix::fs::OpenOptionsExt;
use std::{fs, io};

// The bytes of a page.
const PAGE: usize = 1_024;

// The beginning of a database with one page and no table ("Database File Format" of SQLite,
// sections 1.3 and 1.6): the mark, the bytes of a page, a log in place of a journal, the count of
// pages, the formats of the schema and of texts, the version of SQLite, and the head of an empty
// leaf. All other bytes are 0.
const BEGINNING: &[u8] = b"SQLite format 3\0\x04\0\x02\x02\0\x40\x20\x20\0\0\0\0\0\0\0\x01\
    \0\0\0\0\0\0\0\0\0\0\0\0\0\0\0\x04\0\0\0\0\0\0\0\0\0\0\0\x01\0\0\0\0\0\0\0\0\0\0\0\0\
    \0\0\0\0\0\0\0\0\0\0\0\0\0\0\0\0\0\0\0\0\0\0\0\0\0\x2e\x76\x88\x0d\0\0\0\0\x04\0\0";

// The suffix of the name under which the file is made.
const NEW: &str = ".new";

// The name that SQLite does not take for that of a file.
const IN_MEMORY: &str = ":memory:";

// Removes a file, if it exists.
fn remove(rt: &HostRuntime, name: &str) -> io::Result<()> {
    match fs::remove_file(rt, name) {
        Err(cause) if cause.kind() == ErrorKind::NotFound => Ok(()),
        done => done,
    }
}

/// Returns the content of a database without tables.
pub(crate) fn empty_database(alloc: Global) -> Result<Vec<u8>, AllocError> {
    let mut page = Vec::from_slice(alloc, BEGINNING)?;
    page.resize(PAGE, 0)?;
    Ok(page)
}

// Writes a database without tables to a new file of that name.
fn write_database(rt: &HostRuntime, name: &str) -> io::Result<()> {
    let mut file: File = OpenOptions::new()
        .write(true)
        .create_new(true)
        .mode(DATABASE)
        .open(rt, name)?;
    file.write_all(empty_database(rt.alloc())?.as_slice())?;
    file.sync_all()
}

// Makes a database without tables. Its name is given once the system has stored it, and only if
// nothing has it: another process may have made the database meanwhile.
fn make_small(rt: &HostRuntime, name: &str) -> io::Result<()> {
    let new = format!(in rt.alloc(); "{name}{NEW}")?;
    // what a process left that was stopped
    remove(rt, new.as_str())?;
    if is_free(rt, name).is_err() {
        return Ok(());
    }
    let folder = folder_of(rt, name)?;
    write_database(rt, new.as_str())?;
    let linked = fs::hard_link(rt, new.as_str(), name);
    remove(rt, new.as_str())?;
    linked?;
    folder.sync_all()
}

/// Makes a database without tables that only its owner can read and write, if nothing has that name
/// and no log of it is there. Where the file system has no links, the file is empty, and SQLite
/// makes its pages. SQLite gives the mode of the file to those that it makes beside it.
pub(crate) fn make_database(rt: &HostRuntime, name: &str) -> Result<(), Fault> {
    if name == IN_MEMORY {
        return Ok(());
    }
    let _ = make_small(rt, name);
    make_empty(rt, name)
}
