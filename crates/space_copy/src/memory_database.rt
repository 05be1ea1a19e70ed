//! Databases in memory.
ghost use Rattle.std.specs.Prelude.{◌≡◌, false, IfOk};

use crate::memory_file::MemoryFile;
use sqlite::{Connection, Error, FileStore, Files, Options};
use std::alloc::Global;

// The number for the salts of the log. They only tell old frames from new ones after a crash, which
// leaves nothing of a log in memory.
const SEED: u64 = 1;

// The number of pages in the log from which on the next commit first copies them into the file. It
// is small, so that no commit copies many.
const LOGGED_PAGES: usize = 64;

/// A database in memory.
pub type MemoryDatabase = Connection<FileStore<MemoryFile>>;

/// Opens the database whose file has this content. A file without a byte gets an empty one.
pub fn open_database(alloc: Global, content: Vec<u8>) -> Result<MemoryDatabase, Error>
    ensures outside { IfOk result (λ conn. conn.in_transaction ≡ false) }
{
    let files = Files {
        log: MemoryFile::new(Vec::new(alloc)),
        db: MemoryFile::new(content),
    };
    let mut options = Options::new(SEED);
    options.checkpoint_frames = LOGGED_PAGES;
    match Connection::open_files(alloc, files, options) {
        Ok(conn) => Ok(conn),
        Err((error, _)) => Err(error),
    }
}

/// Closes a database, and returns its file, which then has all that was committed.
pub fn close_database(conn: MemoryDatabase) -> Result<MemoryFile, Error> {
    match conn.close_files() {
        Ok(files) => Ok(files.db),
        Err((error, _)) => Err(error),
    }
}
