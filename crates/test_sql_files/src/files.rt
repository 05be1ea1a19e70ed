//! Files of a database on any disk. They are opened, closed, or left by a crash.
//!
//! What is done with a connection is generic in its store, because each call from a function over
//! the store of files to one over any store is expensive to prove.
ghost use Rattle.std.specs.Prelude.{◌≡◌, IfSome, IsTrue, false};
ghost use Rattle.sqlite.specs.Files.{file_state, image_of};
ghost use Rattle.sqlite.specs.WalReads.{AreClean};
ghost use Rattle.sqlite_store.specs.FileStore.{view};
ghost use Rattle.sqlite_trees.specs.View.{IsClean};
ghost use Rattle.space_sql.specs.Closing.{ClosesTrees};
ghost use Rattle.space_sql.specs.Found.{IsOver};
ghost use Rattle.space_sql.specs.Restart.{FilesLeft};
ghost use Rattle.test_sql_files.specs.Files.{GivesUp};

use space_sql_select::reading::is_store_alive;
use sqlite::{Alter, Connection, FileStore, Files, Options};
use sqlite_disk::{Crash, Disk};
use std::alloc::Global;

/// A random number for the salts of the log, which has no other use.
const SEED: u64 = 1;

/// Opens the database in these files, or makes one.
pub fn connect<D: Disk + Drop>(alloc: Global, files: Files<D>) -> Option<Connection<FileStore<D>>>
    requires log { IsTrue (D.Disk.is_usable files.log) }
    requires db { IsTrue (D.Disk.is_usable files.db) }
    ensures opened { IfSome result (λ conn. IsOver (image_of D.Disk files) (file_state conn)) }
    ensures outside { IfSome result (λ conn. conn.in_transaction ≡ false) }
{
    match Connection::open_files(alloc, files, Options::new(SEED)) {
        Ok(conn) => Some(conn),
        Err(_) => None,
    }
}

/// Closes a connection, and returns its files.
pub fn close<D: Disk + Drop>(conn: Connection<FileStore<D>>) -> Option<Files<D>>
    requires { let s = file_state conn in IsTrue s.is_open → s.may_leave s.committed.trees }
    ensures closed { IfSome result (ClosesTrees conn) }
    ensures log { IfSome result (λ files. IsTrue (D.Disk.is_usable files.log)) }
    ensures db { IfSome result (λ files. IsTrue (D.Disk.is_usable files.db)) }
{
    match conn.close_files() {
        Ok(files) => Some(files),
        Err((_, store)) => {
            drop(store.close());
            None
        }
    }
}

/// Gives up a connection whose store is alive, and returns the store. Writes nothing more.
pub fn abandon<S: Alter + Drop>(mut conn: Connection<S>) -> Option<S>
    requires { conn.in_transaction ≡ false }
    ensures { IfSome result (GivesUp S.Store conn) }
{
    match is_store_alive(&mut conn) {
        Ok(()) => Some(conn.into_store()),
        Err(_) => None,
    }
}

/// Returns what a crash leaves of the files of a store.
pub fn crash_files<D: Crash + Drop>(store: FileStore<D>) -> Files<D>
    ensures clean { AreClean D.Disk result.log result.db → IsClean (view store) }
    ensures left { AreClean D.Disk result.log result.db
        → FilesLeft store (image_of D.Disk result) }
    ensures log { IsTrue (D.Disk.is_usable result.log) }
    ensures db { IsTrue (D.Disk.is_usable result.db) }
{
    let mut files = store.close();
    files.log.crash();
    files.db.crash();
    files
}
