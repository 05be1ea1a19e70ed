//! The files of a database after a close.
ghost use Rattle.std.specs.Prelude.{IfErr, IfOk, IsTrue};
ghost use Rattle.sqlite.specs.Held.{state};
ghost use Rattle.space_sql.specs.Closing.{ClosesTrees, KeepsTrees};

use sqlite::{Alter, Connection, FileStore, Files};
use sqlite_disk::Disk;

/// What is left of the files of a database after a close.
pub enum LeftFiles<D: Disk> {
    /// No file was opened.
    Nothing,
    /// The files are closed. If a database was open in them, its log was copied into its file.
    Closed(Files<D>),
    /// The close failed, and what was not copied is in the log. Dropping the store writes nothing.
    Unclosed(FileStore<D>),
}

// It is written out, so that a caller does not prove again how each part is dropped.
impl<D: Disk + Drop> Drop for LeftFiles<D> {
    fn drop(self) {
        match self {
            LeftFiles::Nothing => {}
            LeftFiles::Closed(_files) => {}
            LeftFiles::Unclosed(_store) => {}
        }
    }
}

// States that a crash may leave the last commit of an open connection. It does nothing.
fn last_commit_may_stay<S: Alter>(conn: &Connection<S>)
    ensures { let s = state S.Store conn.now in
        IsTrue s.is_open → s.may_leave s.committed.trees }
{
    let _ = conn;
}

/// Closes the files of a connection and returns them, or the store if that fails.
pub(crate) fn close_connection<D: Disk + Drop>(
    conn: Connection<FileStore<D>>,
) -> Result<Files<D>, FileStore<D>>
    ensures closed { IfOk result (λ files. ClosesTrees conn files) }
    ensures left { IfErr result (λ last. KeepsTrees conn last) }
{
    last_commit_may_stay(&conn);
    match conn.close_files() {
        Ok(files) => Ok(files),
        Err((_, store)) => Err(store),
    }
}
