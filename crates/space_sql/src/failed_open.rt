//! The files of a database that was not adopted.
ghost use Rattle.space_sql.specs.Closing.{ClosesRemains};

use crate::left_files::{LeftFiles, close_connection};
use sqlite::{Connection, FileStore, Leftover};
use sqlite_disk::Disk;

/// The state of the files after a fault of an opening.
pub enum FailedOpen<D: Disk> {
    /// No file was opened.
    Nothing,
    /// The files were opened, but no database in them.
    Files(Leftover<D>),
    /// A database in the files was opened, but not adopted.
    Connection(Connection<FileStore<D>>),
}

impl<D: Disk + Drop> FailedOpen<D> {
    /// Closes what is open, and returns what is left of the files.
    pub fn close(self) -> LeftFiles<D>
        ensures { ClosesRemains self result }
    {
        match self {
            FailedOpen::Nothing => LeftFiles::Nothing,
            FailedOpen::Files(left) => LeftFiles::Closed(left.into_files()),
            FailedOpen::Connection(conn) => match close_connection(conn) {
                Ok(files) => LeftFiles::Closed(files),
                Err(store) => LeftFiles::Unclosed(store),
            },
        }
    }
}
