//! The fault of a command over a database, with what it leaves of the files.
use dss_command::fault::Fault;
use space_sql::left_files::LeftFiles;
use sqlite_disk::Disk;

/// The fault of a command over a database, and what is left of the files.
#[derive(Drop)]
pub struct Failure<D: Disk> {
    /// The reason why the command failed.
    pub fault: Fault,
    /// The files after the close.
    pub left: LeftFiles<D>,
}

impl<D: Disk + Drop> From<Failure<D>> for Fault {
    ghost use Rattle.std.specs.Prelude.{◌≡◌};

    ghost from_gives = { λ failure found. found ≡ failure.fault };

    fn from(failure: Failure<D>) -> Fault {
        let Failure { fault, left } = failure;
        drop(left);
        fault
    }
}
