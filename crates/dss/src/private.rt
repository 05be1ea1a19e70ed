//! The modes of new files. Other users of the system get no rights, whatever the umask allows.
use dss_command::fault::{Fault, io_fault};
use space_sql_open::open_fault::OpenFault;
use std::fs::OpenOptions;
use std::io::ErrorKind;
use std::os::unix::fs::OpenOptionsExt;

/// The mode of a new database.
pub(crate) const DATABASE: u32 = 0o600;

/// The mode of a new access log, which a group of those who read logs can read.
pub(crate) const LOG: u32 = 0o640;

/// The bits of the owner and of the group. A copy of a file has only these of the file's mode.
pub(crate) const NO_OTHERS: u32 = 0o660;

/// Makes an empty file that only its owner can read and write, if nothing has that name.
pub(crate) fn make_empty(rt: &HostRuntime, name: &str) -> Result<(), Fault> {
    match OpenOptions::new()
        .write(true)
        .create_new(true)
        .mode(DATABASE)
        .open(rt, name)
    {
        Err(cause) if cause.kind() != ErrorKind::AlreadyExists => {
            Err(io_fault(&cause, Fault::Database(OpenFault::Store)))
        }
        _ => Ok(()),
    }
}
