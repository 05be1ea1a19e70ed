//! Files that `serve` uses while it serves. Only those of regular files never block it.
use std::{fs, io};

/// Returns an error if something other than a regular file has that name.
pub(crate) fn check_regular(rt: &HostRuntime, name: &str) -> io::Result<()> {
    match fs::metadata(rt, name) {
        Ok(found) if !found.is_file() => Err(io::Error::other("not a regular file")),
        _ => Ok(()),
    }
}

/// Reads the regular file of that name, if it has less than a mebibyte.
pub(crate) fn read_regular(rt: &HostRuntime, name: &str) -> io::Result<Vec<u8>> {
    check_regular(rt, name)?;
    if fs::metadata(rt, name)?.len() >= 1_048_576 {
        return Err(io::Error::other("a mebibyte or more"));
    }
    fs::read(rt, name)
}
