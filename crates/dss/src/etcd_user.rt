//! The user of etcd, of a file.
use crate::cause::Cause;
use crate::regular::read_regular;
use dss_command::fault::{Fault, io_fault};
use dss_command::pool_fault::PoolFault;
use pool_etcd::settings::User;
use std::alloc::{AllocError, Global};

// Returns the name and the password of a text that is one line `NAME:PASSWORD`.
fn parts_of(text: &str) -> Option<(&str, &str)> {
    let line = text.strip_suffix('\n').unwrap_or(text);
    if line.contains('\n') {
        return None;
    }
    let (name, password) = line.split_once(':')?;
    if name.is_empty() || password.is_empty() {
        return None;
    }
    Some((name, password))
}

// Returns a user with this name and password.
fn user_of(alloc: Global, name: &str, password: &str) -> Result<User, AllocError> {
    Ok(User {
        name: String::from_str(alloc, name)?,
        password: String::from_str(alloc, password)?,
    })
}

/// Reads the user of etcd from the file of that name: one line `NAME:PASSWORD`.
pub(crate) fn read_user(rt: &HostRuntime, file: &str, cause: &mut Cause) -> Result<User, Fault> {
    let bytes = match read_regular(rt, file) {
        Ok(bytes) => bytes,
        Err(error) => {
            cause.record_file(file, &error);
            return Err(io_fault(&error, Fault::Pool(PoolFault::UserUnread)));
        }
    };
    let Ok(text) = str::from_utf8(&bytes) else {
        return Err(Fault::Pool(PoolFault::UserInvalid));
    };
    let Some((name, password)) = parts_of(text) else {
        return Err(Fault::Pool(PoolFault::UserInvalid));
    };
    match user_of(rt.alloc(), name, password) {
        Ok(user) => Ok(user),
        Err(_) => Err(Fault::Memory),
    }
}
