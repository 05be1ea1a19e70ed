//! The token file of a command.
use crate::regular::read_regular;
use dss_command::fault::{Fault, io_fault};
use dss_command::tokens::table_of;
use server_watch::token_watch::TokenSource;
use std::{fs, io};
use token_conf::token_table::TokenTable;

/// Reads the text of the token file of that name.
pub(crate) fn token_text(rt: &HostRuntime, name: &str) -> Result<String, Fault> {
    match fs::read_to_string(rt, name) {
        Ok(text) => Ok(text),
        Err(cause) => Err(io_fault(&cause, Fault::TokensUnread)),
    }
}

/// Reads the text of the regular file of that name, for `serve`.
pub(crate) fn served_token_text(rt: &HostRuntime, name: &str) -> io::Result<String> {
    match String::from_utf8(read_regular(rt, name)?) {
        Ok(text) => Ok(text),
        Err(_) => Err(io::Error::other("not UTF-8")),
    }
}

/// Reads the table of the token file of that name.
pub(crate) fn token_table(rt: &HostRuntime, name: &str) -> Result<TokenTable, Fault> {
    let text = token_text(rt, name)?;
    table_of(rt.alloc(), text.as_str())
}

/// The token file of that name, which may change.
#[derive(Clone, Copy)]
pub(crate) struct TokenFile<'a> {
    rt: &'a HostRuntime,
    name: &'a str,
}

impl<'a> TokenFile<'a> {
    /// Creates the source for the file of that name.
    pub(crate) fn named(rt: &'a HostRuntime, name: &'a str) -> TokenFile<'a> {
        TokenFile { rt, name }
    }
}

impl<'a> TokenSource for TokenFile<'a> {
    // nothing is claimed of the file's contents
    ghost gives = { λ bytes. Unit {0} };

    ghost reads = { λ old bytes new. Unit {0} };

    fn read(&mut self) -> io::Result<Vec<u8>> {
        read_regular(self.rt, self.name)
    }
}
