//! The command `run`: one stream of requests, with one time for all.
ghost use Rattle.std.specs.Prelude.{◌≡◌};
ghost use Rattle.token_conf.specs.TokenFile.{salt_of};

use crate::new_database::make_database;
use crate::tokens::token_table;
use dss_command::fault::{Fault, io_fault};
use dss_command::stream::serve_in_memory;
use dss_command::tokens::salt_of;
use dss_database::files::{self, close_database, open_database};
use entity_core::salt::Salt;
use sqlite::Start;
use std::fs::File;
use std::io::{Read, Write};
use token_conf::token_table::TokenTable;
use wire_http::Counted;

/// The arguments of the command `run`.
#[derive(Clone, Copy)]
pub(crate) struct RunArgs<'a> {
    /// The name of the token file.
    pub(crate) tokens: &'a str,
    /// The time of each request, in Unix seconds.
    pub(crate) now: u64,
    /// The name of the database file; the airspace is in memory if `None`.
    pub(crate) database: Option<&'a str>,
    /// The name of the file of requests; `-` is standard input.
    pub(crate) requests: &'a str,
}

// Serves the requests of a file, or of standard input, in memory.
fn in_memory<R: Read, W: Write>(
    rt: &HostRuntime,
    given: &RunArgs<'_>,
    tokens: &TokenTable,
    salt: Salt,
    input: &mut Counted<R>,
    output: &mut Counted<W>,
) -> Result<(), Fault>
    requires { salt ≡ salt_of tokens.now }
{
    if given.requests == "-" {
        return serve_in_memory(rt.alloc(), salt, tokens, given.now, input, output);
    }
    match File::open(rt, given.requests) {
        Ok(file) => {
            let mut input = Counted::new(file);
            serve_in_memory(rt.alloc(), salt, tokens, given.now, &mut input, output)
        }
        Err(cause) => Err(io_fault(&cause, Fault::RequestsUnread)),
    }
}

// Serves them over the database in the file of that name, which is closed last.
fn over_file<F: Start, R: Read, W: Write>(
    rt: &HostRuntime,
    given: &RunArgs<'_>,
    name: &str,
    start: F,
    tokens: &TokenTable,
    salt: Salt,
    input: &mut Counted<R>,
    output: &mut Counted<W>,
) -> Result<(), Fault>
    requires { salt ≡ salt_of tokens.now }
{
    make_database(rt, name)?;
    let (space, _) = open_database(rt, name, start)?;
    let files = if given.requests == "-" {
        files::run(rt.alloc(), space, salt, tokens, given.now, input, output)
    } else {
        match File::open(rt, given.requests) {
            Ok(file) => {
                let mut input = Counted::new(file);
                files::run(
                    rt.alloc(),
                    space,
                    salt,
                    tokens,
                    given.now,
                    &mut input,
                    output,
                )
            }
            Err(cause) => close_database(Err(io_fault(&cause, Fault::RequestsUnread)), space),
        }
    };
    let _files = files?;
    Ok(())
}

/// Runs the command.
pub(crate) fn run<F: Start, R: Read, W: Write>(
    rt: &HostRuntime,
    given: &RunArgs<'_>,
    start: F,
    input: &mut Counted<R>,
    output: &mut Counted<W>,
) -> Result<(), Fault> {
    let tokens = token_table(rt, given.tokens)?;
    let salt = salt_of(&tokens)?;
    match given.database {
        Some(name) => over_file(rt, given, name, start, &tokens, salt, input, output),
        None => in_memory(rt, given, &tokens, salt, input, output),
    }
}
