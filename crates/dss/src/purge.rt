//! The command `purge`: removes what has ended from a database.
use crate::clock::SystemClock;
use crate::new_database::make_database;
use dss_command::fault::Fault;
use dss_command::moment::check_not_in_future;
use dss_database::files;
use sqlite::Start;
use std::io::Write;
use wire_http::Moments;

// Returns the current time: the given one, or otherwise that of the clock.
fn time_or_now(rt: &HostRuntime, now: Option<u64>) -> Result<u64, Fault> {
    match now {
        Some(now) => Ok(now),
        None => match SystemClock::new(rt).next() {
            Ok(now) => Ok(now),
            Err(_) => Err(Fault::Clock),
        },
    }
}

/// Runs the command. Rejects a time in the future before it opens the database.
pub(crate) fn purge<F: Start, W: Write>(
    rt: &HostRuntime,
    database: &str,
    until: u64,
    now: Option<u64>,
    start: F,
    output: &mut W,
) -> Result<(), Fault> {
    check_not_in_future(until, time_or_now(rt, now)?)?;
    make_database(rt, database)?;
    let _files = files::purge(rt, database, start, until, output)?;
    Ok(())
}
