//! The commands `report` and `upgrade`, which leave the airspace of a database as it is.
use crate::change_time::ChangeTimes;
use crate::new_database::make_database;
use dss_command::fault::Fault;
use dss_database::files;
use sqlite::Start;
use std::io::Write;

/// Runs the command `report`.
pub(crate) fn report<F: Start, W: Write>(
    rt: &HostRuntime,
    database: &str,
    places: bool,
    start: F,
    output: &mut W,
) -> Result<(), Fault> {
    let times = ChangeTimes::of(rt, database);
    make_database(rt, database)?;
    let done = match files::report(rt, database, start, places, output) {
        Ok(_files) => Ok(()),
        Err(failure) => Err(Fault::from(failure)),
    };
    times.end(rt, database, done)
}

/// Runs the command `upgrade`.
pub(crate) fn upgrade<F: Start, W: Write>(
    rt: &HostRuntime,
    database: &str,
    start: F,
    output: &mut W,
) -> Result<(), Fault> {
    let times = ChangeTimes::of(rt, database);
    make_database(rt, database)?;
    let done = match files::upgrade(rt, database, start, output) {
        Ok(_files) => Ok(()),
        Err(failure) => Err(Fault::from(failure)),
    };
    times.end(rt, database, done)
}
