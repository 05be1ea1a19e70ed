//! The line that describes an aborted connection, next to that of its fault.
use server_base::phase::Phase;
use server_base::server_log::AbortedConnection;
use std::io;
use std::io::Write;

// Returns what a connection was doing, given its phase.
fn words(phase: Phase) -> &'static str {
    match phase {
        Phase::Idle => "idle",
        Phase::Sending => "reading a request",
        Phase::Taking => "writing a response",
        Phase::Ending => "closing",
    }
}

/// Prints one line that says how many connections were reset since the last one that was reported.
pub(crate) fn print_more_resets<E: Write>(count: u64, error: &mut E) -> io::Result<()> {
    writeln!(
        error,
        "dss: stream: {count} more connections were reset since the last such line"
    )
}

/// Prints one line that says which connection was aborted, and in which phase.
pub(crate) fn print_aborted<E: Write>(aborted: AbortedConnection, error: &mut E) -> io::Result<()> {
    let AbortedConnection {
        client,
        connection,
        phase,
        is_reset: _,
        at: _,
    } = aborted;
    let words = words(phase);
    match client {
        Some(client) => {
            writeln!(
                error,
                "dss: stream: connection {connection} of {client}, {words}"
            )
        }
        None => writeln!(error, "dss: stream: connection {connection}, {words}"),
    }
}
