//! What the commands `serve` and `serve --pool` share.
use crate::cause::Cause;
use crate::clock::SystemClock;
use crate::descriptors::max_clients;
use crate::log_file::SystemLog;
use crate::tokens::served_token_text;
use dss_command::fault::{Fault, io_fault};
use dss_command::ports::AdminListener;
use dss_command::token_files::print_token_check;
use dss_command::tokens::table_of;
use server_base::limits::MAX_CONNECTIONS;
use std::io::Write;
use std::net::SocketAddr;
use token_conf::token_table::TokenTable;
use wire_http::{Explaining, Moments};

/// Returns the maximum number of clients of a command line. It is smaller if the system has too few
/// descriptors.
pub(crate) fn clients_of(rt: &HostRuntime, max_connections: u64) -> usize {
    let clients = match usize::try_from(max_connections) {
        Ok(clients) => clients,
        Err(_) => MAX_CONNECTIONS,
    };
    match max_clients(rt) {
        Some(most) => clients.min(most),
        None => clients,
    }
}

/// Returns whether responses have explanations.
pub(crate) fn explaining(explain: bool) -> Explaining {
    if explain {
        Explaining::On
    } else {
        Explaining::Off
    }
}

/// Returns the admin port of a command line. If the system returns no time, the start is at 0.
pub(crate) fn admin_listener(
    rt: &HostRuntime,
    admin_port: Option<SocketAddr>,
) -> Option<AdminListener> {
    let address = admin_port?;
    let started = match SystemClock::new(rt).next() {
        Ok(moment) => moment,
        Err(_) => 0,
    };
    Some(AdminListener { address, started })
}

/// Returns the text of the token file of that name, and its table. If `verbose`, first prints the
/// errors and warnings of the file. A failed print is ignored.
pub(crate) fn served_tokens<E: Write>(
    rt: &HostRuntime,
    name: &str,
    verbose: bool,
    cause: &mut Cause,
    error: &mut E,
) -> Result<(String, TokenTable), Fault> {
    let text = match served_token_text(rt, name) {
        Ok(text) => text,
        Err(error) => {
            cause.record_file(name, &error);
            return Err(io_fault(&error, Fault::TokensUnread));
        }
    };
    if verbose {
        let _ = print_token_check(rt.alloc(), text.as_str(), error);
    }
    let tokens = table_of(rt.alloc(), text.as_str())?;
    Ok((text, tokens))
}

/// Opens the access log of that name, if there is one.
pub(crate) fn log_of<'a>(
    rt: &'a HostRuntime,
    name: Option<&'a str>,
    cause: &mut Cause,
) -> Result<Option<SystemLog<'a>>, Fault> {
    let Some(name) = name else {
        return Ok(None);
    };
    match SystemLog::open(rt, name) {
        Ok(log) => Ok(Some(log)),
        Err(error) => {
            cause.record_file(name, &error);
            Err(io_fault(&error, Fault::Output))
        }
    }
}
