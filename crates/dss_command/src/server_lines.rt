//! The lines of a service while it serves: those of its clients, of the token file, of the store and
//! of the clock.
ghost use Rattle.std.specs.Prelude.{◌++◌, OnOk, codes};
ghost use Rattle.std.specs.Io.KnownBytes.{Appends};
ghost use Rattle.dss_command.specs.Fault.{TellsClient};

use crate::aborted_connection::{print_aborted, print_more_resets};
use crate::clock_lines::{print_clock_event, print_removed, print_time_not_stored};
use crate::fault::{Fault, print_fault};
use crate::request_log::{LogFile, RequestLog};
use crate::store_lines::print_store_event;
use crate::token_files::print_token_check;
use crate::tokens::{has_error_lines, print_reload_fault};
use server_base::server_log::{
    AbortedConnection, ClockEvent, LoggedRequest, ServerLog, StoreEvent, TokenReloadFault,
};
use server_watch::reset_watch::ResetWatch;
use std::alloc::Global;
use std::io;
use std::io::Write;
use wire_http::StreamFault;

/// Prints one line that says why a client was aborted.
pub fn print_client_fault<E: Write>(fault: StreamFault, error: &mut E) -> io::Result<()>
    ensures { OnOk result (TellsClient fault (E.contents error.old) (E.contents error.new)) }
{
    print_fault(&Fault::from(fault), error)
}

/// Prints one line that says that no connection could be accepted.
pub fn print_accept_failed<E: Write>(error: &mut E) -> io::Result<()>
    ensures { OnOk result (Appends (E.contents error.old) (E.contents error.new)
        (codes "dss: accept: no file descriptor or memory for a connection; raise LimitNOFILE\n")) }
{
    writeln!(
        error,
        "dss: accept: no file descriptor or memory for a connection; raise LimitNOFILE"
    )
}

/// Prints one line that says that the instance of a pool may not act for a USS.
pub fn print_unassigned<E: Write>(uss: &str, error: &mut E) -> io::Result<()>
    ensures { OnOk result (Appends (E.contents error.old) (E.contents error.new)
        (codes "dss: pool: suppliers: this organization may not act for USS " ++ (uss.now
        ++ codes "; add it to the supplier list\n"))) }
{
    writeln!(
        error,
        "dss: pool: suppliers: this organization may not act for USS {uss}; \
         add it to the supplier list"
    )
}

/// The server log: the access log, if there is one, and a line for each fault of a client, of the
/// token file and of the clock. If `verbose`, also a line for each change of the store's state, and
/// for each purge that removed something, but for reset connections at most one a minute.
#[derive(Drop)]
pub(crate) struct Lines<'a, E: Write, L> {
    alloc: Global,
    error: &'a mut E,
    log: Option<RequestLog<L>>,
    verbose: bool,
    resets: ResetWatch,
}

impl<'a, E: Write, L: LogFile> Lines<'a, E, L> {
    /// Creates a log that prints to `error`, and writes a line for each request to the access log.
    pub(crate) fn new(alloc: Global, error: &'a mut E, log: Option<L>, verbose: bool) -> Self {
        Lines {
            alloc,
            error,
            log: log.map(|file| RequestLog::new(alloc, file)),
            verbose,
            resets: ResetWatch::new(),
        }
    }

    // Prints the lines of an aborted connection. If a client reset it, prints them at most once a
    // minute, and how many others were reset meanwhile.
    fn print_aborted_once(&mut self, fault: StreamFault, aborted: AbortedConnection) {
        let mut more = 0;
        if aborted.is_reset {
            match self.resets.note(aborted.at) {
                Some(unreported) => more = unreported,
                None => return,
            }
        }
        let _ = print_client_fault(fault, self.error);
        let _ = print_aborted(aborted, self.error);
        if more > 0 {
            let _ = print_more_resets(more, self.error);
        }
    }
}

impl<'a, E: Write, L: LogFile> ServerLog for Lines<'a, E, L> {
    fn connection_failed(&mut self, fault: StreamFault, aborted: AbortedConnection) {
        if self.verbose {
            self.print_aborted_once(fault, aborted);
        } else {
            let _ = print_client_fault(fault, self.error);
        }
    }

    fn request_answered(&mut self, request: &LoggedRequest<'_>) {
        if let Some(log) = &mut self.log {
            log.note(request);
        }
    }

    fn flush(&mut self) -> u64 {
        match &mut self.log {
            Some(log) => log.write(),
            None => 0,
        }
    }

    fn tokens_rejected(&mut self, fault: TokenReloadFault, checked: &[u8]) {
        let _ = print_reload_fault(fault, self.error);
        if self.verbose
            && has_error_lines(fault)
            && let Ok(text) = str::from_utf8(checked)
        {
            let _ = print_token_check(self.alloc, text, self.error);
        }
    }

    fn accept_failed(&mut self) {
        let _ = print_accept_failed(self.error);
    }

    fn unassigned(&mut self, uss: &str) {
        let _ = print_unassigned(uss, self.error);
    }

    fn store_event(&mut self, news: StoreEvent) {
        if self.verbose {
            let _ = print_store_event(news, self.error);
        }
    }

    fn clock_event(&mut self, news: ClockEvent) {
        let _ = print_clock_event(news, self.error);
    }

    fn time_not_stored(&mut self) {
        let _ = print_time_not_stored(self.error);
    }

    fn purged(&mut self, count: usize) {
        if self.verbose {
            let _ = print_removed(count, self.error);
        }
    }
}
