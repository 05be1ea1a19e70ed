//! The lines that report the state of the store while it is served.
ghost use Rattle.std.specs.Prelude.{OnOk};
ghost use Rattle.std.specs.Io.KnownBytes.{Appends};
ghost use Rattle.dss_command.specs.StoreLines.{store_line};

use server_base::server_log::StoreEvent;
use std::io;
use std::io::Write;

/// Prints one line that reports a change of the store's state.
pub(crate) fn print_store_event<E: Write>(news: StoreEvent, error: &mut E) -> io::Result<()>
    ensures { OnOk result (Appends (E.contents error.old) (E.contents error.new)
        (store_line news)) }
{
    match news {
        StoreEvent::CommitFailed => {
            writeln!(
                error,
                "dss: store: commit failed; changes are answered with 500 until a commit succeeds"
            )
        }
        StoreEvent::StillFailing(count) => {
            writeln!(
                error,
                "dss: store: commits still fail: {count} more failures"
            )
        }
        StoreEvent::Recovered(count) => {
            writeln!(
                error,
                "dss: store: commits succeed again after {count} failures"
            )
        }
        StoreEvent::Stopped => {
            writeln!(
                error,
                "dss: store: stopped: the database failed; restart the service"
            )
        }
    }
}
