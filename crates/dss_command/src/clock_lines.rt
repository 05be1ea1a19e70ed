//! The lines that report the clock and purges while the service runs.
ghost use Rattle.std.specs.Prelude.{OnOk};
ghost use Rattle.std.specs.Io.KnownBytes.{Appends};
ghost use Rattle.dss_command.specs.ClockLines.{clock_line, not_stored_line, purge_line};

use server_base::server_log::ClockEvent;
use std::io;
use std::io::Write;

/// Prints one line that reports what became known of the clock.
pub(crate) fn print_clock_event<E: Write>(news: ClockEvent, error: &mut E) -> io::Result<()>
    ensures { OnOk result (Appends (E.contents error.old) (E.contents error.new)
        (clock_line news)) }
{
    match news {
        ClockEvent::JumpedForward(by) => {
            writeln!(
                error,
                "dss: clock: jumped forward by {by} s; purges are held"
            )
        }
        ClockEvent::JumpedBackward(by) => {
            writeln!(
                error,
                "dss: clock: jumped backward by {by} s; purges are held"
            )
        }
        ClockEvent::StartedLate(by) => {
            writeln!(
                error,
                "dss: clock: {by} s after the last known time; purges are held"
            )
        }
        ClockEvent::StartedAhead(by) => {
            writeln!(
                error,
                "dss: clock: not back from a jump, {by} s after the last trusted time; \
                 purges are held"
            )
        }
        ClockEvent::StartedBehind(by) => {
            writeln!(
                error,
                "dss: clock: {by} s before the last trusted time; purges are held"
            )
        }
        ClockEvent::Returned => writeln!(error, "dss: clock: returned; purges go on"),
        ClockEvent::Confirmed => writeln!(error, "dss: clock: confirmed; purges go on"),
    }
}

/// Prints one line that says that a trusted time was not stored.
pub(crate) fn print_time_not_stored<E: Write>(error: &mut E) -> io::Result<()>
    ensures { OnOk result (Appends (E.contents error.old) (E.contents error.new)
        not_stored_line) }
{
    writeln!(
        error,
        "dss: clock: cannot store the trusted time; check the directory of the database"
    )
}

/// Prints one line that says how many items a purge removed.
pub(crate) fn print_removed<E: Write>(count: usize, error: &mut E) -> io::Result<()>
    ensures { OnOk result (Appends (E.contents error.old) (E.contents error.new)
        (purge_line count)) }
{
    writeln!(
        error,
        "dss: purge: removed {count} ended intents, constraints and subscriptions"
    )
}
