//! The line with the limits of the command `serve`.
ghost use Rattle.std.specs.Prelude.{OnOk};
ghost use Rattle.std.specs.Io.KnownBytes.{Appends};
ghost use Rattle.dss_command.specs.Limits.{limits_line};

use std::io;
use std::io::Write;

/// Prints one line with the maximum number of clients at once, the number of connections if
/// limited, and the quota of each USS if there is one.
pub fn print_limits<E: Write>(
    clients: u64,
    count: Option<u64>,
    quota: Option<u32>,
    error: &mut E,
) -> io::Result<()>
    ensures { OnOk result (Appends (E.contents error.old) (E.contents error.new)
        (limits_line clients count quota)) }
{
    match (count, quota) {
        (None, None) => writeln!(
            error,
            "dss: limits: {clients} clients at once, any number of connections",
        ),
        (Some(count), None) => writeln!(
            error,
            "dss: limits: {clients} clients at once, {count} connections",
        ),
        (None, Some(most)) => writeln!(
            error,
            "dss: limits: {clients} clients at once, any number of connections, \
             at most {most} kept of each supplier",
        ),
        (Some(count), Some(most)) => writeln!(
            error,
            "dss: limits: {clients} clients at once, {count} connections, \
             at most {most} kept of each supplier",
        ),
    }
}
