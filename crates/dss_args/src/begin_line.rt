//! What the subcommand `begin` requests.
ghost use Rattle.std.specs.Prelude.{IfNone, IfSome, Some, codes};
ghost use Rattle.clap.specs.Words.{found_of, rows_of};
ghost use Rattle.dss_args.specs.CommandArgs.{Asks, AsksNothing};

use crate::begin_args::BeginArgs;
use crate::command_args::{CommandArgs, is_set};
use clap::ArgMatches;

// Returns the command of the subcommand `begin`. Returns `None` if a value is missing.
pub(crate) fn begin_line<'a>(matches: &ArgMatches<'a>) -> Option<CommandArgs<'a>>
    ensures some { IfSome result (Asks (Some (codes "begin", rows_of (found_of matches.now)))) }
    ensures none { IfNone result (AsksNothing
        (Some (codes "begin", rows_of (found_of matches.now)))) }
{
    Some(CommandArgs::Begin(BeginArgs {
        tokens: matches.get_str("tokens")?,
        database: matches.get_str("db")?,
        files: matches.get_str("files")?,
        verbose: is_set(matches, "verbose"),
    }))
}
