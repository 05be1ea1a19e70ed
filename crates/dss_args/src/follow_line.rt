//! What the subcommand `follow` requests.
ghost use Rattle.std.specs.Prelude.{IfNone, IfOk, IfSome, Some, codes};
ghost use Rattle.clap.specs.Words.{found_of, rows_of};
ghost use Rattle.dss_args.specs.declared.follow_args.FollowArgs.{FollowArgs};
ghost use Rattle.dss_args.specs.CommandArgs.{Asks, AsksNothing, HasEndpoints, HasFollow};

use crate::command_args::{CommandArgs, NO_LINE, is_set};
use crate::follow_args::FollowArgs;
use crate::pool_line::{endpoint_refusal, endpoints_in, name_in, name_refusal};
use clap::ArgMatches;
use std::alloc::{AllocError, Global};
use std::net::SocketAddr;

// Returns the command of the subcommand `follow` with these addresses of etcd. Returns `None` if
// another value is missing or invalid.
fn follow_on<'a>(matches: &ArgMatches<'a>, endpoints: Vec<SocketAddr>) -> Option<CommandArgs<'a>>
    ensures some { IfSome result (λ line.
        HasEndpoints (rows_of (found_of matches.now)) endpoints.items
        → Asks (Some (codes "follow", rows_of (found_of matches.now))) line) }
    ensures none { IfNone result ((given : FollowArgs)
        → HasFollow (rows_of (found_of matches.now)) given → ⊥) }
{
    Some(CommandArgs::Follow(FollowArgs {
        tokens: matches.get_str("tokens")?,
        endpoints,
        name: name_in(matches)?,
        files: matches.get_str("files")?,
        etcd_user: matches.get_str("etcd-user"),
        verbose: is_set(matches, "verbose"),
    }))
}

// Returns the command of the subcommand `follow`. Returns `None` if a value is missing or invalid.
pub(crate) fn follow_line<'a>(
    alloc: Global,
    matches: &ArgMatches<'a>,
) -> Result<Option<CommandArgs<'a>>, AllocError>
    ensures some { IfOk result (λ found. IfSome found
        (Asks (Some (codes "follow", rows_of (found_of matches.now))))) }
    ensures none { IfOk result (λ found. IfNone found (AsksNothing
        (Some (codes "follow", rows_of (found_of matches.now))))) }
{
    let Some(endpoints) = endpoints_in(alloc, matches)? else {
        return Ok(None);
    };
    Ok(follow_on(matches, endpoints))
}

// Returns the error message for arguments of `follow` that request no command.
pub(crate) fn follow_refusal(
    alloc: Global,
    matches: &ArgMatches<'_>,
) -> Result<String, AllocError> {
    if let Some(list) = matches.get_str("pool")
        && let Some(text) = endpoint_refusal(alloc, list)?
    {
        return Ok(text);
    }
    if let Some(text) = name_refusal(alloc, matches)? {
        return Ok(text);
    }
    String::from_str(alloc, NO_LINE)
}
