//! What the subcommand `serve` requests with `--pool`.
ghost use Rattle.std.specs.declared.net.socket_addr.SocketAddr.{SocketAddr};
ghost use Rattle.std.specs.Borrow.{Bor};
ghost use Rattle.std.specs.List.{list_all};
ghost use Rattle.std.specs.Prelude.{
  ℕ,
  ◌≡◌,
  IfNone,
  IfOk,
  IfSome,
  List,
  Some,
  codes,
  is_some,
};
ghost use Rattle.clap.specs.Words.{found_of, rows_of};
ghost use Rattle.dss_args.specs.declared.pool_args.PoolArgs.{PoolArgs};
ghost use Rattle.dss_args.specs.CommandArgs.{
  Asks,
  HasEndpoints,
  HasListen,
  HasName,
  HasPool,
  has_pool_option,
  has_store_option,
  is_given,
  is_instance_name,
  is_name_byte,
  parts_of,
  texts,
};

use crate::command_args::{
    CommandArgs, MAX_CONNECTIONS, MAX_COUNT, MAX_TIME, address_of, admin_in, choice_in,
    each_listen, is_set, listen_in, number_or,
};
use crate::pool_args::PoolArgs;
use clap::ArgMatches;
use std::alloc::{AllocError, Global};
use std::net::SocketAddr;

// The maximum number of characters of the name of an instance.
const MAX_NAME: usize = 64;

const NO_NAME: &str = "error: --as is missing; write a name of this instance in the pool, \
    as in --as instance-1\n";

// Returns true if an option is given.
pub(crate) fn is_given(matches: &ArgMatches<'_>, name: &str) -> bool
    ensures { result ≡ is_given name.now (rows_of (found_of matches.now)) }
{
    matches.get_str(name).is_some()
}

// Returns an option that requires `--pool`, if one is given.
pub(crate) fn pool_option_in(matches: &ArgMatches<'_>) -> Option<&'static str>
    ensures { is_some result ≡ has_pool_option (rows_of (found_of matches.now)) }
{
    if is_given(matches, "as") {
        return Some("--as");
    }
    if is_given(matches, "etcd-user") {
        return Some("--etcd-user");
    }
    if is_given(matches, "files") {
        return Some("--files");
    }
    None
}

// Returns an option that an instance of a pool does not have, if one is given.
fn store_option_in(matches: &ArgMatches<'_>) -> Option<&'static str>
    ensures { is_some result ≡ has_store_option (rows_of (found_of matches.now)) }
{
    if is_given(matches, "db") {
        return Some("--db");
    }
    if is_given(matches, "quota") {
        return Some("--quota");
    }
    if is_given(matches, "response-memory") {
        return Some("--response-memory");
    }
    if is_given(matches, "backup-dir") {
        return Some("--backup-dir");
    }
    if is_set(matches, "double-sync") {
        return Some("--double-sync");
    }
    None
}

// Returns the parts of a text, separated by commas.
fn parts_of(alloc: Global, text: &str) -> Result<Vec<&str>, AllocError>
    ensures { IfOk result (λ parts. texts parts.items ≡ parts_of text.now) }
{
    text.split(',').collect(alloc)
}

// Returns the addresses of `--pool`. Returns `None` if it is absent, or if a part is no address
// with a port.
pub(crate) fn endpoints_in(
    alloc: Global,
    matches: &ArgMatches<'_>,
) -> Result<Option<Vec<SocketAddr>>, AllocError>
    ensures some { IfOk result (λ found. IfSome found (λ v.
        HasEndpoints (rows_of (found_of matches.now)) v.items)) }
    ensures none { IfOk result (λ found. IfNone found ((all : List SocketAddr)
        → HasEndpoints (rows_of (found_of matches.now)) all → ⊥)) }
{
    let Some(text) = matches.get_str("pool") else {
        return Ok(None);
    };
    let parts = parts_of(alloc, text)?;
    each_listen(alloc, parts.as_slice(), None)
}

// Returns true if all characters can be in the name of an instance.
fn has_name_bytes(text: &str) -> bool
    ensures { result ≡ list_all is_name_byte text.now }
{
    text.as_bytes().iter().all(|b| b.is_ascii_alphanumeric()
        || *b == b'-'
        || *b == b'.'
        || *b == b'_')
}

// Returns true if this can be the name of an instance.
fn is_instance_name(text: &str) -> bool
    ensures { result ≡ is_instance_name text.now }
{
    !text.is_empty() && text.len() <= MAX_NAME && has_name_bytes(text)
}

// Returns the name of the instance. Returns `None` if it is absent or invalid.
pub(crate) fn name_in<'a>(matches: &ArgMatches<'a>) -> Option<&'a str>
    ensures some { IfSome result (HasName (rows_of (found_of matches.now))) }
    ensures none { IfNone result ((name : Bor (List ℕ))
        → HasName (rows_of (found_of matches.now)) name → ⊥) }
{
    let name = matches.get_str("as")?;
    if is_instance_name(name) {
        return Some(name);
    }
    None
}

// Returns the command of the subcommand `serve` with `--pool`, these addresses of etcd, and these
// to listen on. Returns `None` if another value is missing or invalid.
fn pool_on<'a>(
    matches: &ArgMatches<'a>,
    endpoints: Vec<SocketAddr>,
    listen: Vec<SocketAddr>,
) -> Option<CommandArgs<'a>>
    ensures some { IfSome result (λ line.
        HasEndpoints (rows_of (found_of matches.now)) endpoints.items
        → HasListen (rows_of (found_of matches.now)) listen.items
        → Asks (Some (codes "serve", rows_of (found_of matches.now))) line) }
    ensures none { IfNone result ((given : PoolArgs)
        → HasPool (rows_of (found_of matches.now)) given → ⊥) }
{
    if store_option_in(matches).is_some() {
        return None;
    }
    Some(CommandArgs::Pool(PoolArgs {
        tokens: matches.get_str("tokens")?,
        endpoints,
        name: name_in(matches)?,
        etcd_user: matches.get_str("etcd-user"),
        files: matches.get_str("files"),
        retention: choice_in(matches, "retention", 1, MAX_TIME)?,
        listen,
        count: choice_in(matches, "count", 1, MAX_COUNT)?,
        max_connections: number_or(
            matches,
            "max-connections",
            1,
            MAX_CONNECTIONS,
            MAX_CONNECTIONS,
        )?,
        admin_port: admin_in(matches)?,
        access_log: matches.get_str("access-log"),
        explain: is_set(matches, "explain"),
        verbose: is_set(matches, "verbose"),
    }))
}

// Returns the command of the subcommand `serve` with `--pool`. Returns `None` if a value is missing
// or invalid.
pub(crate) fn pool_line<'a>(
    alloc: Global,
    matches: &ArgMatches<'a>,
) -> Result<Option<CommandArgs<'a>>, AllocError>
    ensures some { IfOk result (λ found. IfSome found
        (Asks (Some (codes "serve", rows_of (found_of matches.now))))) }
    ensures none { IfOk result (λ found. IfNone found ((given : PoolArgs)
        → HasPool (rows_of (found_of matches.now)) given → ⊥)) }
{
    let Some(endpoints) = endpoints_in(alloc, matches)? else {
        return Ok(None);
    };
    let Some(listen) = listen_in(alloc, matches)? else {
        return Ok(None);
    };
    Ok(pool_on(matches, endpoints, listen))
}

// Returns the error message for the first part of `--pool` that is no address, if there is one.
pub(crate) fn endpoint_refusal(alloc: Global, list: &str) -> Result<Option<String>, AllocError> {
    let parts = parts_of(alloc, list)?;
    for part in parts.as_slice() {
        if address_of(part).is_none() {
            return Ok(Some(format!(in alloc;
                "error: --pool {list}: \"{part}\" is no IP address with a port from 1 to 65535; \
                 write 127.0.0.1:2379 or [::1]:2379, and several with commas between\n"
            )?));
        }
    }
    Ok(None)
}

// Returns the error message for `--as`, which must be given. Returns `None` if it is valid.
pub(crate) fn name_refusal(
    alloc: Global,
    matches: &ArgMatches<'_>,
) -> Result<Option<String>, AllocError> {
    match matches.get_str("as") {
        Some(word) if !is_instance_name(word) => Ok(Some(format!(in alloc;
            "error: --as {word}: no name of an instance; write 1 to 64 of the characters \
             a-z A-Z 0-9 . _ -\n"
        )?)),
        Some(_) => Ok(None),
        None => Ok(Some(String::from_str(alloc, NO_NAME)?)),
    }
}

// Returns the error message for the options of a pool. Returns `None` if they are valid.
pub(crate) fn pool_refusal(
    alloc: Global,
    matches: &ArgMatches<'_>,
) -> Result<Option<String>, AllocError> {
    let Some(list) = matches.get_str("pool") else {
        return match pool_option_in(matches) {
            Some(option) => Ok(Some(format!(in alloc;
                "error: {option} without --pool; write --pool ENDPOINTS, too\n"
            )?)),
            None => Ok(None),
        };
    };
    if let Some(option) = store_option_in(matches) {
        return Ok(Some(format!(in alloc;
            "error: {option} cannot be used with --pool; leave out one of the two\n"
        )?));
    }
    if let Some(text) = endpoint_refusal(alloc, list)? {
        return Ok(Some(text));
    }
    name_refusal(alloc, matches)
}
