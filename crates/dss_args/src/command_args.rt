//! What a command line requests.
ghost use Rattle.std.specs.Net.Grammar.{IsIpText};
ghost use Rattle.std.specs.Net.Socket.{socket_ip};
ghost use Rattle.std.specs.declared.net.ip_addr.IpAddr.{IpAddr};
ghost use Rattle.std.specs.declared.net.socket_addr.SocketAddr.{SocketAddr};
ghost use Rattle.std.specs.Prelude.{
  ℕ,
  ◌≤◌,
  ◌≡◌,
  ◌↔◌,
  [],
  IfErr,
  IfNone,
  IfOk,
  IfSome,
  IsTrue,
  List,
  None,
  Option,
  Some,
  codes,
  false,
};
ghost use Rattle.clap.specs.Faults.{fault_of as mistakes_of};
ghost use Rattle.clap.specs.Words.{found_of, rows_of, subcommand_of, subcommand_rows_of};
ghost use Rattle.dss_args.specs.Grammar.{dss_app};
ghost use Rattle.dss_args.specs.declared.serve_args.ServeArgs.{ServeArgs};
ghost use Rattle.dss_args.specs.CommandArgs.{
  AreListens,
  Asks,
  AsksNothing,
  Explains,
  HasAdmin,
  HasChoice,
  HasNumberOr,
  HasListen,
  HasNumberIn,
  HasServing,
  IsAddress,
  IsListen,
  IsLocal,
  IsLoopback,
  ListensOn,
  asks_pool,
  is_set,
  lacks_port,
  line_of_options,
  texts,
};

use crate::begin_args::BeginArgs;
use crate::begin_line::begin_line;
use crate::fault::{LineFault, fault_of};
use crate::follow_args::FollowArgs;
use crate::follow_line::{follow_line, follow_refusal};
use crate::grammar::{SERVE_USAGE, command};
use crate::pool_args::PoolArgs;
use crate::pool_line::{is_given, pool_line, pool_option_in, pool_refusal};
use crate::serve_args::ServeArgs;
use clap::ArgMatches;
use std::alloc::{AllocError, Global};
use std::net::{IpAddr, Ipv4Addr, SocketAddr};

/// The last time that a command line can name, in Unix seconds: the end of the year 9999.
pub const MAX_TIME: u64 = 253_402_300_799;

/// The maximum TCP port number.
pub const MAX_PORT: u64 = 65_535;

/// The maximum number of connections to serve before exit.
pub const MAX_COUNT: u64 = 1_000_000;

/// The maximum number of connections at once, which is also the default.
pub const MAX_CONNECTIONS: u64 = 1_000;

/// The maximum memory for unsent responses in mebibytes, and the default.
pub const MAX_RESPONSE_MEMORY: u64 = 16_384;

pub const RESPONSE_MEMORY: u64 = 64;

/// The maximum quota of a USS.
pub const MAX_QUOTA: u64 = 4_294_967_295;

// The error messages for arguments that are valid one by one but request no command.
pub(crate) const NO_LINE: &str = "error: the command line names no whole command\n";

const NO_PORT: &str = "error: --port is missing; write it, or a port in each --listen, \
    as in 127.0.0.1:8080 or [::1]:8080\n";

const NO_ADMIN: &str = "error: --backup-dir without --admin-port; write --admin-port PORT, too\n";

/// A command that a command line requests.
#[derive(Debug, Drop, PartialEq, Eq)]
pub enum CommandArgs<'a> {
    /// Serves one stream of requests, in memory or from a database.
    Run {
        /// The name of the token file.
        tokens: &'a str,
        /// The time of each request, in Unix seconds.
        now: u64,
        /// The name of the database file; the airspace is in memory if `None`.
        database: Option<&'a str>,
        /// The name of the file of requests; `-` is standard input.
        requests: &'a str,
    },
    /// Serves connections to a port of this machine.
    Serve(ServeArgs<'a>),
    /// Serves connections to a port of this machine, as an instance of a pool.
    Pool(PoolArgs<'a>),
    /// Writes the first file of a pool, which begins with the airspace of a database.
    Begin(BeginArgs<'a>),
    /// Follows the log of a pool, and writes a file from which an instance can start.
    Follow(FollowArgs<'a>),
    /// Serves one stream of requests in memory, through a loopback socket.
    Loopback {
        /// The name of the token file.
        tokens: &'a str,
        /// The time of each request, in Unix seconds.
        now: u64,
        /// The name of the file of requests; `-` is standard input.
        request: &'a str,
    },
    /// Prints the cell of a token.
    Cell {
        /// The token as given.
        token: &'a str,
    },
    /// Prints what is wrong with a request.
    Explain {
        /// The method as given.
        method: &'a str,
        /// The target as given.
        target: &'a str,
        /// The time of the request, in Unix seconds; ended volumes are not told if `None`.
        now: Option<u64>,
    },
    /// Prints what a database stores.
    Report {
        /// The name of the database file.
        database: &'a str,
        /// True if the cells of each reference are printed.
        places: bool,
    },
    /// Backs up a database.
    Backup {
        /// The name of the database file.
        database: &'a str,
        /// The name of the backup file, or of its directory if it is live.
        to: &'a str,
        /// True if another process may have the database open.
        live: bool,
    },
    /// Checks a database without changing it, and prints what it stores.
    Verify {
        /// The name of the database file, or of the directory of a backup.
        file: &'a str,
    },
    /// Upgrades a database to the newest format, and prints its previous format.
    Upgrade {
        /// The name of the database file.
        database: &'a str,
    },
    /// Purges what has ended in a database, and prints how much it was.
    Purge {
        /// The name of the database file.
        database: &'a str,
        /// The time by which it ended, in Unix seconds.
        until: u64,
        /// The current time, in Unix seconds; that of the clock if `None`.
        now: Option<u64>,
    },
    /// Prints the errors and warnings of a token file.
    CheckTokens {
        /// The name of the token file.
        file: &'a str,
    },
    /// Generates a token, and prints its table for a token file.
    NewToken {
        /// The id of the USS as given.
        uss: &'a str,
        /// The names of the token's scopes as given, separated by commas.
        scopes: &'a str,
    },
    /// Generates a salt, and prints its line for a token file.
    NewSalt,
}

// Returns the number of an argument, if it has one in this range.
fn number_in(matches: &ArgMatches<'_>, name: &str, least: u64, greatest: u64) -> Option<u64>
    ensures some { IfSome result (HasNumberIn name.now least greatest
        (rows_of (found_of matches.now))) }
    ensures none { IfNone result ((n : ℕ) → HasNumberIn name.now least greatest
        (rows_of (found_of matches.now)) n → ⊥) }
{
    let number = matches.get_one::<u64>(name)?;
    if number < least {
        return None;
    }
    if number > greatest {
        return None;
    }
    Some(number)
}

// Returns the command of the subcommand `run`. Returns `None` if a value is missing or out of
// range.
fn run_line<'a>(matches: &ArgMatches<'a>) -> Option<CommandArgs<'a>>
    ensures some { IfSome result (Asks (Some (codes "run", rows_of (found_of matches.now)))) }
    ensures none { IfNone result (AsksNothing
        (Some (codes "run", rows_of (found_of matches.now)))) }
{
    Some(CommandArgs::Run {
        tokens: matches.get_str("tokens")?,
        now: number_in(matches, "now", 0, MAX_TIME)?,
        database: matches.get_str("db"),
        requests: matches.get_str("requests")?,
    })
}

// Returns the port of an argument, if it has one.
fn port_in(matches: &ArgMatches<'_>, name: &str) -> Option<u16>
    ensures some { IfSome result (HasNumberIn name.now 1 MAX_PORT
        (rows_of (found_of matches.now))) }
    ensures none { IfNone result ((n : ℕ) → HasNumberIn name.now 1 MAX_PORT
        (rows_of (found_of matches.now)) n → ⊥) }
{
    let number = number_in(matches, name, 1, MAX_PORT)?;
    match u16::try_from(number) {
        Ok(port) => Some(port),
        Err(_) => None,
    }
}

// Returns the number of an option, if it is present. Returns `None` if it is present and out of
// range.
pub(crate) fn choice_in(
    matches: &ArgMatches<'_>,
    name: &str,
    least: u64,
    greatest: u64,
) -> Option<Option<u64>>
    ensures some { IfSome result (HasChoice name.now least greatest
        (rows_of (found_of matches.now))) }
    ensures none { IfNone result ((choice : Option ℕ) → HasChoice name.now least greatest
        (rows_of (found_of matches.now)) choice → ⊥) }
{
    if matches.get_str(name).is_none() {
        return Some(None);
    }
    Some(Some(number_in(matches, name, least, greatest)?))
}

// Returns the number of an optional argument, or `otherwise` if it is absent. Returns `None` if a
// number is present and out of range.
pub(crate) fn number_or(
    matches: &ArgMatches<'_>,
    name: &str,
    least: u64,
    greatest: u64,
    otherwise: u64,
) -> Option<u64>
    ensures some { IfSome result (HasNumberOr name.now least greatest otherwise
        (rows_of (found_of matches.now))) }
    ensures none { IfNone result ((n : ℕ) → HasNumberOr name.now least greatest otherwise
        (rows_of (found_of matches.now)) n → ⊥) }
{
    if matches.get_str(name).is_none() {
        return Some(otherwise);
    }
    number_in(matches, name, least, greatest)
}

// Returns the number of `--port`, if it is present. Returns `None` if it is out of range.
fn common_port_in(matches: &ArgMatches<'_>) -> Option<Option<u16>>
    ensures some { IfSome result (HasChoice (codes "port") 1 MAX_PORT
        (rows_of (found_of matches.now))) }
    ensures none { IfNone result ((port : Option ℕ) → HasChoice (codes "port") 1 MAX_PORT
        (rows_of (found_of matches.now)) port → ⊥) }
{
    let Some(number) = choice_in(matches, "port", 1, MAX_PORT)? else {
        return Some(None);
    };
    match u16::try_from(number) {
        Ok(port) => Some(Some(port)),
        Err(_) => None,
    }
}

// Returns 127.0.0.1 with a port.
fn local(port: u16) -> SocketAddr
    ensures { IsLocal result port }
{
    SocketAddr::new(IpAddr::V4(Ipv4Addr::new(127, 0, 0, 1)), port)
}

// Returns true if this is 127.0.0.1 or ::1.
fn is_loopback(ip: IpAddr) -> bool
    ensures { IsTrue result ↔ IsLoopback ip }
{
    match ip {
        IpAddr::V4(ip) => matches!(ip.octets(), [127, 0, 0, 1]),
        IpAddr::V6(ip) => ip.is_loopback(),
    }
}

// Parses an IPv4 or IPv6 address.
fn ip_of(text: &str) -> Option<IpAddr>
    ensures some { IfSome result (IsIpText text.now) }
    ensures none { IfNone result ((ip : IpAddr) → IsIpText text.now ip → ⊥) }
{
    match text.parse::<IpAddr>() {
        Ok(ip) => Some(ip),
        Err(_) => None,
    }
}

// Parses an address with its port, which is not 0.
pub(crate) fn address_of(text: &str) -> Option<SocketAddr>
    ensures some { IfSome result (IsAddress text.now) }
    ensures none { IfNone result ((a : SocketAddr) → IsAddress text.now a → ⊥) }
{
    match text.parse::<SocketAddr>() {
        Ok(address) => {
            if address.port() == 0 {
                return None;
            }
            Some(address)
        }
        Err(_) => None,
    }
}

// Parses an address with its port, which is not 0. Returns `None` if it is not 127.0.0.1 or ::1.
fn loopback_of(text: &str) -> Option<SocketAddr>
    ensures some { IfSome result (λ a. IsAddress text.now a × IsLoopback (socket_ip a)) }
    ensures none { IfNone result ((a : SocketAddr) → IsAddress text.now a
        → IsLoopback (socket_ip a) → ⊥) }
{
    let address = address_of(text)?;
    if is_loopback(address.ip()) {
        return Some(address);
    }
    None
}

// Parses an address to listen on, whose port is this one if the text has none.
fn listen_of(text: &str, port: Option<u16>) -> Option<SocketAddr>
    ensures some { IfSome result (IsListen port text.now) }
    ensures none { IfNone result ((a : SocketAddr) → IsListen port text.now a → ⊥) }
{
    match (ip_of(text), port) {
        (Some(ip), Some(port)) => Some(SocketAddr::new(ip, port)),
        _ => address_of(text),
    }
}

// Parses addresses to listen on. Returns `None` if a text is none.
pub(crate) fn each_listen(
    alloc: Global,
    words: &[&str],
    port: Option<u16>,
) -> Result<Option<Vec<SocketAddr>>, AllocError>
    ensures some { IfOk result (λ found. IfSome found (λ v.
        AreListens port (texts words.now) v.items)) }
    ensures none { IfOk result (λ found. IfNone found ((all : List SocketAddr)
        → AreListens port (texts words.now) all → ⊥)) }
{
    let mut addresses = Vec::new(alloc);
    for word in words {
        let Some(address) = listen_of(word, port) else {
            return Ok(None);
        };
        addresses.push(address)?;
    }
    Ok(Some(addresses))
}

// Returns 127.0.0.1 with the port, if there is one.
fn default_listen(alloc: Global, port: Option<u16>) -> Result<Option<Vec<SocketAddr>>, AllocError>
    ensures some { IfOk result (λ found. IfSome found (λ v. ListensOn port None v.items)) }
    ensures none { IfOk result (λ found. IfNone found ((all : List SocketAddr)
        → ListensOn port None all → ⊥)) }
{
    let Some(port) = port else {
        return Ok(None);
    };
    let mut addresses = Vec::new(alloc);
    addresses.push(local(port))?;
    Ok(Some(addresses))
}

// Returns the addresses to listen on. Returns `None` if a value is no address, or a port is
// missing.
pub(crate) fn listen_in(
    alloc: Global,
    matches: &ArgMatches<'_>,
) -> Result<Option<Vec<SocketAddr>>, AllocError>
    ensures some { IfOk result (λ found. IfSome found (λ v.
        HasListen (rows_of (found_of matches.now)) v.items)) }
    ensures none { IfOk result (λ found. IfNone found ((all : List SocketAddr)
        → HasListen (rows_of (found_of matches.now)) all → ⊥)) }
{
    let Some(port) = common_port_in(matches) else {
        return Ok(None);
    };
    match matches.get_strs("listen") {
        Some(words) => each_listen(alloc, words, port),
        None => default_listen(alloc, port),
    }
}

// Returns the address of the admin port, if it is present. Returns `None` if it is no port, and no
// loopback address with a port.
pub(crate) fn admin_in(matches: &ArgMatches<'_>) -> Option<Option<SocketAddr>>
    ensures some { IfSome result (HasAdmin (rows_of (found_of matches.now))) }
    ensures none { IfNone result ((admin : Option SocketAddr)
        → HasAdmin (rows_of (found_of matches.now)) admin → ⊥) }
{
    let Some(text) = matches.get_str("admin-port") else {
        return Some(None);
    };
    match port_in(matches, "admin-port") {
        Some(port) => Some(Some(local(port))),
        None => Some(Some(loopback_of(text)?)),
    }
}

// Returns the quota of each USS, if it is present. Returns `None` if it is out of range.
fn quota_in(matches: &ArgMatches<'_>) -> Option<Option<u32>>
    ensures some { IfSome result (HasChoice (codes "quota") 1 MAX_QUOTA
        (rows_of (found_of matches.now))) }
    ensures none { IfNone result ((most : Option ℕ) → HasChoice (codes "quota") 1 MAX_QUOTA
        (rows_of (found_of matches.now)) most → ⊥) }
{
    let Some(number) = choice_in(matches, "quota", 1, MAX_QUOTA)? else {
        return Some(None);
    };
    match u32::try_from(number) {
        Ok(most) => Some(Some(most)),
        Err(_) => None,
    }
}

// Returns true if a backup directory is given without an admin port, on which backups are
// requested.
fn lacks_port(matches: &ArgMatches<'_>) -> bool
    ensures { result ≡ lacks_port (rows_of (found_of matches.now)) }
{
    matches.get_str("backup-dir").is_some() && matches.get_str("admin-port").is_none()
}

// Returns the command of the subcommand `serve` without `--pool`, with these addresses to listen
// on. Returns `None` if another value is missing or invalid.
fn serve_on<'a>(matches: &ArgMatches<'a>, listen: Vec<SocketAddr>) -> Option<CommandArgs<'a>>
    ensures some { IfSome result (λ line.
        asks_pool (rows_of (found_of matches.now)) ≡ false
        → HasListen (rows_of (found_of matches.now)) listen.items
        → Asks (Some (codes "serve", rows_of (found_of matches.now))) line) }
    ensures none { IfNone result ((given : ServeArgs)
        → HasServing (rows_of (found_of matches.now)) given → ⊥) }
{
    if pool_option_in(matches).is_some() {
        return None;
    }
    if lacks_port(matches) {
        return None;
    }
    Some(CommandArgs::Serve(ServeArgs {
        tokens: matches.get_str("tokens")?,
        database: matches.get_str("db")?,
        listen,
        count: choice_in(matches, "count", 1, MAX_COUNT)?,
        max_connections: number_or(
            matches,
            "max-connections",
            1,
            MAX_CONNECTIONS,
            MAX_CONNECTIONS,
        )?,
        response_memory: number_or(
            matches,
            "response-memory",
            1,
            MAX_RESPONSE_MEMORY,
            RESPONSE_MEMORY,
        )?,
        quota: quota_in(matches)?,
        retention: choice_in(matches, "retention", 1, MAX_TIME)?,
        admin_port: admin_in(matches)?,
        backup_dir: matches.get_str("backup-dir"),
        access_log: matches.get_str("access-log"),
        double_sync: is_set(matches, "double-sync"),
        explain: is_set(matches, "explain"),
        verbose: is_set(matches, "verbose"),
    }))
}

// Returns the command of the subcommand `serve`. Returns `None` if a value is missing or invalid.
fn serve_line<'a>(
    alloc: Global,
    matches: &ArgMatches<'a>,
) -> Result<Option<CommandArgs<'a>>, AllocError>
    ensures some { IfOk result (λ found. IfSome found
        (Asks (Some (codes "serve", rows_of (found_of matches.now))))) }
    ensures none { IfOk result (λ found. IfNone found (AsksNothing
        (Some (codes "serve", rows_of (found_of matches.now))))) }
{
    if is_given(matches, "pool") {
        return pool_line(alloc, matches);
    }
    let Some(listen) = listen_in(alloc, matches)? else {
        return Ok(None);
    };
    Ok(serve_on(matches, listen))
}

// Returns the command of the subcommand `self`. Returns `None` if a value is missing or out of
// range.
fn loopback_line<'a>(matches: &ArgMatches<'a>) -> Option<CommandArgs<'a>>
    ensures some { IfSome result (Asks (Some (codes "self", rows_of (found_of matches.now)))) }
    ensures none { IfNone result (AsksNothing
        (Some (codes "self", rows_of (found_of matches.now)))) }
{
    Some(CommandArgs::Loopback {
        tokens: matches.get_str("tokens")?,
        now: number_in(matches, "now", 0, MAX_TIME)?,
        request: matches.get_str("request")?,
    })
}

// Returns the command of the subcommand `cell`. Returns `None` if the token is missing.
fn cell_line<'a>(matches: &ArgMatches<'a>) -> Option<CommandArgs<'a>>
    ensures some { IfSome result (Asks (Some (codes "cell", rows_of (found_of matches.now)))) }
    ensures none { IfNone result (AsksNothing
        (Some (codes "cell", rows_of (found_of matches.now)))) }
{
    Some(CommandArgs::Cell {
        token: matches.get_str("token")?,
    })
}

// Returns the command of the subcommand `explain`. Returns `None` if a value is missing or out of
// range.
fn explain_line<'a>(matches: &ArgMatches<'a>) -> Option<CommandArgs<'a>>
    ensures some { IfSome result (Asks (Some (codes "explain", rows_of (found_of matches.now)))) }
    ensures none { IfNone result (AsksNothing
        (Some (codes "explain", rows_of (found_of matches.now)))) }
{
    Some(CommandArgs::Explain {
        method: matches.get_str("method")?,
        target: matches.get_str("target")?,
        now: choice_in(matches, "now", 0, MAX_TIME)?,
    })
}

// Returns the command of the subcommand `report`. Returns `None` if the database is missing.
fn report_line<'a>(matches: &ArgMatches<'a>) -> Option<CommandArgs<'a>>
    ensures some { IfSome result (Asks (Some (codes "report", rows_of (found_of matches.now)))) }
    ensures none { IfNone result (AsksNothing
        (Some (codes "report", rows_of (found_of matches.now)))) }
{
    Some(CommandArgs::Report {
        database: matches.get_str("db")?,
        places: is_set(matches, "cells"),
    })
}

// Returns the command of the subcommand `backup`. Returns `None` if a file is missing.
fn backup_line<'a>(matches: &ArgMatches<'a>) -> Option<CommandArgs<'a>>
    ensures some { IfSome result (Asks (Some (codes "backup", rows_of (found_of matches.now)))) }
    ensures none { IfNone result (AsksNothing
        (Some (codes "backup", rows_of (found_of matches.now)))) }
{
    Some(CommandArgs::Backup {
        database: matches.get_str("db")?,
        to: matches.get_str("to")?,
        live: is_set(matches, "live"),
    })
}

// Returns the command of the subcommand `verify`. Returns `None` if the file is missing.
fn verify_line<'a>(matches: &ArgMatches<'a>) -> Option<CommandArgs<'a>>
    ensures some { IfSome result (Asks (Some (codes "verify", rows_of (found_of matches.now)))) }
    ensures none { IfNone result (AsksNothing
        (Some (codes "verify", rows_of (found_of matches.now)))) }
{
    Some(CommandArgs::Verify {
        file: matches.get_str("file")?,
    })
}

// Returns the command of the subcommand `upgrade`. Returns `None` if the database is missing.
fn upgrade_line<'a>(matches: &ArgMatches<'a>) -> Option<CommandArgs<'a>>
    ensures some { IfSome result (Asks (Some (codes "upgrade", rows_of (found_of matches.now)))) }
    ensures none { IfNone result (AsksNothing
        (Some (codes "upgrade", rows_of (found_of matches.now)))) }
{
    Some(CommandArgs::Upgrade {
        database: matches.get_str("db")?,
    })
}

// Returns the command of the subcommand `purge`. Returns `None` if a value is missing or out of
// range.
fn purge_line<'a>(matches: &ArgMatches<'a>) -> Option<CommandArgs<'a>>
    ensures some { IfSome result (Asks (Some (codes "purge", rows_of (found_of matches.now)))) }
    ensures none { IfNone result (AsksNothing
        (Some (codes "purge", rows_of (found_of matches.now)))) }
{
    Some(CommandArgs::Purge {
        database: matches.get_str("db")?,
        until: number_in(matches, "until", 0, MAX_TIME)?,
        now: choice_in(matches, "now", 0, MAX_TIME)?,
    })
}

// Returns true if a flag is set.
pub(crate) fn is_set(matches: &ArgMatches<'_>, name: &str) -> bool
    ensures { result ≡ is_set name.now (rows_of (found_of matches.now)) }
{
    match matches.get_str(name) {
        Some(text) => text == "true",
        None => false,
    }
}

// Returns the command of the options of `tokens`. Returns `None` if they conflict.
fn line_of_options<'a>(
    check: Option<&'a str>,
    new: Option<&'a str>,
    scopes: Option<&'a str>,
    new_salt: bool,
) -> Option<CommandArgs<'a>>
    ensures { result ≡ line_of_options check.entry new.entry scopes.entry new_salt }
{
    match (check, new, scopes, new_salt) {
        (Some(file), None, None, false) => Some(CommandArgs::CheckTokens { file }),
        (None, Some(uss), Some(scopes), false) => Some(CommandArgs::NewToken { uss, scopes }),
        (None, None, None, true) => Some(CommandArgs::NewSalt),
        _ => None,
    }
}

// Returns the command of the subcommand `tokens`. Returns `None` if its options do not request
// exactly one.
fn tokens_line<'a>(matches: &ArgMatches<'a>) -> Option<CommandArgs<'a>>
    ensures some { IfSome result (Asks (Some (codes "tokens", rows_of (found_of matches.now)))) }
    ensures none { IfNone result (AsksNothing
        (Some (codes "tokens", rows_of (found_of matches.now)))) }
{
    let check = matches.get_str("check");
    let new = matches.get_str("new-token");
    let scopes = matches.get_str("scopes");
    line_of_options(check, new, scopes, is_set(matches, "new-salt"))
}

// Returns the command of a subcommand. Returns `None` if no subcommand has that name.
fn line_of<'a>(
    alloc: Global,
    name: &str,
    matches: &ArgMatches<'a>,
) -> Result<Option<CommandArgs<'a>>, AllocError>
    ensures some { IfOk result (λ found. IfSome found
        (Asks (Some (name.now, rows_of (found_of matches.now))))) }
    ensures none { IfOk result (λ found. IfNone found
        (AsksNothing (Some (name.now, rows_of (found_of matches.now))))) }
{
    match name {
        "run" => Ok(run_line(matches)),
        "serve" => serve_line(alloc, matches),
        "begin" => Ok(begin_line(matches)),
        "follow" => follow_line(alloc, matches),
        "self" => Ok(loopback_line(matches)),
        "cell" => Ok(cell_line(matches)),
        "explain" => Ok(explain_line(matches)),
        "report" => Ok(report_line(matches)),
        "backup" => Ok(backup_line(matches)),
        "verify" => Ok(verify_line(matches)),
        "upgrade" => Ok(upgrade_line(matches)),
        "purge" => Ok(purge_line(matches)),
        "tokens" => Ok(tokens_line(matches)),
        _ => Ok(None),
    }
}

// Returns the command of the matched subcommand. Returns `None` if there is none.
fn line_in<'a>(
    alloc: Global,
    matches: &ArgMatches<'a>,
) -> Result<Option<CommandArgs<'a>>, AllocError>
    ensures some { IfOk result (λ found. IfSome found (Asks (subcommand_rows_of matches.now))) }
    ensures none { IfOk result (λ found. IfNone found
        (AsksNothing (subcommand_rows_of matches.now))) }
{
    match matches.subcommand() {
        Some((name, below)) => line_of(alloc, name, below),
        None => Ok(None),
    }
}

// Returns the error message for a missing database, as `clap` writes it for a required option.
fn no_database(alloc: Global) -> Result<String, AllocError> {
    format!(in alloc;
        "error: the following required arguments were not provided:\n  --db <FILE>\n\n\
         Usage: {SERVE_USAGE}\n\nFor more information, try '--help'.\n"
    )
}

// Returns the error message for arguments of `serve` that request no command.
fn serve_refusal(alloc: Global, matches: &ArgMatches<'_>) -> Result<String, AllocError> {
    if let Some(text) = pool_refusal(alloc, matches)? {
        return Ok(text);
    }
    if !is_given(matches, "pool") && !is_given(matches, "db") {
        return no_database(alloc);
    }
    if let Some(words) = matches.get_strs("listen") {
        for word in words {
            if listen_of(word, Some(1)).is_none() {
                return format!(in alloc;
                    "error: --listen {word}: no IP address, with or without a port; \
                     write 127.0.0.1, ::1, 127.0.0.1:8080 or [::1]:8080\n"
                );
            }
        }
    }
    if let Some(word) = matches.get_str("admin-port")
        && admin_in(matches).is_none()
    {
        return format!(in alloc;
            "error: --admin-port {word}: no port from 1 to 65535, alone or after 127.0.0.1 or \
             [::1]; write 8078, 127.0.0.1:8078 or [::1]:8078\n"
        );
    }
    if lacks_port(matches) {
        return String::from_str(alloc, NO_ADMIN);
    }
    String::from_str(alloc, NO_PORT)
}

// Returns the error message for arguments that are valid one by one but request no command.
fn refusal(alloc: Global, matches: &ArgMatches<'_>) -> Result<String, AllocError> {
    match matches.subcommand() {
        Some(("serve", below)) => serve_refusal(alloc, below),
        Some(("follow", below)) => follow_refusal(alloc, below),
        _ => String::from_str(alloc, NO_LINE),
    }
}

/// Parses a command line, whose first argument is the program's name.
///
/// Returns a command only for arguments without an error. A fault has the whole text that the user
/// reads, with its line ends. `clap`'s own specification of the grammar says what the arguments
/// request and which errors they have.
pub fn parse<'a>(alloc: Global, words: &'a [&'a str]) -> Result<CommandArgs<'a>, LineFault>
    ensures ok { IfOk result (Asks (subcommand_of dss_app (texts words.entry.now))) }
    ensures faultless { IfOk result (λ _. mistakes_of dss_app (texts words.entry.now) ≡ []) }
    ensures err { IfErr result (Explains (mistakes_of dss_app (texts words.entry.now))
        (subcommand_of dss_app (texts words.entry.now))) }
{
    let matches = match command(alloc)?.try_get_matches_from(words) {
        Ok(matches) => matches,
        Err(error) => return Err(fault_of(alloc, &error)),
    };
    let line = line_in(alloc, &matches)?;
    match line {
        Some(line) => Ok(line),
        None => Err(LineFault::Refused(refusal(alloc, &matches)?)),
    }
}
