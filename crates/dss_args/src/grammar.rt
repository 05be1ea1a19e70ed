//! The grammar of the command line: the subcommands of the program, with their arguments.
ghost use Rattle.std.specs.Prelude.{◌≡◌, IfOk, codes, false};
ghost use Rattle.clap.specs.Words.{rule_of};
ghost use Rattle.dss_args.specs.Grammar.{
  HasGrammar,
  backup_app,
  begin_app,
  cell_app,
  choice_rule,
  database_rule,
  dss_app,
  explain_app,
  file_rule,
  flag_rule,
  follow_app,
  listen_rule,
  method_rule,
  needed_rule,
  now_rule,
  number_rule,
  option_rule,
  report_app,
  request_rule,
  requests_rule,
  run_app,
  self_app,
  serve_app,
  store_rule,
  target_rule,
  purge_app,
  to_rule,
  token_rule,
  tokens_app,
  tokens_rule,
  until_rule,
  upgrade_app,
  verify_app,
  word_rule,
};

use crate::command_args::{
    MAX_CONNECTIONS, MAX_COUNT, MAX_PORT, MAX_QUOTA, MAX_RESPONSE_MEMORY, MAX_TIME,
};
use crate::version::VERSION_TEXT;
use clap::builder::ValueParser;
use clap::{Arg, ArgAction, Command};
use std::alloc::{AllocError, Global};

/// The two ways to serve, as help and errors show them.
pub(crate) const SERVE_USAGE: &str = "dss serve [OPTIONS] --tokens <FILE> --db <FILE>\n       \
    dss serve [OPTIONS] --tokens <FILE> --pool <ENDPOINTS> --as <NAME>";

// Returns a required option with a value.
fn option<'a>(alloc: Global, name: &'a str) -> Arg<'a>
    ensures rule { rule_of result ≡ option_rule name.entry.now }
    ensures local { result.global ≡ false }
{
    Arg::new(alloc, name).long(name).required(true)
}

fn tokens_option<'a>(alloc: Global) -> Arg<'a>
    ensures rule { rule_of result ≡ tokens_rule }
    ensures local { result.global ≡ false }
{
    option(alloc, "tokens")
        .value_name("FILE")
        .help("Token file to load")
}

// Returns the option for the end of a purge.
fn until_option<'a>(alloc: Global) -> Arg<'a>
    ensures rule { rule_of result ≡ until_rule }
    ensures local { result.global ≡ false }
{
    option(alloc, "until")
        .value_name("SECONDS")
        .help("Purge what ended at or before this past time, in Unix seconds [0-253402300799]")
        .value_parser(ValueParser::unsigned(0, MAX_TIME))
}

fn now_option<'a>(alloc: Global) -> Arg<'a>
    ensures rule { rule_of result ≡ now_rule }
    ensures local { result.global ≡ false }
{
    option(alloc, "now")
        .value_name("SECONDS")
        .help("Time of each request, in Unix seconds [0-253402300799]")
        .value_parser(ValueParser::unsigned(0, MAX_TIME))
}

// Returns the database option of a subcommand that does not require one.
fn database_option<'a>(alloc: Global) -> Arg<'a>
    ensures rule { rule_of result ≡ database_rule }
    ensures local { result.global ≡ false }
{
    Arg::new(alloc, "db").long("db").value_name("FILE").help(
        "Database file, created if missing [default: the airspace is in memory]",
    )
}

// Returns the database option of a subcommand that requires one.
fn store_option<'a>(alloc: Global) -> Arg<'a>
    ensures rule { rule_of result ≡ store_rule }
    ensures local { result.global ≡ false }
{
    option(alloc, "db")
        .value_name("FILE")
        .help("Database file, created if missing")
}

// Returns the database option of the subcommand that serves, which an instance of a pool lacks.
fn served_option<'a>(alloc: Global) -> Arg<'a>
    ensures rule { rule_of result ≡ choice_rule (codes "db") }
    ensures local { result.global ≡ false }
{
    choice(alloc, "db", "FILE").help(
        "Database file, created if missing; required unless --pool is given",
    )
}

// Returns the database option of a subcommand that creates none.
fn source_option<'a>(alloc: Global) -> Arg<'a>
    ensures rule { rule_of result ≡ store_rule }
    ensures local { result.global ≡ false }
{
    option(alloc, "db")
        .value_name("FILE")
        .help("Database file, which must exist")
}

// Returns an optional argument with a number from 1.
fn number_option<'a>(alloc: Global, name: &'a str, value: &'a str, greatest: u64) -> Arg<'a>
    ensures rule { rule_of result ≡ number_rule name.entry.now 1 greatest }
    ensures local { result.global ≡ false }
{
    Arg::new(alloc, name)
        .long(name)
        .value_name(value)
        .value_parser(ValueParser::unsigned(1, greatest))
}

fn port_option<'a>(alloc: Global) -> Arg<'a>
    ensures rule { rule_of result ≡ number_rule (codes "port") 1 MAX_PORT }
    ensures local { result.global ≡ false }
{
    number_option(alloc, "port", "PORT", MAX_PORT).help(
        "Port to listen on; required unless each --listen has one [1-65535]",
    )
}

// Returns the option for the current time.
fn time_option<'a>(alloc: Global) -> Arg<'a>
    ensures rule { rule_of result ≡ number_rule (codes "now") 0 MAX_TIME }
    ensures local { result.global ≡ false }
{
    Arg::new(alloc, "now")
        .long("now")
        .value_name("SECONDS")
        .help("Current time, in Unix seconds [0-253402300799; default: the clock]")
        .value_parser(ValueParser::unsigned(0, MAX_TIME))
}

// Returns the option for the retention.
fn retention_option<'a>(alloc: Global) -> Arg<'a>
    ensures rule { rule_of result ≡ number_rule (codes "retention") 1 MAX_TIME }
    ensures local { result.global ≡ false }
{
    number_option(alloc, "retention", "SECONDS", MAX_TIME).help(
        "Purge what ended at least this many seconds ago [1-253402300799; default: never]",
    )
}

fn count_option<'a>(alloc: Global) -> Arg<'a>
    ensures rule { rule_of result ≡ number_rule (codes "count") 1 MAX_COUNT }
    ensures local { result.global ≡ false }
{
    number_option(alloc, "count", "NUMBER", MAX_COUNT).help(
        "Exit after this many connections [1-1000000; default: unlimited]",
    )
}

fn clients_option<'a>(alloc: Global) -> Arg<'a>
    ensures rule { rule_of result ≡ number_rule (codes "max-connections") 1 MAX_CONNECTIONS }
    ensures local { result.global ≡ false }
{
    number_option(alloc, "max-connections", "NUMBER", MAX_CONNECTIONS).help(
        "Max connections at once [1-1000; default: 1000]",
    )
}

// Returns the option for the memory of unsent responses.
fn memory_option<'a>(alloc: Global) -> Arg<'a>
    ensures rule { rule_of result ≡ number_rule (codes "response-memory") 1 MAX_RESPONSE_MEMORY }
    ensures local { result.global ≡ false }
{
    number_option(alloc, "response-memory", "MIB", MAX_RESPONSE_MEMORY).help(
        "Max memory for unsent responses in MiB, half of it for one USS [1-16384; default: 64]",
    )
}

fn quota_option<'a>(alloc: Global) -> Arg<'a>
    ensures rule { rule_of result ≡ number_rule (codes "quota") 1 MAX_QUOTA }
    ensures local { result.global ≡ false }
{
    number_option(alloc, "quota", "NUMBER", MAX_QUOTA).help(
        "Max entities and subscriptions to store per USS, with 64 cells for each \
         [1-4294967295; default: unlimited]",
    )
}

// Returns an optional argument with a value.
fn choice<'a>(alloc: Global, name: &'a str, value: &'a str) -> Arg<'a>
    ensures rule { rule_of result ≡ choice_rule name.entry.now }
    ensures local { result.global ≡ false }
{
    Arg::new(alloc, name).long(name).value_name(value)
}

// Returns the option for the admin port.
fn admin_option<'a>(alloc: Global) -> Arg<'a>
    ensures rule { rule_of result ≡ choice_rule (codes "admin-port") }
    ensures local { result.global ≡ false }
{
    choice(alloc, "admin-port", "PORT").help(
        "Admin port on 127.0.0.1, or as in [::1]:8078, for /health, /metrics and /stop \
         [1-65535; default: none]",
    )
}

// Returns the option for the directory of the backups that are requested on the admin port.
fn backups_option<'a>(alloc: Global) -> Arg<'a>
    ensures rule { rule_of result ≡ choice_rule (codes "backup-dir") }
    ensures local { result.global ≡ false }
{
    choice(alloc, "backup-dir", "DIR").help(
        "Directory for the backups of POST /backup on the admin port; requires --admin-port \
         [default: no backups]",
    )
}

// Returns the option for the addresses of etcd.
fn pool_option<'a>(alloc: Global) -> Arg<'a>
    ensures rule { rule_of result ≡ choice_rule (codes "pool") }
    ensures local { result.global ≡ false }
{
    choice(alloc, "pool", "ENDPOINTS").help(
        "Serve as an instance of a pool over etcd at these addresses, such as 127.0.0.1:2379, \
         separated by commas; requires --as [default: no pool]",
    )
}

// Returns the option for the name of an instance of a pool.
fn name_option<'a>(alloc: Global) -> Arg<'a>
    ensures rule { rule_of result ≡ choice_rule (codes "as") }
    ensures local { result.global ≡ false }
{
    choice(alloc, "as", "NAME").help("Name of this instance in the pool; requires --pool")
}

// Returns the option for the user of etcd.
fn user_option<'a>(alloc: Global) -> Arg<'a>
    ensures rule { rule_of result ≡ choice_rule (codes "etcd-user") }
    ensures local { result.global ≡ false }
{
    choice(alloc, "etcd-user", "FILE").help(
        "File with NAME:PASSWORD of etcd's user; requires --pool [default: no user]",
    )
}

// Returns the option for the directory of the pool's files.
fn files_option<'a>(alloc: Global) -> Arg<'a>
    ensures rule { rule_of result ≡ choice_rule (codes "files") }
    ensures local { result.global ≡ false }
{
    choice(alloc, "files", "DIR").help(
        "Start from the newest file that begin or follow wrote to this directory; requires --pool \
         [default: from the beginning of the log]",
    )
}

// Returns a required option with a value that has a name.
fn needed<'a>(alloc: Global, name: &'a str, value: &'a str) -> Arg<'a>
    ensures rule { rule_of result ≡ needed_rule name.entry.now }
    ensures local { result.global ≡ false }
{
    option(alloc, name).value_name(value)
}

// Returns the option for the addresses of etcd, of the subcommand that follows.
fn followed_option<'a>(alloc: Global) -> Arg<'a>
    ensures rule { rule_of result ≡ needed_rule (codes "pool") }
    ensures local { result.global ≡ false }
{
    needed(alloc, "pool", "ENDPOINTS").help(
        "Addresses of etcd, such as 127.0.0.1:2379, separated by commas",
    )
}

// Returns the option for the name under which the subcommand that follows writes.
fn follower_option<'a>(alloc: Global) -> Arg<'a>
    ensures rule { rule_of result ≡ needed_rule (codes "as") }
    ensures local { result.global ≡ false }
{
    needed(alloc, "as", "NAME").help("Name in the pool, which no instance has")
}

// Returns the option for the directory to which files are written.
fn written_option<'a>(alloc: Global) -> Arg<'a>
    ensures rule { rule_of result ≡ needed_rule (codes "files") }
    ensures local { result.global ≡ false }
{
    needed(alloc, "files", "DIR").help(
        "Directory of the files, which must exist; the two newest are kept",
    )
}

// Returns the option for the directory to which the first file is written.
fn first_option<'a>(alloc: Global) -> Arg<'a>
    ensures rule { rule_of result ≡ needed_rule (codes "files") }
    ensures local { result.global ≡ false }
{
    needed(alloc, "files", "DIR").help(
        "Directory of the files, which must exist and have no file of a pool",
    )
}

// Returns the option for the user of etcd, of the subcommand that follows.
fn own_user_option<'a>(alloc: Global) -> Arg<'a>
    ensures rule { rule_of result ≡ choice_rule (codes "etcd-user") }
    ensures local { result.global ≡ false }
{
    choice(alloc, "etcd-user", "FILE").help(
        "File with NAME:PASSWORD of etcd's user [default: no user]",
    )
}

// Returns the option for the addresses to listen on.
fn listen_option<'a>(alloc: Global) -> Arg<'a>
    ensures rule { rule_of result ≡ listen_rule }
    ensures local { result.global ≡ false }
{
    choice(alloc, "listen", "ADDRESS")
        .action(ArgAction::Append)
        .help(
            "IPv4 or IPv6 address to listen on, or address and port, as in [::1]:8080; \
             can be repeated [default: 127.0.0.1]",
        )
}

// Returns the option for the access log.
fn log_option<'a>(alloc: Global) -> Arg<'a>
    ensures rule { rule_of result ≡ choice_rule (codes "access-log") }
    ensures local { result.global ≡ false }
{
    choice(alloc, "access-log", "FILE").help(
        "Write a line per request to this file, or - for standard error [default: no log]",
    )
}

// Returns a required positional argument.
fn word<'a>(alloc: Global, name: &'a str) -> Arg<'a>
    ensures rule { rule_of result ≡ word_rule name.entry.now }
    ensures local { result.global ≡ false }
{
    Arg::new(alloc, name).required(true)
}

fn requests_argument<'a>(alloc: Global) -> Arg<'a>
    ensures rule { rule_of result ≡ requests_rule }
    ensures local { result.global ≡ false }
{
    word(alloc, "requests")
        .value_name("REQUESTS")
        .help("File of requests, or - for standard input")
}

fn request_argument<'a>(alloc: Global) -> Arg<'a>
    ensures rule { rule_of result ≡ request_rule }
    ensures local { result.global ≡ false }
{
    word(alloc, "request").value_name("REQUEST").help(
        "File of requests, at most 16384 bytes, or - for standard input",
    )
}

fn token_argument<'a>(alloc: Global) -> Arg<'a>
    ensures rule { rule_of result ≡ token_rule }
    ensures local { result.global ≡ false }
{
    word(alloc, "token")
        .value_name("TOKEN")
        .help("Token of the S2 cell")
}

// Returns the argument for the method of a request.
fn method_argument<'a>(alloc: Global) -> Arg<'a>
    ensures rule { rule_of result ≡ method_rule }
    ensures local { result.global ≡ false }
{
    word(alloc, "method")
        .value_name("METHOD")
        .help("Method of the request, such as PUT")
}

// Returns the argument for the target of a request.
fn target_argument<'a>(alloc: Global) -> Arg<'a>
    ensures rule { rule_of result ≡ target_rule }
    ensures local { result.global ≡ false }
{
    word(alloc, "target").value_name("PATH").help(
        "Path of the request, such as /dss/v1/uss_availability/uss-a",
    )
}

// Returns the option for the time of a request.
fn request_time_option<'a>(alloc: Global) -> Arg<'a>
    ensures rule { rule_of result ≡ number_rule (codes "now") 0 MAX_TIME }
    ensures local { result.global ≡ false }
{
    Arg::new(alloc, "now")
        .long("now")
        .value_name("SECONDS")
        .help("Also say if the volumes have ended by this time, in Unix seconds [0-253402300799]")
        .value_parser(ValueParser::unsigned(0, MAX_TIME))
}

// Returns the argument for the backup file.
fn destination_argument<'a>(alloc: Global) -> Arg<'a>
    ensures rule { rule_of result ≡ to_rule }
    ensures local { result.global ≡ false }
{
    word(alloc, "to").value_name("DESTINATION").help(
        "File of the backup, or with --live its directory, which must not exist",
    )
}

// Returns the argument for the database to verify.
fn file_argument<'a>(alloc: Global) -> Arg<'a>
    ensures rule { rule_of result ≡ file_rule }
    ensures local { result.global ≡ false }
{
    word(alloc, "file")
        .value_name("FILE")
        .help("Database file, or directory of a backup")
}

// Returns the option for the token file to check.
fn check_option<'a>(alloc: Global) -> Arg<'a>
    ensures rule { rule_of result ≡ choice_rule (codes "check") }
    ensures local { result.global ≡ false }
{
    choice(alloc, "check", "FILE").help(
        "Check this token file, and print a line per error or warning",
    )
}

// Returns the option for the USS of a new token.
fn new_option<'a>(alloc: Global) -> Arg<'a>
    ensures rule { rule_of result ≡ choice_rule (codes "new-token") }
    ensures local { result.global ≡ false }
{
    choice(alloc, "new-token", "USS").help(
        "Generate a token for this USS, and print its table; requires --scopes",
    )
}

// Returns the option for the scopes of a new token.
fn scopes_option<'a>(alloc: Global) -> Arg<'a>
    ensures rule { rule_of result ≡ choice_rule (codes "scopes") }
    ensures local { result.global ≡ false }
{
    choice(alloc, "scopes", "SCOPES").help("Scopes of the new token, separated by commas")
}

// Returns a flag, which is set or not.
fn flag<'a>(alloc: Global, name: &'a str) -> Arg<'a>
    ensures rule { rule_of result ≡ flag_rule name.entry.now }
    ensures local { result.global ≡ false }
{
    Arg::new(alloc, name).long(name).action(ArgAction::SetTrue)
}

// Returns the flag that generates a salt.
fn new_salt_flag<'a>(alloc: Global) -> Arg<'a>
    ensures rule { rule_of result ≡ flag_rule (codes "new-salt") }
    ensures local { result.global ≡ false }
{
    flag(alloc, "new-salt").help("Generate a salt, and print its line")
}

// Returns the flag for a backup of a database that is being served.
fn live_flag<'a>(alloc: Global) -> Arg<'a>
    ensures rule { rule_of result ≡ flag_rule (codes "live") }
    ensures local { result.global ≡ false }
{
    flag(alloc, "live").help(
        "Back up while the service runs, into a directory of a file and a log, and verify it",
    )
}

// Returns the flag that prints the cells of each reference.
fn cells_flag<'a>(alloc: Global) -> Arg<'a>
    ensures rule { rule_of result ≡ flag_rule (codes "cells") }
    ensures local { result.global ≡ false }
{
    flag(alloc, "cells").help(
        "Print a line per cell of each volume instead of one per reference, and no serial",
    )
}

// Returns the flag for double sync.
fn double_sync_flag<'a>(alloc: Global) -> Arg<'a>
    ensures rule { rule_of result ≡ flag_rule (codes "double-sync") }
    ensures local { result.global ≡ false }
{
    flag(alloc, "double-sync").help(
        "Sync each commit twice, and assume nothing about torn writes [default: sync once]",
    )
}

// Returns the flag that adds explanations to responses.
fn explain_flag<'a>(alloc: Global) -> Arg<'a>
    ensures rule { rule_of result ≡ flag_rule (codes "explain") }
    ensures local { result.global ≡ false }
{
    flag(alloc, "explain").help(
        "Explain denials by P1, P2, P5, P6 and P13 in the response, and name ignored members",
    )
}

// Returns the flag that prints warnings and limits before listening.
fn verbose_flag<'a>(alloc: Global) -> Arg<'a>
    ensures rule { rule_of result ≡ flag_rule (codes "verbose") }
    ensures local { result.global ≡ false }
{
    flag(alloc, "verbose").help(
        "Print warnings about the token file, and the limits, on standard error",
    )
}

fn run_command<'a>(alloc: Global) -> Result<Command<'a>, AllocError>
    ensures { IfOk result (HasGrammar run_app) }
{
    Command::new(alloc, "run")
        .about("Serve one stream of requests")
        .arg(tokens_option(alloc))?
        .arg(now_option(alloc))?
        .arg(database_option(alloc))?
        .arg(requests_argument(alloc))
}

fn serve_command<'a>(alloc: Global) -> Result<Command<'a>, AllocError>
    ensures { IfOk result (HasGrammar serve_app) }
{
    Command::new(alloc, "serve")
        .about("Serve connections to a port of this machine, many at once")
        .override_usage(SERVE_USAGE)
        .arg(tokens_option(alloc))?
        .arg(served_option(alloc))?
        .arg(pool_option(alloc))?
        .arg(name_option(alloc))?
        .arg(user_option(alloc))?
        .arg(files_option(alloc))?
        .arg(port_option(alloc))?
        .arg(count_option(alloc))?
        .arg(clients_option(alloc))?
        .arg(memory_option(alloc))?
        .arg(quota_option(alloc))?
        .arg(retention_option(alloc))?
        .arg(admin_option(alloc))?
        .arg(backups_option(alloc))?
        .arg(listen_option(alloc))?
        .arg(log_option(alloc))?
        .arg(double_sync_flag(alloc))?
        .arg(explain_flag(alloc))?
        .arg(verbose_flag(alloc))
}

fn begin_command<'a>(alloc: Global) -> Result<Command<'a>, AllocError>
    ensures { IfOk result (HasGrammar begin_app) }
{
    Command::new(alloc, "begin")
        .about(
            "Write the first file of a pool, which begins with the airspace of a database, and \
             print the name of the file",
        )
        .arg(tokens_option(alloc))?
        .arg(source_option(alloc))?
        .arg(first_option(alloc))?
        .arg(verbose_flag(alloc))
}

fn follow_command<'a>(alloc: Global) -> Result<Command<'a>, AllocError>
    ensures { IfOk result (HasGrammar follow_app) }
{
    Command::new(alloc, "follow")
        .about(
            "Write the airspace of a pool to a file from which an instance can start, and print \
             the name of the file",
        )
        .arg(tokens_option(alloc))?
        .arg(followed_option(alloc))?
        .arg(follower_option(alloc))?
        .arg(written_option(alloc))?
        .arg(own_user_option(alloc))?
        .arg(verbose_flag(alloc))
}

fn self_command<'a>(alloc: Global) -> Result<Command<'a>, AllocError>
    ensures { IfOk result (HasGrammar self_app) }
{
    Command::new(alloc, "self")
        .about("Serve one stream of requests in memory, through a loopback socket")
        .arg(tokens_option(alloc))?
        .arg(now_option(alloc))?
        .arg(request_argument(alloc))
}

fn cell_command<'a>(alloc: Global) -> Result<Command<'a>, AllocError>
    ensures { IfOk result (HasGrammar cell_app) }
{
    Command::new(alloc, "cell")
        .about("Print the cell of a token")
        .arg(token_argument(alloc))
}

fn explain_command<'a>(alloc: Global) -> Result<Command<'a>, AllocError>
    ensures { IfOk result (HasGrammar explain_app) }
{
    Command::new(alloc, "explain")
        .about(
            "Print what is wrong with a request whose body is on standard input, and which of \
             its members are ignored",
        )
        .arg(request_time_option(alloc))?
        .arg(method_argument(alloc))?
        .arg(target_argument(alloc))
}

fn report_command<'a>(alloc: Global) -> Result<Command<'a>, AllocError>
    ensures { IfOk result (HasGrammar report_app) }
{
    Command::new(alloc, "report")
        .about("Print the references that a database stores, and its serial")
        .arg(store_option(alloc))?
        .arg(cells_flag(alloc))
}

fn backup_command<'a>(alloc: Global) -> Result<Command<'a>, AllocError>
    ensures { IfOk result (HasGrammar backup_app) }
{
    Command::new(alloc, "backup")
        .about("Back up a database: all of it, or no file")
        .arg(source_option(alloc))?
        .arg(live_flag(alloc))?
        .arg(destination_argument(alloc))
}

fn verify_command<'a>(alloc: Global) -> Result<Command<'a>, AllocError>
    ensures { IfOk result (HasGrammar verify_app) }
{
    Command::new(alloc, "verify")
        .about("Check a database or a backup without changing it, and print what report prints")
        .arg(file_argument(alloc))
}

fn upgrade_command<'a>(alloc: Global) -> Result<Command<'a>, AllocError>
    ensures { IfOk result (HasGrammar upgrade_app) }
{
    Command::new(alloc, "upgrade")
        .about("Upgrade a database to format 2, and print its previous format")
        .arg(store_option(alloc))
}

fn purge_command<'a>(alloc: Global) -> Result<Command<'a>, AllocError>
    ensures { IfOk result (HasGrammar purge_app) }
{
    Command::new(alloc, "purge")
        .about(
            "Purge ended intents, ended constraints, and ended subscriptions that no intent \
             references, and print how many",
        )
        .arg(store_option(alloc))?
        .arg(until_option(alloc))?
        .arg(time_option(alloc))
}

fn tokens_command<'a>(alloc: Global) -> Result<Command<'a>, AllocError>
    ensures { IfOk result (HasGrammar tokens_app) }
{
    Command::new(alloc, "tokens")
        .about(
            "Check a token file, or generate a token or a salt: \
             one of --check, --new-token, --new-salt",
        )
        .arg(check_option(alloc))?
        .arg(new_option(alloc))?
        .arg(scopes_option(alloc))?
        .arg(new_salt_flag(alloc))
}

/// Returns the program's command, with all subcommands.
pub(crate) fn command<'a>(alloc: Global) -> Result<Command<'a>, AllocError>
    ensures { IfOk result (HasGrammar dss_app) }
{
    Command::new(alloc, "dss")
        .about("Discovery and synchronization service for drone traffic")
        .version(VERSION_TEXT)
        .subcommand_required(true)
        .subcommand(run_command(alloc)?)?
        .subcommand(serve_command(alloc)?)?
        .subcommand(begin_command(alloc)?)?
        .subcommand(follow_command(alloc)?)?
        .subcommand(self_command(alloc)?)?
        .subcommand(cell_command(alloc)?)?
        .subcommand(explain_command(alloc)?)?
        .subcommand(report_command(alloc)?)?
        .subcommand(backup_command(alloc)?)?
        .subcommand(verify_command(alloc)?)?
        .subcommand(upgrade_command(alloc)?)?
        .subcommand(purge_command(alloc)?)?
        .subcommand(tokens_command(alloc)?)
}
