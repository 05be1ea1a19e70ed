//! The execution of one command line, up to its exit status.
ghost use Rattle.std.specs.Prelude.{◌≡◌, IfErr, OnOk, string_bytes};
ghost use Rattle.std.specs.Io.KnownBytes.{Appends};
ghost use Rattle.dss_args.specs.CommandArgs.{texts};
ghost use Rattle.wire_http.specs.Counted.{inner_of};
ghost use Rattle.dss_command.specs.Fault.{status_of};
ghost use Rattle.dss_command.specs.Line.{Does, EndsLine, EndsRefused};
ghost use Rattle.dss_command.specs.declared.fault.Fault.TheVariants.{Output};

use crate::explain::explain;
use crate::fault::{Fault, print_fault, status};
use crate::print::cell;
use dss_args::begin_args::BeginArgs;
use dss_args::command_args::{CommandArgs, parse};
use dss_args::fault::LineFault;
use dss_args::follow_args::FollowArgs;
use dss_args::pool_args::PoolArgs;
use dss_args::serve_args::ServeArgs;
use std::alloc::Global;
use std::io::{Read, Write};
use wire_http::Counted;

/// The commands that need the system. Contracts cannot describe what the system holds and does: the
/// text of a named file, the listeners on a port, the time.
///
/// `does line remaining before after done` states that the command of that line may end with this
/// result, if the reader still has these bytes and the writer changes so.
pub trait Commands {
    ghost use Rattle.std.specs.Prelude.{ℕ, List, Option, Result, Some, None, OnOk, ◌≡◌};
    ghost use Rattle.dss_args.specs.declared.command_args.CommandArgs.{CommandArgs};
    ghost use Rattle.dss_command.specs.declared.fault.Fault.{Fault};

    ghost does: { CommandArgs → (remaining before after : Option (List ℕ)) → Result (Unit {0}) Fault
        → Type 0 };

    /// Runs the command `run`.
    fn run<R: Read, W: Write>(
        self,
        tokens: &str,
        now: u64,
        database: Option<&str>,
        requests: &str,
        input: &mut Counted<R>,
        output: &mut Counted<W>,
    ) -> Result<(), Fault>
        ensures { does (CommandArgs.Run tokens.entry now database.entry requests.entry)
            (R.remaining (inner_of input.old))
            (W.contents (inner_of output.old)) (W.contents (inner_of output.new)) result };

    /// Runs the command `serve`.
    fn serve<E: Write>(self, given: ServeArgs<'_>, error: &mut E) -> Result<(), Fault>
        ensures { does (CommandArgs.Serve given.entry) None (E.contents error.old)
            (E.contents error.new)
            result };

    /// Runs the command `serve` as an instance of a pool.
    fn serve_pool<E: Write>(self, given: PoolArgs<'_>, error: &mut E) -> Result<(), Fault>
        ensures { does (CommandArgs.Pool given.entry) None (E.contents error.old)
            (E.contents error.new)
            result };

    /// Runs the command `begin`.
    fn begin<W: Write, E: Write>(
        self,
        given: BeginArgs<'_>,
        output: &mut W,
        error: &mut E,
    ) -> Result<(), Fault>
        ensures { does (CommandArgs.Begin given.entry) None
            (W.contents output.old) (W.contents output.new) result };

    /// Runs the command `follow`.
    fn follow<W: Write, E: Write>(
        self,
        given: FollowArgs<'_>,
        output: &mut W,
        error: &mut E,
    ) -> Result<(), Fault>
        ensures { does (CommandArgs.Follow given.entry) None
            (W.contents output.old) (W.contents output.new) result };

    /// Runs the command `self`.
    fn loop_back<R: Read, W: Write>(
        self,
        tokens: &str,
        now: u64,
        request: &str,
        input: &mut Counted<R>,
        output: &mut Counted<W>,
    ) -> Result<(), Fault>
        ensures { does (CommandArgs.Loopback tokens.entry now request.entry)
            (R.remaining (inner_of input.old))
            (W.contents (inner_of output.old)) (W.contents (inner_of output.new)) result };

    /// Runs the command `report`.
    fn report<W: Write>(self, database: &str, places: bool, output: &mut W) -> Result<(), Fault>
        ensures { does (CommandArgs.Report database.entry places) None
            (W.contents output.old) (W.contents output.new) result };

    /// Runs the command `backup`, which prints nothing.
    fn backup(self, database: &str, to: &str, live: bool) -> Result<(), Fault>
        ensures { does (CommandArgs.Backup database.entry to.entry live) None None None result };

    /// Runs the command `verify`.
    fn verify<W: Write>(self, file: &str, output: &mut W) -> Result<(), Fault>
        ensures { does (CommandArgs.Verify file.entry) None
            (W.contents output.old) (W.contents output.new) result };

    /// Runs the command `upgrade`.
    fn upgrade<W: Write>(self, database: &str, output: &mut W) -> Result<(), Fault>
        ensures { does (CommandArgs.Upgrade database.entry) None
            (W.contents output.old) (W.contents output.new) result };

    /// Runs the command `purge`.
    fn purge<W: Write>(
        self,
        database: &str,
        until: u64,
        now: Option<u64>,
        output: &mut W,
    ) -> Result<(), Fault>
        ensures { does (CommandArgs.Purge database.entry until now) None
            (W.contents output.old) (W.contents output.new) result };

    /// Runs the command `tokens --check`.
    fn check_tokens<W: Write>(self, file: &str, output: &mut W) -> Result<(), Fault>
        ensures { does (CommandArgs.CheckTokens file.entry) None
            (W.contents output.old) (W.contents output.new) result };

    /// Runs the command `tokens --new-token`. If no token is generated, prints the reason on a line
    /// of `error`.
    fn new_token<W: Write, E: Write>(
        self,
        uss: &str,
        scopes: &str,
        output: &mut W,
        error: &mut E,
    ) -> Result<(), Fault>
        ensures made { does (CommandArgs.NewToken uss.entry scopes.entry) None
            (W.contents output.old) (W.contents output.new) result }
        ensures quiet { OnOk result (E.contents error.new ≡ E.contents error.old) };

    /// Runs the command `tokens --new-salt`.
    fn new_salt<W: Write>(self, output: &mut W) -> Result<(), Fault>
        ensures { does CommandArgs.NewSalt None (W.contents output.old)
            (W.contents output.new) result };
}

/// Returns the exit status of a command. Prints its fault first, on one line.
pub fn end_status<E: Write>(done: Result<(), Fault>, error: &mut E) -> u8
    ensures status { result ≡ status_of done }
    ensures quiet { OnOk done (E.contents error.new ≡ E.contents error.old) }
{
    if let Err(fault) = &done {
        let _ = print_fault(fault, error);
    }
    status(&done)
}

fn shown<O: Write>(text: &String, output: &mut O) -> Result<(), Fault>
    ensures shown { OnOk result (Appends (O.contents output.old) (O.contents output.new)
        (string_bytes text.now)) }
    ensures told { IfErr result (λ fault. fault ≡ Output) }
{
    match write!(output, "{text}") {
        Ok(()) => Ok(()),
        Err(_) => Err(Fault::Output),
    }
}

/// Ends a command line that requests no command, and returns its exit status. Writes help to
/// `output`, or the reason of the rejection to `error`.
pub fn refuse_line<O: Write, E: Write>(fault: LineFault, output: &mut O, error: &mut E) -> u8
    ensures { EndsRefused fault (O.contents output.old) (O.contents output.new) result }
{
    match fault {
        LineFault::Shown(text) => end_status(shown(&text, output), error),
        LineFault::Refused(text) => {
            let _ = write!(error, "{text}");
            2
        }
        LineFault::Memory => end_status(Err(Fault::Memory), error),
    }
}

// Runs the command that a command line requests.
fn perform<C: Commands + Drop, R: Read, O: Write, E: Write>(
    alloc: Global,
    commands: C,
    line: CommandArgs<'_>,
    input: &mut Counted<R>,
    output: &mut Counted<O>,
    error: &mut E,
) -> Result<(), Fault>
    ensures { Does C.does line.entry (R.remaining (inner_of input.old))
        (O.contents (inner_of output.old)) (O.contents (inner_of output.new))
        (E.contents error.old) (E.contents error.new) result }
{
    match line {
        CommandArgs::Run {
            tokens,
            now,
            database,
            requests,
        } => commands.run(tokens, now, database, requests, input, output),
        CommandArgs::Serve(given) => commands.serve(given, error),
        CommandArgs::Pool(given) => commands.serve_pool(given, error),
        CommandArgs::Begin(given) => commands.begin(given, output, error),
        CommandArgs::Follow(given) => commands.follow(given, output, error),
        CommandArgs::Loopback {
            tokens,
            now,
            request,
        } => commands.loop_back(tokens, now, request, input, output),
        CommandArgs::Cell { token } => cell(alloc, token, output),
        CommandArgs::Explain {
            method,
            target,
            now,
        } => explain(alloc, method, target, now, input, output),
        CommandArgs::Report { database, places } => commands.report(database, places, output),
        CommandArgs::Backup { database, to, live } => commands.backup(database, to, live),
        CommandArgs::Verify { file } => commands.verify(file, output),
        CommandArgs::Upgrade { database } => commands.upgrade(database, output),
        CommandArgs::Purge {
            database,
            until,
            now,
        } => commands.purge(database, until, now, output),
        CommandArgs::CheckTokens { file } => commands.check_tokens(file, output),
        CommandArgs::NewToken { uss, scopes } => commands.new_token(uss, scopes, output, error),
        CommandArgs::NewSalt => commands.new_salt(output),
    }
}

/// Runs one command line, whose first argument is the program's name, over a reader and two
/// writers.
///
/// Returns the exit status: 0 if the command succeeded, 2 for rejected arguments, 3 if the log of a
/// pool has lost data, and 1 after each other fault. A fault is printed on one line of `error`.
pub fn run_line<'a, C: Commands + Drop, R: Read, O: Write, E: Write>(
    alloc: Global,
    words: &'a [&'a str],
    commands: C,
    input: &mut Counted<R>,
    output: &mut Counted<O>,
    error: &mut E,
) -> u8
    ensures { EndsLine C.does (texts words.entry.now) (R.remaining (inner_of input.old))
        (O.contents (inner_of output.old)) (O.contents (inner_of output.new))
        (E.contents error.old) (E.contents error.new) result }
{
    match parse(alloc, words) {
        Ok(line) => {
            let done = perform(alloc, commands, line, input, output, error);
            end_status(done, error)
        }
        Err(fault) => refuse_line(fault, output, error),
    }
}
