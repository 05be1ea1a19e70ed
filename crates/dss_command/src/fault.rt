//! The reasons why a command failed, their lines, and the exit status.
ghost use Rattle.std.specs.Prelude.{◌≡◌, ◌++◌, codes, OnOk};
ghost use Rattle.std.specs.Io.KnownBytes.{Appends};
ghost use Rattle.std.specs.IoError.{error_kind};
ghost use Rattle.dss_command.specs.Fault.{fault_status_of, line_of, status_of, told_by};

use crate::backup_fault::BackupFault;
use crate::pool_fault::PoolFault;
use dss_report::fault::{CellFault, ReportFault};
use grid_core::token::TokenFault;
use policy_core::rule::Rule;
use space_sql_open::open_fault::OpenFault;
use std::io::{ErrorKind, Write};
use std::{fmt, io};
use token_conf::conf_fault::ConfFault;
use wire_http::StreamFault;

/// The exit status if the log of a pool has lost data that this process had received. A supervisor
/// must not start the command again by itself.
pub const DATA_LOST: u8 = 3;

/// The reason why a command failed.
///
/// `Display` writes the line that the program prints to standard error, without the line end.
#[derive(Debug, Drop)]
pub enum Fault {
    /// The token file does not open, fails to read or is not UTF-8.
    TokensUnread,
    /// The token file is invalid.
    Tokens(ConfFault),
    /// The database could not be opened.
    Database(OpenFault),
    /// The database failed after it was opened.
    DatabaseFailed,
    /// The backup of the database failed.
    Copy(BackupFault),
    /// The file of requests does not open, or the request of `self` fails to be read.
    RequestsUnread,
    /// The end of the purge is in the future.
    UntilInFuture,
    /// The system clock failed.
    Clock,
    /// The request of `self` has over 16,384 bytes.
    RequestTooLong,
    /// The responses to the request of `self` have over 16,384 bytes.
    AnswerTooLong,
    /// A socket failed outside a stream of requests.
    Socket,
    /// The instance of a pool does not start, or has ended.
    Pool(PoolFault),
    /// The stream of requests was aborted.
    Stream(StreamFault),
    /// The token is the token of no cell.
    Token(TokenFault),
    /// A request to explain does not have the form of an operation; this rule denies it.
    Request(Rule),
    /// The body of a request to explain has over 1,048,576 bytes.
    BodyTooLong,
    /// Output other than responses could not be written.
    Output,
    /// Memory ran out.
    Memory,
}

impl fmt::Display for Fault {
    ghost use Rattle.std.specs.Prelude.{Some};
    ghost use Rattle.dss_command.specs.Fault.{line_of};

    ghost output = { λ fault. Some (line_of fault) };

    fn fmt<W: fmt::Write>(&self, f: &mut fmt::Formatter<W>) -> fmt::Result {
        match self {
            Fault::TokensUnread => write!(f, "dss: tokens: cannot read"),
            Fault::Tokens(fault) => {
                let number = fault.number();
                let name = fault.name();
                write!(f, "dss: tokens: fault {number} {name}")
            }
            Fault::Database(fault) => {
                let number = fault.number();
                let name = fault.name();
                write!(f, "dss: db: fault {number} {name}")
            }
            Fault::DatabaseFailed => write!(f, "dss: db: fault"),
            Fault::Copy(fault) => {
                let number = fault.number();
                let name = fault.name();
                write!(f, "dss: backup: fault {number} {name}")
            }
            Fault::RequestsUnread => write!(f, "dss: requests: cannot read"),
            Fault::UntilInFuture => write!(f, "dss: until: in the future"),
            Fault::Clock => write!(f, "dss: clock"),
            Fault::RequestTooLong => write!(f, "dss: self: request too long"),
            Fault::AnswerTooLong => write!(f, "dss: self: answer too long"),
            Fault::Socket => write!(f, "dss: socket"),
            Fault::Pool(fault) => {
                let text = fault.text();
                write!(f, "dss: pool: {text}")
            }
            Fault::Stream(fault) => {
                let number = fault.number();
                let name = fault.name();
                write!(f, "dss: stream: fault {number} {name}")
            }
            Fault::Token(fault) => {
                let number = fault.number();
                let name = fault.name();
                write!(f, "dss: token: fault {number} {name}")
            }
            Fault::Request(rule) => {
                let number = rule.number();
                let name = rule.name();
                write!(f, "dss: request: P{number} {name}")
            }
            Fault::BodyTooLong => write!(f, "dss: request: H5 BODYSIZE"),
            Fault::Output => write!(f, "dss: output"),
            Fault::Memory => write!(f, "dss: memory"),
        }
    }
}

impl From<StreamFault> for Fault {
    ghost use Rattle.dss_command.specs.Fault.{IsOfStream};

    ghost from_gives = { IsOfStream };

    fn from(fault: StreamFault) -> Fault {
        match fault {
            StreamFault::Memory => Fault::Memory,
            fault => Fault::Stream(fault),
        }
    }
}

impl From<OpenFault> for Fault {
    ghost use Rattle.std.specs.Prelude.{◌≡◌};
    ghost use Rattle.dss_command.specs.declared.fault.Fault.TheVariants as fault;

    ghost from_gives = { λ e found. found ≡ fault.Database e };

    fn from(fault: OpenFault) -> Fault {
        Fault::Database(fault)
    }
}

impl From<BackupFault> for Fault {
    ghost use Rattle.std.specs.Prelude.{◌≡◌};
    ghost use Rattle.dss_command.specs.declared.fault.Fault.TheVariants as fault;

    ghost from_gives = { λ e found. found ≡ fault.Copy e };

    fn from(fault: BackupFault) -> Fault {
        Fault::Copy(fault)
    }
}

impl From<CellFault> for Fault {
    ghost use Rattle.dss_command.specs.Fault.{IsOfCell};

    ghost from_gives = { IsOfCell };

    fn from(fault: CellFault) -> Fault {
        match fault {
            CellFault::Token(why) => Fault::Token(why),
            CellFault::Memory => Fault::Memory,
        }
    }
}

impl From<ReportFault> for Fault {
    ghost use Rattle.dss_command.specs.Fault.{IsOfReport};

    ghost from_gives = { IsOfReport };

    fn from(fault: ReportFault) -> Fault {
        match fault {
            ReportFault::Space => Fault::DatabaseFailed,
            ReportFault::Memory => Fault::Memory,
        }
    }
}

/// Prints a fault on one line.
pub fn print_fault<E: Write>(fault: &Fault, error: &mut E) -> io::Result<()>
    ensures { OnOk result (Appends (E.contents error.old) (E.contents error.new)
        (line_of fault.now ++ codes "\n")) }
{
    writeln!(error, "{fault}")
}

// Returns the exit status of a command that failed.
fn fault_status(fault: &Fault) -> u8
    ensures { result ≡ fault_status_of fault.now }
{
    match fault {
        Fault::Pool(PoolFault::Shortened) => DATA_LOST,
        Fault::Pool(PoolFault::Diverged) => DATA_LOST,
        _ => 1,
    }
}

/// Returns the exit status of a command: 0 if it succeeded, 3 if the log of a pool has lost data,
/// and 1 after each other fault.
pub fn status(done: &Result<(), Fault>) -> u8
    ensures { result ≡ status_of done.now }
{
    match done {
        Ok(()) => 0,
        Err(fault) => fault_status(fault),
    }
}

/// Returns the fault of a failed system call. Out of memory is a fault of its own.
pub fn io_fault(cause: &io::Error, fault: Fault) -> Fault
    ensures { result ≡ told_by (error_kind cause.now) fault }
{
    match cause.kind() {
        ErrorKind::OutOfMemory => Fault::Memory,
        _ => fault,
    }
}
