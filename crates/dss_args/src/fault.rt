//! The reason why a command line requests no command.
ghost use Rattle.std.specs.Prelude.{◌≡◌};
ghost use Rattle.clap.specs.Values.{kind_of};
ghost use Rattle.dss_args.specs.LineFault.{IsFaultOf, status_of};

use clap::Error;
use clap::error::ErrorKind;
use std::alloc::{AllocError, Global};

/// The reason why a command line requests no command.
#[derive(Debug, Drop)]
pub enum LineFault {
    /// The text is help or the version, for standard output.
    Shown(String),
    /// The text is an error of the arguments, for standard error.
    Refused(String),
    /// Memory ran out.
    Memory,
}

impl LineFault {
    /// Returns the exit status of the program: 0 for help, 2 for rejected arguments, and 1 if
    /// memory ran out.
    pub fn status(&self) -> u8
        ensures { result ≡ status_of self.now }
    {
        match self {
            LineFault::Shown(_) => 0,
            LineFault::Refused(_) => 2,
            LineFault::Memory => 1,
        }
    }
}

impl From<AllocError> for LineFault {
    ghost use Rattle.dss_args.specs.declared.fault.LineFault.TheVariants as fault;

    ghost from_gives = { λ _ found. found ≡ fault.Memory };

    fn from(_error: AllocError) -> LineFault {
        LineFault::Memory
    }
}

/// Returns the fault of a failed parse, with the whole text that the user reads.
pub(crate) fn fault_of(alloc: Global, error: &Error) -> LineFault
    ensures { IsFaultOf (kind_of error.now) result }
{
    let kind = error.kind();
    if kind == ErrorKind::OutOfMemory {
        return LineFault::Memory;
    }
    let Ok(text) = format!(in alloc; "{}", error) else {
        return LineFault::Memory;
    };
    match kind {
        ErrorKind::DisplayHelp | ErrorKind::DisplayVersion => LineFault::Shown(text),
        _ => LineFault::Refused(text),
    }
}
