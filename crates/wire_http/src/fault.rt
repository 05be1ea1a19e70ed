//! Reasons to abort a stream.

/// The failure that aborted a stream.
#[derive(Clone, Copy, Debug, PartialEq, Eq)]
pub enum StreamFault {
    /// A read failed.
    Read,
    /// A write failed.
    Write,
    /// The clock failed.
    Clock,
    /// Memory ran out.
    Memory,
    /// The stream has used all its reads (1,000,000).
    Turns,
}

impl StreamFault {
    ghost use Rattle.std.specs.Prelude.{◌≡◌};
    ghost use Rattle.wire_http.specs.Fault.{number_of, name_of};

    /// Returns the number of the fault, from 1 to 5.
    pub fn number(self) -> u8
        ensures { result ≡ number_of self }
    {
        match self {
            StreamFault::Read => 1,
            StreamFault::Write => 2,
            StreamFault::Clock => 3,
            StreamFault::Memory => 4,
            StreamFault::Turns => 5,
        }
    }

    /// Returns the name of the fault, which is that of the variant.
    pub fn name(self) -> &'static str
        ensures { result.now ≡ name_of self }
    {
        match self {
            StreamFault::Read => "Read",
            StreamFault::Write => "Write",
            StreamFault::Clock => "Clock",
            StreamFault::Memory => "Memory",
            StreamFault::Turns => "Turns",
        }
    }
}
