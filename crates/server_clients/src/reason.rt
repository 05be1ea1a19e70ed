//! Why clients are answered no more.
use wire_http::StreamFault;

/// The reason why the server stopped answering a client.
#[derive(Clone, Copy, Debug, PartialEq, Eq)]
pub enum Reason {
    /// The client was late.
    Late,
    /// The client reset the connection.
    Reset,
    /// The socket could not be read.
    Read,
    /// The socket could not be written.
    Write,
    /// The clock failed.
    Clock,
    /// Memory ran out.
    Memory,
    /// The server stops.
    Stop,
}

/// Returns the reason that a fault of a client is.
pub fn reason_of(fault: StreamFault) -> Reason {
    match fault {
        StreamFault::Memory => Reason::Memory,
        StreamFault::Clock => Reason::Clock,
        StreamFault::Read => Reason::Read,
        StreamFault::Write => Reason::Write,
        StreamFault::Turns => Reason::Stop,
    }
}
