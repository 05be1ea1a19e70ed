//! What the service requires of the system: non-blocking sockets, and their events.
use crate::trusted_time::TrustedTime;
use admin_http::machine::MachineMetrics;
use std::io;
use std::net::SocketAddr;
use std::time::Duration;

/// The socket of a client.
///
/// `name` is the name of the client. If the history of the sockets is known, no two clients that
/// they accept have the same name.
pub trait ClientSocket: Drop {
    ghost use Rattle.std.specs.Prelude.{ℕ};

    ghost name: { Self → ℕ };

    /// Returns the address and port of the client, if the system returned them.
    fn client(&self) -> Option<SocketAddr>;
}

/// The socket of an admin connection. No call blocks.
pub trait AdminSocket: Drop {
    ghost use Rattle.std.specs.Io.{ReadsAtMost, WritesAtMost};

    /// Reads bytes that arrived into `chunk`. Returns 0 if the other side sends nothing more.
    fn receive(&mut self, chunk: &mut [u8]) -> io::Result<usize>
        ensures bound { ReadsAtMost result chunk.new };

    /// Takes the first of these bytes for sending, and returns how many.
    fn send(&mut self, bytes: &[u8]) -> io::Result<usize>
        ensures bound { WritesAtMost result bytes.now };

    /// Ends sending.
    fn end_sending(&mut self) -> io::Result<()>;
}

/// A source of events.
#[derive(Clone, Copy, Debug, PartialEq, Eq)]
pub enum EventSource {
    /// The port, where a client may wait to be accepted.
    Port,
    /// The admin port, where a connection may wait to be accepted.
    AdminPort,
    /// The client under that key.
    Client(usize),
    /// The admin connection under that key.
    AdminConnection(usize),
}

/// An event of a socket.
#[derive(Clone, Copy, Debug)]
pub struct SocketEvent {
    /// The source of the event.
    pub which: EventSource,
    /// True if the socket can be read.
    pub readable: bool,
    /// True if the socket can be written.
    pub writable: bool,
    /// True if the client sends nothing more.
    pub ended: bool,
    /// True if the connection is gone, so that no response can reach the client.
    pub reset: bool,
}

/// The reason why no client was accepted.
#[derive(Debug)]
pub enum AcceptFault {
    /// No client waits.
    NoneWaits,
    /// The client that waited is gone.
    Gone,
    /// The system has no descriptor or no memory for one more, for now.
    Full,
    /// The port failed.
    Failed(io::Error),
}

/// The sockets of a service, watched together. Only `wait` blocks.
///
/// `history` is what they accepted, received and sent so far, in order, if it is known. Clients are
/// read and written through this trait alone, so that it records each byte.
pub trait Sockets {
    ghost use Rattle.std.specs.Prelude.{◌≡◌, [], ◌∷◌, List, Option, MatchResult};
    ghost use Rattle.std.specs.Io.{ReadsAtMost, WritesAtMost};
    ghost use Rattle.server_base.specs.History.{Accepted, Extends, HistoryEvent};
    ghost use Rattle.server_base.specs.History.{RecordsRead, RecordsWrite};

    type Client: ClientSocket;

    type Admin: AdminSocket;

    ghost history: { Self → Option (List HistoryEvent) };

    /// Accepts the next client, which gets a new name.
    fn accept(&mut self) -> Result<Self::Client, AcceptFault>
        ensures { MatchResult result
            (λ client. Extends (history self.old) (history self.new)
            (Accepted (Self.Client.name client) ∷ []))
            (λ _. history self.new ≡ history self.old) };

    /// Reads bytes that arrived from a client into `chunk`. Returns 0 if it sends nothing more.
    fn receive(&mut self, client: &mut Self::Client, chunk: &mut [u8]) -> io::Result<usize>
        ensures bound { ReadsAtMost result chunk.new }
        ensures name { Self.Client.name client.new ≡ Self.Client.name client.old }
        ensures recorded { RecordsRead (Self.Client.name client.old)
            (history self.old) (history self.new) result chunk.new };

    /// Takes the first of these bytes for sending to a client, and returns how many.
    fn send(&mut self, client: &mut Self::Client, bytes: &[u8]) -> io::Result<usize>
        ensures bound { WritesAtMost result bytes.now }
        ensures name { Self.Client.name client.new ≡ Self.Client.name client.old }
        ensures recorded { RecordsWrite (Self.Client.name client.old)
            (history self.old) (history self.new) result bytes.now };

    /// Ends sending to a client.
    fn end_sending(&mut self, client: &mut Self::Client) -> io::Result<()>
        ensures name { Self.Client.name client.new ≡ Self.Client.name client.old }
        ensures history { history self.new ≡ history self.old };

    /// Registers a client for events under that key.
    fn watch(&mut self, client: &mut Self::Client, key: usize) -> io::Result<()>
        ensures name { Self.Client.name client.new ≡ Self.Client.name client.old }
        ensures history { history self.new ≡ history self.old };

    /// Accepts the next admin connection.
    fn accept_admin(&mut self) -> Result<Self::Admin, AcceptFault>
        ensures { history self.new ≡ history self.old };

    /// Registers an admin connection for events under that key.
    fn watch_admin(&mut self, socket: &mut Self::Admin, key: usize) -> io::Result<()>
        ensures { history self.new ≡ history self.old };

    /// Waits for events, for at most `patience` if a time is given.
    fn wait(&mut self, patience: Option<Duration>) -> io::Result<()>
        ensures { history self.new ≡ history self.old };

    /// Returns the next event, until there is none left.
    fn next_event(&mut self) -> Option<SocketEvent>
        ensures { history self.new ≡ history self.old };

    /// Returns the metrics that the system has of the process. The default has none.
    fn machine(&self) -> MachineMetrics {
        MachineMetrics::unknown()
    }

    /// Stores a time that the service trusted, so that the next start finds it. The default stores
    /// nothing.
    fn store_time(&mut self, _time: TrustedTime) -> io::Result<()>
        ensures { history self.new ≡ history self.old }
    {
        Ok(())
    }

    /// Returns the time since some fixed start. It never decreases.
    fn monotonic_time(&self) -> io::Result<Duration>;
}
