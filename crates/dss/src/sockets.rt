//! The sockets of the system, watched together.
//!
//! Each method that moves bytes of a client makes one call of the system, and notes it with its
//! answer.
ghost use Rattle.server_base.specs.History.{AreBelow};

use crate::cause::Cause;
use crate::clock_file::write_time;
use crate::machine::machine_metrics;
use admin_http::machine::MachineMetrics;
use dss_command::ports::Listen;
use mio::event::Event;
use mio::net::{TcpListener, TcpStream};
use mio::{Events, Interest, Poll, Token};
use server_base::history::{ACCEPT, History, READ, WRITE};
use server_base::sockets::{
    AcceptFault, AdminSocket, ClientSocket, EventSource, SocketEvent, Sockets,
};
use server_base::trusted_time::TrustedTime;
use std::alloc::AllocError;
use std::io;
use std::io::{ErrorKind, Read, Write};
use std::net::{Shutdown, SocketAddr};
use std::time::{Duration, Instant};

// The token of the listeners for clients, and that of the admin port's listener. The token of a
// client is its key, which is less. The token of an admin connection is its key plus the last
// constant.
const LISTENER: usize = 1_000_000;

const ADMIN_LISTENER: usize = 1_000_001;

const ADMIN_CONNECTIONS: usize = 2_000_000;

/// The tokens of the two connections to etcd. Their events end a wait, and are no events of
/// sockets.
pub(crate) const LOG_REQUESTS: Token = Token(1_000_002);

pub(crate) const LOG_WATCH: Token = Token(1_000_003);

// The maximum number of events taken at once.
const EVENTS: usize = 1_024;

// The system errors for a lack of memory or of descriptors for another socket.
const NO_MEMORY: i32 = 12;

const NO_DESCRIPTOR_IN_SYSTEM: i32 = 23;

const NO_DESCRIPTOR: i32 = 24;

const NO_BUFFER: i32 = 105;

/// The socket of a client. Its name is its number in the order of acceptance.
#[derive(Drop)]
pub(crate) struct Client {
    stream: TcpStream,
    address: SocketAddr,
    name: u64,
}

impl ClientSocket for Client {
    ghost name = { λ client. client.name };

    fn client(&self) -> Option<SocketAddr> {
        Some(self.address)
    }
}

/// The socket of an admin connection.
#[derive(Drop)]
pub(crate) struct Admin {
    stream: TcpStream,
}

impl AdminSocket for Admin {
    fn receive(&mut self, chunk: &mut [u8]) -> io::Result<usize> {
        self.stream.read(chunk)
    }

    fn send(&mut self, bytes: &[u8]) -> io::Result<usize> {
        self.stream.write(bytes)
    }

    fn end_sending(&mut self) -> io::Result<()> {
        self.stream.shutdown(Shutdown::Write)
    }
}

/// The sockets of the ports of this machine.
#[derive(Drop)]
pub(crate) struct PortSockets<'a> {
    rt: &'a HostRuntime,
    start: Instant,
    poll: Poll,
    listeners: Vec<TcpListener>,
    // The index of the listener that is tried next.
    turn: usize,
    operators: Option<TcpListener>,
    events: Events,
    ready: Vec<SocketEvent>,
    // The number of events already taken.
    taken: usize,
    // The name of the database file, if there is one.
    database: Option<&'a str>,
    cause: &'a mut Cause,
    history: History,
    // The name of the next client.
    next_name: u64,
    ghost new_names: { AreBelow next_name history.events },
}

// Returns the source of events with that token. Returns `None` for a connection to etcd.
fn watched_as(token: usize) -> Option<EventSource> {
    match token {
        LISTENER => Some(EventSource::Port),
        ADMIN_LISTENER => Some(EventSource::AdminPort),
        _ if token >= ADMIN_CONNECTIONS => {
            Some(EventSource::AdminConnection(token - ADMIN_CONNECTIONS))
        }
        _ if token > ADMIN_LISTENER => None,
        _ => Some(EventSource::Client(token)),
    }
}

// Returns the token of a source of events.
fn token_of(which: EventSource) -> usize {
    match which {
        EventSource::Port => LISTENER,
        EventSource::AdminPort => ADMIN_LISTENER,
        EventSource::Client(key) => key,
        EventSource::AdminConnection(key) => ADMIN_CONNECTIONS.saturating_add(key),
    }
}

// Opens a watched listener on a port of an address. Records the system's error if that fails.
fn listener_on(
    rt: &HostRuntime,
    poll: &Poll,
    address: SocketAddr,
    which: EventSource,
    cause: &mut Cause,
) -> io::Result<TcpListener> {
    let mut listener = match TcpListener::bind(rt, address) {
        Ok(listener) => listener,
        Err(error) => {
            cause.record_port(address, &error);
            return Err(error);
        }
    };
    let token = Token(token_of(which));
    poll.registry()
        .register(&mut listener, token, Interest::READABLE)?;
    Ok(listener)
}

// Opens watched listeners on the ports of these addresses.
fn listeners_on(
    rt: &HostRuntime,
    poll: &Poll,
    addresses: &[SocketAddr],
    cause: &mut Cause,
) -> io::Result<Vec<TcpListener>> {
    let mut listeners = Vec::with_capacity(rt.alloc(), addresses.len())?;
    for address in addresses {
        let listener = listener_on(rt, poll, *address, EventSource::Port, cause)?;
        listeners.push(listener)?;
    }
    Ok(listeners)
}

// Accepts the next connection of a listener. Records the system's error if `serve` ends with it.
fn accept_stream(
    listener: &TcpListener,
    cause: &mut Cause,
) -> Result<(TcpStream, SocketAddr), AcceptFault> {
    match listener.accept() {
        Ok((stream, address)) => {
            let _ = stream.set_nodelay(true);
            Ok((stream, address))
        }
        Err(error) => {
            let fault = accept_fault(error);
            if let AcceptFault::Failed(error) = &fault
                && let Ok(address) = listener.local_addr()
            {
                cause.record_port(address, error);
            }
            Err(fault)
        }
    }
}

// Accepts the next connection of the listener whose turn it is. Each one gets its turn.
fn accept_in_turn(
    listeners: &[TcpListener],
    turn: &mut usize,
    cause: &mut Cause,
) -> Result<(TcpStream, SocketAddr), AcceptFault> {
    let this = *turn;
    let next = this.saturating_add(1);
    *turn = if next < listeners.len() { next } else { 0 };
    match listeners.get(this) {
        Some(listener) => accept_stream(listener, cause),
        None => Err(AcceptFault::NoneWaits),
    }
}

// Accepts the next connection of any listener.
fn accept_next(
    listeners: &[TcpListener],
    turn: &mut usize,
    cause: &mut Cause,
) -> Result<(TcpStream, SocketAddr), AcceptFault> {
    for _ in 0..listeners.len() {
        match accept_in_turn(listeners, turn, cause) {
            Err(AcceptFault::NoneWaits) => {}
            taken => return taken,
        }
    }
    Err(AcceptFault::NoneWaits)
}

// Accepts the next connection of the admin port.
fn accept_operator(
    listener: &Option<TcpListener>,
    cause: &mut Cause,
) -> Result<TcpStream, AcceptFault> {
    match listener {
        Some(listener) => {
            let (stream, _) = accept_stream(listener, cause)?;
            Ok(stream)
        }
        None => Err(AcceptFault::NoneWaits),
    }
}

// Registers a stream for events from that source.
fn register(poll: &Poll, stream: &mut TcpStream, which: EventSource) -> io::Result<()> {
    let interests = Interest::READABLE | Interest::WRITABLE;
    poll.registry()
        .register(stream, Token(token_of(which)), interests)
}

// Puts the events of sockets.
fn put_events(events: &Events, ready: &mut Vec<SocketEvent>) -> Result<(), AllocError> {
    ready.clear();
    for event in events.iter() {
        if let Some(event) = socket_event(event) {
            ready.push(event)?;
        }
    }
    Ok(())
}

// Converts an event. Returns `None` for one of a connection to etcd.
fn socket_event(event: &Event) -> Option<SocketEvent> {
    let Token(token) = event.token();
    Some(SocketEvent {
        which: watched_as(token)?,
        readable: event.is_readable(),
        writable: event.is_writable(),
        ended: event.is_read_closed(),
        reset: event.is_error() || event.is_write_closed(),
    })
}

// Returns the reason why the system returned no client.
fn accept_fault(cause: io::Error) -> AcceptFault {
    match cause.raw_os_error() {
        Some(NO_MEMORY | NO_DESCRIPTOR_IN_SYSTEM | NO_DESCRIPTOR | NO_BUFFER) => AcceptFault::Full,
        _ => match cause.kind() {
            ErrorKind::WouldBlock => AcceptFault::NoneWaits,
            ErrorKind::Interrupted | ErrorKind::ConnectionAborted => AcceptFault::Gone,
            _ => AcceptFault::Failed(cause),
        },
    }
}

impl<'a> PortSockets<'a> {
    ghost use Rattle.std.specs.Prelude.{[]};

    /// Creates sockets without ports. `poll` watches them.
    pub(crate) fn new(
        rt: &'a HostRuntime,
        poll: Poll,
        database: Option<&'a str>,
        cause: &'a mut Cause,
    ) -> io::Result<PortSockets<'a>> {
        Ok(PortSockets {
            rt,
            start: Instant::now(rt)?,
            poll,
            listeners: Vec::new(rt.alloc()),
            turn: 0,
            operators: None,
            events: Events::with_capacity(rt.alloc(), EVENTS)?,
            ready: Vec::with_capacity(rt.alloc(), EVENTS)?,
            taken: 0,
            database,
            cause,
            history: History::new(),
            next_name: 0,
        })
    }
}

impl<'a> Sockets for PortSockets<'a> {
    ghost use Rattle.std.specs.Prelude.{Some};

    type Client = Client;

    type Admin = Admin;

    ghost history = { λ sockets. Some sockets.history.events };

    fn accept(&mut self) -> Result<Client, AcceptFault> {
        let name = self.next_name;
        let Some(next) = name.checked_add(1) else {
            return Err(AcceptFault::Full);
        };
        let (stream, address) = accept_next(self.listeners.as_slice(), &mut self.turn, self.cause)?;
        self.next_name = next;
        self.history.note(&[ACCEPT, name], &[]);
        Ok(Client {
            stream,
            address,
            name,
        })
    }

    fn receive(&mut self, client: &mut Client, chunk: &mut [u8]) -> io::Result<usize> {
        let count = client.stream.read(chunk)?;
        self.history.note(&[READ, client.name], &chunk[..count]);
        Ok(count)
    }

    fn send(&mut self, client: &mut Client, bytes: &[u8]) -> io::Result<usize> {
        let count = client.stream.write(bytes)?;
        self.history.note(&[WRITE, client.name], &bytes[..count]);
        Ok(count)
    }

    fn end_sending(&mut self, client: &mut Client) -> io::Result<()> {
        client.stream.shutdown(Shutdown::Write)
    }

    fn watch(&mut self, client: &mut Client, key: usize) -> io::Result<()> {
        register(&self.poll, &mut client.stream, EventSource::Client(key))
    }

    fn accept_admin(&mut self) -> Result<Admin, AcceptFault> {
        let stream = accept_operator(&self.operators, self.cause)?;
        Ok(Admin { stream })
    }

    fn watch_admin(&mut self, socket: &mut Admin, key: usize) -> io::Result<()> {
        register(
            &self.poll,
            &mut socket.stream,
            EventSource::AdminConnection(key),
        )
    }

    fn wait(&mut self, patience: Option<Duration>) -> io::Result<()> {
        self.poll.poll(&mut self.events, patience)?;
        self.taken = 0;
        put_events(&self.events, &mut self.ready)?;
        Ok(())
    }

    fn next_event(&mut self) -> Option<SocketEvent> {
        let ready = *self.ready.get(self.taken)?;
        self.taken = self.taken.saturating_add(1);
        Some(ready)
    }

    fn machine(&self) -> MachineMetrics {
        machine_metrics(self.rt, self.database)
    }

    fn store_time(&mut self, time: TrustedTime) -> io::Result<()> {
        match self.database {
            Some(database) => write_time(self.rt, database, time),
            None => Ok(()),
        }
    }

    fn monotonic_time(&self) -> io::Result<Duration> {
        Ok(Instant::now(self.rt)?.saturating_duration_since(self.start))
    }
}

impl<'a> Listen for PortSockets<'a> {
    fn listen(
        &mut self,
        addresses: &[SocketAddr],
        operators: Option<SocketAddr>,
    ) -> io::Result<()> {
        self.listeners = listeners_on(self.rt, &self.poll, addresses, self.cause)?;
        if let Some(address) = operators {
            let listener = listener_on(
                self.rt,
                &self.poll,
                address,
                EventSource::AdminPort,
                self.cause,
            )?;
            self.operators = Some(listener);
        }
        Ok(())
    }

    fn close(&mut self) {
        self.listeners.clear();
        self.operators = None;
    }
}
