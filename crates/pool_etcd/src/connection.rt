//! A connection to an endpoint of etcd, which does not block.
use crate::etcd_fault::EtcdFault;
use crate::exchange::{Exchange, Request, Step};
use mio::net::TcpStream;
use mio::{Interest, Registry, Token};
use std::alloc::Global;
use std::io;
use std::io::{ErrorKind, Read, Write};
use std::net::{Net, SocketAddr};

// The maximum number of bytes read at once.
const CHUNK: usize = 65_536;

// The maximum number of reads, and of writes, before others get their turn.
const TURNS: usize = 64;

/// What arrived.
#[derive(Clone, Copy, Debug, PartialEq, Eq)]
pub(crate) enum Arrived {
    /// No byte.
    Nothing,
    /// Everything that is there.
    All,
    /// A part of it.
    Part,
    /// Everything, and the other side sends nothing more.
    Ended,
}

/// A connection, with its exchanges.
#[derive(Drop)]
pub(crate) struct Connection {
    stream: TcpStream,
    exchange: Exchange,
}

impl Connection {
    /// Opens a connection, which is watched under a token. It may not be established yet.
    pub(crate) fn open(
        net: &impl Net,
        alloc: Global,
        registry: &Registry,
        token: Token,
        address: SocketAddr,
    ) -> io::Result<Connection> {
        let mut stream = TcpStream::connect(net, address)?;
        let _ = stream.set_nodelay(true);
        registry.register(&mut stream, token, Interest::READABLE | Interest::WRITABLE)?;
        Ok(Connection {
            stream,
            exchange: Exchange::new(alloc),
        })
    }

    /// Begins a request.
    pub(crate) fn begin(&mut self, request: &Request<'_>) -> Result<(), EtcdFault> {
        self.exchange.begin(request)?;
        self.send()
    }

    /// Sends what can be sent now.
    pub(crate) fn send(&mut self) -> Result<(), EtcdFault> {
        for _ in 0..TURNS {
            if self.exchange.unsent().is_empty() {
                return Ok(());
            }
            match self.stream.write(self.exchange.unsent()) {
                Ok(0) => return Err(EtcdFault::Connection),
                Ok(count) => self.exchange.mark_sent(count),
                Err(error) => match error.kind() {
                    ErrorKind::WouldBlock => return Ok(()),
                    ErrorKind::Interrupted => {}
                    _ => return Err(EtcdFault::Connection),
                },
            }
        }
        Ok(())
    }

    /// Receives what has arrived.
    pub(crate) fn receive(&mut self) -> Result<Arrived, EtcdFault> {
        let mut arrived = Arrived::Nothing;
        for _ in 0..TURNS {
            match self.exchange.read_from(&mut self.stream, CHUNK) {
                Ok(0) => return Ok(Arrived::Ended),
                Ok(_) => arrived = Arrived::All,
                Err(error) => match error.kind() {
                    ErrorKind::WouldBlock => return Ok(arrived),
                    ErrorKind::Interrupted => {}
                    ErrorKind::OutOfMemory => return Err(EtcdFault::Memory),
                    _ => return Err(EtcdFault::Connection),
                },
            }
        }
        Ok(Arrived::Part)
    }

    /// Reads the next part of the response from what was received.
    pub(crate) fn step(&mut self) -> Result<Step, EtcdFault> {
        Ok(self.exchange.step()?)
    }

    /// Returns the bytes of the body that were read since the last call of `clear_body`.
    pub(crate) fn body(&self) -> &[u8] {
        self.exchange.body()
    }

    /// Drops the bytes of the body that were read.
    pub(crate) fn clear_body(&mut self) {
        self.exchange.clear_body();
    }
}
