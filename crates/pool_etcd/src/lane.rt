//! A connection that is kept, to one of several endpoints that are tried in turn.
use crate::connection::Connection;
use crate::etcd_fault::EtcdFault;
use crate::times::later;
use mio::{Registry, Token};
use std::alloc::{AllocError, Global};
use std::net::{Net, SocketAddr};
use std::time::Duration;

// The pause once every endpoint has failed, in milliseconds: this times the number of failures, up
// to a limit.
const PAUSE: u64 = 50;

const MAX_PAUSE_FACTOR: u64 = 20;

/// An endpoint: its address, and the text of it.
#[derive(Drop)]
pub(crate) struct Endpoint {
    pub(crate) address: SocketAddr,
    pub(crate) host: String,
}

impl Endpoint {
    /// Creates an endpoint.
    pub(crate) fn new(alloc: Global, address: SocketAddr) -> Result<Endpoint, AllocError> {
        Ok(Endpoint {
            address,
            host: format!(in alloc; "{address}")?,
        })
    }
}

/// A kept connection.
#[derive(Drop)]
pub(crate) struct Lane {
    token: Token,
    pub(crate) connection: Option<Connection>,
    // The index of the endpoint that is used, or tried next.
    turn: usize,
    // The number of failures since the last success.
    failures: u32,
    // No connection is opened before this time.
    pub(crate) resume: Duration,
}

impl Lane {
    /// Creates a lane without a connection.
    pub(crate) fn new(token: Token) -> Lane {
        Lane {
            token,
            connection: None,
            turn: 0,
            failures: 0,
            resume: Duration::ZERO,
        }
    }

    /// Opens a connection to the endpoint whose turn it is.
    pub(crate) fn open(
        &mut self,
        net: &impl Net,
        alloc: Global,
        registry: &Registry,
        endpoints: &[Endpoint],
    ) -> Result<(), EtcdFault> {
        let Some(endpoint) = endpoints.get(self.turn) else {
            return Err(EtcdFault::Connection);
        };
        match Connection::open(net, alloc, registry, self.token, endpoint.address) {
            Ok(connection) => {
                self.connection = Some(connection);
                Ok(())
            }
            Err(_) => Err(EtcdFault::Connection),
        }
    }

    /// Returns the endpoint's address.
    pub(crate) fn address(&self, endpoints: &[Endpoint]) -> Option<SocketAddr> {
        match endpoints.get(self.turn) {
            Some(endpoint) => Some(endpoint.address),
            None => None,
        }
    }

    /// Returns the text of the endpoint's address.
    pub(crate) fn host<'e>(&self, endpoints: &'e [Endpoint]) -> &'e str {
        match endpoints.get(self.turn) {
            Some(endpoint) => endpoint.host.as_str(),
            None => "",
        }
    }

    /// Drops the connection. The next endpoint has its turn, after a pause if all have failed.
    pub(crate) fn fail(&mut self, now: Duration, endpoints: usize) {
        self.connection = None;
        self.failures = self.failures.saturating_add(1);
        let next = self.turn.saturating_add(1);
        self.turn = if next < endpoints { next } else { 0 };
        self.resume = now;
        if self.failures as usize >= endpoints {
            let factor = (self.failures as u64).min(MAX_PAUSE_FACTOR);
            self.resume = later(now, PAUSE * factor);
        }
    }

    /// Drops the connection, which has not failed.
    pub(crate) fn close(&mut self) {
        self.connection = None;
    }

    /// Records that a request succeeded.
    pub(crate) fn succeed(&mut self) {
        self.failures = 0;
    }
}
