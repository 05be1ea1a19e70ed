//! One HTTP exchange after another, over buffers.

use bytes::BytesMut;
use http1::{BodySize, Client, Event, Header, Limits, ReadError, WriteError};
use httparse::spans::EMPTY_HEADER_SPAN;
use std::alloc::{AllocError, Global};
use std::io;
use std::io::Read;

/// A request: its path, a token if there is one, and its body.
#[derive(Clone, Copy)]
pub(crate) struct Request<'a> {
    pub(crate) host: &'a str,
    pub(crate) path: &'a str,
    pub(crate) token: Option<&'a [u8]>,
    pub(crate) body: &'a str,
}

/// The reason why an exchange failed.
#[derive(Clone, Copy, Debug, PartialEq, Eq)]
pub(crate) enum ExchangeFault {
    /// Memory ran out.
    Memory,
    /// The response is no HTTP.
    Response(ReadError),
    /// The request cannot be written.
    Request(WriteError),
}

/// What a step of the reading found.
#[derive(Clone, Copy, Debug, PartialEq, Eq)]
pub(crate) enum Step {
    /// More bytes have to arrive.
    NeedsInput,
    /// The head of a response with this status.
    Head(u16),
    /// Bytes of the body.
    Data,
    /// The end of the response.
    End,
    /// The connection cannot be used again.
    Closed,
}

/// A connection's exchanges: the bytes to be sent, and those that arrived.
#[derive(Drop)]
pub(crate) struct Exchange {
    http: Client,
    unsent: BytesMut,
    unread: BytesMut,
    body: BytesMut,
}

impl Exchange {
    /// Creates the state of a new connection.
    ///
    /// Allocates nothing.
    pub(crate) fn new(alloc: Global) -> Exchange {
        Exchange {
            http: Client::new(Limits::default()),
            unsent: BytesMut::new(alloc),
            unread: BytesMut::new(alloc),
            body: BytesMut::new(alloc),
        }
    }

    // Writes the head of a request.
    fn write_head(&mut self, request: &Request<'_>) -> Result<(), WriteError> {
        let size = BodySize::Known(request.body.len() as u64);
        let path = request.path.as_bytes();
        let host = Header {
            name: b"host",
            value: request.host.as_bytes(),
        };
        let kind = Header {
            name: b"content-type",
            value: b"application/json",
        };
        match request.token {
            Some(token) => {
                let token = Header {
                    name: b"authorization",
                    value: token,
                };
                let headers = [host, kind, token];
                self.http
                    .write_request(&mut self.unsent, b"POST", path, &headers, size)
            }
            None => {
                let headers = [host, kind];
                self.http
                    .write_request(&mut self.unsent, b"POST", path, &headers, size)
            }
        }
    }

    /// Begins a request. The one before must have its whole response.
    pub(crate) fn begin(&mut self, request: &Request<'_>) -> Result<(), ExchangeFault> {
        self.body.clear();
        self.write_head(request)?;
        self.http
            .write_data(&mut self.unsent, request.body.as_bytes())?;
        self.http.write_end(&mut self.unsent, &[])?;
        Ok(())
    }

    /// Returns the bytes that have to be sent.
    pub(crate) fn unsent(&self) -> &[u8] {
        self.unsent.as_slice()
    }

    /// Records that the first bytes were sent.
    pub(crate) fn mark_sent(&mut self, count: usize) {
        let count = count.min(self.unsent.len());
        self.unsent.advance(count);
    }

    /// Reads bytes that arrived, at most so many. Returns 0 at the end.
    pub(crate) fn read_from<R: Read>(&mut self, reader: &mut R, limit: usize) -> io::Result<usize> {
        self.unread.reserve(limit)?;
        self.unread.read_from(reader)
    }

    /// Returns the bytes of the body that were read since the last call of `clear_body`.
    pub(crate) fn body(&self) -> &[u8] {
        self.body.as_slice()
    }

    /// Drops the bytes of the body that were read.
    pub(crate) fn clear_body(&mut self) {
        self.body.clear();
    }

    /// Reads the next part of the response.
    pub(crate) fn step(&mut self) -> Result<Step, ExchangeFault> {
        let mut headers = [EMPTY_HEADER_SPAN; 32];
        let read = self.http.read(self.unread.as_slice(), &mut headers)?;
        let step = match read.event {
            Event::NeedMore => Step::NeedsInput,
            Event::Paused => Step::NeedsInput,
            Event::Head(head) => Step::Head(head.code),
            // Another head follows.
            Event::Informational(_) => Step::Data,
            Event::Data(span) => {
                self.body
                    .extend_from_slice(span.of(self.unread.as_slice()))?;
                Step::Data
            }
            Event::End(_) => Step::End,
            Event::Upgraded => Step::Closed,
            Event::Closed => Step::Closed,
        };
        self.unread.advance(read.consumed);
        Ok(step)
    }
}

impl From<AllocError> for ExchangeFault {
    fn from(_: AllocError) -> ExchangeFault {
        ExchangeFault::Memory
    }
}

impl From<ReadError> for ExchangeFault {
    fn from(error: ReadError) -> ExchangeFault {
        ExchangeFault::Response(error)
    }
}

impl From<WriteError> for ExchangeFault {
    fn from(error: WriteError) -> ExchangeFault {
        match error {
            WriteError::OutOfMemory => ExchangeFault::Memory,
            error => ExchangeFault::Request(error),
        }
    }
}
