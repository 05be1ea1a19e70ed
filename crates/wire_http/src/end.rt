//! The end of a stream.

use wire_head::rule::WireRule;

/// How a stream ended.
#[derive(Clone, Copy, Debug, PartialEq, Eq)]
pub enum End {
    /// The input ended after the last request.
    End,
    /// The input ended within a request, which gets no response.
    Cut,
    /// A request was answered, and the connection closes.
    Close,
    /// A request broke a protocol rule.
    Wire(WireRule),
}

/// What was served of a stream.
#[derive(Clone, Copy, Debug, PartialEq, Eq)]
pub struct Served {
    /// The number of requests that the service answered.
    pub count: u32,
    /// How the stream ended.
    pub end: End,
}
