//! What became of requests.
use service_step::reply::Reply;

/// What became of a request that waited for the end of the log.
#[derive(Debug, Drop)]
pub enum Outcome {
    /// The request with this number has this reply.
    Replied(u64, Reply),
    /// The request with this number failed, since memory ran out. Its call changed nothing.
    Failed(u64),
}

/// What is known of the call of a request that failed.
#[derive(Clone, Copy, Debug, PartialEq, Eq)]
pub enum Unanswered {
    /// The call was not offered, and is never made.
    Unsent,
    /// The call was offered. It may be made or not.
    Unknown,
}
