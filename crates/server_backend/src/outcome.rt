//! What becomes of requests.
use service_step::reply::Reply;
use wire_http::Unavailable;

/// What became of a request when the backend received it.
#[derive(Debug, Drop)]
pub enum Received {
    /// The request has this reply, which may be sent.
    Answered(Reply),
    /// The request has this reply if the outcome under this ticket is `Stands`. No byte of it may
    /// be sent before.
    Drafted(u64, Reply),
    /// The request waits for its outcome under this ticket.
    Waits(u64),
    /// No call was made, for this reason.
    Refused(Unavailable),
}

/// What became of a request that was drafted or waited.
#[derive(Debug, Drop)]
pub enum Outcome {
    /// The draft is the reply.
    Stands,
    /// The request has this reply. A draft of another one is void.
    Replied(Reply),
    /// No reply is known, for this reason.
    Unavailable(Unavailable),
}
