//! Reasons why an instance did not do what it was asked.

/// The reason why a call of an instance failed.
#[derive(Clone, Copy, Debug, PartialEq, Eq)]
pub enum InstanceFault {
    /// Memory ran out. Nothing was done, and a later call can succeed.
    NoMemory,
    /// The instance has ended. It could not make a call at its place in the log, which others have
    /// made, or the log is lost. It gives no more replies.
    Ended,
}

/// The reason why no request was made.
#[derive(Clone, Copy, Debug, PartialEq, Eq)]
pub enum RequestFault {
    /// The request is longer than an entry has room for.
    TooLong,
    /// Memory ran out.
    NoMemory,
}
