//! What is known of the clock from before a start.

/// A time of the clock that the service trusted.
#[derive(Clone, Copy, Debug, PartialEq, Eq)]
pub struct TrustedTime {
    /// The time, in Unix seconds.
    pub moment: u64,
    /// The time to which the clock jumped forward since then, if it did and has not returned.
    pub jumped_to: Option<u64>,
}

/// The last time that is known from before a start.
#[derive(Clone, Copy, Debug, PartialEq, Eq)]
pub enum LastTime {
    /// The database was last changed at this time, in Unix seconds.
    Changed(u64),
    /// The service stored that it last trusted this time.
    Trusted(TrustedTime),
}
