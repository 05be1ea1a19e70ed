//! Calls in the entries of a pool's log.
use crate::bytes::Bytes;
use entity_core::text::Text;
use policy_core::scope::Caller;

/// A call that a client asked an instance of a pool to make: its time, its caller, and the method,
/// the path and the body of its request.
///
/// Nothing of the caller's token is in it.
#[derive(Debug, Drop)]
pub struct PoolCall {
    /// The time of the instance's clock, in Unix seconds.
    pub moment: u64,
    pub caller: Caller,
    pub method: Bytes,
    /// The target of the request up to the first `?`.
    pub path: Text,
    pub body: Bytes,
}
