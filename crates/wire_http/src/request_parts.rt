//! The parts of a request.

use policy_core::scope::Caller;

/// The parts of a complete request that make its call.
#[derive(Clone, Copy)]
pub struct RequestParts<'c> {
    /// The caller with the bearer token of the request, if a token identifies one.
    pub caller: Option<&'c Caller>,
    /// The method.
    pub method: &'c [u8],
    /// The path: the target before the first `?`.
    pub path: &'c str,
    /// The body.
    pub body: &'c [u8],
}
