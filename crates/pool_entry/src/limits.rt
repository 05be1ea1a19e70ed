//! Limits of an entry.

/// The maximum number of calls in an entry.
pub const MAX_CALLS: usize = 64;

/// The maximum number of bytes of an entry: 1 MiB for a body, and 16 KiB for what is around it.
///
/// A request has at most 1 MiB of body and 8 KiB of head, so that the call of each request fits.
pub const MAX_BYTES: usize = 1_064_960;
