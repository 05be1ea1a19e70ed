//! Faults of the bytes of an entry.
ghost use Rattle.std.specs.Prelude.{◌≡◌};
ghost use Rattle.pool_entry.specs.declared.batch_fault.ReadError.TheVariants.{Memory};

use std::alloc::{AllocError, AllocFailed};

/// A field of a call in an entry.
#[derive(Clone, Copy, Debug, PartialEq, Eq)]
pub enum Field {
    Moment,
    Uss,
    Scopes,
    Method,
    Path,
    Body,
}

/// The first fault of bytes that represent neither a batch nor a purge.
#[derive(Clone, Copy, Debug, PartialEq, Eq)]
pub enum BatchFault {
    /// The entry is longer than `MAX_BYTES`.
    TooLong,
    /// The first line is not that of a batch or a purge.
    Header,
    /// Bytes follow the last call that an entry may have.
    TooMany,
    /// This field of the call with this index, which counts from 0, is missing or has another form.
    Call(usize, Field),
    /// The first line is that of a purge, and the rest is not one time with a line feed.
    Until,
}

/// Why no batch or purge was read.
#[derive(Debug, Drop)]
pub enum ReadError {
    /// Memory ran out: nothing is known of the bytes.
    Memory,
    /// The bytes represent none.
    Fault(BatchFault),
}

impl From<AllocError> for ReadError {
    ghost from_gives = { λ _ e. e ≡ Memory };

    fn from(_e: AllocError) -> ReadError {
        ReadError::Memory
    }
}

impl<T: Drop> From<AllocFailed<T>> for ReadError {
    ghost from_gives = { λ _ e. e ≡ Memory };

    fn from(_e: AllocFailed<T>) -> ReadError {
        ReadError::Memory
    }
}
