//! Reasons not to read a body.

/// A reason not to read a body.
#[derive(Clone, Copy, Debug, PartialEq, Eq)]
pub enum BodyFault {
    /// The path parameters and the body do not have the form of the operation.
    Malformed,
    /// Memory ran out.
    Memory,
}
