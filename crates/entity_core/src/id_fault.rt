//! The faults of parsing an id.

/// The first fault of a text that is not an id.
///
/// Lengths are in bytes. A wrong length is reported before a wrong byte.
#[derive(Clone, Copy, Debug, PartialEq, Eq)]
pub enum IdFault {
    /// The text is too short or too long.
    Length,
    /// The length is right, but the text is otherwise wrong.
    Form,
    /// The text is right, but memory ran out.
    Memory,
}
