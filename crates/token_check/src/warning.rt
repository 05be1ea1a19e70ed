//! The warnings of a token file.
use entity_core::text::Text;

/// The minimum length of a salt without a warning.
pub const SHORTEST_SALT: usize = 32;

/// A part of a token file that is probably not intended, though the reader accepts it. Tables are
/// counted from 0, in the order of the list `token`.
#[derive(Debug, Drop)]
pub enum Warning {
    /// The salt occurs in an example.
    ExampleSalt,
    /// The salt is short, with so many characters.
    ShortSalt(usize),
    /// There is no token.
    NoToken,
    /// This key is ignored: of the table with that index, or of the document.
    Key(Option<usize>, Text),
    /// The token of this table has a scope of this name, but no scope has that name.
    Scope(usize, Text),
}
