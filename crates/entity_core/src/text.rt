//! Unparsed texts.
ghost use Rattle.std.specs.Prelude.{◌≡◌, [], IfOk};
ghost use Rattle.std.specs.String.{string_bytes};

use std::alloc::{AllocError, Global};
use std::marker::Model;

/// A text of any form.
///
/// Contracts see its bytes.
#[derive(Debug, Drop)]
pub struct Text {
    letters: String,
}

impl Model for Text {
    ghost use Rattle.std.specs.Prelude.{List, ℕ};
    ghost use Rattle.std.specs.String.{string_bytes};

    ghost Value = { List ℕ };

    ghost view = { λ a. string_bytes a.letters };
}

impl Text {
    /// Converts a string into a text.
    ///
    /// Allocates nothing.
    pub fn from_string(letters: String) -> Text
        ensures { result ≡ string_bytes letters }
    {
        Text { letters }
    }

    /// Returns the empty text.
    ///
    /// Allocates nothing.
    pub fn empty(alloc: Global) -> Text
        ensures { result ≡ [] }
    {
        Text {
            letters: String::new(alloc),
        }
    }

    /// Returns the text as a string slice.
    pub fn text(&self) -> &str
        ensures { result.now ≡ self.now }
    {
        self.letters.as_str()
    }

    /// Returns a copy of the text.
    ///
    /// Returns `AllocError` if memory runs out.
    pub fn clone(&self) -> Result<Text, AllocError>
        ensures { IfOk result (λ text. text ≡ self.now) }
    {
        Ok(Text {
            letters: self.letters.clone()?,
        })
    }
}
