//! Ids of USSs.
ghost use Rattle.std.specs.Prelude.{◌≡◌, ◌↔◌, IsTrue, IfOk, None};
ghost use Rattle.entity_core.specs.IdTexts.{ReadsText, name_fault};

use crate::id_fault::IdFault;
use crate::name::read_name;
use std::alloc::{AllocError, Global};
use std::marker::Model;

/// The id of a USS (UAS service supplier): 1 to 64 ASCII letters, digits, `-`, `_` or `.` (this
/// project's profile).
///
/// Contracts see its bytes.
#[derive(Debug, Drop)]
pub struct UssId {
    letters: String,
}

impl Model for UssId {
    ghost use Rattle.std.specs.Prelude.{◌≡◌, List, ℕ, None};
    ghost use Rattle.std.specs.String.{string_bytes};

    ghost Value = { List ℕ };

    ghost use Rattle.entity_core.specs.IdTexts.{name_fault};

    ghost view = { λ a. string_bytes a.letters };

    ghost invariant = { λ a. name_fault (string_bytes a.letters) ≡ None };
}

impl UssId {
    /// Parses a USS id.
    ///
    /// Returns the first fault of the text, or `Memory` if memory runs out.
    pub fn read(alloc: Global, text: &str) -> Result<UssId, IdFault>
        ensures { ReadsText (name_fault text.now) text.now result }
    {
        let letters = read_name(alloc, text)?;
        Ok(UssId { letters })
    }

    /// Returns the id as it was parsed.
    pub fn text(&self) -> &str
        ensures same { result.now ≡ self.now }
        ensures reads { name_fault self.now ≡ None }
    {
        self.letters.as_str()
    }

    /// Returns true if the two ids are equal.
    pub fn is(&self, other: &UssId) -> bool
        ensures { IsTrue result ↔ (self.now ≡ other.now) }
    {
        self.text() == other.text()
    }

    /// Returns a copy of the id.
    ///
    /// Returns `AllocError` if memory runs out.
    pub fn clone(&self) -> Result<UssId, AllocError>
        ensures { IfOk result (λ id. id ≡ self.now) }
    {
        Ok(UssId {
            letters: self.letters.clone()?,
        })
    }
}
