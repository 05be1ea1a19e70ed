//! Salts of OVNs.
ghost use Rattle.std.specs.Prelude.{◌≡◌, IfOk, None};
ghost use Rattle.entity_core.specs.IdTexts.{ReadsText, name_fault};

use crate::id_fault::IdFault;
use crate::name::read_name;
use std::alloc::{AllocError, Global};
use std::marker::Model;

/// The secret that a service mixes into its OVNs, so that others cannot compute them.
///
/// 1 to 64 ASCII letters, digits, `-`, `_` or `.` (this project's profile). Contracts see its
/// bytes.
#[derive(Debug, Drop)]
pub struct Salt {
    letters: String,
}

impl Model for Salt {
    ghost use Rattle.std.specs.Prelude.{◌≡◌, List, ℕ, None};
    ghost use Rattle.std.specs.String.{string_bytes};

    ghost Value = { List ℕ };

    ghost use Rattle.entity_core.specs.IdTexts.{name_fault};

    ghost view = { λ a. string_bytes a.letters };

    ghost invariant = { λ a. name_fault (string_bytes a.letters) ≡ None };
}

impl Salt {
    /// Parses a salt.
    ///
    /// Returns the first fault of the text, or `Memory` if memory runs out.
    pub fn read(alloc: Global, text: &str) -> Result<Salt, IdFault>
        ensures { ReadsText (name_fault text.now) text.now result }
    {
        let letters = read_name(alloc, text)?;
        Ok(Salt { letters })
    }

    /// Returns the salt as it was parsed.
    pub fn text(&self) -> &str
        ensures same { result.now ≡ self.now }
        ensures reads { name_fault self.now ≡ None }
    {
        self.letters.as_str()
    }

    /// Returns a copy of the salt.
    ///
    /// Returns `AllocError` if memory runs out.
    pub fn clone(&self) -> Result<Salt, AllocError>
        ensures { IfOk result (λ salt. salt ≡ self.now) }
    {
        Ok(Salt {
            letters: self.letters.clone()?,
        })
    }
}
