//! Base URLs of USSs.
ghost use Rattle.std.specs.Prelude.{◌≡◌, IfOk, None};
ghost use Rattle.entity_core.specs.IdTexts.{ReadsText, url_fault};

use crate::id_fault::IdFault;
use crate::visible::read_visible;
use std::alloc::{AllocError, Global};
use std::marker::Model;

/// The base URL at which a USS serves an entity: 1 to 255 bytes from 0x21 to 0x7E (this project's
/// profile).
///
/// Contracts see its bytes.
#[derive(Debug, Drop)]
pub struct BaseUrl {
    letters: String,
}

impl Model for BaseUrl {
    ghost use Rattle.std.specs.Prelude.{◌≡◌, List, ℕ, None};
    ghost use Rattle.std.specs.String.{string_bytes};

    ghost Value = { List ℕ };

    ghost use Rattle.entity_core.specs.IdTexts.{url_fault};

    ghost view = { λ a. string_bytes a.letters };

    ghost invariant = { λ a. url_fault (string_bytes a.letters) ≡ None };
}

impl BaseUrl {
    /// Parses a base URL.
    ///
    /// Returns the first fault of the text, or `Memory` if memory runs out.
    pub fn read(alloc: Global, text: &str) -> Result<BaseUrl, IdFault>
        ensures { ReadsText (url_fault text.now) text.now result }
    {
        let letters = read_visible(alloc, text, 1, 255)?;
        Ok(BaseUrl { letters })
    }

    /// Returns the URL as it was parsed.
    pub fn text(&self) -> &str
        ensures same { result.now ≡ self.now }
        ensures reads { url_fault self.now ≡ None }
    {
        self.letters.as_str()
    }

    /// Returns a copy of the URL.
    ///
    /// Returns `AllocError` if memory runs out.
    pub fn clone(&self) -> Result<BaseUrl, AllocError>
        ensures { IfOk result (λ url. url ≡ self.now) }
    {
        Ok(BaseUrl {
            letters: self.letters.clone()?,
        })
    }
}
