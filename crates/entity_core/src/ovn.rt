//! OVNs, opaque version numbers.
ghost use Rattle.std.specs.Prelude.{◌≡◌, IfOk, None, length};
ghost use Rattle.std.specs.String.{string_bytes};
ghost use Rattle.hex.specs.Hex.{encode_lower};
ghost use Rattle.entity_core.specs.IdTexts.{ReadsText, ovn_fault};
ghost use Rattle.entity_core.specs.Ovn.{ovn_text, ovn_message};

use crate::id_fault::IdFault;
use crate::salt::Salt;
use crate::text::Text;
use crate::visible::read_visible;
use sha2::{Digest, Sha256};
use std::alloc::{AllocError, Global};
use std::marker::Model;

/// An OVN: 16 to 128 bytes from 0x21 to 0x7E (this project's profile).
///
/// Contracts see its bytes.
#[derive(Debug, Drop)]
pub struct Ovn {
    letters: String,
}

impl Model for Ovn {
    ghost use Rattle.std.specs.Prelude.{◌≡◌, List, ℕ, None};
    ghost use Rattle.std.specs.String.{string_bytes};

    ghost Value = { List ℕ };

    ghost use Rattle.entity_core.specs.IdTexts.{ovn_fault};

    ghost view = { λ a. string_bytes a.letters };

    ghost invariant = { λ a. ovn_fault (string_bytes a.letters) ≡ None };
}

impl Ovn {
    /// Parses an OVN that a client sent.
    ///
    /// Returns the first fault of the text, or `Memory` if memory runs out.
    pub fn read(alloc: Global, text: &str) -> Result<Ovn, IdFault>
        ensures { ReadsText (ovn_fault text.now) text.now result }
    {
        let letters = read_visible(alloc, text, 16, 128)?;
        Ok(Ovn { letters })
    }

    /// Returns the OVN as it was parsed or created.
    pub fn text(&self) -> &str
        ensures same { result.now ≡ self.now }
        ensures reads { ovn_fault self.now ≡ None }
    {
        self.letters.as_str()
    }

    /// Converts the OVN into a text with the same bytes.
    ///
    /// Allocates nothing.
    pub fn into_text(self) -> Text
        ensures { result ≡ self }
    {
        let Ovn { letters } = self;
        Text::from_string(letters)
    }

    /// Returns a copy of the OVN.
    ///
    /// Returns `AllocError` if memory runs out.
    pub fn clone(&self) -> Result<Ovn, AllocError>
        ensures { IfOk result (λ ovn. ovn ≡ self.now) }
    {
        Ok(Ovn {
            letters: self.letters.clone()?,
        })
    }
}

fn message(alloc: Global, salt: &Salt, serial: u64) -> Result<String, AllocError>
    ensures { IfOk result (λ text. string_bytes text ≡ ovn_message salt.now serial) }
{
    let salt = salt.text();
    format!(in alloc; "dss-ovn|{salt}|{serial}")
}

// Returns the OVN made of the hexadecimal digits of a digest.
fn of_digest(alloc: Global, digest: &[u8]) -> Result<Ovn, AllocError>
    requires { length digest.now ≡ 32 }
    ensures { IfOk result (λ ovn. ovn ≡ encode_lower digest.now) }
{
    Ok(Ovn {
        letters: hex::encode(alloc, digest)?,
    })
}

/// Computes the OVN of a serial.
///
/// It is the 64 lower-case hexadecimal digits of SHA-256 (FIPS 180-4) of `dss-ovn|`, the salt, `|`
/// and the serial in decimal (this project's profile). Returns `AllocError` if memory runs out.
pub fn ovn_of(alloc: Global, salt: &Salt, serial: u64) -> Result<Ovn, AllocError>
    ensures { IfOk result (λ ovn. ovn ≡ ovn_text salt.now serial) }
{
    let text = message(alloc, salt, serial)?;
    let digest = Sha256::digest(text.as_str());
    of_digest(alloc, digest.as_slice())
}
