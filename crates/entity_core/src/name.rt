//! Names: USS ids and salts.
ghost use Rattle.std.specs.Prelude.{◌≡◌, MatchResult, None};
ghost use Rattle.std.specs.List.{list_all};
ghost use Rattle.std.specs.String.{string_bytes};
ghost use Rattle.entity_core.specs.IdTexts.{is_name_byte, name_fault, IsReadFault};

use crate::id_fault::IdFault;
use std::alloc::Global;

fn is_name(text: &str) -> bool
    ensures { result ≡ list_all is_name_byte text.now }
{
    text.as_bytes().iter().all(|b| b.is_ascii_alphanumeric()
        || *b == b'-'
        || *b == b'.'
        || *b == b'_')
}

/// Returns a copy of a name.
///
/// Returns its first fault, or `Memory` if memory runs out.
pub(crate) fn read_name(alloc: Global, text: &str) -> Result<String, IdFault>
    ensures { MatchResult result (λ s. (string_bytes s ≡ text.now) × (name_fault text.now ≡ None))
        (λ e. IsReadFault (name_fault text.now) e) }
{
    if text.is_empty() || text.len() > 64 {
        return Err(IdFault::Length);
    }
    if !is_name(text) {
        return Err(IdFault::Form);
    }
    match String::from_str(alloc, text) {
        Ok(letters) => Ok(letters),
        Err(_) => Err(IdFault::Memory),
    }
}
