//! Texts of visible ASCII characters: OVNs and base URLs.
ghost use Rattle.std.specs.Prelude.{◌≡◌, MatchResult, None};
ghost use Rattle.std.specs.List.{list_all};
ghost use Rattle.std.specs.String.{string_bytes};
ghost use Rattle.entity_core.specs.IdTexts.{first_fault, is_visible_byte, IsReadFault};

use crate::id_fault::IdFault;
use std::alloc::Global;

fn is_visible(text: &str) -> bool
    ensures { result ≡ list_all is_visible_byte text.now }
{
    text.as_bytes().iter().all(|b| b.is_ascii_graphic())
}

/// Returns a copy of a text of visible characters whose length is in a range.
///
/// Returns its first fault, or `Memory` if memory runs out.
pub(crate) fn read_visible(
    alloc: Global,
    text: &str,
    least: usize,
    most: usize,
) -> Result<String, IdFault>
    ensures { MatchResult result (λ s. (string_bytes s ≡ text.now)
        × (first_fault least most is_visible_byte text.now ≡ None))
        (λ e. IsReadFault (first_fault least most is_visible_byte text.now) e) }
{
    if text.len() < least || text.len() > most {
        return Err(IdFault::Length);
    }
    if !is_visible(text) {
        return Err(IdFault::Form);
    }
    match String::from_str(alloc, text) {
        Ok(letters) => Ok(letters),
        Err(_) => Err(IdFault::Memory),
    }
}
