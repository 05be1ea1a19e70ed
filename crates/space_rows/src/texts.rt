//! Conversion of the texts of rows.
ghost use Rattle.std.specs.Prelude.{◌≡◌, IfOk};
ghost use Rattle.entity_core.specs.IdTexts.{name_fault, ovn_fault, url_fault};
ghost use Rattle.space_rows.specs.Finds.{Finds};
ghost use Rattle.space_rows.specs.Head.{SpellsText};

use entity_core::base_url::BaseUrl;
use entity_core::id_fault::IdFault;
use entity_core::ovn::Ovn;
use entity_core::text::Text;
use entity_core::uss_id::UssId;
use std::alloc::{AllocError, Global};

/// Returns the USS that the text identifies, if it identifies one.
pub fn uss_in(alloc: Global, text: &str) -> Result<Option<UssId>, AllocError>
    ensures { IfOk result (λ o. Finds (SpellsText name_fault text.now) o) }
{
    match UssId::read(alloc, text) {
        Ok(id) => Ok(Some(id)),
        Err(IdFault::Memory) => Err(AllocError),
        Err(IdFault::Length) => Ok(None),
        Err(IdFault::Form) => Ok(None),
    }
}

/// Returns the text as an OVN, if it is one.
pub fn ovn_in(alloc: Global, text: &str) -> Result<Option<Ovn>, AllocError>
    ensures { IfOk result (λ o. Finds (SpellsText ovn_fault text.now) o) }
{
    match Ovn::read(alloc, text) {
        Ok(ovn) => Ok(Some(ovn)),
        Err(IdFault::Memory) => Err(AllocError),
        Err(IdFault::Length) => Ok(None),
        Err(IdFault::Form) => Ok(None),
    }
}

/// Returns the text as a base URL, if it is one.
pub(crate) fn url_in(alloc: Global, text: &str) -> Result<Option<BaseUrl>, AllocError>
    ensures { IfOk result (λ o. Finds (SpellsText url_fault text.now) o) }
{
    match BaseUrl::read(alloc, text) {
        Ok(url) => Ok(Some(url)),
        Err(IdFault::Memory) => Err(AllocError),
        Err(IdFault::Length) => Ok(None),
        Err(IdFault::Form) => Ok(None),
    }
}

/// Returns a copy of the text.
pub(crate) fn text_of(alloc: Global, text: &str) -> Result<Text, AllocError>
    ensures { IfOk result (λ copy. copy ≡ text.now) }
{
    Ok(Text::from_string(String::from_str(alloc, text)?))
}
