//! The parameters of a path.
ghost use Rattle.std.specs.Prelude.{◌≡◌, option_map};
ghost use Rattle.wire_body.specs.Body.{words_of, only_parameter, is_query, id_named, ovn_named, uss_parameter};
ghost use Rattle.wire_body.specs.Given.{Gives};
ghost use Rattle.entity_core.specs.EntityId.{spelled};

use crate::body::PathWords;
use crate::body_fault::BodyFault;
use entity_core::entity_id::EntityId;
use entity_core::id_fault::IdFault;
use entity_core::ovn::Ovn;
use entity_core::uss_id::UssId;
use std::alloc::Global;

fn only_parameter<'a>(words: &PathWords<'a>) -> Option<&'a str>
    ensures { option_map (λ s. s.now) result ≡ only_parameter (words_of words.now) }
{
    match words.second {
        None => Some(words.first),
        Some(_) => None,
    }
}

/// Returns true if the only parameter is `query`.
pub(crate) fn is_query(words: &PathWords<'_>) -> bool
    ensures { result ≡ is_query (words_of words.now) }
{
    match words.second {
        None => words.first == "query",
        Some(_) => false,
    }
}

/// Returns the id that a text represents.
pub(crate) fn id_of(text: &str) -> Option<EntityId>
    ensures { result ≡ spelled text.now }
{
    match EntityId::read(text) {
        Ok(id) => Some(id),
        Err(_) => None,
    }
}

/// Returns the id in the first parameter.
pub(crate) fn first_id(words: &PathWords<'_>) -> Option<EntityId>
    ensures { result ≡ spelled (words_of words.now).first }
{
    id_of(words.first)
}

/// Returns the id in the only parameter.
#[tactic(auto, unfolding(crate::specs::Body::id_named))]
pub(crate) fn id_named(words: &PathWords<'_>) -> Option<EntityId>
    ensures { result ≡ id_named (words_of words.now) }
{
    match only_parameter(words) {
        Some(word) => id_of(word),
        None => None,
    }
}

/// Returns the OVN in the second parameter.
#[tactic(auto, unfolding(crate::specs::Body::ovn_named))]
pub(crate) fn ovn_named(alloc: Global, words: &PathWords<'_>) -> Result<Ovn, BodyFault>
    ensures { Gives result (ovn_named (words_of words.now)) }
{
    let Some(word) = words.second else {
        return Err(BodyFault::Malformed);
    };
    match Ovn::read(alloc, word) {
        Ok(ovn) => Ok(ovn),
        Err(IdFault::Memory) => Err(BodyFault::Memory),
        Err(IdFault::Length) => Err(BodyFault::Malformed),
        Err(IdFault::Form) => Err(BodyFault::Malformed),
    }
}

/// Returns the USS in the only parameter.
#[tactic(auto, unfolding(crate::specs::Body::uss_parameter))]
pub(crate) fn uss_parameter(alloc: Global, words: &PathWords<'_>) -> Result<UssId, BodyFault>
    ensures { Gives result (uss_parameter (words_of words.now)) }
{
    let Some(word) = only_parameter(words) else {
        return Err(BodyFault::Malformed);
    };
    match UssId::read(alloc, word) {
        Ok(uss) => Ok(uss),
        Err(IdFault::Memory) => Err(BodyFault::Memory),
        Err(IdFault::Length) => Err(BodyFault::Malformed),
        Err(IdFault::Form) => Err(BodyFault::Malformed),
    }
}
