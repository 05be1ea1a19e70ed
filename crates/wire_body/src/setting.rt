//! The setting of an availability, from JSON.
ghost use Rattle.std.specs.Prelude.{◌≡◌, option_map};
ghost use Rattle.serde_json.specs.View.{view};
ghost use Rattle.wire_body.specs.Body.{short_text_in, availability_of, old_version_of};
ghost use Rattle.wire_body.specs.Given.{Gives};

use crate::availability::availability_named;
use crate::body_fault::BodyFault;
use crate::member::member;
use entity_core::availability::Availability;
use entity_core::text::Text;
use serde_json::Value;
use std::alloc::Global;

/// Returns the new availability.
#[tactic(auto, unfolding(crate::specs::Body::availability_of))]
pub(crate) fn availability_of(value: &Value) -> Option<Availability>
    ensures { result ≡ availability_of (view value.now) }
{
    match member(value, "availability") {
        Some(found) => match found.as_str() {
            Some(name) => availability_named(name),
            None => None,
        },
        None => None,
    }
}

fn short_text_in(value: &Value) -> Option<&str>
    ensures { option_map (λ s. s.now) result ≡ short_text_in (view value.now) }
{
    match value.as_str() {
        Some(text) => if text.len() <= 128 { Some(text) } else { None },
        None => None,
    }
}

fn text_of(alloc: Global, text: &str) -> Result<Text, BodyFault>
    ensures { Gives result (Some text.now) }
{
    match String::from_str(alloc, text) {
        Ok(text) => Ok(Text::from_string(text)),
        Err(_) => Err(BodyFault::Memory),
    }
}

/// Returns the version that the setting replaces. An absent one is empty.
#[tactic(auto, unfolding(crate::specs::Body::old_version_of))]
pub(crate) fn old_version_of(alloc: Global, value: &Value) -> Result<Text, BodyFault>
    ensures { Gives result (old_version_of (view value.now)) }
{
    match member(value, "old_version") {
        None => text_of(alloc, ""),
        Some(found) => match short_text_in(found) {
            Some(text) => text_of(alloc, text),
            None => Err(BodyFault::Malformed),
        },
    }
}
