//! The subscription that an intent references.
ghost use Rattle.std.specs.Prelude.{◌≡◌};
ghost use Rattle.serde_json.specs.View.{view};
ghost use Rattle.wire_body.specs.Naming.{unless_zero, id_in, naming_of};

use crate::member::member;
use crate::words::id_of;
use entity_core::entity_id::EntityId;
use serde_json::Value;

/// The number of the id that represents no subscription (this project's profile).
const ZERO: u128 = 0x4000_8000_0000_0000_0000;

/// Returns the id, unless it is the one that represents no subscription.
pub(crate) fn unless_zero(id: EntityId) -> Option<EntityId>
    ensures { result ≡ unless_zero id }
{
    if id.number() == ZERO { None } else { Some(id) }
}

fn id_in(value: &Value) -> Option<EntityId>
    ensures { result ≡ id_in (view value.now) }
{
    match value.as_str() {
        Some(text) => id_of(text),
        None => None,
    }
}

/// Returns the reference in the put of an intent.
#[tactic(auto, unfolding(crate::specs::Naming::naming_of))]
pub(crate) fn naming_of(value: &Value) -> Option<Option<EntityId>>
    ensures { result ≡ naming_of (view value.now) }
{
    match member(value, "subscription_id") {
        None => Some(None),
        Some(found) => match id_in(found) {
            Some(id) => Some(unless_zero(id)),
            None => None,
        },
    }
}
