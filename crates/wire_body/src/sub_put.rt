//! The put of a subscription, from JSON.
ghost use Rattle.std.specs.Prelude.{◌≡◌};
ghost use Rattle.serde_json.specs.View.{view};
ghost use Rattle.wire_body.specs.Given.{Gives};
ghost use Rattle.wire_body.specs.SubPut.{flag_of, interest_by, interest_of, volume_of, sub_put_of};

use crate::body_fault::BodyFault;
use crate::member::member;
use crate::put::url_of;
use crate::volume::volume_in;
use entity_core::interest::Interest;
use grid_core::volume::Volume;
use policy_core::call::SubPut;
use serde_json::Value;
use std::alloc::Global;

// Returns a boolean. An absent one is false.
#[tactic(auto, unfolding(crate::specs::SubPut::flag_of))]
fn flag_of(value: &Value, name: &str) -> Option<bool>
    ensures { result ≡ flag_of name.now (view value.now) }
{
    match member(value, name) {
        None => Some(false),
        Some(found) => found.as_bool(),
    }
}

fn interest_by(intents: bool, constraints: bool) -> Option<Interest>
    ensures { result ≡ interest_by intents constraints }
{
    Interest::from_flags(intents, constraints)
}

#[tactic(auto, unfolding(crate::specs::SubPut::interest_of))]
fn interest_of(value: &Value) -> Option<Interest>
    ensures { result ≡ interest_of (view value.now) }
{
    let intents = flag_of(value, "notify_for_operational_intents")?;
    let constraints = flag_of(value, "notify_for_constraints")?;
    interest_by(intents, constraints)
}

#[tactic(auto, unfolding(crate::specs::SubPut::volume_of))]
fn volume_of(alloc: Global, value: &Value) -> Result<Volume, BodyFault>
    ensures { Gives result (volume_of (view value.now)) }
{
    match member(value, "extents") {
        Some(found) => volume_in(alloc, found),
        None => Err(BodyFault::Malformed),
    }
}

/// Returns the put of a subscription.
#[tactic(auto, unfolding(crate::specs::SubPut::sub_put_of))]
pub(crate) fn sub_put_of(alloc: Global, value: &Value) -> Result<SubPut, BodyFault>
    ensures { Gives result (sub_put_of (view value.now)) }
{
    let Some(interest) = interest_of(value) else {
        return Err(BodyFault::Malformed);
    };
    let volume = volume_of(alloc, value)?;
    let url = url_of(alloc, value)?;
    Ok(SubPut {
        volume,
        url,
        interest,
    })
}
