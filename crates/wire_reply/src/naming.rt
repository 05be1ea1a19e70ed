//! The subscription that an intent references, as JSON.
ghost use Rattle.std.specs.Prelude.{◌≡◌, ◌++◌, codes, OnOk};
ghost use Rattle.serde_json.specs.Data.{string, put};
ghost use Rattle.serde_json.specs.View.{members_view};
ghost use Rattle.wire_body.specs.Naming.{naming_text};
ghost use Rattle.wire_reply.specs.Tokens.{text_tokens};

use crate::members::put_text;
use crate::writing::{write_id, write_text};
use entity_core::entity_id::EntityId;
use json::Writer;
use serde_json::{Map, Value};
use std::alloc::{AllocError, Global};

/// The id that represents no subscription (this project's profile).
const NO_SUBSCRIPTION: &str = "00000000-0000-4000-8000-000000000000";

/// Adds the reference of an intent to a subscription, as a member.
pub(crate) fn put_naming(
    members: &mut Map<String, Value>,
    alloc: Global,
    named: Option<EntityId>,
) -> Result<(), AllocError>
    ensures { OnOk result (members_view members.new.entries
        ≡ put (codes "subscription_id") (string (naming_text named))
        (members_view members.old.entries)) }
{
    match named {
        Some(id) => {
            let text = id.text(alloc)?;
            put_text(members, alloc, "subscription_id", text.as_str())
        }
        None => put_text(members, alloc, "subscription_id", NO_SUBSCRIPTION),
    }
}

/// Writes the reference of an intent to a subscription, as a member.
pub(crate) fn write_naming(
    out: &mut Writer,
    alloc: Global,
    named: Option<EntityId>,
) -> Result<(), AllocError>
    ensures kept { out.new.before ≡ out.old.before }
    ensures adds { OnOk result (out.new.tokens
        ≡ out.old.tokens ++ text_tokens (codes "subscription_id") (naming_text named)) }
{
    match named {
        Some(id) => write_id(out, alloc, "subscription_id", id),
        None => write_text(out, "subscription_id", NO_SUBSCRIPTION),
    }
}
