//! Members with ids.
ghost use Rattle.std.specs.Prelude.{◌≡◌, OnOk};
ghost use Rattle.serde_json.specs.Data.{put, string};
ghost use Rattle.serde_json.specs.View.{members_view};
ghost use Rattle.entity_core.specs.EntityId.{printed};

use entity_core::entity_id::EntityId;
use serde_json::{Map, Value};
use std::alloc::{AllocError, Global};
use wire_reply::members::put_text;

/// Adds an id as a member.
pub(crate) fn put_id(
    members: &mut Map<String, Value>,
    alloc: Global,
    name: &str,
    id: EntityId,
) -> Result<(), AllocError>
    ensures { OnOk result (members_view members.new.entries
        ≡ put name.now (string (printed id)) (members_view members.old.entries)) }
{
    let text = id.text(alloc)?;
    put_text(members, alloc, name, text.as_str())
}
