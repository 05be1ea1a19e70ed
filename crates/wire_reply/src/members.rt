//! Members of JSON objects.
ghost use Rattle.std.specs.Prelude.{◌≡◌, OnOk};
ghost use Rattle.serde_json.specs.Data.{boolean, number, put, string, unsigned};
ghost use Rattle.serde_json.specs.View.{members_view};

use serde_json::{Map, Value, put};
use std::alloc::{AllocError, Global};

/// Adds a text as a member. Returns `AllocError` if memory runs out.
pub fn put_text(
    members: &mut Map<String, Value>,
    alloc: Global,
    name: &str,
    text: &str,
) -> Result<(), AllocError>
    ensures { OnOk result (members_view members.new.entries
        ≡ put name.now (string text.now) (members_view members.old.entries)) }
{
    let text = Value::try_from_str(alloc, text)?;
    put(members, alloc, name, text)
}

/// Adds a number as a member. Returns `AllocError` if memory runs out.
pub fn put_number(
    members: &mut Map<String, Value>,
    alloc: Global,
    name: &str,
    value: u64,
) -> Result<(), AllocError>
    ensures { OnOk result (members_view members.new.entries
        ≡ put name.now (number (unsigned value)) (members_view members.old.entries)) }
{
    put(members, alloc, name, Value::from(value))
}

/// Adds a Boolean as a member. Returns `AllocError` if memory runs out.
pub fn put_flag(
    members: &mut Map<String, Value>,
    alloc: Global,
    name: &str,
    flag: bool,
) -> Result<(), AllocError>
    ensures { OnOk result (members_view members.new.entries
        ≡ put name.now (boolean flag) (members_view members.old.entries)) }
{
    put(members, alloc, name, Value::from(flag))
}
