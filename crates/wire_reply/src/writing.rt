//! Members of JSON objects, written token by token.
ghost use Rattle.std.specs.Prelude.{◌≡◌, ◌∷◌, ◌++◌, [], OnOk};
ghost use Rattle.json.specs.Token.{begin_object, key};
ghost use Rattle.entity_core.specs.EntityId.{printed};
ghost use Rattle.wire_reply.specs.Tokens.{flag_tokens, number_tokens, text_tokens};

use entity_core::entity_id::EntityId;
use json::Writer;
use std::alloc::{AllocError, Global};

/// Begins an object, and writes the name of its first member.
pub(crate) fn begin_with(out: &mut Writer, name: &str) -> Result<(), AllocError>
    ensures kept { out.new.before ≡ out.old.before }
    ensures adds { OnOk result (out.new.tokens
        ≡ out.old.tokens ++ begin_object ∷ key name.now ∷ []) }
{
    out.begin_object()?;
    out.key(name)
}

/// Writes the name of a member.
pub(crate) fn write_key(out: &mut Writer, name: &str) -> Result<(), AllocError>
    ensures kept { out.new.before ≡ out.old.before }
    ensures adds { OnOk result (out.new.tokens ≡ out.old.tokens ++ key name.now ∷ []) }
{
    out.key(name)
}

/// Writes a member with a text.
pub(crate) fn write_text(out: &mut Writer, name: &str, text: &str) -> Result<(), AllocError>
    ensures kept { out.new.before ≡ out.old.before }
    ensures adds { OnOk result (out.new.tokens ≡ out.old.tokens ++ text_tokens name.now text.now) }
{
    out.key(name)?;
    out.string(text)
}

/// Writes a member with a number.
pub(crate) fn write_number(out: &mut Writer, name: &str, value: u64) -> Result<(), AllocError>
    ensures kept { out.new.before ≡ out.old.before }
    ensures adds { OnOk result (out.new.tokens ≡ out.old.tokens ++ number_tokens name.now value) }
{
    out.key(name)?;
    out.u64(value)
}

/// Writes a member with a Boolean.
pub(crate) fn write_flag(out: &mut Writer, name: &str, flag: bool) -> Result<(), AllocError>
    ensures kept { out.new.before ≡ out.old.before }
    ensures adds { OnOk result (out.new.tokens ≡ out.old.tokens ++ flag_tokens name.now flag) }
{
    out.key(name)?;
    out.boolean(flag)
}

/// Writes a member with an id.
pub(crate) fn write_id(
    out: &mut Writer,
    alloc: Global,
    name: &str,
    id: EntityId,
) -> Result<(), AllocError>
    ensures kept { out.new.before ≡ out.old.before }
    ensures adds { OnOk result (out.new.tokens
        ≡ out.old.tokens ++ text_tokens name.now (printed id)) }
{
    let text = id.text(alloc)?;
    write_text(out, name, text.as_str())
}
