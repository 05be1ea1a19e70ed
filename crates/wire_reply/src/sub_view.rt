//! Subscriptions as their managers see them, as JSON.
ghost use Rattle.std.specs.Prelude.{◌≡◌, ◌++◌, OnOk};
ghost use Rattle.wire_reply.specs.Built.{id_data, ids_data, sub_data, subs_data};
ghost use Rattle.wire_reply.specs.Tokens.{tokens_of};

use crate::writing::{begin_with, write_flag, write_id, write_number, write_text};
use entity_core::entity_id::EntityId;
use entity_core::nature::Kind;
use json::Writer;
use policy_core::sub_view::{EntityIds, SubView, SubViews};
use std::alloc::{AllocError, Global};

fn write_item(out: &mut Writer, alloc: Global, id: EntityId) -> Result<(), AllocError>
    ensures kept { out.new.before ≡ out.old.before }
    ensures adds { OnOk result (out.new.tokens ≡ out.old.tokens ++ tokens_of (id_data id)) }
{
    let text = id.text(alloc)?;
    out.string(text.as_str())
}

// Writes ids, in the same order.
fn write_ids(out: &mut Writer, alloc: Global, ids: &EntityIds) -> Result<(), AllocError>
    ensures kept { out.new.before ≡ out.old.before }
    ensures adds { OnOk result (out.new.tokens ≡ out.old.tokens ++ tokens_of (ids_data ids.now)) }
{
    out.begin_array()?;
    for id in ids.items() {
        write_item(out, alloc, *id)?;
    }
    out.end_array()
}

/// Writes a subscription. It is never implicit.
pub(crate) fn write_sub(out: &mut Writer, alloc: Global, sub: &SubView) -> Result<(), AllocError>
    ensures kept { out.new.before ≡ out.old.before }
    ensures adds { OnOk result (out.new.tokens ≡ out.old.tokens ++ tokens_of (sub_data sub.now)) }
{
    begin_with(out, "dependent_operational_intents")?;
    write_ids(out, alloc, &sub.dependents)?;
    write_id(out, alloc, "id", sub.id)?;
    write_flag(out, "implicit_subscription", false)?;
    write_number(out, "notification_index", sub.index.number())?;
    let constraints = sub.interest.wants(Kind::Constraint);
    write_flag(out, "notify_for_constraints", constraints)?;
    let intents = sub.interest.wants(Kind::Intent);
    write_flag(out, "notify_for_operational_intents", intents)?;
    write_number(out, "time_end", sub.time_end)?;
    write_number(out, "time_start", sub.time_start)?;
    write_text(out, "uss_base_url", sub.url.text())?;
    write_text(out, "version", sub.version.text())?;
    out.end_object()
}

/// Writes subscriptions, in the same order.
pub(crate) fn write_subs(out: &mut Writer, alloc: Global, subs: &SubViews) -> Result<(), AllocError>
    ensures kept { out.new.before ≡ out.old.before }
    ensures adds { OnOk result (out.new.tokens ≡ out.old.tokens ++ tokens_of (subs_data subs.now)) }
{
    out.begin_array()?;
    for sub in subs.items() {
        write_sub(out, alloc, sub)?;
    }
    out.end_array()
}
