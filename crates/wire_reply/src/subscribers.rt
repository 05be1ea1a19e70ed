//! The subscribers to notify of a change, as JSON.
ghost use Rattle.std.specs.Prelude.{◌≡◌, ◌++◌, OnOk};
ghost use Rattle.wire_reply.specs.Built.{state_data, states_data, notify_data, subscribers_data};
ghost use Rattle.wire_reply.specs.Tokens.{tokens_of};

use crate::writing::{begin_with, write_id, write_number, write_text};
use entity_core::entity_id::EntityId;
use json::Writer;
use service_notify::notice::{Notices, Notify, SubIndexes};
use std::alloc::{AllocError, Global};

fn write_state(out: &mut Writer, alloc: Global, state: (EntityId, u64)) -> Result<(), AllocError>
    ensures kept { out.new.before ≡ out.old.before }
    ensures adds { OnOk result (out.new.tokens ≡ out.old.tokens ++ tokens_of (state_data state)) }
{
    let (id, index) = state;
    out.begin_object()?;
    write_number(out, "notification_index", index)?;
    write_id(out, alloc, "subscription_id", id)?;
    out.end_object()
}

// Writes notified subscriptions, in the same order.
fn write_states(out: &mut Writer, alloc: Global, states: &SubIndexes) -> Result<(), AllocError>
    ensures kept { out.new.before ≡ out.old.before }
    ensures adds { OnOk result (out.new.tokens
        ≡ out.old.tokens ++ tokens_of (states_data states.now)) }
{
    out.begin_array()?;
    for state in states.items() {
        write_state(out, alloc, *state)?;
    }
    out.end_array()
}

fn write_notify(out: &mut Writer, alloc: Global, notify: &Notify) -> Result<(), AllocError>
    ensures kept { out.new.before ≡ out.old.before }
    ensures adds { OnOk result (out.new.tokens
        ≡ out.old.tokens ++ tokens_of (notify_data notify.now)) }
{
    begin_with(out, "subscriptions")?;
    write_states(out, alloc, &notify.states)?;
    write_text(out, "uss_base_url", notify.url.text())?;
    out.end_object()
}

/// Writes all notices, in the same order.
pub(crate) fn write_subscribers(
    out: &mut Writer,
    alloc: Global,
    notices: &Notices,
) -> Result<(), AllocError>
    ensures kept { out.new.before ≡ out.old.before }
    ensures adds { OnOk result (out.new.tokens
        ≡ out.old.tokens ++ tokens_of (subscribers_data notices.now)) }
{
    out.begin_array()?;
    for notify in notices.items() {
        write_notify(out, alloc, notify)?;
    }
    out.end_array()
}
