//! References of entities, as JSON.
ghost use Rattle.std.specs.Prelude.{◌≡◌, ◌++◌, OnOk};
ghost use Rattle.serde_json.specs.View.{members_view};
ghost use Rattle.wire_reply.specs.Built.{with_nature, reference_data, references_data};
ghost use Rattle.wire_reply.specs.Reference.{reference_name, references_name};
ghost use Rattle.wire_reply.specs.Tokens.{nature_tokens, ovn_tokens, tokens_of};

use crate::members::put_text;
use crate::naming::{put_naming, write_naming};
use crate::writing::{write_id, write_number, write_text};
use entity_core::nature::{Kind, Nature};
use entity_core::ovn::Ovn;
use json::Writer;
use policy_core::reference::{Reference, References};
use serde_json::{Map, Value};
use std::alloc::{AllocError, Global};
use wire_body::availability;

/// Returns the member name for the reference of one entity of the kind.
pub fn reference_name(kind: Kind) -> &'static str
    ensures { result.now ≡ reference_name kind }
{
    match kind {
        Kind::Intent => "operational_intent_reference",
        Kind::Constraint => "constraint_reference",
    }
}

/// Returns the member name for references of the kind.
pub(crate) fn references_name(kind: Kind) -> &'static str
    ensures { result.now ≡ references_name kind }
{
    match kind {
        Kind::Intent => "operational_intent_references",
        Kind::Constraint => "constraint_references",
    }
}

/// Adds the members that only references of one kind have.
pub fn put_nature(
    members: &mut Map<String, Value>,
    alloc: Global,
    nature: Nature,
) -> Result<(), AllocError>
    ensures { OnOk result (members_view members.new.entries
        ≡ with_nature nature (members_view members.old.entries)) }
{
    match nature {
        Nature::Intent(state, named) => {
            put_text(members, alloc, "state", state.name())?;
            put_naming(members, alloc, named)
        }
        Nature::Constraint => Ok(()),
    }
}

fn write_ovn(out: &mut Writer, ovn: &Option<Ovn>) -> Result<(), AllocError>
    ensures kept { out.new.before ≡ out.old.before }
    ensures adds { OnOk result (out.new.tokens ≡ out.old.tokens ++ ovn_tokens ovn.now) }
{
    match ovn {
        Some(ovn) => write_text(out, "ovn", ovn.text()),
        None => Ok(()),
    }
}

fn write_nature(out: &mut Writer, alloc: Global, nature: Nature) -> Result<(), AllocError>
    ensures kept { out.new.before ≡ out.old.before }
    ensures adds { OnOk result (out.new.tokens ≡ out.old.tokens ++ nature_tokens nature) }
{
    match nature {
        Nature::Intent(state, named) => {
            write_text(out, "state", state.name())?;
            write_naming(out, alloc, named)
        }
        Nature::Constraint => Ok(()),
    }
}

/// Writes a reference.
pub(crate) fn write_reference(
    out: &mut Writer,
    alloc: Global,
    reference: &Reference,
) -> Result<(), AllocError>
    ensures kept { out.new.before ≡ out.old.before }
    ensures adds { OnOk result (out.new.tokens
        ≡ out.old.tokens ++ tokens_of (reference_data reference.now)) }
{
    out.begin_object()?;
    write_id(out, alloc, "id", reference.id)?;
    write_text(out, "manager", reference.manager.text())?;
    write_ovn(out, &reference.ovn)?;
    write_nature(out, alloc, reference.nature)?;
    write_number(out, "time_end", reference.time_end)?;
    write_number(out, "time_start", reference.time_start)?;
    let availability = availability::name_of(reference.availability);
    write_text(out, "uss_availability", availability)?;
    write_text(out, "uss_base_url", reference.url.text())?;
    write_number(out, "version", u64::from(reference.version.number()))?;
    out.end_object()
}

/// Writes references, in the same order.
pub(crate) fn write_references(
    out: &mut Writer,
    alloc: Global,
    references: &References,
) -> Result<(), AllocError>
    ensures kept { out.new.before ≡ out.old.before }
    ensures adds { OnOk result (out.new.tokens
        ≡ out.old.tokens ++ tokens_of (references_data references.now)) }
{
    out.begin_array()?;
    for reference in references.items() {
        write_reference(out, alloc, reference)?;
    }
    out.end_array()
}
