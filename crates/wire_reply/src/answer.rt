//! The bodies of responses.
ghost use Rattle.std.specs.Prelude.{◌≡◌, ◌++◌, IfOk, OnOk, string_bytes};
ghost use Rattle.wire_reply.specs.Answer.{rule_text, reply_text, answer_status, status_of};
ghost use Rattle.wire_reply.specs.Built.{availability_data, found_data, changed_data, listed_data, sub_stored_data, sub_found_data, sub_listed_data, answer_data, message_data, missing_data, denied_data, reply_data};
ghost use Rattle.wire_reply.specs.Tokens.{tokens_of};

use crate::reference::{reference_name, references_name, write_reference, write_references};
use crate::sub_view::{write_sub, write_subs};
use crate::subscribers::write_subscribers;
use crate::writing::{begin_with, write_key, write_text};
use entity_core::availability::Availability;
use entity_core::nature::Kind;
use json::Writer;
use policy_core::reference::{Missing, Reference, References};
use policy_core::rule::Rule;
use policy_core::sub_view::{SubView, SubViews};
use service_notify::notice::Notices;
use service_step::reply::{Answer, Reply};
use std::alloc::{AllocError, Global};
use wire_body::availability::name_of;

fn write_availability(
    out: &mut Writer,
    uss: &str,
    availability: Availability,
    version: &str,
) -> Result<(), AllocError>
    ensures kept { out.new.before ≡ out.old.before }
    ensures adds { OnOk result (out.new.tokens
        ≡ out.old.tokens ++ tokens_of (availability_data uss.now availability version.now)) }
{
    begin_with(out, "status")?;
    out.begin_object()?;
    write_text(out, "availability", name_of(availability))?;
    write_text(out, "uss", uss)?;
    out.end_object()?;
    write_text(out, "version", version)?;
    out.end_object()
}

// Writes the reference of an entity.
fn write_found(out: &mut Writer, alloc: Global, reference: &Reference) -> Result<(), AllocError>
    ensures kept { out.new.before ≡ out.old.before }
    ensures adds { OnOk result (out.new.tokens
        ≡ out.old.tokens ++ tokens_of (found_data reference.now)) }
{
    begin_with(out, reference_name(reference.nature.kind()))?;
    write_reference(out, alloc, reference)?;
    out.end_object()
}

// Writes the reference of an entity that was put or deleted, with the notices.
fn write_changed(
    out: &mut Writer,
    alloc: Global,
    reference: &Reference,
    notices: &Notices,
) -> Result<(), AllocError>
    ensures kept { out.new.before ≡ out.old.before }
    ensures adds { OnOk result (out.new.tokens
        ≡ out.old.tokens ++ tokens_of (changed_data reference.now notices.now)) }
{
    begin_with(out, reference_name(reference.nature.kind()))?;
    write_reference(out, alloc, reference)?;
    write_key(out, "subscribers")?;
    write_subscribers(out, alloc, notices)?;
    out.end_object()
}

// Writes the references that a query for entities finds.
fn write_listed(
    out: &mut Writer,
    alloc: Global,
    kind: Kind,
    references: &References,
) -> Result<(), AllocError>
    ensures kept { out.new.before ≡ out.old.before }
    ensures adds { OnOk result (out.new.tokens
        ≡ out.old.tokens ++ tokens_of (listed_data kind references.now)) }
{
    begin_with(out, references_name(kind))?;
    write_references(out, alloc, references)?;
    out.end_object()
}

// Writes a subscription that was put, with the references of what it is for and meets.
fn write_sub_stored(
    out: &mut Writer,
    alloc: Global,
    sub: &SubView,
    intents: &References,
    constraints: &References,
) -> Result<(), AllocError>
    ensures kept { out.new.before ≡ out.old.before }
    ensures adds { OnOk result (out.new.tokens
        ≡ out.old.tokens ++ tokens_of (sub_stored_data sub.now intents.now constraints.now)) }
{
    begin_with(out, "constraint_references")?;
    write_references(out, alloc, constraints)?;
    write_key(out, "operational_intent_references")?;
    write_references(out, alloc, intents)?;
    write_key(out, "subscription")?;
    write_sub(out, alloc, sub)?;
    out.end_object()
}

// Writes a subscription.
fn write_sub_found(out: &mut Writer, alloc: Global, sub: &SubView) -> Result<(), AllocError>
    ensures kept { out.new.before ≡ out.old.before }
    ensures adds { OnOk result (out.new.tokens
        ≡ out.old.tokens ++ tokens_of (sub_found_data sub.now)) }
{
    begin_with(out, "subscription")?;
    write_sub(out, alloc, sub)?;
    out.end_object()
}

// Writes the subscriptions that a query finds.
fn write_sub_listed(out: &mut Writer, alloc: Global, subs: &SubViews) -> Result<(), AllocError>
    ensures kept { out.new.before ≡ out.old.before }
    ensures adds { OnOk result (out.new.tokens
        ≡ out.old.tokens ++ tokens_of (sub_listed_data subs.now)) }
{
    begin_with(out, "subscriptions")?;
    write_subs(out, alloc, subs)?;
    out.end_object()
}

fn write_answer(out: &mut Writer, alloc: Global, answer: &Answer) -> Result<(), AllocError>
    ensures kept { out.new.before ≡ out.old.before }
    ensures adds { OnOk result (out.new.tokens
        ≡ out.old.tokens ++ tokens_of (answer_data answer.now)) }
{
    match answer {
        Answer::Created(reference, notices) => write_changed(out, alloc, reference, notices),
        Answer::Changed(reference, notices) => write_changed(out, alloc, reference, notices),
        Answer::Found(reference) => write_found(out, alloc, reference),
        Answer::Listed(kind, references) => write_listed(out, alloc, *kind, references),
        Answer::Avail(uss, availability, version) => {
            write_availability(out, uss.text(), *availability, version.text())
        }
        Answer::SubStored(sub, intents, constraints) => {
            write_sub_stored(out, alloc, sub, intents, constraints)
        }
        Answer::SubFound(sub) => write_sub_found(out, alloc, sub),
        Answer::SubListed(subs) => write_sub_listed(out, alloc, subs),
    }
}

fn write_message(out: &mut Writer, words: &str) -> Result<(), AllocError>
    ensures kept { out.new.before ≡ out.old.before }
    ensures adds { OnOk result (out.new.tokens
        ≡ out.old.tokens ++ tokens_of (message_data words.now)) }
{
    out.begin_object()?;
    write_text(out, "message", words)?;
    out.end_object()
}

// Writes a message with the references that a key lacks.
fn write_missing(
    out: &mut Writer,
    alloc: Global,
    words: &str,
    missing: &Missing,
) -> Result<(), AllocError>
    ensures kept { out.new.before ≡ out.old.before }
    ensures adds { OnOk result (out.new.tokens
        ≡ out.old.tokens ++ tokens_of (missing_data words.now missing.now)) }
{
    out.begin_object()?;
    write_text(out, "message", words)?;
    write_key(out, "missing_constraints")?;
    write_references(out, alloc, &missing.constraints)?;
    write_key(out, "missing_operational_intents")?;
    write_references(out, alloc, &missing.intents)?;
    out.end_object()
}

/// Returns the message of a denial: the number and the name of the rule.
pub(crate) fn rule_text(alloc: Global, rule: Rule) -> Result<String, AllocError>
    ensures { IfOk result (λ s. string_bytes s ≡ rule_text rule) }
{
    let number = rule.number();
    let name = rule.name();
    format!(in alloc; "P{number} {name}")
}

fn write_denied(
    out: &mut Writer,
    alloc: Global,
    rule: Rule,
    missing: &Missing,
) -> Result<(), AllocError>
    ensures kept { out.new.before ≡ out.old.before }
    ensures adds { OnOk result (out.new.tokens
        ≡ out.old.tokens ++ tokens_of (denied_data rule missing.now)) }
{
    let words = rule_text(alloc, rule)?;
    match rule {
        Rule::Key => write_missing(out, alloc, words.as_str(), missing),
        _ => write_message(out, words.as_str()),
    }
}

fn write_reply(out: &mut Writer, alloc: Global, reply: &Reply) -> Result<(), AllocError>
    ensures kept { out.new.before ≡ out.old.before }
    ensures adds { OnOk result (out.new.tokens
        ≡ out.old.tokens ++ tokens_of (reply_data reply.now)) }
{
    match reply {
        Reply::Done(answer) => write_answer(out, alloc, answer),
        Reply::Denied(rule, missing) => write_denied(out, alloc, *rule, missing),
        Reply::Fault => write_message(out, "fault"),
        Reply::Stopped => write_message(out, "stopped"),
    }
}

/// Returns the body of the response for a reply.
///
/// It is compact JSON, with the members of each object in the order of their names (this project's
/// profile).
pub fn reply_text(alloc: Global, reply: &Reply) -> Result<Vec<u8>, AllocError>
    ensures { IfOk result (λ text. text.items ≡ reply_text reply.now) }
{
    let mut out = Writer::new(Vec::new(alloc));
    write_reply(&mut out, alloc, reply)?;
    Ok(out.into_inner())
}

fn answer_status(answer: &Answer) -> u16
    ensures { result ≡ answer_status answer.now }
{
    match answer {
        Answer::Created(_, _) => 201,
        Answer::Changed(_, _) => 200,
        Answer::Found(_) => 200,
        Answer::Listed(_, _) => 200,
        Answer::Avail(_, _, _) => 200,
        Answer::SubStored(_, _, _) => 200,
        Answer::SubFound(_) => 200,
        Answer::SubListed(_) => 200,
    }
}

/// Returns the HTTP status of the response (RFC 9110). Allocates nothing.
pub fn status(reply: &Reply) -> u16
    ensures { result ≡ status_of reply.now }
{
    match reply {
        Reply::Done(answer) => answer_status(answer),
        Reply::Denied(rule, _) => rule.status(),
        Reply::Fault => 500,
        Reply::Stopped => 503,
    }
}
