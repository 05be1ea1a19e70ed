//! The bodies of responses with an explanation.
ghost use Rattle.std.specs.Prelude.{◌≡◌, ◌<◌, ◌++◌, ℕ, List, [], IfOk, None, OnOk, length, map, string_bytes};
ghost use Rattle.service_step.specs.declared.reply.Reply.{Reply};
ghost use Rattle.wire_reply.specs.Answer.{message_text, reply_text};
ghost use Rattle.wire_reply.specs.Built.{explained_data};
ghost use Rattle.wire_reply.specs.Explained.{AddsOneMember, body_with, explained_rule};
ghost use Rattle.wire_reply.specs.Explained.{explained_text, is_explained, notes_data};
ghost use Rattle.wire_reply.specs.Tokens.{tokens_of};

use crate::answer::{reply_text, rule_text};
use crate::writing::{begin_with, write_text};
use json::Writer;
use policy_core::rule::Rule;
use service_step::reply::Reply;
use std::alloc::{AllocError, Global};

/// Returns true if the reason for a denial by the rule is in the request and its time only.
/// Allocates nothing.
pub fn is_explained(rule: Rule) -> bool
    ensures { result ≡ is_explained rule }
{
    match rule {
        Rule::Route | Rule::Method | Rule::Form | Rule::Area | Rule::Ended => true,
        _ => false,
    }
}

// Writes texts, in the same order.
fn write_notes(out: &mut Writer, notes: &[String]) -> Result<(), AllocError>
    ensures kept { out.new.before ≡ out.old.before }
    ensures adds { OnOk result (out.new.tokens
        ≡ out.old.tokens ++ tokens_of (notes_data (map string_bytes notes.now))) }
{
    out.begin_array()?;
    for note in notes {
        out.string(note.as_str())?;
    }
    out.end_array()
}

// Writes a message with an explanation.
fn write_explained(out: &mut Writer, words: &str, notes: &[String]) -> Result<(), AllocError>
    ensures kept { out.new.before ≡ out.old.before }
    ensures adds { OnOk result (out.new.tokens
        ≡ out.old.tokens ++ tokens_of (explained_data (map string_bytes notes.now) words.now)) }
{
    begin_with(out, "explanation")?;
    write_notes(out, notes)?;
    write_text(out, "message", words)?;
    out.end_object()
}

// Returns the body of a denial with a message and an explanation.
fn explained_message(alloc: Global, words: &str, notes: &[String]) -> Result<Vec<u8>, AllocError>
    requires some { 0 < length notes.now }
    ensures { IfOk result (λ text. text.items
        ≡ body_with (map string_bytes notes.now) (message_text words.now)) }
{
    let mut out = Writer::new(Vec::new(alloc));
    write_explained(&mut out, words, notes)?;
    Ok(out.into_inner())
}

// Returns the rule by which the reply is an explained denial, if it is one.
fn explained_rule(reply: &Reply) -> Option<Rule>
    ensures { result ≡ explained_rule reply.now }
{
    match reply {
        Reply::Denied(rule, _) => {
            if is_explained(*rule) {
                Some(*rule)
            } else {
                None
            }
        }
        _ => None,
    }
}

/// Returns the body of the response for a reply. If it is a denial by P1, P2, P5, P6 or P13 and
/// there are texts, the body has one more member `explanation` with these texts.
pub fn explained_text(alloc: Global, reply: &Reply, notes: &[String]) -> Result<Vec<u8>, AllocError>
    ensures { IfOk result (λ text. text.items
        ≡ explained_text (map string_bytes notes.now) reply.now) }
{
    if notes.is_empty() {
        return reply_text(alloc, reply);
    }
    match explained_rule(reply) {
        Some(rule) => {
            let words = rule_text(alloc, rule)?;
            explained_message(alloc, words.as_str(), notes)
        }
        None => reply_text(alloc, reply),
    }
}

/// States that the body of an explained denial is read as that of the policy with one more member.
pub fn adds_one_member()
    ensures { AddsOneMember }
{}

/// States that without texts nothing is added, and to no reply but an explained denial.
pub fn adds_nothing_else()
    ensures no_texts { (reply : Reply) → explained_text [] reply ≡ reply_text reply }
    ensures other { (reply : Reply) (notes : List (List ℕ))
        → explained_rule reply ≡ None → explained_text notes reply ≡ reply_text reply }
{}
