//! The text of a response (RFC 9112, section 2.1; this project's profile).
ghost use Rattle.std.specs.Prelude.{◌≡◌, IfOk, map};
ghost use Rattle.std.specs.String.{string_bytes};
ghost use Rattle.wire_reply.specs.Answer.{status_of};
ghost use Rattle.wire_http.specs.Text.{message, noted_text, response_text, rule_field, reply_field};
ghost use Rattle.wire_http.specs.Text.{close_field, front_of, rule_body, rule_text};
ghost use Rattle.wire_http.specs.Text.{ignored_field, is_field_value, noted_field};
ghost use Rattle.wire_http.specs.Text.{unavailable_text};

use crate::unavailable::Unavailable;
use policy_core::rule::Rule;
use service_step::reply::Reply;
use std::alloc::{AllocError, Global};
use wire_head::lines::{length_line, status_line};
use wire_head::rule::WireRule;
use wire_reply::answer::{reply_text, status};
use wire_reply::explained::explained_text;
use wire_route::endpoint::Endpoint;

// Returns the line of the field Allow with the methods of the endpoint.
fn allow_field(alloc: Global, endpoint: Option<Endpoint>) -> Result<String, AllocError>
    ensures { IfOk result (λ field. string_bytes field ≡ rule_field endpoint Rule.Method) }
{
    let methods = match endpoint {
        Some(endpoint) => endpoint.allow(),
        None => "",
    };
    let mut field = String::from_str(alloc, "Allow: ")?;
    field.push_str(methods)?;
    field.push_str("\r\n")?;
    Ok(field)
}

// Returns the line of the field that a denial adds.
fn rule_field(alloc: Global, endpoint: Option<Endpoint>, rule: Rule) -> Result<String, AllocError>
    ensures { IfOk result (λ field. string_bytes field ≡ rule_field endpoint rule) }
{
    match rule {
        Rule::Method => allow_field(alloc, endpoint),
        Rule::Token => String::from_str(alloc, "WWW-Authenticate: Bearer\r\n"),
        _ => Ok(String::new(alloc)),
    }
}

// Returns the line of the field that a reply adds.
fn reply_field(
    alloc: Global,
    endpoint: Option<Endpoint>,
    reply: &Reply,
) -> Result<String, AllocError>
    ensures { IfOk result (λ field. string_bytes field ≡ reply_field endpoint reply.now) }
{
    match reply {
        Reply::Denied(rule, _) => rule_field(alloc, endpoint, *rule),
        _ => Ok(String::new(alloc)),
    }
}

// Returns true if the text can be the value of a field: visible ASCII and spaces.
fn is_field_value(text: &str) -> bool
    ensures { result ≡ is_field_value text.now }
{
    text.as_bytes()
        .iter()
        .all(|b| *b == b' ' || b.is_ascii_graphic())
}

// Returns the line of the field with the first text, if it can be the value of a field.
fn ignored_field(alloc: Global, notes: &[String]) -> Result<String, AllocError>
    ensures { IfOk result (λ field. string_bytes field
        ≡ ignored_field (map string_bytes notes.now)) }
{
    let mut field = String::new(alloc);
    if let Some(note) = notes.first() {
        if is_field_value(note.as_str()) {
            field.push_str("Warning-Ignored-Members: ")?;
            field.push_str(note.as_str())?;
            field.push_str("\r\n")?;
        }
    }
    Ok(field)
}

// Returns the line of the field that a reply with these texts adds.
fn noted_field(
    alloc: Global,
    notes: &[String],
    endpoint: Option<Endpoint>,
    reply: &Reply,
) -> Result<String, AllocError>
    ensures { IfOk result (λ field. string_bytes field
        ≡ noted_field (map string_bytes notes.now) endpoint reply.now) }
{
    match reply {
        Reply::Done(_) => ignored_field(alloc, notes),
        _ => reply_field(alloc, endpoint, reply),
    }
}

// Returns the line of the field that says that the connection closes.
#[tactic(auto, unfolding(crate::specs::Text::close_field))]
fn close_field(closing: bool) -> &'static str
    ensures { result.now ≡ close_field closing }
{
    if closing { "Connection: close\r\n" } else { "" }
}

// Returns the text before the body.
#[tactic(auto, unfolding(crate::specs::Text::front_of))]
fn front_of(
    alloc: Global,
    status: u16,
    field: &str,
    closing: bool,
    length: usize,
) -> Result<String, AllocError>
    ensures { IfOk result (λ front. string_bytes front ≡ front_of status field.now closing length) }
{
    let mut front = status_line(alloc, status)?;
    front.push_str("Content-Type: application/json\r\n")?;
    front.push_str(length_line(alloc, length)?.as_str())?;
    front.push_str(field)?;
    front.push_str(close_field(closing))?;
    front.push_str("\r\n")?;
    Ok(front)
}

// Returns the text of the response for a reply, with this field and this body.
fn text_with(
    alloc: Global,
    field: &str,
    closing: bool,
    reply: &Reply,
    body: &[u8],
) -> Result<Vec<u8>, AllocError>
    ensures { IfOk result (λ text. text.items
        ≡ message (status_of reply.now) field.now closing body.now) }
{
    let front = front_of(alloc, status(reply), field, closing, body.len())?;
    let mut text = front.into_bytes();
    text.extend_from_slice(body)?;
    Ok(text)
}

/// Returns the text of the response to a request at an endpoint.
pub(crate) fn response_text(
    alloc: Global,
    endpoint: Option<Endpoint>,
    closing: bool,
    reply: &Reply,
) -> Result<Vec<u8>, AllocError>
    ensures { IfOk result (λ text. text.items ≡ response_text endpoint closing reply.now) }
{
    let body = reply_text(alloc, reply)?;
    let field = reply_field(alloc, endpoint, reply)?;
    text_with(alloc, field.as_str(), closing, reply, body.as_slice())
}

/// Returns the same text, with these texts in it: in the body of an explained denial, and in a field
/// of a success.
pub(crate) fn noted_text(
    alloc: Global,
    notes: &[String],
    endpoint: Option<Endpoint>,
    closing: bool,
    reply: &Reply,
) -> Result<Vec<u8>, AllocError>
    ensures { IfOk result (λ text. text.items
        ≡ noted_text (map string_bytes notes.now) endpoint closing reply.now) }
{
    let body = explained_text(alloc, reply, notes)?;
    let field = noted_field(alloc, notes, endpoint, reply)?;
    text_with(alloc, field.as_str(), closing, reply, body.as_slice())
}

// Returns the body for a broken protocol rule.
#[tactic(auto, unfolding(crate::specs::Text::rule_body))]
fn rule_body(alloc: Global, rule: WireRule) -> Result<String, AllocError>
    ensures { IfOk result (λ body. string_bytes body ≡ rule_body rule) }
{
    let number = rule.number();
    let mut body = format!(in alloc; "{{\"message\":\"H{number} ")?;
    body.push_str(rule.name())?;
    body.push_str("\"}")?;
    Ok(body)
}

/// Returns the text of the response if a protocol rule is broken.
pub(crate) fn rule_text(alloc: Global, rule: WireRule) -> Result<Vec<u8>, AllocError>
    ensures { IfOk result (λ text. text.items ≡ rule_text rule) }
{
    let body = rule_body(alloc, rule)?;
    let mut text = front_of(alloc, rule.status(), "", true, body.len())?;
    text.push_str(body.as_str())?;
    Ok(text.into_bytes())
}

/// Returns the text of the response to a request to which no reply is known.
pub(crate) fn unavailable_text(
    alloc: Global,
    closing: bool,
    unavailable: Unavailable,
) -> Result<Vec<u8>, AllocError>
    ensures { IfOk result (λ text. text.items ≡ unavailable_text closing unavailable) }
{
    let body = unavailable.body();
    let mut text = front_of(alloc, 503, "", closing, body.len())?;
    text.push_str(body)?;
    Ok(text.into_bytes())
}
