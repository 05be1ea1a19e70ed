//! The texts that explain a denial or warn of ignored members.
ghost use Rattle.std.specs.Prelude.{map, string_bytes};
ghost use Rattle.wire_http.specs.Notes.{MayBeNotes};
ghost use Rattle.wire_http.specs.Received.{IsReceived};

use crate::call::Received;
use crate::explaining::Explaining;
use crate::request_parts::RequestParts;
use policy_core::call::OpKind;
use service_step::reply::Reply;
use std::alloc::{AllocError, Global};
use wire_explain::explain::{Explanation, Request, explain_request, ignored_members};
use wire_head::target::path_of;
use wire_reply::explained::is_explained;
use wire_route::routes::Routes;

// Returns the lines of an explanation: the problems, then the remarks.
fn lines_of(explanation: Explanation) -> Result<Vec<String>, AllocError> {
    let Explanation {
        verdict: _,
        mut problems,
        mut remarks,
    } = explanation;
    problems.append(&mut remarks)?;
    Ok(problems)
}

// Returns the texts that explain the denial of a request at a time.
fn explain(
    alloc: Global,
    routes: &Routes,
    parts: RequestParts<'_>,
    moment: u64,
) -> Result<Vec<String>, AllocError> {
    let Ok(method) = str::from_utf8(parts.method) else {
        return Ok(Vec::new(alloc));
    };
    let request = Request {
        method,
        path: parts.path,
        body: parts.body,
        time: Some(moment),
    };
    lines_of(explain_request(alloc, routes, &request)?)
}

// Returns a text that names the ignored members of a successful request, if there are any.
fn warn(alloc: Global, kind: OpKind, body: &[u8]) -> Result<Vec<String>, AllocError> {
    let mut notes = Vec::new(alloc);
    let names = ignored_members(alloc, kind, body)?;
    if !names.is_empty() {
        notes.push(names)?;
    }
    Ok(notes)
}

/// Returns the texts of the denial of a request at a time. There are none without the option, and if
/// memory runs out.
pub(crate) fn notes_if_denied(
    alloc: Global,
    explaining: Explaining,
    routes: &Routes,
    parts: RequestParts<'_>,
    moment: u64,
) -> Vec<String>
    ensures { MayBeNotes explaining (map string_bytes result.items) }
{
    match explaining {
        Explaining::Off => Vec::new(alloc),
        Explaining::On => match explain(alloc, routes, parts, moment) {
            Ok(notes) => notes,
            Err(_) => Vec::new(alloc),
        },
    }
}

/// Returns the texts of the success of a request of a kind. There are none without the option, and if
/// memory runs out.
pub(crate) fn notes_if_done(
    alloc: Global,
    explaining: Explaining,
    kind: Option<OpKind>,
    body: &[u8],
) -> Vec<String>
    ensures { MayBeNotes explaining (map string_bytes result.items) }
{
    match (explaining, kind) {
        (Explaining::On, Some(kind)) => match warn(alloc, kind, body) {
            Ok(notes) => notes,
            Err(_) => Vec::new(alloc),
        },
        _ => Vec::new(alloc),
    }
}

// Returns the parts of a received request, without its caller.
fn parts_in<'c>(received: Received<'c>) -> RequestParts<'c>
    requires { IsReceived received }
{
    let Received {
        buffer,
        fields: _,
        spans,
        size,
    } = received;
    let Ok(target) = str::from_utf8(spans.path.of(buffer)) else {
        unreachable!();
    };
    RequestParts {
        caller: None,
        method: spans.method.of(buffer),
        path: path_of(target),
        body: &buffer[spans.len..spans.len + size],
    }
}

/// Returns the texts for the reply to a request of a kind at a time. They depend on the request, its
/// time, and whether the reply is a success or by which rule it is a denial.
///
/// There are none for other replies, and if memory runs out.
pub(crate) fn notes_on(
    alloc: Global,
    explaining: Explaining,
    routes: &Routes,
    received: Received<'_>,
    kind: Option<OpKind>,
    moment: u64,
    reply: &Reply,
) -> Vec<String>
    requires { IsReceived received }
    ensures { MayBeNotes explaining (map string_bytes result.items) }
{
    let parts = parts_in(received);
    match reply {
        Reply::Denied(rule, _) if is_explained(*rule) => {
            notes_if_denied(alloc, explaining, routes, parts, moment)
        }
        Reply::Done(_) => notes_if_done(alloc, explaining, kind, parts.body),
        _ => Vec::new(alloc),
    }
}
