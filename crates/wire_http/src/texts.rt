//! The texts of a response that are made before its reply is known.
ghost use Rattle.std.specs.Prelude.{◌≡◌, [], map, string_bytes};
ghost use Rattle.wire_http.specs.Texts.{MayBeTexts, texts_for};

use crate::explaining::Explaining;
use crate::notes::{notes_if_denied, notes_if_done};
use crate::request_parts::RequestParts;
use policy_core::call::OpKind;
use service_step::reply::Reply;
use std::alloc::Global;
use wire_reply::explained::is_explained;
use wire_route::routes::Routes;

/// The texts of the response to a request: those of a denial, which explain it, and those of a
/// success, which name the ignored members.
///
/// They depend on the request and its time alone. So they can be made before its reply is known.
#[derive(Debug, Drop)]
pub struct Texts {
    if_denied: Vec<String>,
    if_done: Vec<String>,
}

impl Texts {
    // Returns the texts of a request of a kind at a time, for each reply.
    pub(crate) fn new(
        alloc: Global,
        explaining: Explaining,
        routes: &Routes,
        parts: RequestParts<'_>,
        kind: Option<OpKind>,
        moment: u64,
    ) -> Texts
        ensures { MayBeTexts explaining result }
    {
        Texts {
            if_denied: notes_if_denied(alloc, explaining, routes, parts, moment),
            if_done: notes_if_done(alloc, explaining, kind, parts.body),
        }
    }

    // Returns the texts of a request of a kind at a time, for this reply alone.
    pub(crate) fn for_reply(
        alloc: Global,
        explaining: Explaining,
        routes: &Routes,
        parts: RequestParts<'_>,
        kind: Option<OpKind>,
        moment: u64,
        reply: &Reply,
    ) -> Texts
        ensures { MayBeTexts explaining result }
    {
        let mut texts = Texts::none(alloc);
        match reply {
            Reply::Denied(rule, _) if is_explained(*rule) => {
                texts.if_denied = notes_if_denied(alloc, explaining, routes, parts, moment);
            }
            Reply::Done(_) => {
                texts.if_done = notes_if_done(alloc, explaining, kind, parts.body);
            }
            _ => {}
        }
        texts
    }

    // Returns no texts.
    fn none(alloc: Global) -> Texts
        ensures denied { map string_bytes result.if_denied.items ≡ [] }
        ensures done { map string_bytes result.if_done.items ≡ [] }
    {
        Texts {
            if_denied: Vec::new(alloc),
            if_done: Vec::new(alloc),
        }
    }

    // Returns the texts of the response to this reply.
    pub(crate) fn on(&self, reply: &Reply) -> &[String]
        ensures { map string_bytes result.now ≡ texts_for self.now reply.now }
    {
        match reply {
            Reply::Denied(_, _) => self.if_denied.as_slice(),
            Reply::Done(_) => self.if_done.as_slice(),
            _ => &[],
        }
    }
}
