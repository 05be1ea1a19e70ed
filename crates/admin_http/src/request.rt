//! The parser of requests to the admin port.
ghost use Rattle.std.specs.Prelude.{◌≡◌, take};
ghost use Rattle.httparse.specs.Spans.{IsRequestOf, IsRequestWithin};
ghost use Rattle.admin_http.specs.WebPage.{HasAllowedHead};

use crate::admin_route::{AdminRequest, route_request};
use crate::query::query_of;
use crate::web_page::{Forbidden, OwnHosts, why_forbidden};
use httparse::spans::{EMPTY_HEADER_SPAN, HeaderSpan, RequestSpans};
use wire_head::length::content_length;
use wire_head::rest::{PartialHead, head_so_far};
use wire_head::rule::WireRule;
use wire_head::target::path_of;

/// The maximum length of a head in bytes, including empty lines before it.
pub const HEAD_LIMIT: usize = 8192;

/// The maximum length of a body in bytes.
pub const BODY_LIMIT: usize = 1024;

/// The result of parsing the bytes so far.
#[derive(Clone, Copy, Debug, PartialEq, Eq)]
pub enum RequestParse<'a> {
    /// More bytes are needed.
    Incomplete,
    /// A request, with the query of its target.
    Request(AdminRequest, &'a str),
    /// A request that a web page may have sent.
    Forbidden(Forbidden),
    /// The bytes break this protocol rule.
    Invalid(WireRule),
}

// Parses a method and a target.
fn said_by_line<'a>(method: &[u8], target: &'a [u8]) -> RequestParse<'a> {
    match str::from_utf8(target) {
        Ok(target) => {
            let asked = route_request(method, path_of(target).as_bytes());
            RequestParse::Request(asked, query_of(target))
        }
        Err(_) => RequestParse::Request(AdminRequest::Unknown, ""),
    }
}

// Parses a complete head, once its body has arrived.
fn said_by_head<'a>(
    hosts: &OwnHosts,
    bytes: &[u8],
    front: &'a [u8],
    fields: &[HeaderSpan],
    spans: RequestSpans,
) -> RequestParse<'a>
    requires is { IsRequestOf front.now fields.now spans }
    requires within { IsRequestWithin front.now fields.now spans }
    requires front { front.now ≡ take 8192 bytes.now }
    ensures { HasAllowedHead hosts.now bytes.now result }
{
    let method = spans.method.of(front);
    if let Some(why) = why_forbidden(hosts, method, front, &fields[..spans.headers]) {
        return RequestParse::Forbidden(why);
    }
    let size = match content_length(front, &fields[..spans.headers]) {
        Ok(size) => size,
        Err(rule) => return RequestParse::Invalid(rule),
    };
    if size > BODY_LIMIT {
        return RequestParse::Invalid(WireRule::BodySize);
    }
    if bytes.len().saturating_sub(spans.len) < size {
        return RequestParse::Incomplete;
    }
    said_by_line(method, spans.path.of(front))
}

/// Parses the bytes so far. A request has a head of at most 8 KiB and a body of at most 1 KiB,
/// which is ignored. A request that a web page may have sent is forbidden.
pub fn parse_admin_request<'a>(hosts: &OwnHosts, bytes: &'a [u8]) -> RequestParse<'a>
    ensures { HasAllowedHead hosts.now bytes.now result }
{
    let front = &bytes[..HEAD_LIMIT.min(bytes.len())];
    let mut fields = [EMPTY_HEADER_SPAN; 64];
    match head_so_far(front, &mut fields) {
        PartialHead::Head(spans) => said_by_head(hosts, bytes, front, &fields, spans),
        PartialHead::Bad => RequestParse::Invalid(WireRule::Head),
        PartialHead::Large => RequestParse::Invalid(WireRule::HeadSize),
        PartialHead::More => {
            if bytes.len() < HEAD_LIMIT {
                RequestParse::Incomplete
            } else {
                RequestParse::Invalid(WireRule::HeadSize)
            }
        }
    }
}
