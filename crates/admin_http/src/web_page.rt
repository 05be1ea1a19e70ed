//! The protection of the admin port against web pages: a browser on the operator's machine sends
//! requests for any page that it shows.
ghost use Rattle.std.specs.Prelude.{◌≡◌, ◌++◌, length, map, All, IfNone, IfOk, IfSome, codes, decimal};
ghost use Rattle.std.specs.List.{list_any};
ghost use Rattle.std.specs.String.{string_bytes};
ghost use Rattle.httparse.specs.Spans.{IsHeaderWithin, header_bytes};
ghost use Rattle.wire_head.specs.Fields.{equals_ignoring_case};
ghost use Rattle.admin_http.specs.WebPage.{IsAllowed, IsForbidden, comes_from_page, confirms, is_own_host, names_other_host, text_of};

use httparse::spans::HeaderSpan;
use std::alloc::{AllocError, Global};

/// The values of the field `Host` that name the admin port: an address of the loopback interface or
/// `localhost`, with the port.
#[derive(Debug, Drop)]
pub struct OwnHosts {
    address: String,
    ipv6: String,
    name: String,
}

impl OwnHosts {
    /// Creates the values for an admin port, or returns `AllocError` if memory runs out.
    pub fn new(alloc: Global, port: u16) -> Result<OwnHosts, AllocError>
        ensures address { IfOk result (λ hosts.
            string_bytes hosts.address ≡ codes "127.0.0.1:" ++ decimal port) }
        ensures ipv6 { IfOk result (λ hosts.
            string_bytes hosts.ipv6 ≡ codes "[::1]:" ++ decimal port) }
        ensures name { IfOk result (λ hosts.
            string_bytes hosts.name ≡ codes "localhost:" ++ decimal port) }
    {
        Ok(OwnHosts {
            address: format!(in alloc; "127.0.0.1:{port}")?,
            ipv6: format!(in alloc; "[::1]:{port}")?,
            name: format!(in alloc; "localhost:{port}")?,
        })
    }

    // Returns true if the value of a field `Host` is one of them.
    fn has(&self, value: &[u8]) -> bool
        ensures { result ≡ is_own_host self.now value.now }
    {
        value == self.address.as_bytes()
            || value == self.ipv6.as_bytes()
            || value == self.name.as_bytes()
    }
}

/// The reason why a request is forbidden.
#[derive(Clone, Copy, Debug, PartialEq, Eq)]
pub enum Forbidden {
    /// A field `Host` names another host.
    Host,
    /// A field `Origin` or `Sec-Fetch-Site` says that a web page sent it.
    Page,
    /// It is a POST without the field `X-Dss-Admin: 1`.
    Unconfirmed,
}

// Returns true if the name of a field is this one, without case.
fn is_named(name: &[u8], wanted: &[u8]) -> bool
    ensures { result ≡ equals_ignoring_case wanted.now name.now }
{
    name.eq_ignore_ascii_case(wanted)
}

// Returns true if a field names another host.
fn names_other_host(hosts: &OwnHosts, name: &[u8], value: &[u8]) -> bool
    ensures { result ≡ names_other_host hosts.now (name.now, value.now) }
{
    is_named(name, b"host") && !hosts.has(value)
}

// Returns true if a field says that a web page sent the request.
fn comes_from_page(name: &[u8], value: &[u8]) -> bool
    ensures { result ≡ comes_from_page (name.now, value.now) }
{
    is_named(name, b"origin")
        || (is_named(name, b"sec-fetch-site")
            && value != "none".as_bytes()
            && value != "same-origin".as_bytes())
}

// Returns true if a field is `X-Dss-Admin: 1`.
fn confirms(name: &[u8], value: &[u8]) -> bool
    ensures { result ≡ confirms (name.now, value.now) }
{
    is_named(name, b"x-dss-admin") && value == "1".as_bytes()
}

// Returns true if one of the fields names another host.
fn any_names_other_host(hosts: &OwnHosts, buffer: &[u8], fields: &[HeaderSpan]) -> bool
    requires { All (IsHeaderWithin (length buffer.now)) fields.now }
    ensures { result ≡ list_any (names_other_host hosts.now)
        (map (header_bytes buffer.now) fields.now) }
{
    let Some((field, rest)) = fields.split_first() else {
        return false;
    };
    if names_other_host(hosts, field.name.of(buffer), field.value.of(buffer)) {
        return true;
    }
    any_names_other_host(hosts, buffer, rest)
}

// Returns true if one of the fields says that a web page sent the request.
fn any_comes_from_page(buffer: &[u8], fields: &[HeaderSpan]) -> bool
    requires { All (IsHeaderWithin (length buffer.now)) fields.now }
    ensures { result ≡ list_any comes_from_page (map (header_bytes buffer.now) fields.now) }
{
    let Some((field, rest)) = fields.split_first() else {
        return false;
    };
    if comes_from_page(field.name.of(buffer), field.value.of(buffer)) {
        return true;
    }
    any_comes_from_page(buffer, rest)
}

// Returns true if one of the fields is `X-Dss-Admin: 1`.
fn any_confirms(buffer: &[u8], fields: &[HeaderSpan]) -> bool
    requires { All (IsHeaderWithin (length buffer.now)) fields.now }
    ensures { result ≡ list_any confirms (map (header_bytes buffer.now) fields.now) }
{
    let Some((field, rest)) = fields.split_first() else {
        return false;
    };
    if confirms(field.name.of(buffer), field.value.of(buffer)) {
        return true;
    }
    any_confirms(buffer, rest)
}

/// Returns the reason why a request with this method and these fields is forbidden, or `None` if it
/// is allowed.
pub(crate) fn why_forbidden(
    hosts: &OwnHosts,
    method: &[u8],
    buffer: &[u8],
    fields: &[HeaderSpan],
) -> Option<Forbidden>
    requires { All (IsHeaderWithin (length buffer.now)) fields.now }
    ensures some { IfSome result
        (IsForbidden hosts.now method.now (map (header_bytes buffer.now) fields.now)) }
    ensures none { IfNone result
        (IsAllowed hosts.now method.now (map (header_bytes buffer.now) fields.now)) }
{
    if any_names_other_host(hosts, buffer, fields) {
        return Some(Forbidden::Host);
    }
    if any_comes_from_page(buffer, fields) {
        return Some(Forbidden::Page);
    }
    if method == "POST".as_bytes() && !any_confirms(buffer, fields) {
        return Some(Forbidden::Unconfirmed);
    }
    None
}

/// Returns the reason in words.
pub(crate) fn forbidden_text(why: Forbidden) -> &'static str
    ensures { result.now ≡ text_of why }
{
    match why {
        Forbidden::Host => {
            "forbidden: the field Host must be 127.0.0.1, [::1] or localhost, with the port\n"
        }
        Forbidden::Page => "forbidden: a web page sent the request\n",
        Forbidden::Unconfirmed => "forbidden: a POST requires the field X-Dss-Admin: 1\n",
    }
}
