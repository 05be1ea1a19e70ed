//! The supplier list: for which USSs an organization may act.
//!
//! Each line is `ORGANIZATION USS`. The empty list lets every organization act for every USS.
ghost use Rattle.std.specs.Prelude.{◌≡◌, ◌↔◌, IsTrue, IfOk};
ghost use Rattle.std.specs.List.{list_all};
ghost use Rattle.pool_etcd.specs.Suppliers.{admits, has_line, is_admitted, line_of};

use crate::lines::line_end;
use crate::log_value::LogEntry;
use crate::names::organization_of;
use entity_core::uss_id::UssId;
use pool_entry::suppliers::entry_suppliers;
use std::alloc::{AllocError, Global};

// The byte between an organization and a USS.
const SPACE: u8 = 32;

// Returns true if the line lets the organization act for the USS.
fn is_line_of(line: &[u8], organization: &[u8], uss: &[u8]) -> bool
    ensures { IsTrue result ↔ (line.now ≡ line_of organization.now uss.now) }
{
    match line.strip_prefix(organization) {
        Some([first, rest @ ..]) => *first == SPACE && rest == uss,
        _ => false,
    }
}

// Returns true if one of the lines lets the organization act for the USS.
fn has_line(list: &[u8], organization: &[u8], uss: &[u8]) -> bool
    ensures { result ≡ has_line list.now organization.now uss.now }
{
    let mut rest = list;
    while let Some(end) = line_end(rest) {
        if is_line_of(&rest[..end], organization, uss) {
            return true;
        }
        rest = &rest[end + 1..];
    }
    is_line_of(rest, organization, uss)
}

/// Returns true if the list lets the organization of a key act for a USS.
pub(crate) fn admits(list: &[u8], key: &[u8], uss: &str) -> bool
    ensures { result ≡ admits list.now key.now uss.now }
{
    list.is_empty() || has_line(list, organization_of(key), uss.as_bytes())
}

// Returns true if the list lets the organization of a key act for each of these USSs.
fn admits_all(list: &[u8], key: &[u8], suppliers: &[UssId]) -> bool
    ensures { result ≡ list_all (admits list.now key.now) suppliers.now }
{
    for uss in suppliers {
        if !admits(list, key, uss.text()) {
            return false;
        }
    }
    true
}

/// Returns true if the list lets the organization of an entry's key act for the USS of each call
/// of the entry. The bytes of the entry are read only if the list is not empty.
///
/// Returns `AllocError` if memory runs out.
pub(crate) fn is_admitted(alloc: Global, list: &[u8], entry: &LogEntry) -> Result<bool, AllocError>
    ensures { IfOk result (λ admitted. admitted ≡ is_admitted list.now entry.now) }
{
    if list.is_empty() {
        return Ok(true);
    }
    let suppliers = entry_suppliers(alloc, entry.bytes.bytes())?;
    Ok(admits_all(list, entry.key.bytes(), suppliers.as_slice()))
}
