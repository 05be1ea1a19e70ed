//! The values under the keys of a log.
ghost use Rattle.std.specs.Prelude.{◌≡◌, IfOk, MatchOption};
ghost use Rattle.std.specs.String.{string_bytes};
ghost use Rattle.pool_etcd.specs.LogValue.{IsFence, IsLink, IsNoEntry, IsNoFence, IsNoLink, entry_value, fence_value, link_value};
ghost use Rattle.pool_etcd.specs.Value.{IsEntryAt, IsLinkAt, IsValue};

use crate::lines::{LINE_FEED, line_end, space_in};
use crate::link_text::read_link;
use crate::names::list_key;
use crate::number::number_in_bytes;
use crate::payload::Payload;
use crate::writer::writer_of;
use pool_chain::link::Link;
use std::alloc::{AllocError, Global};

/// An entry: the number of its writer, the key under which it was put, its link, and its bytes.
#[derive(Drop)]
pub struct LogEntry {
    pub writer: u64,
    pub key: Payload,
    /// The changes that the writer was given before it offered the entry.
    pub link: Link,
    pub bytes: Payload,
}

/// A link without an entry: the number of its writer, the key under which it was put, and the link.
#[derive(Drop)]
pub struct LogLink {
    pub writer: u64,
    pub key: Payload,
    pub link: Link,
}

// A number and a link, with which values begin.
#[derive(Clone, Copy, Debug, PartialEq, Eq)]
struct Head {
    number: u64,
    link: Link,
}

/// What the value of a key is.
#[derive(Drop)]
pub enum LogValue {
    /// An entry, whatever its link is.
    Entry(LogEntry),
    /// A link without an entry.
    Link(LogLink),
    /// A fence of an instance whose settings have this number.
    Fence(u64),
    /// The supplier list.
    Suppliers(Payload),
    /// None of them. Every instance passes over it.
    Other,
}

/// Returns the value of a fence, which is no entry.
///
/// Returns `AllocError` if memory runs out.
pub fn fence_value(alloc: Global, number: u64, agreed: u64) -> Result<Payload, AllocError>
    ensures { IfOk result (λ value. value ≡ fence_value number agreed) }
{
    let text = format!(in alloc; "{number} {agreed}")?;
    Ok(Payload::from_vec(Vec::from_slice(alloc, text.as_bytes())?))
}

// Returns a number and a link as a text.
fn head_text(alloc: Global, number: u64, link: &Link) -> Result<String, AllocError>
    ensures { IfOk result (λ text. string_bytes text ≡ link_value number link.now) }
{
    let count = link.count;
    let digest = hex::encode(alloc, link.digest.as_slice())?;
    let digest = digest.as_str();
    format!(in alloc; "{number} {count} {digest}")
}

/// Returns the value of a link, which is no entry.
///
/// Returns `AllocError` if memory runs out.
pub fn link_value(alloc: Global, number: u64, link: &Link) -> Result<Payload, AllocError>
    ensures { IfOk result (λ value. value ≡ link_value number link.now) }
{
    let text = head_text(alloc, number, link)?;
    Ok(Payload::from_vec(Vec::from_slice(alloc, text.as_bytes())?))
}

/// Returns the value of an entry.
///
/// Returns `AllocError` if memory runs out.
pub fn entry_value(
    alloc: Global,
    number: u64,
    link: &Link,
    bytes: &[u8],
) -> Result<Payload, AllocError>
    ensures { IfOk result (λ value. value ≡ entry_value number link.now bytes.now) }
{
    let text = head_text(alloc, number, link)?;
    let mut value = Vec::from_slice(alloc, text.as_bytes())?;
    value.push(LINE_FEED)?;
    value.extend_from_slice(bytes)?;
    Ok(Payload::from_vec(value))
}

// Returns the number and the link that the bytes are, or `None` if they are none.
fn read_head(alloc: Global, bytes: &[u8]) -> Result<Option<Head>, AllocError>
    ensures { IfOk result (λ head. MatchOption head
        (IsNoLink bytes.now)
        (λ h. IsLink bytes.now h.number h.link)) }
{
    let Some(space) = space_in(bytes) else {
        return Ok(None);
    };
    let Some(number) = number_in_bytes(alloc, &bytes[..space])? else {
        return Ok(None);
    };
    let Some(link) = read_link(alloc, &bytes[space + 1..])? else {
        return Ok(None);
    };
    Ok(Some(Head { number, link }))
}

// Returns the entry that the value of a key is, or `None` if it is none.
fn read_entry(alloc: Global, key: &[u8], value: &[u8]) -> Result<Option<LogEntry>, AllocError>
    ensures { IfOk result (λ entry. MatchOption entry
        (IsNoEntry value.now)
        (λ e. IsEntryAt key.now value.now e)) }
{
    let Some(end) = line_end(value) else {
        return Ok(None);
    };
    let Some(head) = read_head(alloc, &value[..end])? else {
        return Ok(None);
    };
    let writer = writer_of(alloc, key, head.number)?;
    let bytes = Vec::from_slice(alloc, &value[end + 1..])?;
    let own = Vec::from_slice(alloc, key)?;
    Ok(Some(LogEntry {
        writer,
        key: Payload::from_vec(own),
        link: head.link,
        bytes: Payload::from_vec(bytes),
    }))
}

// Returns the link that the value of a key is, or `None` if it is none.
fn read_log_link(alloc: Global, key: &[u8], value: &[u8]) -> Result<Option<LogLink>, AllocError>
    ensures { IfOk result (λ link. MatchOption link
        (IsNoLink value.now)
        (λ l. IsLinkAt key.now value.now l)) }
{
    let Some(head) = read_head(alloc, value)? else {
        return Ok(None);
    };
    let writer = writer_of(alloc, key, head.number)?;
    let own = Vec::from_slice(alloc, key)?;
    Ok(Some(LogLink {
        writer,
        key: Payload::from_vec(own),
        link: head.link,
    }))
}

// Returns the number of the settings in a fence, or `None` if the value is none.
fn read_fence(alloc: Global, value: &[u8]) -> Result<Option<u64>, AllocError>
    ensures { IfOk result (λ agreed. MatchOption agreed
        (IsNoFence value.now)
        (λ a. IsFence value.now a)) }
{
    let Some(space) = space_in(value) else {
        return Ok(None);
    };
    let Some(_number) = number_in_bytes(alloc, &value[..space])? else {
        return Ok(None);
    };
    number_in_bytes(alloc, &value[space + 1..])
}

/// Returns what the value of a key is: the supplier list, an entry, a link, a fence, or none of them.
///
/// Returns `AllocError` if memory runs out.
pub fn read_value(alloc: Global, key: &[u8], value: &[u8]) -> Result<LogValue, AllocError>
    ensures { IfOk result (λ found. IsValue key.now value.now found) }
{
    if key == list_key().as_bytes() {
        let list = Vec::from_slice(alloc, value)?;
        return Ok(LogValue::Suppliers(Payload::from_vec(list)));
    }
    if let Some(entry) = read_entry(alloc, key, value)? {
        return Ok(LogValue::Entry(entry));
    }
    if let Some(link) = read_log_link(alloc, key, value)? {
        return Ok(LogValue::Link(link));
    }
    match read_fence(alloc, value)? {
        Some(agreed) => Ok(LogValue::Fence(agreed)),
        None => Ok(LogValue::Other),
    }
}
