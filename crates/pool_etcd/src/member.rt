//! Members of JSON objects, as etcd writes them.
ghost use Rattle.serde_json.specs.View.{view, items_view};
ghost use Rattle.pool_etcd.specs.Given.{Gives, GivesBy};
ghost use Rattle.pool_etcd.specs.Member.{bytes_at, bytes_in, bytes_of, flag_at, items_at, number_at, number_in, required_number};

use crate::number::number_of;
use crate::payload::Payload;
use crate::response_fault::ResponseFault;
use base64::DecodeAllocError;
use base64::engine::general_purpose::STANDARD;
use serde_json::Value;
use std::alloc::Global;

// Returns the number in a JSON text.
fn number_in(alloc: Global, value: &Value) -> Result<u64, ResponseFault>
    ensures { Gives result (number_in (view value.now)) }
{
    match value.as_str() {
        Some(text) => number_of(alloc, text),
        None => Err(ResponseFault::Unexpected),
    }
}

/// Returns the number in a member. An absent one is 0, since etcd leaves a 0 out.
pub(crate) fn number_at(alloc: Global, value: &Value, name: &str) -> Result<u64, ResponseFault>
    ensures { Gives result (number_at name.now (view value.now)) }
{
    match value.get(name) {
        Some(found) => number_in(alloc, found),
        None => Ok(0),
    }
}

/// Returns the number in a member that must be there.
pub(crate) fn required_number(
    alloc: Global,
    value: &Value,
    name: &str,
) -> Result<u64, ResponseFault>
    ensures { Gives result (required_number name.now (view value.now)) }
{
    match value.get(name) {
        Some(found) => number_in(alloc, found),
        None => Err(ResponseFault::Unexpected),
    }
}

/// Returns the flag in a member. An absent one is false, since etcd leaves a false out.
pub(crate) fn flag_at(value: &Value, name: &str) -> Result<bool, ResponseFault>
    ensures { Gives result (flag_at name.now (view value.now)) }
{
    match value.get(name) {
        Some(found) => match found.as_bool() {
            Some(flag) => Ok(flag),
            None => Err(ResponseFault::Unexpected),
        },
        None => Ok(false),
    }
}

// Returns the bytes of a text in base64.
fn bytes_of(alloc: Global, text: &str) -> Result<Payload, ResponseFault>
    ensures { Gives result (bytes_of text.now) }
{
    match STANDARD.decode(alloc, text.as_bytes()) {
        Ok(bytes) => Ok(Payload::from_vec(bytes)),
        Err(DecodeAllocError::OutOfMemory) => Err(ResponseFault::Memory),
        Err(DecodeAllocError::DecodeError(_)) => Err(ResponseFault::Unexpected),
    }
}

// Returns the bytes of a JSON text.
fn bytes_in(alloc: Global, value: &Value) -> Result<Payload, ResponseFault>
    ensures { Gives result (bytes_in (view value.now)) }
{
    match value.as_str() {
        Some(text) => bytes_of(alloc, text),
        None => Err(ResponseFault::Unexpected),
    }
}

/// Returns the bytes in a member. Absent ones are empty, since etcd leaves no bytes out.
pub(crate) fn bytes_at(alloc: Global, value: &Value, name: &str) -> Result<Payload, ResponseFault>
    ensures { Gives result (bytes_at name.now (view value.now)) }
{
    match value.get(name) {
        Some(found) => bytes_in(alloc, found),
        None => Ok(Payload::from_vec(Vec::new(alloc))),
    }
}

/// Returns the items in a member. Absent ones are none, since etcd leaves an empty list out.
pub(crate) fn items_at<'a>(value: &'a Value, name: &str) -> Result<&'a [Value], ResponseFault>
    ensures { GivesBy (λ items. items_view items.now) result (items_at name.now (view value.now)) }
{
    match value.get(name) {
        Some(found) => match found.as_array() {
            Some(items) => Ok(items.as_slice()),
            None => Err(ResponseFault::Unexpected),
        },
        None => Ok(&[]),
    }
}
