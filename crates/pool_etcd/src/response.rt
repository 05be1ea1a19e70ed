//! The responses of etcd, from JSON.
ghost use Rattle.std.specs.Prelude.{◌≡◌};
ghost use Rattle.serde_json.specs.View.{items_view, view};
ghost use Rattle.pool_etcd.specs.Given.{Gives, GivesBy, IsJson, Reads};
ghost use Rattle.pool_etcd.specs.Member.{each};
ghost use Rattle.pool_etcd.specs.Response.{error_code, error_text, key_count, key_value, put_count, put_outcome, put_outcome_by};
ghost use Rattle.pool_etcd.specs.Response.{put_response, range_bytes, range_counts, range_revision, range_value, refusal};
ghost use Rattle.pool_etcd.specs.Response.{revision_fault, revision_fault_by, store_end, store_revision, stored_value, token_of};

use crate::counts::{Counts, KeyCount, PutCount};
use crate::json_value::json_of;
use crate::member::{bytes_at, flag_at, items_at, required_number};
use crate::payload::Payload;
use crate::response_fault::ResponseFault;
use serde_json::Value;
use std::alloc::Global;

/// The value of a key, with the revision of its last change.
#[derive(Drop)]
pub struct StoredValue {
    pub revision: u64,
    pub value: Payload,
}

/// A key with its value, and the count of its puts.
#[derive(Drop)]
pub struct KeyValue {
    pub key: Payload,
    pub puts: PutCount,
    pub stored: StoredValue,
}

/// The outcome of a put.
#[derive(Drop)]
pub enum PutOutcome {
    /// The value is stored, at this revision.
    Stored(u64),
    /// The last change of the key was at another revision. This is its value, if it has one.
    Refused(Option<StoredValue>),
}

/// The response to a put.
#[derive(Drop)]
pub struct PutResponse {
    /// The revision of the whole store.
    pub store: u64,
    pub outcome: PutOutcome,
}

/// The end of the log.
#[derive(Clone, Copy, Debug, PartialEq, Eq)]
pub struct StoreEnd {
    /// The revision of the whole store.
    pub store: u64,
    /// The revision of the key of the log that was changed last, or 0 if there is none.
    pub last: u64,
}

/// The reason why etcd has no values of a revision.
#[derive(Clone, Copy, Debug, PartialEq, Eq)]
pub enum RevisionFault {
    /// The values were removed.
    Compacted,
    /// etcd has not come to the revision.
    Future,
}

// The number of the error that etcd has no values of a revision.
const OUT_OF_RANGE: u64 = 11;

// The text of that error if etcd has not come to the revision.
const FUTURE_TEXT: &str = "etcdserver: mvcc: required revision is a future revision";

// Returns the revision of the whole store.
fn store_revision(alloc: Global, value: &Value) -> Result<u64, ResponseFault>
    ensures { Gives result (store_revision (view value.now)) }
{
    match value.get("header") {
        Some(header) => required_number(alloc, header, "revision"),
        None => Err(ResponseFault::Unexpected),
    }
}

#[tactic(auto, unfolding(crate::specs::Response::range_revision))]
fn range_revision(alloc: Global, value: &Value) -> Result<u64, ResponseFault>
    ensures { Gives result (range_revision (view value.now)) }
{
    let _store = store_revision(alloc, value)?;
    match items_at(value, "kvs")? {
        [] => Ok(0),
        [key, ..] => required_number(alloc, key, "mod_revision"),
    }
}

#[tactic(auto, unfolding(crate::specs::Response::store_end))]
fn store_end(alloc: Global, value: &Value) -> Result<StoreEnd, ResponseFault>
    ensures { Gives result (store_end (view value.now)) }
{
    let store = store_revision(alloc, value)?;
    let last = range_revision(alloc, value)?;
    Ok(StoreEnd { store, last })
}

#[tactic(auto, unfolding(crate::specs::Response::stored_value))]
fn stored_value(alloc: Global, value: &Value) -> Result<StoredValue, ResponseFault>
    ensures { Gives result (stored_value (view value.now)) }
{
    let revision = required_number(alloc, value, "mod_revision")?;
    let value = bytes_at(alloc, value, "value")?;
    Ok(StoredValue { revision, value })
}

#[tactic(auto, unfolding(crate::specs::Response::put_count))]
fn put_count(alloc: Global, value: &Value) -> Result<PutCount, ResponseFault>
    ensures { Gives result (put_count (view value.now)) }
{
    let created = required_number(alloc, value, "create_revision")?;
    let version = required_number(alloc, value, "version")?;
    Ok(PutCount { created, version })
}

#[tactic(auto, unfolding(crate::specs::Response::key_value))]
pub(crate) fn key_value(alloc: Global, value: &Value) -> Result<KeyValue, ResponseFault>
    ensures { Gives result (key_value (view value.now)) }
{
    let key = bytes_at(alloc, value, "key")?;
    let puts = put_count(alloc, value)?;
    let stored = stored_value(alloc, value)?;
    Ok(KeyValue { key, puts, stored })
}

#[tactic(auto, unfolding(crate::specs::Response::key_count))]
fn key_count(alloc: Global, value: &Value) -> Result<KeyCount, ResponseFault>
    ensures { Gives result (key_count (view value.now)) }
{
    let key = bytes_at(alloc, value, "key")?;
    let puts = put_count(alloc, value)?;
    Ok(KeyCount { key, puts })
}

fn each_count(alloc: Global, items: &[Value]) -> Result<Vec<KeyCount>, ResponseFault>
    ensures { GivesBy (λ v. v.items) result (each key_count (items_view items.now)) }
{
    let mut counts = Vec::new(alloc);
    for value in items {
        let count = key_count(alloc, value)?;
        if counts.push(count).is_err() {
            return Err(ResponseFault::Memory);
        }
    }
    Ok(counts)
}

#[tactic(auto, unfolding(crate::specs::Response::range_counts))]
fn range_counts(alloc: Global, value: &Value) -> Result<Counts, ResponseFault>
    ensures { Gives result (range_counts (view value.now)) }
{
    let _store = store_revision(alloc, value)?;
    let items = items_at(value, "kvs")?;
    let counts = each_count(alloc, items)?;
    Ok(Counts::from_vec(counts))
}

#[tactic(auto, unfolding(crate::specs::Response::range_value))]
fn range_value(alloc: Global, value: &Value) -> Result<Option<StoredValue>, ResponseFault>
    ensures { Gives result (range_value (view value.now)) }
{
    match items_at(value, "kvs")? {
        [] => Ok(None),
        [key, ..] => match stored_value(alloc, key) {
            Ok(stored) => Ok(Some(stored)),
            Err(fault) => Err(fault),
        },
    }
}

#[tactic(auto, unfolding(crate::specs::Response::range_bytes))]
fn range_bytes(alloc: Global, value: &Value) -> Result<Payload, ResponseFault>
    ensures { Gives result (range_bytes (view value.now)) }
{
    let _store = store_revision(alloc, value)?;
    match items_at(value, "kvs")? {
        [] => Ok(Payload::from_vec(Vec::new(alloc))),
        [key, ..] => bytes_at(alloc, key, "value"),
    }
}

// Returns the number of an error.
fn error_code(value: &Value) -> Result<u64, ResponseFault>
    ensures { Gives result (error_code (view value.now)) }
{
    let Some(code) = value.get("code") else {
        return Err(ResponseFault::Unexpected);
    };
    match code.as_u64() {
        Some(code) => Ok(code),
        None => Err(ResponseFault::Unexpected),
    }
}

// Returns the text of an error. An absent one is empty.
fn error_text(value: &Value) -> Result<&str, ResponseFault>
    ensures { GivesBy (λ text. text.now) result (error_text (view value.now)) }
{
    match value.get("message") {
        Some(text) => match text.as_str() {
            Some(text) => Ok(text),
            None => Err(ResponseFault::Unexpected),
        },
        None => Ok(""),
    }
}

fn revision_fault_by(code: u64, text: &str) -> Result<RevisionFault, ResponseFault>
    ensures { Gives result (revision_fault_by code text.now) }
{
    if code != OUT_OF_RANGE {
        return Err(ResponseFault::Unexpected);
    }
    if text == FUTURE_TEXT {
        Ok(RevisionFault::Future)
    } else {
        Ok(RevisionFault::Compacted)
    }
}

#[tactic(auto, unfolding(crate::specs::Response::revision_fault))]
fn revision_fault(value: &Value) -> Result<RevisionFault, ResponseFault>
    ensures { Gives result (revision_fault (view value.now)) }
{
    let code = error_code(value)?;
    let text = error_text(value)?;
    revision_fault_by(code, text)
}

#[tactic(auto, unfolding(crate::specs::Response::refusal))]
fn refusal(alloc: Global, value: &Value) -> Result<PutOutcome, ResponseFault>
    ensures { Gives result (refusal (view value.now)) }
{
    let responses = items_at(value, "responses")?;
    let [response, ..] = responses else {
        return Err(ResponseFault::Unexpected);
    };
    let Some(range) = response.get("response_range") else {
        return Err(ResponseFault::Unexpected);
    };
    match range_value(alloc, range) {
        Ok(value) => Ok(PutOutcome::Refused(value)),
        Err(fault) => Err(fault),
    }
}

#[tactic(auto, unfolding(crate::specs::Response::put_outcome))]
fn put_outcome(alloc: Global, value: &Value) -> Result<PutOutcome, ResponseFault>
    ensures { Gives result (put_outcome (view value.now)) }
{
    let store = store_revision(alloc, value)?;
    if flag_at(value, "succeeded")? {
        Ok(PutOutcome::Stored(store))
    } else {
        refusal(alloc, value)
    }
}

#[tactic(auto, unfolding(crate::specs::Response::put_response))]
fn put_response(alloc: Global, value: &Value) -> Result<PutResponse, ResponseFault>
    ensures { Gives result (put_response (view value.now)) }
{
    let store = store_revision(alloc, value)?;
    let outcome = put_outcome(alloc, value)?;
    Ok(PutResponse { store, outcome })
}

#[tactic(auto, unfolding(crate::specs::Response::token_of))]
fn token_of(alloc: Global, value: &Value) -> Result<Payload, ResponseFault>
    ensures { Gives result (token_of (view value.now)) }
{
    let Some(token) = value.get("token") else {
        return Err(ResponseFault::Unexpected);
    };
    let Some(text) = token.as_str() else {
        return Err(ResponseFault::Unexpected);
    };
    match Vec::from_slice(alloc, text.as_bytes()) {
        Ok(bytes) => Ok(Payload::from_vec(bytes)),
        Err(_) => Err(ResponseFault::Memory),
    }
}

/// Reads the revision of the last change of a key. It is 0 if the key has no value.
pub fn read_range(alloc: Global, body: &[u8]) -> Result<u64, ResponseFault>
    ensures { Reads range_revision body.now result }
{
    let value = json_of(alloc, body)?;
    range_revision(alloc, &value)
}

/// Reads the end of the log.
pub fn read_end(alloc: Global, body: &[u8]) -> Result<StoreEnd, ResponseFault>
    ensures { Reads store_end body.now result }
{
    let value = json_of(alloc, body)?;
    store_end(alloc, &value)
}

/// Reads the counts of keys.
pub fn read_counts(alloc: Global, body: &[u8]) -> Result<Counts, ResponseFault>
    ensures { Reads range_counts body.now result }
{
    let value = json_of(alloc, body)?;
    range_counts(alloc, &value)
}

/// Reads the value of a key. It is empty if the key has none.
pub fn read_value(alloc: Global, body: &[u8]) -> Result<Payload, ResponseFault>
    ensures { Reads range_bytes body.now result }
{
    let value = json_of(alloc, body)?;
    range_bytes(alloc, &value)
}

/// Reads why etcd has no values of a revision.
pub fn read_revision_fault(alloc: Global, body: &[u8]) -> Result<RevisionFault, ResponseFault>
    ensures { Reads revision_fault body.now result }
{
    let value = json_of(alloc, body)?;
    revision_fault(&value)
}

/// Reads the response to a put.
pub fn read_put(alloc: Global, body: &[u8]) -> Result<PutResponse, ResponseFault>
    ensures { Reads put_response body.now result }
{
    let value = json_of(alloc, body)?;
    put_response(alloc, &value)
}

/// Reads a token.
pub fn read_token(alloc: Global, body: &[u8]) -> Result<Payload, ResponseFault>
    ensures { Reads token_of body.now result }
{
    let value = json_of(alloc, body)?;
    token_of(alloc, &value)
}
