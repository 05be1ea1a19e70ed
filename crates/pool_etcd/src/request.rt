//! The bodies of the requests to etcd, as JSON.
ghost use Rattle.std.specs.Prelude.{◌≡◌, IfOk, codes};
ghost use Rattle.std.specs.String.{string_bytes};
ghost use Rattle.serde_json.specs.Data.{array, item, member, no_items, no_members, object};
ghost use Rattle.serde_json.specs.View.{view};
ghost use Rattle.serde_json.specs.Written.{compact_text};
ghost use Rattle.pool_etcd.specs.Request.{bytes_data, compact_data, counts_data, create_members, end_data, is_at, list_data, own_data, put_data, token_data, watch_data};

use crate::names::{list_key, prefix, prefix_end};
use base64::engine::general_purpose::STANDARD;
use serde_json::{Value, json};
use std::alloc::{AllocError, Global};

/// The path of a request that puts a value, or fails.
pub const PUT_PATH: &str = "/v3/kv/txn";

/// The path of a request that reads keys.
pub const RANGE_PATH: &str = "/v3/kv/range";

/// The path of a request that follows keys.
pub const WATCH_PATH: &str = "/v3/watch";

/// The path of a request for a token.
pub const TOKEN_PATH: &str = "/v3/auth/authenticate";

/// The path of a request that removes old values.
pub const COMPACT_PATH: &str = "/v3/kv/compaction";

// Returns an array of one value.
fn single(alloc: Global, value: Value) -> Result<Value, AllocError>
    ensures { IfOk result (λ v. view v ≡ array (item (view value) no_items)) }
{
    json!(in alloc; [value])
}

// Returns an object of one member.
fn object_of(alloc: Global, name: &str, value: Value) -> Result<Value, AllocError>
    ensures { IfOk result (λ v. view v ≡ object (member name.now (view value) no_members)) }
{
    json!(in alloc; {(name): value})
}

// Returns the condition that the last change of a key was at a revision.
fn condition_value(alloc: Global, key: &str, revision: u64) -> Result<Value, AllocError>
    ensures { IfOk result (λ v. view v ≡ object (is_at key.now revision)) }
{
    let key = STANDARD.encode(alloc, key.as_bytes())?;
    let revision = format!(in alloc; "{revision}")?;
    json!(in alloc; {
        "key": key.as_str(),
        "mod_revision": revision.as_str(),
        "result": "EQUAL",
        "target": "MOD"
    })
}

// Returns the key, as the member of an object.
fn key_value(alloc: Global, key: &str) -> Result<Value, AllocError>
    ensures { IfOk result
        (λ v. view v ≡ object (member (codes "key") (bytes_data key.now) no_members)) }
{
    let key = STANDARD.encode(alloc, key.as_bytes())?;
    json!(in alloc; {"key": key.as_str()})
}

// Returns the key and the value, as the members of an object.
fn stored_value(alloc: Global, key: &str, value: &[u8]) -> Result<Value, AllocError>
    ensures { IfOk result (λ v. view v ≡ object (member (codes "key") (bytes_data key.now)
        (member (codes "value") (bytes_data value.now) no_members))) }
{
    let key = STANDARD.encode(alloc, key.as_bytes())?;
    let value = STANDARD.encode(alloc, value)?;
    json!(in alloc; {"key": key.as_str(), "value": value.as_str()})
}

fn put_value(alloc: Global, key: &str, value: &[u8], revision: u64) -> Result<Value, AllocError>
    ensures { IfOk result (λ v. view v ≡ put_data key.now value.now revision) }
{
    let condition = condition_value(alloc, key, revision)?;
    let compare = single(alloc, condition)?;
    let range = key_value(alloc, key)?;
    let range = object_of(alloc, "request_range", range)?;
    let failure = single(alloc, range)?;
    let put = stored_value(alloc, key, value)?;
    let put = object_of(alloc, "request_put", put)?;
    let success = single(alloc, put)?;
    json!(in alloc; {"compare": compare, "failure": failure, "success": success})
}

/// Returns the body of a put of a value at a key whose last change was at a revision.
///
/// Returns `AllocError` if memory runs out.
pub fn put_body(alloc: Global, key: &str, value: &[u8], revision: u64) -> Result<String, AllocError>
    ensures { IfOk result
        (λ body. string_bytes body ≡ compact_text (put_data key.now value.now revision)) }
{
    put_value(alloc, key, value, revision)?.to_string(alloc)
}

fn own_value(alloc: Global, key: &str) -> Result<Value, AllocError>
    ensures { IfOk result (λ v. view v ≡ own_data key.now) }
{
    let key = STANDARD.encode(alloc, key.as_bytes())?;
    json!(in alloc; {"key": key.as_str(), "keys_only": true})
}

/// Returns the body of a request for the revision of the last change of a key.
///
/// Returns `AllocError` if memory runs out.
pub fn own_body(alloc: Global, key: &str) -> Result<String, AllocError>
    ensures { IfOk result (λ body. string_bytes body ≡ compact_text (own_data key.now)) }
{
    own_value(alloc, key)?.to_string(alloc)
}

fn list_value(alloc: Global, revision: u64) -> Result<Value, AllocError>
    ensures { IfOk result (λ v. view v ≡ list_data revision) }
{
    let key = STANDARD.encode(alloc, list_key().as_bytes())?;
    let revision = format!(in alloc; "{revision}")?;
    json!(in alloc; {"key": key.as_str(), "revision": revision.as_str()})
}

/// Returns the body of a request for the supplier list, as it was at a revision.
///
/// Returns `AllocError` if memory runs out.
pub fn list_body(alloc: Global, revision: u64) -> Result<String, AllocError>
    ensures { IfOk result (λ body. string_bytes body ≡ compact_text (list_data revision)) }
{
    list_value(alloc, revision)?.to_string(alloc)
}

fn counts_value(alloc: Global, revision: u64) -> Result<Value, AllocError>
    ensures { IfOk result (λ v. view v ≡ counts_data revision) }
{
    let first = STANDARD.encode(alloc, prefix().as_bytes())?;
    let end = STANDARD.encode(alloc, prefix_end().as_bytes())?;
    let revision = format!(in alloc; "{revision}")?;
    json!(in alloc; {
        "key": first.as_str(),
        "keys_only": true,
        "range_end": end.as_str(),
        "revision": revision.as_str()
    })
}

/// Returns the body of a request for the keys of the log and the counts of their puts, as they were
/// at a revision.
///
/// Returns `AllocError` if memory runs out.
pub fn counts_body(alloc: Global, revision: u64) -> Result<String, AllocError>
    ensures { IfOk result (λ body. string_bytes body ≡ compact_text (counts_data revision)) }
{
    counts_value(alloc, revision)?.to_string(alloc)
}

fn end_value(alloc: Global) -> Result<Value, AllocError>
    ensures { IfOk result (λ v. view v ≡ end_data) }
{
    let first = STANDARD.encode(alloc, prefix().as_bytes())?;
    let end = STANDARD.encode(alloc, prefix_end().as_bytes())?;
    json!(in alloc; {
        "key": first.as_str(),
        "keys_only": true,
        "limit": "1",
        "range_end": end.as_str(),
        "sort_order": "DESCEND",
        "sort_target": "MOD"
    })
}

/// Returns the body of a request for the last change of the log.
///
/// Returns `AllocError` if memory runs out.
pub fn end_body(alloc: Global) -> Result<String, AllocError>
    ensures { IfOk result (λ body. string_bytes body ≡ compact_text end_data) }
{
    end_value(alloc)?.to_string(alloc)
}

// Returns the keys and the revision of a watch.
fn create_value(alloc: Global, from: u64) -> Result<Value, AllocError>
    ensures { IfOk result (λ v. view v ≡ object (create_members from)) }
{
    let first = STANDARD.encode(alloc, prefix().as_bytes())?;
    let end = STANDARD.encode(alloc, prefix_end().as_bytes())?;
    let from = format!(in alloc; "{from}")?;
    json!(in alloc; {
        "fragment": true,
        "key": first.as_str(),
        "range_end": end.as_str(),
        "start_revision": from.as_str()
    })
}

fn watch_value(alloc: Global, from: u64) -> Result<Value, AllocError>
    ensures { IfOk result (λ v. view v ≡ watch_data from) }
{
    let create = create_value(alloc, from)?;
    object_of(alloc, "create_request", create)
}

/// Returns the body of a request for all changes of the log from a revision on.
///
/// Returns `AllocError` if memory runs out.
pub fn watch_body(alloc: Global, from: u64) -> Result<String, AllocError>
    ensures { IfOk result (λ body. string_bytes body ≡ compact_text (watch_data from)) }
{
    watch_value(alloc, from)?.to_string(alloc)
}

fn token_value(alloc: Global, user: &str, password: &str) -> Result<Value, AllocError>
    ensures { IfOk result (λ v. view v ≡ token_data user.now password.now) }
{
    json!(in alloc; {"name": user, "password": password})
}

/// Returns the body of a request for a token of a user.
///
/// Returns `AllocError` if memory runs out.
pub fn token_body(alloc: Global, user: &str, password: &str) -> Result<String, AllocError>
    ensures { IfOk result
        (λ body. string_bytes body ≡ compact_text (token_data user.now password.now)) }
{
    token_value(alloc, user, password)?.to_string(alloc)
}

fn compact_value(alloc: Global, revision: u64) -> Result<Value, AllocError>
    ensures { IfOk result (λ v. view v ≡ compact_data revision) }
{
    let revision = format!(in alloc; "{revision}")?;
    json!(in alloc; {"revision": revision.as_str()})
}

/// Returns the body of a request to remove all values before a revision, except the last ones.
///
/// Returns `AllocError` if memory runs out.
pub fn compact_body(alloc: Global, revision: u64) -> Result<String, AllocError>
    ensures { IfOk result (λ body. string_bytes body ≡ compact_text (compact_data revision)) }
{
    compact_value(alloc, revision)?.to_string(alloc)
}
