//! The keys of a log: `in/NAME` for each instance, and one for the supplier list.
ghost use Rattle.std.specs.Prelude.{◌≡◌, IfOk};
ghost use Rattle.std.specs.String.{string_bytes};
ghost use Rattle.pool_etcd.specs.Names.{key_of, list_key, organization_of, prefix, prefix_end, without_digits};

use std::alloc::{AllocError, Global};

// The keys of a log have this prefix.
const PREFIX: &str = "in/";

// The first key behind all keys with the prefix.
const PREFIX_END: &str = "in0";

// The key of the supplier list.
const LIST_KEY: &str = "in/@suppliers";

/// Returns the prefix of the keys.
pub(crate) fn prefix() -> &'static str
    ensures { result.now ≡ prefix }
{
    PREFIX
}

/// Returns the first key behind all keys with the prefix.
pub(crate) fn prefix_end() -> &'static str
    ensures { result.now ≡ prefix_end }
{
    PREFIX_END
}

/// Returns the key of the supplier list. No instance has its name.
pub(crate) fn list_key() -> &'static str
    ensures { result.now ≡ list_key }
{
    LIST_KEY
}

/// Returns the key under which an instance of that name writes.
///
/// Returns `AllocError` if memory runs out.
pub fn key_of(alloc: Global, name: &str) -> Result<String, AllocError>
    ensures { IfOk result (λ key. string_bytes key ≡ key_of name.now) }
{
    let mut key = String::from_str(alloc, PREFIX)?;
    key.push_str(name)?;
    Ok(key)
}

/// Returns the name behind the prefix of a key.
pub(crate) fn name_of(key: &[u8]) -> &[u8] {
    match key.get(PREFIX.len()..) {
        Some(name) => name,
        None => &[],
    }
}

// Returns a name without the digits at its end.
fn without_digits(name: &[u8]) -> &[u8]
    ensures { result.now ≡ without_digits name.now }
{
    let mut end = name.len();
    while end > 0 && name[end - 1].is_ascii_digit() {
        end -= 1;
    }
    &name[..end]
}

/// Returns the organization of a key: the name behind the prefix, without the digits at its end. So
/// the instances `a1` and `a2` are of one organization.
pub(crate) fn organization_of(key: &[u8]) -> &[u8]
    ensures { result.now ≡ organization_of key.now }
{
    match key.get(PREFIX.len()..) {
        Some(name) => without_digits(name),
        None => &[],
    }
}
