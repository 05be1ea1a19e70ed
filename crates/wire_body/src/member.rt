//! Members of a JSON value.
ghost use Rattle.std.specs.Prelude.{◌≡◌, option_map};
ghost use Rattle.serde_json.specs.View.{view};
ghost use Rattle.wire_body.specs.Member.{member_of, required, optional, signed_in, unsigned_in};

use serde_json::Value;

/// Returns the member with this name. A null member counts as absent.
pub(crate) fn member<'a>(value: &'a Value, name: &str) -> Option<&'a Value>
    ensures { option_map (λ v. view v.now) result ≡ member_of name.now (view value.now) }
{
    match value.get(name) {
        Some(Value::Null) => None,
        Some(found) => Some(found),
        None => None,
    }
}

/// Returns the whole number in a required member, with or without a sign.
pub(crate) fn signed_at(value: &Value, name: &str) -> Option<i64>
    ensures { result ≡ required signed_in name.now (view value.now) }
{
    match member(value, name) {
        Some(found) => found.as_i64(),
        None => None,
    }
}

/// Returns the whole number without a sign in a required member.
pub(crate) fn unsigned_at(value: &Value, name: &str) -> Option<u64>
    ensures { result ≡ required unsigned_in name.now (view value.now) }
{
    match member(value, name) {
        Some(found) => found.as_u64(),
        None => None,
    }
}

/// Returns the whole number in an optional member, with or without a sign.
pub(crate) fn signed_if_there(value: &Value, name: &str) -> Option<Option<i64>>
    ensures { result ≡ optional signed_in name.now (view value.now) }
{
    match member(value, name) {
        None => Some(None),
        Some(found) => match found.as_i64() {
            Some(number) => Some(Some(number)),
            None => None,
        },
    }
}

/// Returns the whole number without a sign in an optional member.
pub(crate) fn unsigned_if_there(value: &Value, name: &str) -> Option<Option<u64>>
    ensures { result ≡ optional unsigned_in name.now (view value.now) }
{
    match member(value, name) {
        None => Some(None),
        Some(found) => match found.as_u64() {
            Some(number) => Some(Some(number)),
            None => None,
        },
    }
}
