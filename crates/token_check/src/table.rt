//! A table of a token file, read member by member.
ghost use Rattle.std.specs.Prelude.{◌≡◌, None, Some, codes, is_some, option_and_then, option_map};
ghost use Rattle.std.specs.List.{list_all};
ghost use Rattle.toml.specs.Data.{as_array, as_str, get};
ghost use Rattle.toml.specs.View.{array_view, items_view, view};
ghost use Rattle.entity_core.specs.IdTexts.{is_name_byte, is_visible_byte, name_fault};
ghost use Rattle.token_conf.specs.TokenFile.{scopes_at, text_at, texts_of, token_fault};
ghost use Rattle.token_check.specs.TokenFileErrors.{has_text, token_text};

use entity_core::id_fault::IdFault;
use toml::Value;

/// Returns the text at a key.
pub(crate) fn string_at<'a>(table: &'a Value, key: &str) -> Option<&'a str>
    ensures { option_map (λ s. s.now) result
        ≡ option_and_then as_str (get key.now (view table.now)) }
{
    table.get(key).and_then(Value::as_str)
}

fn is_visible(text: &str) -> bool
    ensures { result ≡ list_all is_visible_byte text.now }
{
    text.as_bytes().iter().all(|b| 33 <= *b && *b <= 126)
}

fn is_name(text: &str) -> bool
    ensures { result ≡ list_all is_name_byte text.now }
{
    text.as_bytes().iter().all(|b| b.is_ascii_alphanumeric()
        || *b == b'-'
        || *b == b'.'
        || *b == b'_')
}

/// Returns the first fault of the text of a token.
pub(crate) fn token_fault(text: &str) -> Option<IdFault>
    ensures { result ≡ token_fault text.now }
{
    if text.is_empty() || text.len() > 255 {
        Some(IdFault::Length)
    } else if is_visible(text) {
        None
    } else {
        Some(IdFault::Form)
    }
}

/// Returns the first fault of the id of a USS, or of a salt.
pub(crate) fn name_fault(text: &str) -> Option<IdFault>
    ensures { result ≡ name_fault text.now }
{
    if text.is_empty() || text.len() > 64 {
        Some(IdFault::Length)
    } else if is_name(text) {
        None
    } else {
        Some(IdFault::Form)
    }
}

/// Returns the text of the table's token, if it is valid.
pub(crate) fn token_text(table: &Value) -> Option<&str>
    ensures { option_map (λ s. s.now) result ≡ token_text (view table.now) }
{
    match string_at(table, "text") {
        Some(text) => match token_fault(text) {
            None => Some(text),
            Some(_) => None,
        },
        None => None,
    }
}

/// Returns the name at a key, the id of a USS or a salt, if it is valid.
pub(crate) fn name_at<'a>(table: &'a Value, key: &str) -> Option<&'a str>
    ensures { option_map (λ s. s.now) result ≡ text_at key.now name_fault (view table.now) }
{
    match string_at(table, key) {
        Some(text) => match name_fault(text) {
            None => Some(text),
            Some(_) => None,
        },
        None => None,
    }
}

/// Returns the list at a key.
pub(crate) fn list_at<'a>(table: &'a Value, key: &str) -> Option<&'a Vec<Value>>
    ensures { option_map (λ v. array_view v.now) result
        ≡ option_and_then as_array (get key.now (view table.now)) }
{
    table.get(key).and_then(Value::as_array)
}

// Returns true if each value is a text.
fn are_texts(values: &[Value]) -> bool
    ensures { result ≡ is_some (texts_of (items_view values.now)) }
{
    for value in values {
        if value.as_str().is_none() {
            return false;
        }
    }
    true
}

/// Returns true if the table has a list of texts `scopes`.
pub(crate) fn has_scopes(table: &Value) -> bool
    ensures { result ≡ is_some (scopes_at (view table.now)) }
{
    match list_at(table, "scopes") {
        Some(values) => are_texts(values.as_slice()),
        None => false,
    }
}

/// Returns true if the table's token has that text.
pub(crate) fn has_text(table: &Value, text: &str) -> bool
    ensures { result ≡ has_text text.now (view table.now) }
{
    match token_text(table) {
        Some(other) => text == other,
        None => false,
    }
}
