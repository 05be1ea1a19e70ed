//! Members of a table of the token file.
ghost use Rattle.std.specs.Prelude.{◌≡◌, codes, is_none, option_map, option_and_then};
ghost use Rattle.std.specs.List.{list_all};
ghost use Rattle.toml.specs.Data.{as_array, as_str, get};
ghost use Rattle.toml.specs.View.{array_view, view};
ghost use Rattle.entity_core.specs.IdTexts.{is_visible_byte};
ghost use Rattle.token_conf.specs.TokenFile.{token_fault, text_at};

use toml::Value;

/// Returns the text at a key.
pub(crate) fn string_at<'a>(value: &'a Value, key: &str) -> Option<&'a str>
    ensures { option_map (λ s. s.now) result
        ≡ option_and_then as_str (get key.now (view value.now)) }
{
    value.get(key).and_then(Value::as_str)
}

/// Returns the list at a key.
pub(crate) fn list_at<'a>(value: &'a Value, key: &str) -> Option<&'a Vec<Value>>
    ensures { option_map (λ v. array_view v.now) result
        ≡ option_and_then as_array (get key.now (view value.now)) }
{
    value.get(key).and_then(Value::as_array)
}

fn is_visible(text: &str) -> bool
    ensures { result ≡ list_all is_visible_byte text.now }
{
    text.as_bytes().iter().all(|b| 33 <= *b && *b <= 126)
}

/// Returns true if the text can be that of a token: 1 to 255 visible bytes.
fn is_token_text(text: &str) -> bool
    ensures { result ≡ is_none (token_fault text.now) }
{
    1 <= text.len() && text.len() <= 255 && is_visible(text)
}

/// Returns the text of the table's token.
pub(crate) fn token_text(value: &Value) -> Option<&str>
    ensures { option_map (λ s. s.now) result ≡ text_at (codes "text") token_fault (view value.now) }
{
    match string_at(value, "text") {
        Some(text) => {
            if is_token_text(text) {
                Some(text)
            } else {
                None
            }
        }
        None => None,
    }
}
