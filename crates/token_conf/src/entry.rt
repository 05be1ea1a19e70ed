//! The tables of a token file.
ghost use Rattle.std.specs.Prelude.{◌≡◌, ◌||◌, IfOk, codes, false, option_map, option_copied};
ghost use Rattle.std.specs.FinMap.{contains_key, empty, get};
ghost use Rattle.entity_core.specs.IdTexts.{name_fault};
ghost use Rattle.policy_core.specs.Scope.{has_scope};
ghost use Rattle.policy_core.specs.declared.scope.Scope.{Scope};
ghost use Rattle.toml.specs.View.{items_view, view};
ghost use Rattle.token_conf.specs.TokenFile.{Gives, callers_after, callers_in, is_name_of, or_fault, scopes_at, scopes_named, text_at, texts_of, token_of};

use crate::conf_fault::ConfFault;
use crate::member::{list_at, string_at, token_text};
use entity_core::id_fault::IdFault;
use entity_core::text::Text;
use entity_core::uss_id::UssId;
use policy_core::scope::{Caller, Scope, ScopeSet};
use std::alloc::Global;
use toml::Value;

/// Returns the USS of the table.
fn uss_at(alloc: Global, value: &Value) -> Result<UssId, ConfFault>
    ensures { Gives (λ uss. uss) result (or_fault ConfFault.Uss
        (text_at (codes "uss") name_fault (view value.now))) }
{
    let Some(text) = string_at(value, "uss") else {
        return Err(ConfFault::Uss);
    };
    match UssId::read(alloc, text) {
        Ok(uss) => Ok(uss),
        Err(IdFault::Memory) => Err(ConfFault::Memory),
        Err(_) => Err(ConfFault::Uss),
    }
}

/// Returns the set plus the scope of that name, if there is one.
fn with_named(scopes: ScopeSet, name: &str) -> ScopeSet
    ensures { (s : Scope) → has_scope result s ≡ (has_scope scopes s || is_name_of s name.now) }
{
    match Scope::named(name) {
        Some(scope) => scopes.with(scope),
        None => scopes,
    }
}

/// Returns the scopes that the texts name, if each value is a text.
fn scopes_in(values: &[Value]) -> Option<ScopeSet>
    ensures { result ≡ option_map scopes_named (texts_of (items_view values.now)) }
{
    let mut scopes = ScopeSet::empty();
    for value in values {
        scopes = with_named(scopes, value.as_str()?);
    }
    Some(scopes)
}

/// Returns the scopes of the table.
fn scopes_of(value: &Value) -> Option<ScopeSet>
    ensures { result ≡ scopes_at (view value.now) }
{
    match list_at(value, "scopes") {
        Some(values) => scopes_in(values.as_slice()),
        None => None,
    }
}

/// Returns the caller of the token with that text. Scans the tokens in turn.
pub(crate) fn caller_of<'a>(tokens: &'a [(Text, Caller)], text: &str) -> Option<&'a Caller>
    ensures { option_copied result ≡ get (callers_in tokens.now) text.now }
{
    for token in tokens {
        if text == token.0.text() {
            return Some(&token.1);
        }
    }
    None
}

/// Reads the token of one table: its text and its caller.
#[tactic(auto, unfolding(crate::specs::TokenFile::token_of))]
fn read_token(
    alloc: Global,
    value: &Value,
    known: &[(Text, Caller)],
) -> Result<(Text, Caller), ConfFault>
    ensures gives { Gives (λ token. token) result
        (token_of (view value.now) (callers_in known.now)) }
    ensures new { IfOk result (λ token. contains_key (callers_in known.now) token.0 ≡ false) }
{
    let Some(text) = token_text(value) else {
        return Err(ConfFault::Token);
    };
    let uss = uss_at(alloc, value)?;
    let Some(scopes) = scopes_of(value) else {
        return Err(ConfFault::Scopes);
    };
    if caller_of(known, text).is_some() {
        return Err(ConfFault::Repeated);
    }
    let text = String::from_str(alloc, text)?;
    Ok((Text::from_string(text), Caller { uss, scopes }))
}

/// Reads the tokens of the tables. Compares each text with those before it.
pub(crate) fn read_tokens(alloc: Global, values: &[Value]) -> Result<Vec<(Text, Caller)>, ConfFault>
    ensures { Gives (λ tokens. callers_in tokens.items) result
        (callers_after (items_view values.now) empty) }
{
    let mut tokens = Vec::new(alloc);
    for value in values {
        let token = read_token(alloc, value, tokens.as_slice())?;
        tokens.push(token)?;
    }
    Ok(tokens)
}
