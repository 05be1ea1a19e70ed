//! The format of a new token and a new salt.
ghost use Rattle.std.specs.Prelude.{◌≡◌, ◌++◌, IfErr, IfNone, IfOk, IfSome};
ghost use Rattle.std.specs.Prelude.{None, OnOk, false, map, string_bytes, true};
ghost use Rattle.std.specs.List.{list_all};
ghost use Rattle.entity_core.specs.IdTexts.{name_fault};
ghost use Rattle.token_check.specs.New.{IsWhyNone, list_after, list_of, names_in};
ghost use Rattle.token_check.specs.New.{quoted, salt_line_of, table_of};
ghost use Rattle.token_check.specs.Warnings.{is_scope};

use crate::message::{scope_message, uss_text_message};
use crate::table::name_fault;
use crate::warnings::is_scope;
use std::alloc::{AllocError, Global};
use token_conf::conf_fault::ConfFault;

/// The number of random bytes of a token or a salt: 256 bits.
pub const RANDOM_BYTES: usize = 32;

/// The reason why no token is generated, with a message for the operator.
#[derive(Debug, Drop)]
pub enum NewFault {
    /// The id of the USS is invalid.
    Uss(String),
    /// A name is that of no scope.
    Scopes(String),
    /// Memory ran out.
    Memory,
}

impl NewFault {
    ghost use Rattle.token_check.specs.NewFault.{fault_of};

    /// Returns the fault of a token file that had such a table, or `Memory`.
    pub fn fault(&self) -> ConfFault
        ensures { result ≡ fault_of self.now }
    {
        match self {
            NewFault::Uss(_) => ConfFault::Uss,
            NewFault::Scopes(_) => ConfFault::Scopes,
            NewFault::Memory => ConfFault::Memory,
        }
    }

    /// Returns the message for the operator.
    pub fn message(&self) -> &str {
        match self {
            NewFault::Uss(message) | NewFault::Scopes(message) => message.as_str(),
            NewFault::Memory => "memory",
        }
    }
}

impl From<AllocError> for NewFault {
    ghost use Rattle.std.specs.Prelude.{◌≡◌};
    ghost use Rattle.token_check.specs.declared.new.NewFault.TheVariants.{Memory};

    ghost from_gives = { λ _ fault. fault ≡ Memory };

    fn from(_refused: AllocError) -> NewFault {
        NewFault::Memory
    }
}

/// Returns the line of a salt of these bytes, with its line end.
pub fn salt_line(alloc: Global, random: &[u8]) -> Result<String, AllocError>
    ensures { IfOk result (λ line. string_bytes line ≡ salt_line_of random.now) }
{
    let salt = hex::encode(alloc, random)?;
    format!(in alloc; "salt = \"{salt}\"\n")
}

// Returns the names of a text, separated by commas.
fn names_in(alloc: Global, text: &str) -> Result<Vec<&str>, AllocError>
    ensures { IfOk result (λ names. map (λ name. name.now) names.items ≡ names_in text.now) }
{
    text.split(',').collect(alloc)
}

// Returns the first of the names that no scope has.
fn unknown_among<'a>(names: &[&'a str]) -> Option<&'a str>
    ensures some { IfSome result (λ _.
        list_all is_scope (map (λ name. name.now) names.now) ≡ false) }
    ensures unknown { IfSome result (λ name. is_scope name.now ≡ false) }
    ensures none { IfNone result (list_all is_scope (map (λ name. name.now) names.now) ≡ true) }
{
    for name in names {
        if !is_scope(name) {
            return Some(*name);
        }
    }
    None
}

// Appends a name in quotes.
fn put_quoted(text: &mut String, name: &str) -> Result<(), AllocError>
    ensures { OnOk result (string_bytes text.new ≡ string_bytes text.old ++ quoted name.now) }
{
    text.push_str("\"")?;
    text.push_str(name)?;
    text.push_str("\"")
}

// Appends names in quotes, each after a comma.
fn put_after(text: &mut String, names: &[&str]) -> Result<(), AllocError>
    ensures { OnOk result (string_bytes text.new
        ≡ string_bytes text.old ++ list_after (map (λ name. name.now) names.now)) }
{
    for name in names {
        text.push_str(", ")?;
        put_quoted(text, name)?;
    }
    Ok(())
}

// Returns the names in quotes, separated by commas.
fn list_of(alloc: Global, names: &[&str]) -> Result<String, AllocError>
    ensures { IfOk result (λ text. string_bytes text ≡ list_of (map (λ name. name.now) names.now)) }
{
    let mut text = String::new(alloc);
    if let [first, after @ ..] = names {
        put_quoted(&mut text, first)?;
        put_after(&mut text, after)?;
    }
    Ok(text)
}

/// Returns the table of a token of that USS, whose text is made from these bytes. The scopes are
/// names separated by commas. The table begins with an empty line and ends with a line end.
pub fn token_table(
    alloc: Global,
    uss: &str,
    scopes: &str,
    random: &[u8],
) -> Result<String, NewFault>
    ensures table { IfOk result (λ table. string_bytes table
        ≡ table_of uss.now (names_in scopes.now) random.now) }
    ensures reads { IfOk result (λ _. name_fault uss.now ≡ None) }
    ensures scopes { IfOk result (λ _. list_all is_scope (names_in scopes.now) ≡ true) }
    ensures why { IfErr result (IsWhyNone uss.now scopes.now) }
{
    if name_fault(uss).is_some() {
        return Err(NewFault::Uss(uss_text_message(alloc, uss)?));
    }
    let names = names_in(alloc, scopes)?;
    if let Some(name) = unknown_among(names.as_slice()) {
        return Err(NewFault::Scopes(scope_message(alloc, name)?));
    }
    let list = list_of(alloc, names.as_slice())?;
    let text = hex::encode(alloc, random)?;
    Ok(format!(in alloc; "\n[[token]]\ntext = \"{text}\"\nuss = \"{uss}\"\nscopes = [{list}]\n")?)
}
