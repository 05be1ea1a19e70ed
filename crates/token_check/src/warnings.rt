//! The search for warnings of a token file.
ghost use Rattle.std.specs.Prelude.{◌≡◌, ◌++◌, [], IfOk, OnOk, map, not, option_map};
ghost use Rattle.std.specs.Option.{option_map_or};
ghost use Rattle.toml.specs.Data.{as_str};
ghost use Rattle.toml.specs.View.{items_view, table_view, view};
ghost use Rattle.token_check.specs.Warnings.{is_of_example, is_read, is_scope};
ghost use Rattle.token_check.specs.Warnings.{warnings_of, warnings_of_keys};
ghost use Rattle.token_check.specs.Warnings.{warnings_of_list, warnings_of_member};
ghost use Rattle.token_check.specs.Warnings.{warnings_of_names, warnings_of_salt};
ghost use Rattle.token_check.specs.Warnings.{warnings_of_table, warnings_of_tables, when};

use crate::table::{list_at, name_at};
use crate::warning::{SHORTEST_SALT, Warning};
use entity_core::text::Text;
use policy_core::scope::Scope;
use std::alloc::{AllocError, Global};
use toml::{Table, Value};

// Returns true if the salt occurs in an example.
fn is_of_example(salt: &str) -> bool
    ensures { result ≡ is_of_example salt.now }
{
    salt == "demo"
}

// Appends a warning, if its condition holds.
fn put_when(found: &mut Vec<Warning>, is_so: bool, warning: Warning) -> Result<(), AllocError>
    ensures { OnOk result (found.new.items ≡ found.old.items ++ when is_so warning) }
{
    if is_so {
        found.push(warning)?;
    }
    Ok(())
}

// Appends the warnings of a salt.
fn put_warnings_of_salt(found: &mut Vec<Warning>, salt: &str) -> Result<(), AllocError>
    ensures { OnOk result (found.new.items ≡ found.old.items ++ warnings_of_salt salt.now) }
{
    put_when(found, is_of_example(salt), Warning::ExampleSalt)?;
    put_when(
        found,
        salt.len() < SHORTEST_SALT,
        Warning::ShortSalt(salt.len()),
    )
}

// Returns a copy of a text.
fn copy_of(alloc: Global, text: &str) -> Result<Text, AllocError>
    ensures { IfOk result (λ copy. copy ≡ text.now) }
{
    Ok(Text::from_string(String::from_str(alloc, text)?))
}

// Returns true if the reader reads a key: of the document, or of a token's table.
fn is_read(place: Option<usize>, key: &str) -> bool
    ensures { result ≡ is_read place key.now }
{
    match place {
        None => key == "salt" || key == "token",
        Some(_) => key == "text" || key == "uss" || key == "scopes",
    }
}

// Appends the warnings of the keys of a table.
fn put_warnings_of_keys(
    alloc: Global,
    found: &mut Vec<Warning>,
    place: Option<usize>,
    table: &Table,
) -> Result<(), AllocError>
    ensures { OnOk result (found.new.items
        ≡ found.old.items ++ warnings_of_keys place (table_view table.now)) }
{
    for (key, _) in table {
        let key = copy_of(alloc, key.as_str())?;
        put_when(found, !is_read(place, key.text()), Warning::Key(place, key))?;
    }
    Ok(())
}

/// Returns true if a scope has that name.
pub(crate) fn is_scope(name: &str) -> bool
    ensures { result ≡ is_scope name.now }
{
    Scope::named(name).is_some()
}

// Appends the warnings of one name of a list of scopes.
fn put_warnings_of_name(
    alloc: Global,
    found: &mut Vec<Warning>,
    number: usize,
    value: &Value,
) -> Result<(), AllocError>
    ensures { OnOk result (found.new.items ≡ found.old.items
        ++ option_map_or (λ name. when (not (is_scope name)) (Warning.Scope number name))
        (as_str (view value.now)) []) }
{
    let Some(name) = value.as_str() else {
        return Ok(());
    };
    let name = copy_of(alloc, name)?;
    put_when(found, !is_scope(name.text()), Warning::Scope(number, name))
}

// Appends the warnings of the names of a list of scopes.
fn put_warnings_of_names(
    alloc: Global,
    found: &mut Vec<Warning>,
    number: usize,
    values: &[Value],
) -> Result<(), AllocError>
    ensures { OnOk result (found.new.items
        ≡ found.old.items ++ warnings_of_names number (items_view values.now)) }
{
    for value in values {
        put_warnings_of_name(alloc, found, number, value)?;
    }
    Ok(())
}

// Appends the warnings of a table.
fn put_warnings_of_table(
    alloc: Global,
    found: &mut Vec<Warning>,
    number: usize,
    table: &Value,
) -> Result<(), AllocError>
    ensures { OnOk result (found.new.items
        ≡ found.old.items ++ warnings_of_table number (view table.now)) }
{
    if let Some(members) = table.as_table() {
        put_warnings_of_keys(alloc, found, Some(number), members)?;
    }
    match list_at(table, "scopes") {
        Some(values) => put_warnings_of_names(alloc, found, number, values.as_slice()),
        None => Ok(()),
    }
}

// Appends the warnings of the tables of tokens.
fn put_warnings_of_tables(
    alloc: Global,
    found: &mut Vec<Warning>,
    tables: &[Value],
) -> Result<(), AllocError>
    ensures { OnOk result (found.new.items
        ≡ found.old.items ++ warnings_of_tables 0 (map view tables.now)) }
{
    for (number, table) in tables.iter().enumerate() {
        put_warnings_of_table(alloc, found, number, table)?;
    }
    Ok(())
}

// Appends the warnings of the list of tokens.
fn put_warnings_of_list(
    alloc: Global,
    found: &mut Vec<Warning>,
    tables: &[Value],
) -> Result<(), AllocError>
    ensures { OnOk result (found.new.items
        ≡ found.old.items ++ warnings_of_list (map view tables.now)) }
{
    match tables {
        [] => Ok(found.push(Warning::NoToken)?),
        _ => put_warnings_of_tables(alloc, found, tables),
    }
}

// Appends the warnings of the document's member `token`, if it has one.
fn put_warnings_of_member(
    alloc: Global,
    found: &mut Vec<Warning>,
    member: Option<&Value>,
) -> Result<(), AllocError>
    ensures { OnOk result (found.new.items ≡ found.old.items
        ++ warnings_of_member (option_map (λ value. view value.now) member.entry)) }
{
    let Some(value) = member else {
        found.push(Warning::NoToken)?;
        return Ok(());
    };
    match value.as_array() {
        Some(tables) => put_warnings_of_list(alloc, found, tables.as_slice()),
        None => Ok(()),
    }
}

/// Returns the warnings of a document: of its salt, of its keys, and of its tokens.
pub(crate) fn warnings_of(alloc: Global, document: &Value) -> Result<Vec<Warning>, AllocError>
    ensures { IfOk result (λ found. found.items ≡ warnings_of (view document.now)) }
{
    let mut found = Vec::new(alloc);
    if let Some(salt) = name_at(document, "salt") {
        put_warnings_of_salt(&mut found, salt)?;
    }
    if let Some(members) = document.as_table() {
        put_warnings_of_keys(alloc, &mut found, None, members)?;
    }
    put_warnings_of_member(alloc, &mut found, document.get("token"))?;
    Ok(found)
}
