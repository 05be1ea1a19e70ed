//! The errors of a token file.
ghost use Rattle.std.specs.Prelude.{◌≡◌, ◌++◌, ◌∷◌, [], None, Some};
ghost use Rattle.std.specs.Prelude.{IfOk, OnOk, codes, map, option_map};
ghost use Rattle.toml.specs.Data.{get};
ghost use Rattle.toml.specs.View.{view};
ghost use Rattle.token_conf.specs.TokenFile.{file_of};
ghost use Rattle.token_check.specs.TokenFileErrors.{Explain, holder_of, errors_in};
ghost use Rattle.token_check.specs.TokenFileErrors.{errors_of, errors_of_list};
ghost use Rattle.token_check.specs.TokenFileErrors.{errors_of_table, errors_of_tables, unless};

use crate::table::{has_scopes, has_text, name_at, token_text};
use crate::token_file_error::TokenFileError;
use std::alloc::{AllocError, Global};
use toml::Value;

// Appends an error, if something is invalid.
fn put_unless(
    found: &mut Vec<TokenFileError>,
    is_right: bool,
    file_error: TokenFileError,
) -> Result<(), AllocError>
    ensures { OnOk result (found.new.items ≡ found.old.items ++ unless is_right file_error) }
{
    if !is_right {
        found.push(file_error)?;
    }
    Ok(())
}

// Returns the index of the first table whose token has that text.
fn holder_of(tables: &[Value], text: &str) -> Option<usize>
    ensures { result ≡ holder_of text.now (map view tables.now) }
{
    for (number, table) in tables.iter().enumerate() {
        if has_text(table, text) {
            return Some(number);
        }
    }
    None
}

// Appends the errors of a table after some others.
fn put_table_errors(
    found: &mut Vec<TokenFileError>,
    before: &[Value],
    table: &Value,
) -> Result<(), AllocError>
    ensures { OnOk result (found.new.items
        ≡ found.old.items ++ errors_of_table (map view before.now) (view table.now)) }
{
    let number = before.len();
    let text = token_text(table);
    put_unless(found, text.is_some(), TokenFileError::Token(number))?;
    put_unless(
        found,
        name_at(table, "uss").is_some(),
        TokenFileError::Uss(number),
    )?;
    put_unless(found, has_scopes(table), TokenFileError::Scopes(number))?;
    if let Some(text) = text {
        if let Some(earlier) = holder_of(before, text) {
            found.push(TokenFileError::Repeated(number, earlier))?;
        }
    }
    Ok(())
}

// Appends the errors of some tables, each with those before it.
fn put_all_table_errors(found: &mut Vec<TokenFileError>, tables: &[Value]) -> Result<(), AllocError>
    ensures { OnOk result (found.new.items
        ≡ found.old.items ++ errors_of_tables [] (map view tables.now)) }
{
    for (number, table) in tables.iter().enumerate() {
        put_table_errors(found, &tables[..number], table)?;
    }
    Ok(())
}

// Appends the errors of the document's member `token`, if it has one.
fn put_list_errors(
    found: &mut Vec<TokenFileError>,
    member: Option<&Value>,
) -> Result<(), AllocError>
    ensures { OnOk result (found.new.items ≡ found.old.items
        ++ errors_of_list (option_map (λ value. view value.now) member.entry)) }
{
    let Some(value) = member else {
        return Ok(());
    };
    match value.as_array() {
        Some(tables) => put_all_table_errors(found, tables.as_slice()),
        None => Ok(found.push(TokenFileError::List)?),
    }
}

/// Returns the errors of a document: that of its salt, and then those of its tables.
pub(crate) fn errors_of(alloc: Global, document: &Value) -> Result<Vec<TokenFileError>, AllocError>
    ensures { IfOk result (λ found. found.items ≡ errors_of (view document.now)) }
{
    let mut found = Vec::new(alloc);
    put_unless(
        &mut found,
        name_at(document, "salt").is_some(),
        TokenFileError::Salt,
    )?;
    put_list_errors(&mut found, document.get("token"))?;
    Ok(found)
}
