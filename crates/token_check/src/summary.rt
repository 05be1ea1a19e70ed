//! The size of a token file's contents.
ghost use Rattle.std.specs.Prelude.{◌≡◌, map};
ghost use Rattle.toml.specs.View.{view};
ghost use Rattle.token_check.specs.Summary.{has_new_uss, has_uss, is_uss_of_any, salt_length};
ghost use Rattle.token_check.specs.Summary.{summary_of, suppliers_of, tokens_of};

use crate::table::{list_at, name_at};
use std::alloc::{AllocError, Global};
use toml::Value;

/// The size of a token file's contents.
#[derive(Clone, Copy, Debug, PartialEq, Eq)]
pub struct Summary {
    /// The number of tokens.
    pub tokens: usize,
    /// The number of USSs.
    pub suppliers: usize,
    /// The number of characters of the salt.
    pub salt: usize,
}

impl Summary {
    /// Returns the line of a file of that name, without its line end.
    pub fn line(self, alloc: Global, name: &str) -> Result<String, AllocError> {
        let Summary {
            tokens,
            suppliers,
            salt,
        } = self;
        let of_tokens = ending(tokens);
        let of_suppliers = ending(suppliers);
        let of_salt = ending(salt);
        format!(in alloc;
            "{name}: {tokens} token{of_tokens} of {suppliers} supplier{of_suppliers}, salt of {salt} character{of_salt}"
        )
    }
}

// Returns the ending of a noun for that number.
fn ending(count: usize) -> &'static str {
    if count == 1 { "" } else { "s" }
}

// Returns true if the table has that USS.
fn has_uss(table: &Value, uss: &str) -> bool
    ensures { result ≡ has_uss uss.now (view table.now) }
{
    match name_at(table, "uss") {
        Some(other) => uss == other,
        None => false,
    }
}

// Returns true if one of the tables has that USS.
fn is_uss_of_any(tables: &[Value], uss: &str) -> bool
    ensures { result ≡ is_uss_of_any uss.now (map view tables.now) }
{
    for table in tables {
        if has_uss(table, uss) {
            return true;
        }
    }
    false
}

// Returns true if the table has a USS that none of the tables after it has.
fn has_new_uss(table: &Value, after: &[Value]) -> bool
    ensures { result ≡ has_new_uss (view table.now) (map view after.now) }
{
    match name_at(table, "uss") {
        Some(uss) => !is_uss_of_any(after, uss),
        None => false,
    }
}

// Returns the number of USSs of the tables.
fn suppliers_of(tables: &[Value]) -> usize
    ensures { result ≡ suppliers_of (map view tables.now) }
{
    let mut count = 0;
    for (number, table) in tables.iter().enumerate() {
        if has_new_uss(table, &tables[number + 1..]) {
            count += 1;
        }
    }
    count
}

// Returns the tables of a document's list `token`; none if it is no list.
fn tokens_of(document: &Value) -> &[Value]
    ensures { map view result.now ≡ tokens_of (view document.now) }
{
    match list_at(document, "token") {
        Some(tables) => tables.as_slice(),
        None => &[],
    }
}

// Returns the number of characters of a document's salt; 0 if it is invalid.
fn salt_length(document: &Value) -> usize
    ensures { result ≡ salt_length (view document.now) }
{
    match name_at(document, "salt") {
        Some(salt) => salt.len(),
        None => 0,
    }
}

/// Returns the size of a document's contents.
pub(crate) fn summary_of(document: &Value) -> Summary
    ensures { result ≡ summary_of (view document.now) }
{
    let tables = tokens_of(document);
    Summary {
        tokens: tables.len(),
        suppliers: suppliers_of(tables),
        salt: salt_length(document),
    }
}
