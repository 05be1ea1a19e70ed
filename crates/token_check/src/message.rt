//! The messages of errors and warnings, without their locations. No message has the value of `text`
//! or of `salt`.
use crate::table::{name_fault, token_fault};
use crate::token_file_error::TokenFileError;
use crate::warning::Warning;
use entity_core::id_fault::IdFault;
use std::alloc::{AllocError, Global};
use toml::Value;

/// Returns the table with that index.
pub(crate) fn table_of(document: &Value, number: usize) -> Option<&Value> {
    match document.get("token") {
        Some(list) => list.get(number),
        None => None,
    }
}

// Returns the value at a key of the table with that index.
fn member_of<'a>(document: &'a Value, number: usize, key: &str) -> Option<&'a Value> {
    match table_of(document, number) {
        Some(table) => table.get(key),
        None => None,
    }
}

// Returns the message for an invalid salt.
fn salt_message(alloc: Global, found: Option<&Value>) -> Result<String, AllocError> {
    let Some(value) = found else {
        return String::from_str(alloc, "no salt: dss tokens --new-salt makes one");
    };
    let Some(text) = value.as_str() else {
        return String::from_str(alloc, "salt: not a string");
    };
    if name_fault(text) == Some(IdFault::Length) {
        let length = text.len();
        return format!(in alloc; "salt of {length} bytes: 1 to 64 are allowed");
    }
    String::from_str(alloc, "salt: only letters, digits, - _ . are allowed")
}

// Returns the message for an invalid text of a token.
fn token_message(alloc: Global, table: Option<&Value>) -> Result<String, AllocError> {
    let Some(table) = table else {
        return String::from_str(alloc, "no table");
    };
    if table.as_table().is_none() {
        return String::from_str(alloc, "no table");
    }
    let Some(value) = table.get("text") else {
        return String::from_str(alloc, "no text");
    };
    let Some(text) = value.as_str() else {
        return String::from_str(alloc, "text: not a string");
    };
    if token_fault(text) == Some(IdFault::Length) {
        let length = text.len();
        return format!(in alloc; "text of {length} bytes: 1 to 255 are allowed");
    }
    String::from_str(
        alloc,
        "text: only visible ASCII characters are allowed, and no blank",
    )
}

/// Returns the message for an invalid id of a USS.
pub(crate) fn uss_text_message(alloc: Global, uss: &str) -> Result<String, AllocError> {
    if name_fault(uss) == Some(IdFault::Length) {
        let length = uss.len();
        return format!(in alloc; "uss of {length} bytes: 1 to 64 are allowed");
    }
    format!(in alloc; "uss {uss:?}: only letters, digits, - _ . are allowed")
}

/// Returns the message for a name that no scope has.
pub(crate) fn scope_message(alloc: Global, name: &str) -> Result<String, AllocError> {
    format!(in alloc;
        "scope {name:?}: no scope has that name: there are utm.strategic_coordination, utm.conformance_monitoring_sa, utm.constraint_processing, utm.constraint_management and utm.availability_arbitration"
    )
}

// Returns the message for an invalid USS of a table.
fn uss_message(alloc: Global, found: Option<&Value>) -> Result<String, AllocError> {
    let Some(value) = found else {
        return String::from_str(alloc, "no uss");
    };
    match value.as_str() {
        Some(uss) => uss_text_message(alloc, uss),
        None => String::from_str(alloc, "uss: not a string"),
    }
}

// Returns the message for invalid scopes of a table.
fn scopes_message(alloc: Global, found: Option<&Value>) -> Result<String, AllocError> {
    let text = match found {
        Some(_) => "scopes: not an array of strings",
        None => "no scopes",
    };
    String::from_str(alloc, text)
}

/// Returns the message for an error of a document.
pub(crate) fn error_message(
    alloc: Global,
    document: &Value,
    file_error: TokenFileError,
) -> Result<String, AllocError> {
    match file_error {
        TokenFileError::Toml => String::from_str(alloc, "no TOML"),
        TokenFileError::Salt => salt_message(alloc, document.get("salt")),
        TokenFileError::List => String::from_str(
            alloc,
            "token: not an array of tables: begin each token with [[token]]",
        ),
        TokenFileError::Token(number) => token_message(alloc, table_of(document, number)),
        TokenFileError::Uss(number) => uss_message(alloc, member_of(document, number, "uss")),
        TokenFileError::Scopes(number) => scopes_message(
            alloc,
            member_of(document, number, "scopes"),
        ),
        TokenFileError::Repeated(_, earlier) => {
            let earlier = earlier.saturating_add(1);
            format!(in alloc; "text: that of token {earlier}")
        }
    }
}

// Returns the message for a key that the reader ignores.
fn key_message(
    alloc: Global,
    document: &Value,
    place: Option<usize>,
    key: &str,
) -> Result<String, AllocError> {
    let value = match place {
        Some(_) => None,
        None => document.get(key),
    };
    match value {
        Some(Value::Array(_) | Value::Table(_)) => {
            format!(in alloc;
                "warning: {key:?} is not read: the table of a token begins with [[token]]"
            )
        }
        _ => format!(in alloc; "warning: {key:?} is not read"),
    }
}

/// Returns the message for a warning.
pub(crate) fn warning_message(
    alloc: Global,
    document: &Value,
    warning: &Warning,
) -> Result<String, AllocError> {
    match warning {
        Warning::ExampleSalt => String::from_str(
            alloc,
            "warning: salt: it stands in an example, so everybody can compute OVNs",
        ),
        Warning::ShortSalt(length) => {
            let length = *length;
            format!(in alloc;
                "warning: salt of {length} characters: under 32 it can be found from one OVN"
            )
        }
        Warning::NoToken => String::from_str(alloc, "warning: no token: no call has a caller"),
        Warning::Key(place, key) => key_message(alloc, document, *place, key.text()),
        Warning::Scope(_, name) => {
            let name = name.text();
            format!(in alloc; "warning: scope {name:?}: unknown scope, permits nothing")
        }
    }
}
