//! The lines of the parts of a token file.
use crate::statement::{Form, Statement, line_at};
use crate::token_file_error::TokenFileError;
use crate::warning::Warning;

/// The location of a finding: the table with that index, or the document, and a key in it.
#[derive(Clone, Copy, Drop)]
pub(crate) struct Location<'a> {
    pub(crate) table: Option<usize>,
    pub(crate) key: Option<&'a str>,
}

/// Returns the location of an error.
pub(crate) fn location_of_error(file_error: TokenFileError) -> Location<'static> {
    let (table, key) = match file_error {
        TokenFileError::Toml => (None, None),
        TokenFileError::Salt => (None, Some("salt")),
        TokenFileError::List => (None, Some("token")),
        TokenFileError::Token(number) | TokenFileError::Repeated(number, _) => (
            Some(number),
            Some("text"),
        ),
        TokenFileError::Uss(number) => (Some(number), Some("uss")),
        TokenFileError::Scopes(number) => (Some(number), Some("scopes")),
    };
    Location { table, key }
}

/// Returns the location of a warning.
pub(crate) fn location_of_warning(warning: &Warning) -> Location<'_> {
    let (table, key) = match warning {
        Warning::ExampleSalt | Warning::ShortSalt(_) => (None, Some("salt")),
        Warning::NoToken => (None, None),
        Warning::Key(table, key) => (*table, Some(key.text())),
        Warning::Scope(number, _) => (Some(*number), Some("scopes")),
    };
    Location { table, key }
}

// Returns the first pair with that key before the next header.
fn pair_in<'a>(statements: &'a [Statement], key: &str) -> Option<&'a Statement> {
    for statement in statements {
        if statement.form != Form::Pair {
            return None;
        }
        if statement.name.as_str() == key {
            return Some(statement);
        }
    }
    None
}

// Returns the first header with that key.
fn header_in<'a>(statements: &'a [Statement], key: &str) -> Option<&'a Statement> {
    for statement in statements {
        if statement.form != Form::Pair && statement.name.as_str() == key {
            return Some(statement);
        }
    }
    None
}

// Returns true if a statement begins a table of the list `token`.
fn is_of_token(statement: &Statement) -> bool {
    statement.form == Form::Item && statement.name.as_str() == "token" && !statement.is_deeper
}

// Returns the index of the statement that begins the table with that index.
fn header_of(statements: &[Statement], table: usize) -> Option<usize> {
    let mut left = table;
    for (number, statement) in statements.iter().enumerate() {
        if is_of_token(statement) {
            if left == 0 {
                return Some(number);
            }
            left -= 1;
        }
    }
    None
}

// Returns the statement at a key of the document.
fn at_key<'a>(statements: &'a [Statement], key: &str) -> Option<&'a Statement> {
    match pair_in(statements, key) {
        Some(statement) => Some(statement),
        None => header_in(statements, key),
    }
}

// Returns the statement at a key of the table with that index, or otherwise the header of the
// table.
fn in_table<'a>(
    statements: &'a [Statement],
    table: usize,
    key: Option<&str>,
) -> Option<&'a Statement> {
    let Some(header) = header_of(statements, table) else {
        return at_key(statements, "token");
    };
    if let Some(key) = key {
        if let Some(below) = statements.get(header.saturating_add(1)..) {
            if let Some(statement) = pair_in(below, key) {
                return Some(statement);
            }
        }
    }
    statements.get(header)
}

/// Returns the line of a location, if it has one.
pub(crate) fn line_of(text: &str, statements: &[Statement], place: Location<'_>) -> Option<usize> {
    let statement = match place.table {
        Some(table) => in_table(statements, table, place.key),
        None => at_key(statements, place.key?),
    };
    Some(line_at(text, statement?.at))
}
