//! The positions of the statements of a TOML document.
ghost use Rattle.std.specs.Prelude.{◌≡◌, ◌==◌, ◌≤◌, IfOk, IfSome};
ghost use Rattle.std.specs.Prelude.{count_by, length, string_bytes, true};
ghost use Rattle.std.specs.List.{All};
ghost use Rattle.toml_parser.specs.Reading.{key_view};
ghost use Rattle.toml_parser.specs.Strings as strings;
ghost use Rattle.token_check.specs.Statement.{IsWrittenIn, first_word, from, line_at, width_of};

use std::alloc::{AllocError, Global};
use toml_parser::text::{byte_at, first, skip, skip_blank, skip_ws};
use toml_parser::{Key, ParseError, dotted_key, quoted, starts_string};

/// The form in which a statement begins.
#[derive(Clone, Copy, Debug, PartialEq, Eq)]
pub(crate) enum Form {
    /// A key with a value after it.
    Pair,
    /// The header of a table, in single brackets.
    Table,
    /// The header of a table of a list, in double brackets.
    Item,
}

/// A statement of a document.
#[derive(Debug, Drop)]
pub(crate) struct Statement {
    /// The index of its first byte in the text.
    pub(crate) at: usize,
    /// Its form.
    pub(crate) form: Form,
    /// The first word of its key.
    pub(crate) name: String,
    /// True if its key has more words.
    pub(crate) is_deeper: bool,
}

// Returns the number of line feeds.
fn line_feeds_in(bytes: &[u8]) -> usize
    ensures counted { result ≡ count_by (λ byte. byte == 10) bytes.now }
    ensures bound { result ≤ length bytes.now }
{
    bytes.iter().filter(|byte| **byte == b'\n').count()
}

/// Returns the line of that byte of the text, from 1.
#[tactic(auto, using(std::proofs::lemmas::List::take_min))]
pub(crate) fn line_at(text: &str, at: usize) -> usize
    ensures { result ≡ line_at text.now at }
{
    1 + line_feeds_in(&text.as_bytes()[..at.min(text.len())])
}

// Returns the text after the line.
fn after_line(text: &str) -> &str {
    match text.split_once('\n') {
        Some((_, after)) => after,
        None => "",
    }
}

// Returns the text after an ASCII character outside of strings and comments.
fn after_byte(text: &str) -> &str {
    let byte = first(text);
    if 0 < byte && byte < 128 {
        skip(text, 1)
    } else {
        ""
    }
}

// Returns the text after the next string.
fn after_string(alloc: Global, text: &str) -> Result<&str, AllocError>
    requires { strings.starts_string text.now ≡ true }
{
    match quoted(alloc, text) {
        Ok((_, after)) => Ok(after),
        Err(ParseError::OutOfMemory) => Err(AllocError),
        Err(_) => Ok(""),
    }
}

// Returns the text after a value: the lines after the one on which it ends.
fn after_value(alloc: Global, text: &str) -> Result<&str, AllocError> {
    let mut rest = text;
    let mut depth = 0usize;
    for _chunk in 0..text.len() {
        if starts_string(rest) {
            rest = after_string(alloc, rest)?;
            continue;
        }
        match first(rest) {
            b'[' | b'{' => depth = depth.saturating_add(1),
            b']' | b'}' => depth = depth.saturating_sub(1),
            b'\n' | b'#' if depth == 0 => return Ok(after_line(rest)),
            b'#' => {
                rest = after_line(rest);
                continue;
            }
            0 => return Ok(""),
            _ => {}
        }
        rest = after_byte(rest);
    }
    Ok(rest)
}

// Returns the form of the next statement.
fn form_of(text: &str) -> Form {
    if first(text) != b'[' {
        Form::Pair
    } else if byte_at(text, 1) == b'[' {
        Form::Item
    } else {
        Form::Table
    }
}

// Returns the number of bytes of a statement before its key.
fn width_of(form: Form) -> usize
    ensures { result ≡ width_of form }
{
    match form {
        Form::Pair => 0,
        Form::Table => 1,
        Form::Item => 2,
    }
}

// Returns the first word of a key.
fn first_word(key: &Key) -> Result<String, AllocError>
    ensures { IfOk result (λ word. string_bytes word ≡ first_word (key_view key.now)) }
{
    match key.path.first() {
        Some(word) => word.clone(),
        None => key.last.clone(),
    }
}

// Returns the text from a byte on.
fn text_from(text: &str, at: usize) -> Option<&str>
    ensures { IfSome result (λ rest. rest.now ≡ from at text.now) }
{
    text.get(at..)
}

// Returns the statement that begins at that byte, and the text after its key.
fn statement_at(
    alloc: Global,
    text: &str,
    at: usize,
) -> Result<Option<(Statement, &str)>, AllocError>
    ensures { IfOk result (λ found. IfSome found (λ t. IsWrittenIn text.now t.0)) }
{
    let Some(start) = text_from(text, at) else {
        return Ok(None);
    };
    let form = form_of(start);
    let Some(from) = text_from(start, width_of(form)) else {
        return Ok(None);
    };
    match dotted_key(alloc, skip_ws(from)) {
        Ok((key, after)) => {
            let name = first_word(&key)?;
            let is_deeper = !key.path.is_empty();
            let statement = Statement {
                at,
                form,
                name,
                is_deeper,
            };
            Ok(Some((statement, after)))
        }
        Err(ParseError::OutOfMemory) => Err(AllocError),
        Err(_) => Ok(None),
    }
}

// Returns the first statement that begins at that byte or after it, and the byte after its last
// line.
fn next_statement(
    alloc: Global,
    text: &str,
    at: usize,
) -> Result<Option<(Statement, usize)>, AllocError>
    ensures { IfOk result (λ found. IfSome found (λ t. IsWrittenIn text.now t.0)) }
{
    let Some(rest) = text_from(text, at) else {
        return Ok(None);
    };
    let start = text.len().saturating_sub(skip_blank(rest, true).len());
    match statement_at(alloc, text, start)? {
        Some((statement, after)) => {
            let below = match statement.form {
                Form::Pair => after_value(alloc, after)?,
                _ => after_line(after),
            };
            Ok(Some((statement, text.len().saturating_sub(below.len()))))
        }
        None => Ok(None),
    }
}

/// Returns the statements of a document, in their order.
pub(crate) fn statements(alloc: Global, text: &str) -> Result<Vec<Statement>, AllocError>
    ensures { IfOk result (λ found. All (IsWrittenIn text.now) found.items) }
{
    let mut found = Vec::new(alloc);
    let mut at = if text.starts_with('\u{feff}') { 3 } else { 0 };
    for _statement in 0..text.len() {
        match next_statement(alloc, text, at)? {
            Some((statement, behind)) => {
                found.push(statement)?;
                at = behind;
            }
            None => return Ok(found),
        }
    }
    Ok(found)
}
