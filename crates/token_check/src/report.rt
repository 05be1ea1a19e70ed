//! The result of the check of a token file.
ghost use Rattle.std.specs.Prelude.{◌≡◌, ◌+◌, [], ◌∷◌, IfOk, OnOk, length, vec_len};
ghost use Rattle.toml.specs.View.{view};
ghost use Rattle.token_conf.specs.TokenFile.{file_of};
ghost use Rattle.token_check.specs.TokenFileErrors.{Explain, errors_in, errors_of};
ghost use Rattle.token_check.specs.Summary.{summary_of};
ghost use Rattle.token_check.specs.Warnings.{warnings_in, warnings_of};

use crate::location::{Location, line_of, location_of_error, location_of_warning};
use crate::message::{error_message, warning_message};
use crate::statement::{Statement, line_at, statements};
use crate::summary::{Summary, summary_of};
use crate::token_file_error::TokenFileError;
use crate::token_file_errors::errors_of;
use crate::warning::Warning;
use crate::warnings::warnings_of;
use std::alloc::{AllocError, Global};
use toml::Value;
use toml::de::Error;

/// The result of the check of a token file.
#[derive(Debug, Drop)]
pub struct CheckReport {
    /// The errors, for which the reader rejects the file: first that of the salt, then table by
    /// table.
    pub errors: Vec<TokenFileError>,
    /// The warnings, for which the reader does not reject the file.
    pub warnings: Vec<Warning>,
    /// A line for each error and then for each warning, without its line end.
    pub lines: Vec<String>,
    /// The size of its contents.
    pub summary: Summary,
}

// Returns the line of a message with its location.
fn line(
    alloc: Global,
    number: Option<usize>,
    table: Option<usize>,
    message: &str,
) -> Result<String, AllocError> {
    match (number, table) {
        (Some(number), Some(table)) => {
            let token = table.saturating_add(1);
            format!(in alloc; "line {number}, token {token}: {message}")
        }
        (Some(number), None) => format!(in alloc; "line {number}: {message}"),
        (None, Some(table)) => {
            let token = table.saturating_add(1);
            format!(in alloc; "token {token}: {message}")
        }
        (None, None) => String::from_str(alloc, message),
    }
}

// A text, and the positions of its statements.
#[derive(Clone, Copy, Drop)]
struct Source<'a> {
    text: &'a str,
    statements: &'a [Statement],
}

// Returns the line of a message about a location of a text.
fn line_of_location(
    alloc: Global,
    source: Source<'_>,
    place: Location<'_>,
    message: &str,
) -> Result<String, AllocError> {
    let number = line_of(source.text, source.statements, place);
    line(alloc, number, place.table, message)
}

// Appends the lines of errors.
fn put_error_lines(
    alloc: Global,
    lines: &mut Vec<String>,
    source: Source<'_>,
    document: &Value,
    errors: &[TokenFileError],
) -> Result<(), AllocError>
    ensures { OnOk result (vec_len lines.new ≡ vec_len lines.old + length errors.now) }
{
    for file_error in errors {
        let message = error_message(alloc, document, *file_error)?;
        let place = location_of_error(*file_error);
        lines.push(line_of_location(alloc, source, place, message.as_str())?)?;
    }
    Ok(())
}

// Appends the lines of warnings.
fn put_lines_of_warnings(
    alloc: Global,
    lines: &mut Vec<String>,
    source: Source<'_>,
    document: &Value,
    warnings: &[Warning],
) -> Result<(), AllocError>
    ensures { OnOk result (vec_len lines.new ≡ vec_len lines.old + length warnings.now) }
{
    for warning in warnings {
        let message = warning_message(alloc, document, warning)?;
        let place = location_of_warning(warning);
        lines.push(line_of_location(alloc, source, place, message.as_str())?)?;
    }
    Ok(())
}

// Checks a document.
fn report_of(alloc: Global, text: &str, document: &Value) -> Result<CheckReport, AllocError>
    ensures errors { IfOk result (λ report.
        report.errors.items ≡ errors_of (view document.now)) }
    ensures warnings { IfOk result (λ report.
        report.warnings.items ≡ warnings_of (view document.now)) }
    ensures summary { IfOk result (λ report. report.summary ≡ summary_of (view document.now)) }
    ensures lines { IfOk result (λ report.
        vec_len report.lines ≡ vec_len report.errors + vec_len report.warnings) }
{
    let errors = errors_of(alloc, document)?;
    let warnings = warnings_of(alloc, document)?;
    let statements = statements(alloc, text)?;
    let source = Source {
        text,
        statements: statements.as_slice(),
    };
    let mut lines = Vec::new(alloc);
    put_error_lines(alloc, &mut lines, source, document, errors.as_slice())?;
    put_lines_of_warnings(alloc, &mut lines, source, document, warnings.as_slice())?;
    Ok(CheckReport {
        errors,
        warnings,
        lines,
        summary: summary_of(document),
    })
}

// Returns the result for a text that is not TOML: one line.
fn report_of_no_toml(alloc: Global, text: &str, error: &Error) -> Result<CheckReport, AllocError>
    ensures errors { IfOk result (λ report. report.errors.items ≡ TokenFileError.Toml ∷ []) }
    ensures warnings { IfOk result (λ report. report.warnings.items ≡ []) }
    ensures lines { IfOk result (λ report. vec_len report.lines ≡ 1) }
{
    let reason = error.message();
    let message = format!(in alloc; "no TOML: {reason}")?;
    let number = match error.span() {
        Some(span) => Some(line_at(text, span.start)),
        None => None,
    };
    let mut errors = Vec::new(alloc);
    errors.push(TokenFileError::Toml)?;
    let mut lines = Vec::new(alloc);
    lines.push(line(alloc, number, None, message.as_str())?)?;
    Ok(CheckReport {
        errors,
        warnings: Vec::new(alloc),
        lines,
        summary: Summary {
            tokens: 0,
            suppliers: 0,
            salt: 0,
        },
    })
}

// Checks a text, TOML or not.
fn report_of_text(alloc: Global, text: &str) -> Result<CheckReport, AllocError>
    ensures errors { IfOk result (λ report. report.errors.items ≡ errors_in text.now) }
    ensures warnings { IfOk result (λ report. report.warnings.items ≡ warnings_in text.now) }
    ensures lines { IfOk result (λ report.
        vec_len report.lines ≡ vec_len report.errors + vec_len report.warnings) }
{
    match toml::table_from_str(alloc, text) {
        Ok(table) => report_of(alloc, text, &Value::Table(table)),
        Err(error) => {
            if error.is_memory() {
                return Err(AllocError);
            }
            report_of_no_toml(alloc, text, &error)
        }
    }
}

/// Checks the text of a token file.
///
/// The errors are exactly those of the reader of token files. The reader accepts the file if there
/// is none, and otherwise returns the fault of the first. No line has the value of `text` or of
/// `salt`. The time is quadratic in the number of tokens.
pub fn check_token_file(alloc: Global, text: &str) -> Result<CheckReport, AllocError>
    ensures errors { IfOk result (λ report. report.errors.items ≡ errors_in text.now) }
    ensures explain { IfOk result (λ report. Explain report.errors.items (file_of text.now)) }
    ensures warnings { IfOk result (λ report. report.warnings.items ≡ warnings_in text.now) }
    ensures lines { IfOk result (λ report.
        vec_len report.lines ≡ vec_len report.errors + vec_len report.warnings) }
{
    report_of_text(alloc, text)
}
