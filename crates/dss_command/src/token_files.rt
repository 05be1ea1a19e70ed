//! The command `tokens`, over texts and random bytes: checks a token file, or generates a token or
//! a salt for one.
ghost use Rattle.std.specs.Prelude.{◌≡◌, ◌⊎◌, IfErr, OnOk};
ghost use Rattle.std.specs.Io.KnownBytes.{Appends};
ghost use Rattle.token_conf.specs.TokenFile.{file_of};
ghost use Rattle.token_check.specs.New.{names_in, salt_line_of, table_of};
ghost use Rattle.dss_command.specs.Tokens.{EndsCheck, Judges};
ghost use Rattle.dss_command.specs.declared.fault.Fault.TheVariants.{Memory, Output};

use crate::fault::Fault;
use crate::print::put;
use std::alloc::Global;
use std::io::Write;
use token_check::new::{NewFault, salt_line, token_table};
use token_check::report::check_token_file;
use token_check::token_file_error::TokenFileError;

/// Writes a line for each text.
pub(crate) fn put_lines<W: Write>(lines: &[String], output: &mut W) -> Result<(), Fault>
    ensures { IfErr result (λ fault. fault ≡ Output) }
{
    for line in lines {
        put(line.as_bytes(), output)?;
        put("\n".as_bytes(), output)?;
    }
    Ok(())
}

// Returns how a check of a file with these errors ends.
fn reject_errors(errors: &[TokenFileError]) -> Result<(), Fault>
    ensures { Judges errors.now result }
{
    match errors.first() {
        Some(mistake) => Err(Fault::Tokens(mistake.fault())),
        None => Ok(()),
    }
}

/// Prints the errors and warnings of a token file's text, in the lines of `check_tokens`.
pub fn print_token_check<E: Write>(alloc: Global, text: &str, error: &mut E) -> Result<(), Fault>
    ensures { IfErr result (λ fault. (fault ≡ Memory) ⊎ (fault ≡ Output)) }
{
    let Ok(report) = check_token_file(alloc, text) else {
        return Err(Fault::Memory);
    };
    put_lines(report.lines.as_slice(), error)
}

/// Prints the errors and warnings of the text of the token file of that name, one per line. If
/// there is no error, prints a line with the file's contents by number. Otherwise returns the fault
/// that the other commands return for the file.
pub fn check_tokens<W: Write>(
    alloc: Global,
    file: &str,
    text: &str,
    output: &mut W,
) -> Result<(), Fault>
    ensures { EndsCheck (file_of text.now) result }
{
    let Ok(report) = check_token_file(alloc, text) else {
        return Err(Fault::Memory);
    };
    put_lines(report.lines.as_slice(), output)?;
    reject_errors(report.errors.as_slice())?;
    let Ok(line) = report.summary.line(alloc, file) else {
        return Err(Fault::Memory);
    };
    put(line.as_bytes(), output)?;
    put("\n".as_bytes(), output)
}

/// Prints the table of a new token of a USS with scopes, whose text is made from these bytes.
/// Prints errors of the USS id or of a scope on a line of `error`.
pub fn new_token<W: Write, E: Write>(
    alloc: Global,
    uss: &str,
    scopes: &str,
    random: &[u8],
    output: &mut W,
    error: &mut E,
) -> Result<(), Fault>
    ensures whole { OnOk result (Appends (W.contents output.old) (W.contents output.new)
        (table_of uss.now (names_in scopes.now) random.now)) }
    ensures quiet { OnOk result (E.contents error.new ≡ E.contents error.old) }
{
    match token_table(alloc, uss, scopes, random) {
        Ok(table) => put(table.as_bytes(), output),
        Err(NewFault::Memory) => Err(Fault::Memory),
        Err(fault) => {
            let _ = writeln!(error, "{}", fault.message());
            Err(Fault::Tokens(fault.fault()))
        }
    }
}

/// Prints the line of a new salt that is made from these bytes.
pub fn new_salt<W: Write>(alloc: Global, random: &[u8], output: &mut W) -> Result<(), Fault>
    ensures { OnOk result (Appends (W.contents output.old) (W.contents output.new)
        (salt_line_of random.now)) }
{
    match salt_line(alloc, random) {
        Ok(line) => put(line.as_bytes(), output),
        Err(_) => Err(Fault::Memory),
    }
}
