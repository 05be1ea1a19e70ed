//! The command `tokens` with the system's resources: the text of a file, random bytes.
ghost use Rattle.std.specs.Prelude.{◌≡◌, OnOk};

use crate::tokens::token_text;
use dss_command::fault::{Fault, io_fault};
use dss_command::token_files;
use std::io::Write;
use std::random::RandomSource;
use token_check::new::RANDOM_BYTES;

/// Checks the token file of that name.
pub(crate) fn check<W: Write>(rt: &HostRuntime, file: &str, output: &mut W) -> Result<(), Fault> {
    let text = token_text(rt, file)?;
    token_files::check_tokens(rt.alloc(), file, text.as_str(), output)
}

// Returns random bytes of the system.
fn random_bytes(rt: &HostRuntime) -> Result<[u8; RANDOM_BYTES], Fault> {
    let mut bytes = [0; RANDOM_BYTES];
    match rt.fill_bytes(&mut bytes) {
        Ok(()) => Ok(bytes),
        Err(cause) => Err(io_fault(&cause, Fault::TokensUnread)),
    }
}

/// Generates a token of a USS with scopes.
pub(crate) fn new_token<W: Write, E: Write>(
    rt: &HostRuntime,
    uss: &str,
    scopes: &str,
    output: &mut W,
    error: &mut E,
) -> Result<(), Fault>
    ensures { OnOk result (E.contents error.new ≡ E.contents error.old) }
{
    let random = random_bytes(rt)?;
    token_files::new_token(rt.alloc(), uss, scopes, &random, output, error)
}

/// Generates a salt.
pub(crate) fn new_salt<W: Write>(rt: &HostRuntime, output: &mut W) -> Result<(), Fault> {
    let random = random_bytes(rt)?;
    token_files::new_salt(rt.alloc(), &random, output)
}
