//! A token file that changes.
use crate::draws::Draws;
use crate::shared::Shared;
use server_watch::token_watch::TokenSource;
use std::alloc::Global;
use std::io;
use std::io::ErrorKind;

/// The text of the token file at the start.
pub(crate) const FIRST: &str = r#"salt = "demo"
[[token]]
text = "tok-a"
uss = "uss-a"
scopes = ["utm.conformance_monitoring_sa", "utm.strategic_coordination"]
[[token]]
text = "tok-b"
uss = "uss-b"
scopes = ["utm.constraint_processing", "utm.strategic_coordination"]
[[token]]
text = "tok-c"
uss = "uss-c"
scopes = ["utm.constraint_management", "utm.strategic_coordination"]
[[token]]
text = "tok-v"
uss = "uss-v"
scopes = ["utm.availability_arbitration"]
"#;

/// Another text: one token is gone, one is of another USS, and one has fewer scopes.
pub(crate) const SECOND: &str = r#"salt = "demo"
[[token]]
text = "tok-a"
uss = "uss-a"
scopes = ["utm.strategic_coordination"]
[[token]]
text = "tok-b"
uss = "uss-d"
scopes = ["utm.constraint_processing", "utm.strategic_coordination"]
[[token]]
text = "tok-v"
uss = "uss-v"
scopes = ["utm.availability_arbitration"]
"#;

// A text with another salt, and one that is no token file. Both are rejected.
const OTHER_SALT: &str = "salt = \"other\"\n";

const MALFORMED: &str = "salt = ";

/// Returns the text with that index.
pub(crate) fn text_at(index: usize) -> &'static str {
    if index == 0 { FIRST } else { SECOND }
}

/// A token file in memory.
#[derive(Drop)]
pub(crate) struct SimTokens<'a> {
    pub(crate) alloc: Global,
    pub(crate) shared: &'a Shared,
    pub(crate) draws: Draws,
    /// How often of a hundred checks the file has changed.
    pub(crate) percent: u64,
}

impl<'a> SimTokens<'a> {
    // Returns the text of the file as it is now. Records which table becomes active.
    fn text(&mut self) -> io::Result<&'static str> {
        if !self.draws.chance(self.percent) || !self.shared.can_load() {
            return Ok(text_at(self.shared.table()));
        }
        match self.draws.below(6) {
            0 => Err(io::Error::from(ErrorKind::NotFound)),
            1 => Ok(OTHER_SALT),
            2 => Ok(MALFORMED),
            drawn => {
                let index = (drawn % 2) as usize;
                self.shared.load(index);
                Ok(text_at(index))
            }
        }
    }
}

impl<'a> TokenSource for SimTokens<'a> {
    // nothing is claimed of the file's contents
    ghost gives = { λ bytes. Unit {0} };

    ghost reads = { λ old bytes new. Unit {0} };

    fn read(&mut self) -> io::Result<Vec<u8>> {
        let text = self.text()?;
        Ok(Vec::from_slice(self.alloc, text.as_bytes())?)
    }
}
