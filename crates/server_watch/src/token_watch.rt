//! The token file of a service, checked while the service runs.
ghost use Rattle.std.specs.Prelude.{◌≡◌, ◌&&◌, nat_lt, Ok, IfOk, IfSome, unwrap_or};
ghost use Rattle.server_watch.specs.Tokens.{Checks, ComesOf, IsMissed, IsVerdict, lacks_memory};

use admin_http::tokens::TokenMetrics;
use server_base::limits::LOOKS;
use server_base::server_log::{ServerLog, TokenReloadFault};
use std::alloc::Global;
use std::io;
use std::io::ErrorKind;
use std::time::Duration;
use token_conf::conf_fault::ConfFault;
use token_conf::token_table::TokenTable;

/// The source of the token file's bytes.
///
/// `gives` holds of the bytes that it may have. `reads old bytes new`: the source `old` read these
/// bytes, or could not read the file, and is then `new`.
pub trait TokenSource {
    ghost use Rattle.std.specs.Prelude.{ℕ, List, Option, None, Some, IfOk, OnErr};

    ghost gives: { List ℕ → Type 0 };

    ghost reads: { Self → Option (List ℕ) → Self → Type 0 };

    /// Reads all bytes of the file as they are now.
    fn read(&mut self) -> io::Result<Vec<u8>>
        ensures given { IfOk result (λ bytes. gives bytes.items) }
        ensures ok { IfOk result (λ bytes. reads self.old (Some bytes.items) self.new) }
        ensures err { OnErr result (reads self.old None self.new) };
}

/// Returns the active table: the one loaded last, or the first.
pub fn in_force<'a>(first: &'a TokenTable, newer: &'a Option<TokenTable>) -> &'a TokenTable
    ensures { result.now ≡ unwrap_or newer.now first.now }
{
    match newer {
        Some(table) => table,
        None => first,
    }
}

// Returns true if memory ran out, after which the file is read again.
fn is_memory(fault: TokenReloadFault) -> bool
    ensures { result ≡ lacks_memory fault }
{
    match fault {
        TokenReloadFault::Wrong(ConfFault::Memory) => true,
        TokenReloadFault::Wrong(_) | TokenReloadFault::Unread | TokenReloadFault::OtherSalt => {
            false
        }
    }
}

// Returns the table of a text of the file. Rejects a table with another salt than the first one.
fn table_of(alloc: Global, text: &str, first: &TokenTable) -> Result<TokenTable, TokenReloadFault>
    ensures { ComesOf first.now text.now result }
{
    let table = match TokenTable::read(alloc, text) {
        Ok(table) => table,
        Err(fault) => return Err(TokenReloadFault::Wrong(fault)),
    };
    if table.salt().text() == first.salt().text() {
        return Ok(table);
    }
    Err(TokenReloadFault::OtherSalt)
}

// Records that the file could not be read. Reports it the second time, because a file that is being
// replaced may not exist for a short time.
fn miss(cause: &io::Error, misses: &mut u32) -> Result<Option<TokenTable>, TokenReloadFault>
    ensures { IsMissed misses.old misses.new result }
{
    if cause.kind() == ErrorKind::OutOfMemory {
        return Err(TokenReloadFault::Wrong(ConfFault::Memory));
    }
    *misses = misses.saturating_add(1);
    if *misses == 2 {
        Err(TokenReloadFault::Unread)
    } else {
        Ok(None)
    }
}

// Returns the table of the bytes of the file.
fn judge(alloc: Global, bytes: &[u8], first: &TokenTable) -> Result<TokenTable, TokenReloadFault>
    ensures { IsVerdict first.now bytes.now result }
{
    match str::from_utf8(bytes) {
        Ok(text) => table_of(alloc, text, first),
        Err(_) => Err(TokenReloadFault::Unread),
    }
}

// Checks the bytes of the file if they differ from those that were last checked.
fn check(
    alloc: Global,
    bytes: Vec<u8>,
    checked: &mut Vec<u8>,
    first: &TokenTable,
) -> Result<Option<TokenTable>, TokenReloadFault>
    ensures checks { Checks first.now bytes.items checked.old.items checked.new.items result }
    ensures taken { IfOk result (λ taken.
        IfSome taken (λ table. ComesOf first.now bytes.items (Ok table))) }
{
    if bytes == *checked {
        return Ok(None);
    }
    match judge(alloc, bytes.as_slice(), first) {
        Ok(table) => {
            *checked = bytes;
            Ok(Some(table))
        }
        Err(fault) => {
            if !is_memory(fault) {
                *checked = bytes;
            }
            Err(fault)
        }
    }
}

// Returns true if the checked bytes are those of a loaded table, after a fault. A file that could not
// be read leaves them.
fn is_still_valid(is_valid: bool, misses: u32) -> bool
    ensures { result ≡ (is_valid && nat_lt 0 misses) }
{
    is_valid && misses > 0
}

// Logs and counts a rejected table, unless it is known that memory ran out.
fn reject<J: ServerLog>(
    tokens: &mut TokenMetrics,
    is_known: bool,
    fault: TokenReloadFault,
    checked: &[u8],
    journal: &mut J,
) {
    tokens.is_valid = false;
    if !is_known {
        tokens.refusals = tokens.refusals.saturating_add(1);
        journal.tokens_rejected(fault, checked);
    }
}

/// The token file of a service, checked while the service runs.
#[derive(Drop)]
pub struct TokenWatch<T: TokenSource> {
    source: T,
    // The bytes that were last checked.
    checked: Vec<u8>,
    looked: Duration,
    // How many times in a row the file could not be read, and whether memory ran out at the last
    // check.
    misses: u32,
    is_lacking: bool,
    // True if the bytes that were last checked are those of a table that was loaded.
    is_checked_valid: bool,
    // The metrics of the file.
    tokens: TokenMetrics,
}

impl<T: TokenSource> TokenWatch<T> {
    ghost use Rattle.std.specs.Prelude.{◌≡◌, IfOk, IfSome, IsNone, false, string_bytes, true};
    ghost use Rattle.std.specs.Duration.{as_nanos};
    ghost use Rattle.server_watch.specs.Tokens.{IsTakenAfter};
    ghost use Rattle.server_watch.specs.TokenWatch.{IsReadingDue, IsReadingEarly, LooksAtFile, ReadsFile, checked_of, is_lacking_in, is_valid_in, looked_of, misses_of, source_of};

    /// Creates a watch on a file that had this text when the service started.
    pub fn new(source: T, text: String) -> TokenWatch<T>
        ensures source { source_of result ≡ source }
        ensures checked { checked_of result ≡ string_bytes text }
        ensures looked { looked_of result ≡ 0 }
        ensures misses { misses_of result ≡ 0 }
        ensures lacking { is_lacking_in result ≡ false }
        ensures valid { is_valid_in result ≡ true }
    {
        TokenWatch {
            source,
            checked: text.into_bytes(),
            looked: Duration::from_millis(0),
            misses: 0,
            is_lacking: false,
            is_checked_valid: true,
            tokens: TokenMetrics::new(),
        }
    }

    /// Returns the metrics of the file.
    pub fn tokens(&self) -> TokenMetrics {
        self.tokens
    }

    // Reads the file, and checks it if its bytes differ from those that were last checked.
    fn read(
        &mut self,
        alloc: Global,
        first: &TokenTable,
    ) -> Result<Option<TokenTable>, TokenReloadFault>
        ensures taken { IfOk result (λ taken. IfSome taken (IsTakenAfter T.gives first.now)) }
        ensures reads { ReadsFile T.TokenSource first.now self.old self.new result }
        ensures looked { looked_of self.new ≡ looked_of self.old }
        ensures lacking { is_lacking_in self.new ≡ is_lacking_in self.old }
        ensures valid { is_valid_in self.new ≡ is_valid_in self.old }
    {
        match self.source.read() {
            Ok(bytes) => {
                self.misses = 0;
                check(alloc, bytes, &mut self.checked, first)
            }
            Err(cause) => miss(&cause, &mut self.misses),
        }
    }

    /// Checks the file, each second. If its bytes have changed, and represent a table with the salt
    /// of the first one, returns the table to load. Otherwise logs the reason once.
    pub fn look<J: ServerLog>(
        &mut self,
        alloc: Global,
        first: &TokenTable,
        now: Duration,
        journal: &mut J,
    ) -> Option<TokenTable>
        ensures taken { IfSome result (IsTakenAfter T.gives first.now) }
        ensures waits { IsReadingEarly self.old now → IsNone result }
        ensures stays { IsReadingEarly self.old now → self.new ≡ self.old }
        ensures looked { IsReadingDue self.old now → looked_of self.new ≡ as_nanos now }
        ensures looks { IsReadingDue self.old now
            → LooksAtFile T.TokenSource first.now self.old self.new result }
    {
        if now.saturating_sub(self.looked) < Duration::from_millis(LOOKS) {
            return None;
        }
        self.looked = now;
        match self.read(alloc, first) {
            Ok(taken) => {
                self.is_lacking = false;
                self.is_checked_valid = self.is_checked_valid || taken.is_some();
                self.tokens.is_valid = self.is_checked_valid && self.misses < 2;
                if taken.is_some() {
                    self.tokens.read = now;
                }
                taken
            }
            Err(fault) => {
                let is_known = self.is_lacking && is_memory(fault);
                self.is_lacking = is_memory(fault);
                self.is_checked_valid = is_still_valid(self.is_checked_valid, self.misses);
                let checked = self.checked.as_slice();
                reject(&mut self.tokens, is_known, fault, checked, journal);
                None
            }
        }
    }
}
