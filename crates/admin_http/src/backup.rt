//! Backups that are requested on the admin port: their names and results.
ghost use Rattle.std.specs.Prelude.{◌≡◌, List, ℕ, IfOk, IfNone, IfSome};
ghost use Rattle.std.specs.List.{list_all};
ghost use Rattle.std.specs.String.{string_bytes};
ghost use Rattle.admin_http.specs.BackupResult.{Names, is_name_byte, status_of, words_of};

use std::alloc::{AllocError, Global};

/// The maximum length of a backup's name in bytes.
pub const MAX_NAME_BYTES: usize = 64;

/// The result of a requested backup.
#[derive(Clone, Copy, Debug, PartialEq, Eq)]
pub enum BackupResult {
    /// It is complete, with so many bytes.
    Made(u64),
    /// Its name is not 1 to 64 letters, digits, `-` and `_`.
    InvalidName,
    /// There is no backup directory.
    NoDirectory,
    /// A backup of that name exists.
    Exists,
    /// Another backup is in progress.
    Busy,
    /// It cannot be written.
    WriteFailed,
    /// The database files cannot be read.
    ReadFailed,
    /// The database changed faster than it was read.
    TooManyChanges,
    /// Memory ran out.
    Memory,
}

fn has_name_bytes(text: &str) -> bool
    ensures { result ≡ list_all is_name_byte text.now }
{
    text.as_bytes()
        .iter()
        .all(|b| b.is_ascii_alphanumeric() || *b == b'-' || *b == b'_')
}

/// Returns the name of the backup in a query `name=WORD`, of 1 to 64 letters, digits, `-` and `_`.
pub fn name_in(query: &str) -> Option<&str>
    ensures some { IfSome result (λ name. Names query.now name.now) }
    ensures none { IfNone result (¬ ((name : List ℕ) × Names query.now name)) }
{
    let name = query.strip_prefix("name=")?;
    if name.is_empty() || name.len() > MAX_NAME_BYTES || !has_name_bytes(name) {
        return None;
    }
    Some(name)
}

/// Returns the status of the response.
pub fn backup_status(backup: BackupResult) -> u16
    ensures { result ≡ status_of backup }
{
    match backup {
        BackupResult::Made(_) => 200,
        BackupResult::InvalidName => 400,
        BackupResult::NoDirectory => 404,
        BackupResult::Exists => 409,
        BackupResult::Busy
        | BackupResult::WriteFailed
        | BackupResult::ReadFailed
        | BackupResult::TooManyChanges
        | BackupResult::Memory => 503,
    }
}

// Returns the body of the response.
pub(crate) fn backup_text(alloc: Global, backup: BackupResult) -> Result<String, AllocError>
    ensures { IfOk result (λ text. string_bytes text ≡ words_of backup) }
{
    let text = match backup {
        BackupResult::Made(size) => return format!(in alloc; "made: {size} bytes\n"),
        BackupResult::InvalidName => "name: 1 to 64 letters, digits, - and _\n",
        BackupResult::NoDirectory => "no such path\n",
        BackupResult::Exists => "exists: there is a backup of that name\n",
        BackupResult::Busy => "busy: another backup is running\n",
        BackupResult::WriteFailed => "failed: the backup directory cannot be written\n",
        BackupResult::ReadFailed => "failed: the database files cannot be read\n",
        BackupResult::TooManyChanges => "failed: the database changes too fast\n",
        BackupResult::Memory => "failed: out of memory\n",
    };
    String::from_str(alloc, text)
}
