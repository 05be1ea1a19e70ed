//! The reasons why a backup of a database failed, or is damaged.
ghost use Rattle.std.specs.Prelude.{◌≡◌};

/// The reason why a backup of a database failed, or why it was rejected.
#[derive(Clone, Copy, Debug, PartialEq, Eq)]
pub enum BackupFault {
    /// A file or directory of the backup's name exists.
    Exists,
    /// The database file cannot be read.
    Read,
    /// The backup cannot be created, written or synced.
    Write,
    /// The database changed faster than it was read.
    TooManyChanges,
    /// The file or its log is damaged.
    Damaged,
}

impl BackupFault {
    ghost use Rattle.dss_command.specs.BackupFault.{name_of, number_of};

    /// Returns its number, from 1 to 5.
    pub fn number(self) -> u8
        ensures { result ≡ number_of self }
    {
        match self {
            BackupFault::Exists => 1,
            BackupFault::Read => 2,
            BackupFault::Write => 3,
            BackupFault::TooManyChanges => 4,
            BackupFault::Damaged => 5,
        }
    }

    /// Returns its name, as written here.
    pub fn name(self) -> &'static str
        ensures { result.now ≡ name_of self }
    {
        match self {
            BackupFault::Exists => "Exists",
            BackupFault::Read => "Read",
            BackupFault::Write => "Write",
            BackupFault::TooManyChanges => "TooManyChanges",
            BackupFault::Damaged => "Damaged",
        }
    }
}
