//! The reasons why a database is not accepted as an airspace.
ghost use Rattle.std.specs.Prelude.{◌≡◌};

/// The reason why a database is not accepted as an airspace.
#[derive(Clone, Copy, Debug, PartialEq, Eq)]
pub enum OpenFault {
    /// Some of the tables or their columns are missing, or the rows represent no airspace.
    NotADss,
    /// The table `meta` has one row, with an unknown format.
    Version,
    /// The store failed.
    Store,
}

impl OpenFault {
    ghost use Rattle.space_sql_open.specs.OpenFault.{name_of, number_of};

    /// Returns the number of the fault, from 1 to 3.
    pub fn number(self) -> u8
        ensures { result ≡ number_of self }
    {
        match self {
            OpenFault::NotADss => 1,
            OpenFault::Version => 2,
            OpenFault::Store => 3,
        }
    }

    /// Returns the name of the fault, as it is written here.
    pub fn name(self) -> &'static str
        ensures { result.now ≡ name_of self }
    {
        match self {
            OpenFault::NotADss => "NotADss",
            OpenFault::Version => "Version",
            OpenFault::Store => "Store",
        }
    }
}
