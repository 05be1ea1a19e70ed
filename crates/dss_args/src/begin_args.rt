//! The arguments of the subcommand `begin`.

/// The arguments of the subcommand `begin`.
#[derive(Debug, Drop, PartialEq, Eq)]
pub struct BeginArgs<'a> {
    /// The name of the token file.
    pub tokens: &'a str,
    /// The name of the database file, with whose airspace the pool begins.
    pub database: &'a str,
    /// The name of the directory of the pool's files.
    pub files: &'a str,
    /// True if warnings about the token file, and the cause of a fault, are printed.
    pub verbose: bool,
}
