//! The arguments of the subcommand `serve`.
use std::net::SocketAddr;

/// The arguments of the subcommand `serve`.
#[derive(Debug, Drop, PartialEq, Eq)]
pub struct ServeArgs<'a> {
    /// The name of the token file.
    pub tokens: &'a str,
    /// The name of the database file.
    pub database: &'a str,
    /// The addresses to listen on. Their ports are at least 1.
    pub listen: Vec<SocketAddr>,
    /// The number of connections before exit, from 1 to a million; unlimited if `None`.
    pub count: Option<u64>,
    /// The maximum number of connections at once, from 1 to a thousand.
    pub max_connections: u64,
    /// The memory for unsent responses in mebibytes, at least 1.
    pub response_memory: u64,
    /// The maximum number of entities and subscriptions stored per USS, at least 1; unlimited if
    /// `None`.
    pub quota: Option<u32>,
    /// The retention of what has ended in seconds, at least 1; nothing is purged if `None`.
    pub retention: Option<u64>,
    /// The address of the admin port, 127.0.0.1 or ::1, if there is one. Its port is at least 1.
    pub admin_port: Option<SocketAddr>,
    /// The name of the directory for backups that are requested on the admin port, if there is one.
    /// Then there is an admin port.
    pub backup_dir: Option<&'a str>,
    /// The name of the file to which a line is written for each request, if there is one; `-` is
    /// standard error.
    pub access_log: Option<&'a str>,
    /// True if each commit is synced twice, and nothing is assumed about torn writes of the
    /// database.
    pub double_sync: bool,
    /// True if responses have explanations.
    pub explain: bool,
    /// True if warnings about the token file, and its limits, are printed before listening.
    pub verbose: bool,
}
