//! The arguments of the subcommand `serve` with `--pool`.
use std::net::SocketAddr;

/// The arguments of the subcommand `serve` with `--pool`.
#[derive(Debug, Drop, PartialEq, Eq)]
pub struct PoolArgs<'a> {
    /// The name of the token file.
    pub tokens: &'a str,
    /// The addresses of members of etcd, in the order in which they are tried: at least one. Their
    /// ports are at least 1.
    pub endpoints: Vec<SocketAddr>,
    /// The name of this instance in the pool: 1 to 64 of the characters `a-z A-Z 0-9 . _ -`.
    pub name: &'a str,
    /// The name of the file that has the user of etcd, if etcd asks for one.
    pub etcd_user: Option<&'a str>,
    /// The name of the directory of the pool's files, if the instance starts from the newest one.
    pub files: Option<&'a str>,
    /// The retention of what has ended in seconds, at least 1; the instance purges nothing if `None`.
    pub retention: Option<u64>,
    /// The addresses to listen on. Their ports are at least 1.
    pub listen: Vec<SocketAddr>,
    /// The number of connections before exit, from 1 to a million; unlimited if `None`.
    pub count: Option<u64>,
    /// The maximum number of connections at once, from 1 to a thousand.
    pub max_connections: u64,
    /// The address of the admin port, 127.0.0.1 or ::1, if there is one. Its port is at least 1.
    pub admin_port: Option<SocketAddr>,
    /// The name of the file to which a line is written for each request, if there is one; `-` is
    /// standard error.
    pub access_log: Option<&'a str>,
    /// True if responses have explanations.
    pub explain: bool,
    /// True if warnings about the token file, and its limits, are printed before listening.
    pub verbose: bool,
}
