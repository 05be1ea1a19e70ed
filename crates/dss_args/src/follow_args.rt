//! The arguments of the subcommand `follow`.
use std::net::SocketAddr;

/// The arguments of the subcommand `follow`.
#[derive(Debug, Drop, PartialEq, Eq)]
pub struct FollowArgs<'a> {
    /// The name of the token file.
    pub tokens: &'a str,
    /// The addresses of members of etcd, in the order in which they are tried: at least one. Their
    /// ports are at least 1.
    pub endpoints: Vec<SocketAddr>,
    /// The name under which it writes to the log, which no instance has: 1 to 64 of the characters
    /// `a-z A-Z 0-9 . _ -`.
    pub name: &'a str,
    /// The name of the directory of the pool's files.
    pub files: &'a str,
    /// The name of the file that has the user of etcd, if etcd asks for one.
    pub etcd_user: Option<&'a str>,
    /// True if warnings about the token file, and the cause of a fault, are printed.
    pub verbose: bool,
}
