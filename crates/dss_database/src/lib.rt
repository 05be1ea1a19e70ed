//! The commands of `dss` over a database, whose files are opened first and closed last.
#![tactic(auto)]

pub mod copies;
pub mod failure;
mod file_backups;
pub mod files;
pub mod laws;
pub mod pool_files;
mod with_mirror;
