//! Backups of the files of a database that is being served, into a directory.
#![tactic(auto)]

mod backup_copy;
pub mod folder;
pub mod live_backup;
pub mod live_reader;
mod log_frames;
pub mod log_sums;
mod page_set;
