//! The commands of `dss`, over readers, writers and texts whose bytes a contract can name.
#![tactic(auto)]

mod aborted_connection;
pub mod backup_fault;
pub mod clients;
mod clock_lines;
pub mod explain;
pub mod fault;
pub mod limits;
pub mod line;
mod log_line;
pub mod moment;
pub mod pool;
pub mod pool_fault;
pub mod ports;
pub mod print;
pub mod purge;
pub mod purged;
pub mod request_log;
pub mod server_lines;
mod store_lines;
pub mod stream;
pub mod token_files;
pub mod tokens;
