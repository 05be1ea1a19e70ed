//! What the parts of `serve` share: limits, sockets, logs, and the calls of a batch.
#![tactic(auto)]

pub mod acceptance;
pub mod backups;
pub mod history;
pub mod limits;
pub mod phase;
pub mod response_info;
pub mod server_log;
pub mod service_record;
pub mod sockets;
pub mod trusted_time;
