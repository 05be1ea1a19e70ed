//! The connections to the admin port of `serve`, and the backups that they request.
#![tactic(auto)]

mod admin_connection;
pub mod admin_connections;
pub mod admin_context;
mod backup_job;
