//! What a server does for its clients, whatever answers their requests.
#![tactic(auto)]

pub mod client_connection;
mod client_io;
pub mod client_set;
pub mod fair_queue;
pub mod laws;
pub mod reason;
pub mod request_context;
