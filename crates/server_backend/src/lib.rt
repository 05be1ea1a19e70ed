//! What the server requires of its backend, which answers requests: a database or an instance
#![tactic(auto)]

pub mod backend;
pub mod outcome;
pub mod progress;
pub mod request;
