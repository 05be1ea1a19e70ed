//! An instance of a pool as a backend of the server, and the laws that hold of it.
#![tactic(auto)]

pub mod laws;
pub mod pool;
pub mod timeouts;
mod waiting_list;
