//! The routes of the service: which endpoint a path leads to, and the operation of each method
//! there.
#![tactic(auto)]

pub mod endpoint;
pub mod laws;
pub mod routes;
