//! A database as a backend of the server, and the laws that hold of it.
#![tactic(auto)]

pub mod database;
pub mod laws;
pub mod purge_plan;
