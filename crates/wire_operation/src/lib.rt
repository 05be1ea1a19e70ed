//! The operation of a request: what a path, a method and a body give.
#![tactic(auto)]

pub mod laws;
pub mod operation;
