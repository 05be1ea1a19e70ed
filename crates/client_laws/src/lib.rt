//! Laws of executions of a server over a database: what clients are sent, in real time and in two
//! executions.
#![tactic(auto)]

pub mod laws;
