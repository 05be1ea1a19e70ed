//! A pool of instances over one shared log: the log as a trait, and the laws of the pool.
#![tactic(auto)]

pub mod laws;
pub mod log;
pub mod log_io;
pub mod purge;
