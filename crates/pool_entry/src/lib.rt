//! The entries of a pool's log: batches of calls, and purges, as bytes.
//!
//! Every instance of a pool reads each entry of the log and does its acts, so that what the bytes
//! of an entry represent is a function of the bytes alone.
#![tactic(auto)]

pub mod batch;
pub mod batch_fault;
pub mod bytes;
pub mod entry;
pub mod laws;
pub mod limits;
pub mod pool_call;
pub mod purge;
pub mod read;
mod read_field;
pub mod suppliers;
mod write;
