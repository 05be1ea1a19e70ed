//! What `serve` does besides requests: it checks the token file and the clock, and reports the store
//! and reset connections.
#![tactic(auto)]

pub mod clock_watch;
mod deadline;
pub mod laws;
pub mod purge_fault;
mod reference;
pub mod reset_watch;
pub mod store_watch;
pub mod time_record;
pub mod token_watch;
