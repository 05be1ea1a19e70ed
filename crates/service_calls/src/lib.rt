//! The service: replies to one call, to a run of calls and to batches, as the policy says.
#![tactic(auto)]

mod decide;
pub mod laws;
pub mod service;
