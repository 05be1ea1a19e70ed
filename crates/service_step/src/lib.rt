//! The step of the policy as a definition, and its parts: replies, lookups, what a put needs to
//! know, and what is prepared for a call before anything is changed.
#![tactic(auto)]

pub mod admitted;
mod availability_effects;
pub mod call_fault;
pub mod effects;
mod entity_effects;
pub mod look_up;
pub mod needed;
pub mod prepared;
pub mod reply;
mod sub_effects;
