//! Snapshots: read-only access to the content of a space.
#![tactic(auto)]

pub mod counts;
pub mod snapshot;
