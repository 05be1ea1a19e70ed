//! Storage backends: the trait `Space` and its extensions.
#![tactic(auto)]

pub mod batch;
pub mod group_commit;
pub mod laws;
pub mod met;
pub mod purge;
pub mod purge_ended;
pub mod space;
