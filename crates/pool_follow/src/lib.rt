//! A follower of the log of a pool: it does the acts of the entries over a space.
#![tactic(auto)]

mod acts;
mod end_state;
pub mod follow;
pub mod follow_fault;
pub mod follower;
