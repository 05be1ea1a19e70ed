//! The subscriptions that a change of an entity notifies, and the notices of it.
#![tactic(auto)]

pub mod notice;
