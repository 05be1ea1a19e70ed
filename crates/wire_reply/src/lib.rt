//! Replies as JSON (RFC 8259), and their statuses.
#![tactic(auto)]

pub mod answer;
pub mod explained;
pub mod members;
mod naming;
pub mod reference;
mod sub_view;
mod subscribers;
mod writing;
