//! Request bodies as JSON (RFC 8259), and the names that responses use as well.
#![tactic(auto)]

pub mod availability;
pub mod body;
pub mod body_fault;
pub mod laws;
mod member;
mod naming;
mod put;
mod setting;
mod state;
mod sub_put;
mod volume;
mod words;
