//! Heads of HTTP/1.x requests: whether one is complete, and what its fields say.
#![tactic(auto)]

pub mod bearer;
pub mod close;
mod fields;
pub mod laws;
pub mod length;
pub mod lines;
pub mod rest;
pub mod rule;
pub mod target;
