//! Laws of a pool: what the clients of all its instances are sent.
#![tactic(auto)]

pub mod laws;
