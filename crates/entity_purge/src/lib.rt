//! Tests of whether entities have ended, and the effect of a purge on an airspace.
#![tactic(auto)]

pub mod laws;
pub mod purge_item;
