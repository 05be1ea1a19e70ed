//! A chain of digests over the changes of keys, by which processes notice that they were given
//! different changes.
//!
//! Each digest is made of the one before it and a change. So a digest and a count, which are a
//! link, tell all changes up to there, unless two different texts have one digest.
#![tactic(auto)]

pub mod chain;
mod digest;
pub mod laws;
pub mod link;
