//! A space with an in-memory mirror. Changes are visible in the mirror at once and committed to its
//! store in batches.
#![tactic(auto)]

mod changes;
mod mirror_state;
pub mod mirrored;
mod purges;
mod reads;
mod snapshot;
