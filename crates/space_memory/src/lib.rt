//! An in-memory space: trees of entities and subscriptions, and a sorted vector of availabilities.
//!
//! It has an index of entities by cell, an index of subscriptions by cell, and an index of the
//! subscriptions that intents reference.
#![tactic(auto)]

mod cell_index;
mod found;
mod from_parts;
pub mod group_commit;
mod indexed;
mod indexed_subscriptions;
mod maps;
pub mod memory;
mod names;
mod near;
pub mod purge_ended;
mod purged;
mod snapshot;
pub mod to_memory;
