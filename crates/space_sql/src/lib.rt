//! A space over tables of SQLite: opening, closing, reading and changing.
#![tactic(auto)]

mod answers;
pub mod batch;
pub mod failed_open;
pub mod laws;
pub mod left_files;
mod load;
pub mod open;
pub mod purge;
mod reading;
mod schema;
pub mod space;
pub mod to_memory;
