//! A copy of an airspace in the tables of a database, which is made in steps while the airspace
//! changes. The database can be in memory.
#![tactic(auto)]

pub mod airspace_copy;
mod budget;
mod copying;
pub mod memory_database;
pub mod memory_file;
mod stored;
