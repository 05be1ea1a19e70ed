//! Laws of a server over a database: what follows from the laws of its clients and of the database.
#![tactic(auto)]

pub mod laws;
