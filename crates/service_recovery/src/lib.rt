//! A service over tables, and the effects of a crash on it.
#![tactic(auto)]

pub mod first;
pub mod first_in_memory;
pub mod laws;
