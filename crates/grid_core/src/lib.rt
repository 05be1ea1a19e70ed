//! Cells of the S2 grid, volumes and areas, and tests of whether they meet.
#![tactic(auto)]

pub mod cell;
pub mod laws;
pub mod range;
pub mod sorted_area;
pub mod token;
pub mod volume;
pub mod volume_fault;
pub mod volumes;
