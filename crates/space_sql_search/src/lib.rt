//! Search for the entities and the subscriptions that meet areas, by the indexes on the intervals
//! of cells.
#![tactic(auto)]

mod candidates;
mod cell_table;
mod interval;
mod managers;
pub mod meeting;
mod numbers;
mod search_ranges;
pub mod subscriptions;
