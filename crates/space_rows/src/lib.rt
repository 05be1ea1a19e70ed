//! Conversion between entities or subscriptions and rows of tables.
#![tactic(auto)]

mod cells;
pub mod entity;
mod head;
pub mod laws;
pub mod numbers;
mod row_of_cell;
pub mod rows;
pub mod sub;
mod sub_head;
pub mod texts;
mod volumes;
