//! Changes of the airspace in the tables, one or a batch, in one transaction.
#![tactic(auto)]

pub mod availability;
pub mod batch;
pub mod change;
mod insert;
mod inserted;
mod notify;
mod number;
pub mod purge;
pub mod put;
pub mod remove;
pub mod serial;
mod sub_insert;
pub mod sub_put;
pub mod sub_remove;
