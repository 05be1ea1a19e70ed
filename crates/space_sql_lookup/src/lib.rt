//! Lookup of single items of the airspace that the tables represent.
#![tactic(auto)]

pub mod availability;
pub mod dependents;
pub mod entity;
mod entity_rows;
mod naming;
pub mod serial;
pub mod subscription;
mod subscription_rows;
mod values;
