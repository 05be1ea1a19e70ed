//! Loading of the airspace that the tables of format 2 represent.
#![tactic(auto)]

pub mod check;
pub mod entities;
pub mod naming;
pub mod reading;
pub mod rising;
pub mod settings;
pub mod subscriptions;
pub mod table_check;
pub mod tables;
