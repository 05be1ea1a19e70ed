//! The tables that store an airspace: their schema, the airspace that they represent, their
//! creation, and their presence in a database.
#![tactic(auto)]

pub mod format;
pub mod laws;
pub mod make;
pub mod order;
pub mod presence;
pub mod upgrade;
