//! The checks of a database when it is opened, and the upgrade of an older one in one transaction.
#![tactic(auto)]

pub mod checking;
pub mod first_meta;
pub mod laying;
pub mod old_format;
pub mod old_rows;
pub mod open_fault;
pub mod reinserting;
pub mod relaying;
pub mod second_meta;
pub mod upgrading;
