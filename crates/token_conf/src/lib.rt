//! The token file: the bearer tokens, the USS of each, and the scopes that it permits.
#![tactic(auto)]

pub mod conf_fault;
mod entry;
mod member;
pub mod token_table;
