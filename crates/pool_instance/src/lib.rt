//! One instance of a pool, without sockets: what it offers, takes, asks and replies.
#![tactic(auto)]

mod evaluate;
pub mod fault;
pub mod instance;
pub mod outcome;
pub mod purge_totals;
pub mod request;
mod requests;
mod waiting;
