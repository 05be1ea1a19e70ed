//! The command line of the program: parses its arguments into a `CommandArgs`, or returns the text
//! to print instead.
#![tactic(auto)]

pub mod begin_args;
mod begin_line;
pub mod command_args;
pub mod fault;
pub mod follow_args;
mod follow_line;
mod grammar;
pub mod pool_args;
mod pool_line;
pub mod serve_args;
pub mod version;
