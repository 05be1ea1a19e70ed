//! The check of a token file for operators: each error and each warning. Also the format of a new
//! token and a new salt.
#![tactic(auto)]

mod location;
mod message;
pub mod new;
pub mod report;
mod statement;
pub mod summary;
mod table;
pub mod token_file_error;
mod token_file_errors;
pub mod warning;
mod warnings;
