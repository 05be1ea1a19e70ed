//! The check of tables of format 2, at once or in pieces.
//!
//! A piece is the rows of one range of numbers. The check in pieces needs memory for one piece, and
//! for the numbers and ids of all subscriptions.
#![tactic(auto)]

pub mod airspace;
mod ends;
mod entities;
mod ids;
mod meta;
mod pieces;
mod settings;
mod source;
mod subscriptions;
