//! Explanations of requests: what is wrong with their form, and which members are ignored.
#![tactic(auto)]

mod distance;
pub mod explain;
mod extent;
mod ignored;
mod json;
mod lines;
mod members;
pub mod operation;
mod parameters;
mod place;
mod problem;
mod put;
mod remark;
mod report;
mod texts;
pub mod verdict;
