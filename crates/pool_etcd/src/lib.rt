//! A shared log over etcd: a client of the JSON gateway that etcd serves beside gRPC.
//!
//! The texts of requests, the reading of responses and the state of the log are values of their
//! own, with contracts. `etcd_log` moves their bytes over sockets that do not block.
#![tactic(auto)]

mod comparisons;
mod connection;
mod counts;
pub mod differences;
pub mod etcd_fault;
pub mod etcd_log;
mod exchange;
mod following;
mod json_value;
mod lane;
pub mod laws;
mod line_links;
mod lines;
mod link_text;
mod log;
mod log_value;
mod member;
mod names;
mod number;
mod own_entries;
mod own_fence;
pub mod payload;
mod questions;
pub mod request;
mod request_lane;
mod response;
mod response_fault;
pub mod settings;
mod suppliers;
mod times;
mod watch_lane;
mod watch_line;
mod writer;
