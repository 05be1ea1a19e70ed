//! The admin port above sockets: parses requests, and prepares responses.
#![tactic(auto)]

pub mod admin_route;
pub mod airspace;
pub mod answer;
pub mod backup;
pub mod build;
pub mod clock;
pub mod connections;
mod durations;
mod exposition;
pub mod faults;
pub mod machine;
mod metrics;
pub mod operation;
pub mod pool_metrics;
pub mod purged;
pub mod query;
pub mod request;
pub mod requests;
pub mod service_metrics;
pub mod store_metrics;
pub mod tokens;
pub mod uss_metrics;
pub mod web_page;
