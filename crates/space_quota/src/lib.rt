//! Quotas: limits on what a space stores for each USS.
#![tactic(auto)]

mod changes;
mod purges;
pub mod quota_space;
mod usage;
pub mod usage_table;
mod uss_usage;
