//! The policy: which rules a call breaks, and which of them is the first.
#![tactic(auto)]

pub mod call;
pub mod early;
pub mod key;
mod key_index;
pub mod laws;
pub mod missing;
pub mod reference;
pub mod rule;
pub mod scope;
pub mod standing;
pub mod sub_view;
