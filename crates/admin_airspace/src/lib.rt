//! The airspace as the admin port shows it: page by page, as JSON.
#![tactic(auto)]

mod key;
mod members;
mod page;
pub mod query;
mod reference;
pub mod shown_page;
mod subscription;
mod volume;
