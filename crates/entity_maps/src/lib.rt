//! Maps of entities, subscriptions and availabilities: two trees and a sorted vector.
#![tactic(auto)]

pub mod availabilities;
pub mod entities;
pub mod subscriptions;
