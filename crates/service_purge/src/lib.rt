//! Laws about purges: which calls get the same reply before and after ended items are purged.
#![tactic(auto)]

pub mod laws;
