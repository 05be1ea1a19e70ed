//! A server, which answers the requests of clients by a backend, on one thread.
#![tactic(auto)]

mod drafts;
mod due_requests;
mod event_loop;
pub mod laws;
pub mod serve;
mod tickets;
mod watches;
