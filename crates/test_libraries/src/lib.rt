//! Tests of libraries for what the byte-exact tests do not show. They cover the numbers of faults,
//! limits that no stream reaches, keys of thousands of OVNs, digests of another program, a space
//! that breaks at a call, and calls, bodies and replies that no stream gives.
#![tactic(auto)]

#[cfg(test)]
mod bodies;
pub mod breaking;
#[cfg(test)]
mod calls;
#[cfg(test)]
mod entities;
#[cfg(test)]
mod faults;
#[cfg(test)]
mod keys;
#[cfg(test)]
mod ovns;
#[cfg(test)]
mod replies;
#[cfg(test)]
mod stories;
pub mod told;
