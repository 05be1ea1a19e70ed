//! Types that all other crates use: ids, OVNs, versions, availabilities, entities and
//! subscriptions. Its `specs` define the airspace.
#![tactic(auto)]

pub mod availability;
pub mod base_url;
pub mod entity;
pub mod entity_id;
pub mod id_fault;
pub mod interest;
pub mod name;
pub mod nature;
pub mod notification_index;
pub mod ovn;
pub mod salt;
pub mod serial;
pub mod subscription;
pub mod text;
pub mod uss_id;
pub mod version;
mod visible;
