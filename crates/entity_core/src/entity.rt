//! Entities: operational intents and constraints.
ghost use Rattle.std.specs.Prelude.{◌≡◌, IfOk};
ghost use Rattle.grid_core.specs.Volumes.{IsSpan, span_of};
ghost use Rattle.entity_core.specs.Airspace.{key_cmp, key_of};

use crate::base_url::BaseUrl;
use crate::entity_id::EntityId;
use crate::nature::{Kind, Nature};
use crate::ovn::Ovn;
use crate::serial::Serial;
use crate::uss_id::UssId;
use crate::version::Version;
use grid_core::volumes::Volumes;
use std::alloc::{AllocError, Global};
use std::cmp::Ordering;

/// A stored operational intent or constraint.
#[derive(Debug, Drop)]
pub struct Entity {
    pub nature: Nature,
    pub id: EntityId,
    /// The USS that created it. Only this USS may change it.
    pub manager: UssId,
    /// The number of times that it was put.
    pub version: Version,
    /// The serial of its last put.
    pub serial: Serial,
    /// The OVN of that serial.
    pub ovn: Ovn,
    pub volumes: Volumes,
    pub url: BaseUrl,
}

/// Compares two keys of entities: by kind, then by id.
pub fn key_order(kind: Kind, id: EntityId, other_kind: Kind, other_id: EntityId) -> Ordering
    ensures { result ≡ key_cmp (kind, id) (other_kind, other_id) }
{
    match kind.index().cmp(&other_kind.index()) {
        Ordering::Less => Ordering::Less,
        Ordering::Equal => id.number().cmp(&other_id.number()),
        Ordering::Greater => Ordering::Greater,
    }
}

impl Entity {
    /// Compares its kind and id with another kind and id.
    pub fn order(&self, kind: Kind, id: EntityId) -> Ordering
        ensures { result ≡ key_cmp (key_of self.now) (kind, id) }
    {
        key_order(self.nature.kind(), self.id, kind, id)
    }

    /// Returns the earliest start and the latest end of its volumes, in Unix seconds.
    pub fn times(&self) -> (u64, u64)
        ensures value { result ≡ span_of self.now.volumes }
        ensures relation { IsSpan self.now.volumes result }
    {
        self.volumes.times()
    }

    /// Returns a copy of the entity.
    ///
    /// Returns `AllocError` if memory runs out.
    pub fn clone(&self, alloc: Global) -> Result<Entity, AllocError>
        ensures { IfOk result (λ entity. entity ≡ self.now) }
    {
        Ok(Entity {
            nature: self.nature,
            id: self.id,
            manager: self.manager.clone()?,
            version: self.version,
            serial: self.serial,
            ovn: self.ovn.clone()?,
            volumes: self.volumes.clone()?,
            url: self.url.clone()?,
        })
    }
}
