//! Calls: operations and their callers.
use crate::key::Key;
use crate::scope::Caller;
use entity_core::availability::Availability;
use entity_core::base_url::BaseUrl;
use entity_core::entity_id::EntityId;
use entity_core::interest::Interest;
use entity_core::nature::{Kind, Nature};
use entity_core::ovn::Ovn;
use entity_core::text::Text;
use entity_core::uss_id::UssId;
use grid_core::volume::{Area, Volume};
use grid_core::volumes::Volumes;

/// A kind of operation. Scopes permit kinds of operations.
#[derive(Clone, Copy, Debug, PartialEq, Eq)]
pub enum OpKind {
    /// A query of an area for entities of a kind.
    Query(Kind),
    /// A read of an entity of a kind.
    Read(Kind),
    /// The creation of an entity of a kind.
    Create(Kind),
    /// The update of an entity of a kind.
    Update(Kind),
    /// The deletion of an entity of a kind.
    Delete(Kind),
    /// A read of a USS's availability.
    ReadAvail,
    /// The setting of a USS's availability.
    SetAvail,
    /// A query of an area for the caller's subscriptions.
    QuerySub,
    /// A read of a subscription.
    ReadSub,
    /// The creation of a subscription.
    CreateSub,
    /// The update of a subscription.
    UpdateSub,
    /// The deletion of a subscription.
    DeleteSub,
}

/// The content of an entity that a USS puts.
#[derive(Debug, Drop)]
pub struct Put {
    /// Its kind. For an intent, also its state and the subscription that it references.
    pub nature: Nature,
    pub volumes: Volumes,
    /// The OVNs of the entities that the USS knows.
    pub key: Key,
    pub url: BaseUrl,
}

/// The content of a subscription that a USS puts.
#[derive(Debug, Drop)]
pub struct SubPut {
    pub volume: Volume,
    pub url: BaseUrl,
    pub interest: Interest,
}

/// The operation of a call.
#[derive(Debug, Drop)]
pub enum Operation {
    /// No route has the path.
    NoRoute,
    /// The route does not allow the method.
    NoMethod,
    /// A path parameter or the body has a wrong form for this kind.
    Malformed(OpKind),
    /// Find the entities of the kind that meet the area.
    Query(Kind, Area),
    /// Read the entity with this kind and id.
    Read(Kind, EntityId),
    /// Create this entity with the id.
    Create(EntityId, Put),
    /// Update the entity with this id and OVN.
    Update(EntityId, Ovn, Put),
    /// Delete the entity with this kind, id and OVN.
    Delete(Kind, EntityId, Ovn),
    /// Read the availability of the USS.
    ReadAvail(UssId),
    /// Set the availability of the USS. The text is its current availability version.
    SetAvail(UssId, Text, Availability),
    /// Find the caller's subscriptions that meet the area.
    QuerySub(Area),
    /// Read the subscription with this id.
    ReadSub(EntityId),
    /// Create this subscription with the id.
    CreateSub(EntityId, SubPut),
    /// Update the subscription with this id and version.
    UpdateSub(EntityId, Ovn, SubPut),
    /// Delete the subscription with this id and version.
    DeleteSub(EntityId, Ovn),
}

/// An operation and its caller, if a token identifies one.
#[derive(Debug, Drop)]
pub struct Call {
    pub caller: Option<Caller>,
    pub op: Operation,
}
