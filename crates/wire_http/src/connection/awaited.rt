//! Requests that wait for their reply.
use crate::texts::Texts;
use entity_core::entity_id::EntityId;
use entity_core::uss_id::UssId;
use policy_core::call::OpKind;
use wire_route::endpoint::Endpoint;

/// A request that left the buffer and waits for its reply: its endpoint, whether the connection closes
/// after its response, the texts of its response, and what is recorded of it but its outcome.
#[derive(Drop)]
pub(crate) struct Awaited {
    pub(crate) endpoint: Option<Endpoint>,
    pub(crate) closing: bool,
    pub(crate) texts: Texts,
    pub(crate) operation: Option<OpKind>,
    pub(crate) supplier: Option<UssId>,
    pub(crate) entity: Option<EntityId>,
}
