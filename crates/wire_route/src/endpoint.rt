//! The endpoints of the service.
ghost use Rattle.std.specs.Prelude.{◌≡◌, ◌∷◌, [], codes};
ghost use Rattle.wire_route.specs.Endpoint.{front_of, route_of, kind_among, kind_at, allow_of};

use entity_core::nature::Kind;
use policy_core::call::OpKind;

/// An endpoint of the service.
#[derive(Clone, Copy, Debug, PartialEq, Eq)]
pub enum Endpoint {
    /// The query for entities of a kind.
    Query(Kind),
    /// An entity of a kind.
    Entity(Kind),
    /// An entity of a kind, with an OVN in the path.
    EntityAtOvn(Kind),
    /// The availability of a USS.
    Availability,
    /// The query for subscriptions.
    SubscriptionQuery,
    /// A subscription.
    Subscription,
    /// A subscription, with a version in the path.
    SubscriptionAtVersion,
}

impl Endpoint {
    /// Returns the prefix of the paths of the endpoint.
    pub(crate) fn path_prefix(self) -> &'static str
        ensures { result.now ≡ front_of self }
    {
        match self {
            Endpoint::Query(Kind::Intent) => "/dss/v1/operational_intent_references/",
            Endpoint::Query(Kind::Constraint) => "/dss/v1/constraint_references/",
            Endpoint::Entity(Kind::Intent) => "/dss/v1/operational_intent_references/",
            Endpoint::Entity(Kind::Constraint) => "/dss/v1/constraint_references/",
            Endpoint::EntityAtOvn(Kind::Intent) => "/dss/v1/operational_intent_references/",
            Endpoint::EntityAtOvn(Kind::Constraint) => "/dss/v1/constraint_references/",
            Endpoint::Availability => "/dss/v1/uss_availability/",
            Endpoint::SubscriptionQuery => "/dss/v1/subscriptions/",
            Endpoint::Subscription => "/dss/v1/subscriptions/",
            Endpoint::SubscriptionAtVersion => "/dss/v1/subscriptions/",
        }
    }

    /// Returns the route of the endpoint, with its parameters in braces.
    pub(crate) fn route_pattern(self) -> &'static str
        ensures { result.now ≡ route_of self }
    {
        match self {
            Endpoint::Query(Kind::Intent) => "/dss/v1/operational_intent_references/query",
            Endpoint::Query(Kind::Constraint) => "/dss/v1/constraint_references/query",
            Endpoint::Entity(Kind::Intent) => "/dss/v1/operational_intent_references/{entityid}",
            Endpoint::Entity(Kind::Constraint) => "/dss/v1/constraint_references/{entityid}",
            Endpoint::EntityAtOvn(Kind::Intent) => {
                "/dss/v1/operational_intent_references/{entityid}/{ovn}"
            }
            Endpoint::EntityAtOvn(Kind::Constraint) => {
                "/dss/v1/constraint_references/{entityid}/{ovn}"
            }
            Endpoint::Availability => "/dss/v1/uss_availability/{uss_id}",
            Endpoint::SubscriptionQuery => "/dss/v1/subscriptions/query",
            Endpoint::Subscription => "/dss/v1/subscriptions/{subscriptionid}",
            Endpoint::SubscriptionAtVersion => "/dss/v1/subscriptions/{subscriptionid}/{version}",
        }
    }

    /// Returns the kind of operation of a method at the endpoint.
    ///
    /// Returns `None` if the endpoint does not allow the method. Methods are compared with case
    /// (RFC 9110, section 9.1).
    pub fn kind(self, method: &[u8]) -> Option<OpKind>
        ensures { result ≡ kind_at self method.now }
    {
        match self {
            Endpoint::Query(kind) => by_post(method, OpKind::Query(kind)),
            Endpoint::Entity(kind) => by_get_or_put(
                method,
                OpKind::Read(kind),
                OpKind::Create(kind),
            ),
            Endpoint::EntityAtOvn(kind) => {
                by_put_or_delete(method, OpKind::Update(kind), OpKind::Delete(kind))
            }
            Endpoint::Availability => by_get_or_put(method, OpKind::ReadAvail, OpKind::SetAvail),
            Endpoint::SubscriptionQuery => by_post(method, OpKind::QuerySub),
            Endpoint::Subscription => by_get_or_put(method, OpKind::ReadSub, OpKind::CreateSub),
            Endpoint::SubscriptionAtVersion => {
                by_put_or_delete(method, OpKind::UpdateSub, OpKind::DeleteSub)
            }
        }
    }

    /// Returns the methods that the endpoint allows, separated by commas: the value of the field
    /// Allow (RFC 9110, section 10.2.1).
    pub fn allow(self) -> &'static str
        ensures { result.now ≡ allow_of self }
    {
        match self {
            Endpoint::Query(_) => "POST",
            Endpoint::Entity(_) => "GET, PUT",
            Endpoint::EntityAtOvn(_) => "PUT, DELETE",
            Endpoint::Availability => "GET, PUT",
            Endpoint::SubscriptionQuery => "POST",
            Endpoint::Subscription => "GET, PUT",
            Endpoint::SubscriptionAtVersion => "PUT, DELETE",
        }
    }
}

// Returns the kind of operation at an endpoint that only allows POST.
fn by_post(method: &[u8], post: OpKind) -> Option<OpKind>
    ensures { result ≡ kind_among ((codes "POST", post) ∷ []) method.now }
{
    if method == b"POST".as_slice() {
        Some(post)
    } else {
        None
    }
}

// Returns the kind of operation at an endpoint that allows GET and PUT.
fn by_get_or_put(method: &[u8], get: OpKind, put: OpKind) -> Option<OpKind>
    ensures { result ≡ kind_among ((codes "GET", get) ∷ (codes "PUT", put) ∷ []) method.now }
{
    if method == b"GET".as_slice() {
        Some(get)
    } else if method == b"PUT".as_slice() {
        Some(put)
    } else {
        None
    }
}

// Returns the kind of operation at an endpoint that allows PUT and DELETE.
fn by_put_or_delete(method: &[u8], put: OpKind, delete: OpKind) -> Option<OpKind>
    ensures { result ≡ kind_among ((codes "PUT", put) ∷ (codes "DELETE", delete) ∷ []) method.now }
{
    if method == b"PUT".as_slice() {
        Some(put)
    } else if method == b"DELETE".as_slice() {
        Some(delete)
    } else {
        None
    }
}
