//! The words for operations.
ghost use Rattle.std.specs.Prelude.{◌≡◌};
ghost use Rattle.admin_http.specs.Operation.{of_entities, operation_word};

use entity_core::nature::Kind;
use policy_core::call::OpKind;

/// Every operation, and then `None` for a request without one.
pub(crate) const OPERATIONS: [Option<OpKind>; 18] = [
    Some(OpKind::Query(Kind::Intent)),
    Some(OpKind::Read(Kind::Intent)),
    Some(OpKind::Create(Kind::Intent)),
    Some(OpKind::Update(Kind::Intent)),
    Some(OpKind::Delete(Kind::Intent)),
    Some(OpKind::Query(Kind::Constraint)),
    Some(OpKind::Read(Kind::Constraint)),
    Some(OpKind::Create(Kind::Constraint)),
    Some(OpKind::Update(Kind::Constraint)),
    Some(OpKind::Delete(Kind::Constraint)),
    Some(OpKind::ReadAvail),
    Some(OpKind::SetAvail),
    Some(OpKind::QuerySub),
    Some(OpKind::ReadSub),
    Some(OpKind::CreateSub),
    Some(OpKind::UpdateSub),
    Some(OpKind::DeleteSub),
    None,
];

// Returns the word for an operation on one or many entities of a kind.
fn of_entities(kind: Kind, of_intents: &'static str, of_constraints: &'static str) -> &'static str
    ensures { result.now ≡ of_entities kind of_intents.now of_constraints.now }
{
    match kind {
        Kind::Intent => of_intents,
        Kind::Constraint => of_constraints,
    }
}

/// Returns the word for the requested operation, or `none` if there is none.
pub fn operation_name(operation: Option<OpKind>) -> &'static str
    ensures { result.now ≡ operation_word operation }
{
    let Some(operation) = operation else {
        return "none";
    };
    match operation {
        OpKind::Query(kind) => of_entities(kind, "query_intents", "query_constraints"),
        OpKind::Read(kind) => of_entities(kind, "read_intent", "read_constraint"),
        OpKind::Create(kind) => of_entities(kind, "create_intent", "create_constraint"),
        OpKind::Update(kind) => of_entities(kind, "update_intent", "update_constraint"),
        OpKind::Delete(kind) => of_entities(kind, "delete_intent", "delete_constraint"),
        OpKind::ReadAvail => "read_availability",
        OpKind::SetAvail => "set_availability",
        OpKind::QuerySub => "query_subscriptions",
        OpKind::ReadSub => "read_subscription",
        OpKind::CreateSub => "create_subscription",
        OpKind::UpdateSub => "update_subscription",
        OpKind::DeleteSub => "delete_subscription",
    }
}
