//! The kinds of operations.
use entity_core::nature::Kind;
use policy_core::call::{OpKind, Operation};

/// Returns true if operations of the kind have a body.
pub(crate) fn has_body(kind: OpKind) -> bool {
    match kind {
        OpKind::Read(_)
        | OpKind::Delete(_)
        | OpKind::ReadAvail
        | OpKind::ReadSub
        | OpKind::DeleteSub => false,
        OpKind::Query(_)
        | OpKind::Create(_)
        | OpKind::Update(_)
        | OpKind::SetAvail
        | OpKind::QuerySub
        | OpKind::CreateSub
        | OpKind::UpdateSub => true,
    }
}

/// Returns the member with the cells of an operation, and the number of level-13 cells that they
/// cover, each cell counted.
pub(crate) fn covered_of(op: &Operation) -> Option<(&'static str, u64)> {
    match op {
        Operation::Query(_, area) => Some(("area_of_interest", area.covered())),
        Operation::QuerySub(area) => Some(("area_of_interest", area.covered())),
        Operation::Create(_, put) | Operation::Update(_, _, put) => {
            Some(("extents", put.volumes.covered()))
        }
        Operation::CreateSub(_, put) | Operation::UpdateSub(_, _, put) => {
            Some(("extents", put.volume.covered()))
        }
        _ => None,
    }
}

/// Returns the time by which everything that an operation puts has ended, if it puts anything.
pub(crate) fn end_of(op: &Operation) -> Option<u64> {
    match op {
        Operation::Create(_, put) | Operation::Update(_, _, put) => Some(put.volumes.times().1),
        Operation::CreateSub(_, put) | Operation::UpdateSub(_, _, put) => {
            Some(put.volume.time().1)
        }
        _ => None,
    }
}

/// Returns the name of a kind of operation, with its article.
pub fn name_of(kind: OpKind) -> &'static str {
    match kind {
        OpKind::Query(Kind::Intent) => "a query for intents",
        OpKind::Query(Kind::Constraint) => "a query for constraints",
        OpKind::Read(Kind::Intent) => "a read of an intent",
        OpKind::Read(Kind::Constraint) => "a read of a constraint",
        OpKind::Create(Kind::Intent) => "a creation of an intent",
        OpKind::Create(Kind::Constraint) => "a creation of a constraint",
        OpKind::Update(Kind::Intent) => "an update of an intent",
        OpKind::Update(Kind::Constraint) => "an update of a constraint",
        OpKind::Delete(Kind::Intent) => "a deletion of an intent",
        OpKind::Delete(Kind::Constraint) => "a deletion of a constraint",
        OpKind::ReadAvail => "a read of an availability",
        OpKind::SetAvail => "a setting of an availability",
        OpKind::QuerySub => "a query for subscriptions",
        OpKind::ReadSub => "a read of a subscription",
        OpKind::CreateSub => "a creation of a subscription",
        OpKind::UpdateSub => "an update of a subscription",
        OpKind::DeleteSub => "a deletion of a subscription",
    }
}
