//! The stateless rules: those that depend only on the call.
ghost use Rattle.std.specs.Prelude.{◌≡◌, ℕ, find};
ghost use Rattle.entity_core.specs.Airspace.{Airspace};
ghost use Rattle.policy_core.specs.Scope.{is_permitted, permitting_scopes};
ghost use Rattle.policy_core.specs.Call.{covered_of, kind_of};
ghost use Rattle.policy_core.specs.Policy.{breaks, breaks_route, breaks_method, breaks_token, breaks_scope, breaks_form, breaks_area, early_rules};

use crate::call::{Call, OpKind, Operation};
use crate::rule::Rule;
use crate::scope::{Caller, Scope, ScopeSet};
use entity_core::nature::Kind;

/// The maximum number of level-13 cells that the areas of a call may count for (this project's
/// profile).
pub const MAX_COVERED_CELLS: u64 = 16_384;

// P1 ROUTE
fn breaks_route(op: &Operation) -> bool
    ensures { result ≡ breaks_route op.now }
{
    matches!(op, Operation::NoRoute)
}

// P2 METHOD
fn breaks_method(op: &Operation) -> bool
    ensures { result ≡ breaks_method op.now }
{
    matches!(op, Operation::NoMethod)
}

// P3 TOKEN
fn breaks_token(caller: &Option<Caller>) -> bool
    ensures { result ≡ breaks_token caller.now }
{
    caller.is_none()
}

// P4 SCOPE
fn breaks_scope(caller: &Option<Caller>, kind: Option<OpKind>) -> bool
    ensures { result ≡ breaks_scope caller.now kind }
{
    match (caller, kind) {
        (Some(caller), Some(kind)) => !is_permitted(kind, caller.scopes),
        _ => false,
    }
}

fn kind_of(op: &Operation) -> Option<OpKind>
    ensures { result ≡ kind_of op.now }
{
    match op {
        Operation::NoRoute => None,
        Operation::NoMethod => None,
        Operation::Malformed(kind) => Some(*kind),
        Operation::Query(kind, _) => Some(OpKind::Query(*kind)),
        Operation::Read(kind, _) => Some(OpKind::Read(*kind)),
        Operation::Create(_, put) => Some(OpKind::Create(put.nature.kind())),
        Operation::Update(_, _, put) => Some(OpKind::Update(put.nature.kind())),
        Operation::Delete(kind, _, _) => Some(OpKind::Delete(*kind)),
        Operation::ReadAvail(_) => Some(OpKind::ReadAvail),
        Operation::SetAvail(_, _, _) => Some(OpKind::SetAvail),
        Operation::QuerySub(_) => Some(OpKind::QuerySub),
        Operation::ReadSub(_) => Some(OpKind::ReadSub),
        Operation::CreateSub(_, _) => Some(OpKind::CreateSub),
        Operation::UpdateSub(_, _, _) => Some(OpKind::UpdateSub),
        Operation::DeleteSub(_, _) => Some(OpKind::DeleteSub),
    }
}

// Returns the scopes that permit an operation. One of them is enough.
fn permitting_scopes(kind: OpKind) -> &'static [Scope]
    ensures { result.now ≡ permitting_scopes kind }
{
    match kind {
        OpKind::Query(Kind::Intent)
        | OpKind::Read(Kind::Intent)
        | OpKind::Create(Kind::Intent)
        | OpKind::Update(Kind::Intent)
        | OpKind::Delete(Kind::Intent) => {
            &[Scope::StrategicCoordination, Scope::ConformanceMonitoring]
        }
        OpKind::Query(Kind::Constraint) | OpKind::Read(Kind::Constraint) => {
            &[Scope::ConstraintProcessing, Scope::ConstraintManagement]
        }
        OpKind::Create(Kind::Constraint)
        | OpKind::Update(Kind::Constraint)
        | OpKind::Delete(Kind::Constraint) => &[Scope::ConstraintManagement],
        OpKind::ReadAvail => &[
            Scope::AvailabilityArbitration,
            Scope::StrategicCoordination,
            Scope::ConformanceMonitoring,
        ],
        OpKind::SetAvail => &[Scope::AvailabilityArbitration],
        OpKind::QuerySub
        | OpKind::ReadSub
        | OpKind::CreateSub
        | OpKind::UpdateSub
        | OpKind::DeleteSub => &[Scope::StrategicCoordination, Scope::ConstraintProcessing],
    }
}

fn is_permitted(kind: OpKind, scopes: ScopeSet) -> bool
    ensures { result ≡ is_permitted kind scopes }
{
    permitting_scopes(kind)
        .iter()
        .any(|scope| scopes.has(*scope))
}

// P5 FORM
fn breaks_form(op: &Operation) -> bool
    ensures { result ≡ breaks_form op.now }
{
    matches!(op, Operation::Malformed(_))
}

// P6 AREA
fn breaks_area(op: &Operation) -> bool
    ensures { result ≡ breaks_area op.now }
{
    covered_of(op) > MAX_COVERED_CELLS
}

fn covered_of(op: &Operation) -> u64
    ensures { result ≡ covered_of op.now }
{
    match op {
        Operation::Query(_, area) => area.covered(),
        Operation::Create(_, put) => put.volumes.covered(),
        Operation::Update(_, _, put) => put.volumes.covered(),
        Operation::QuerySub(area) => area.covered(),
        Operation::CreateSub(_, put) => put.volume.covered(),
        Operation::UpdateSub(_, _, put) => put.volume.covered(),
        _ => 0,
    }
}

/// Returns the first broken rule of P1 to P6, if any.
///
/// These rules depend neither on the airspace nor on the time. Allocates nothing.
pub fn early(call: &Call) -> Option<Rule>
    ensures { (a : Airspace) (now : ℕ) → result ≡ find (breaks a now call.now) early_rules }
{
    if breaks_route(&call.op) {
        return Some(Rule::Route);
    }
    if breaks_method(&call.op) {
        return Some(Rule::Method);
    }
    if breaks_token(&call.caller) {
        return Some(Rule::Token);
    }
    if breaks_scope(&call.caller, kind_of(&call.op)) {
        return Some(Rule::Scope);
    }
    if breaks_form(&call.op) {
        return Some(Rule::Form);
    }
    if breaks_area(&call.op) {
        return Some(Rule::Area);
    }
    None
}
