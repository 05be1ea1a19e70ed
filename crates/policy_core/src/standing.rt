//! The stateful rules: those that depend on the airspace.
ghost use Rattle.std.specs.Prelude.{◌≡◌, find};
ghost use Rattle.entity_core.specs.IdTexts.{same_text};
ghost use Rattle.entity_core.specs.Airspace.{Airspace};
ghost use Rattle.policy_core.specs.Policy.{availability_version, breaks, breaks_given, breaks_found, breaks_fresh, breaks_manager, breaks_version, breaks_role, breaks_change, breaks_ended, breaks_limit, breaks_subscription, breaks_depended, has_another_ovn, has_another_version, has_last_version, is_barred_for, is_barred_from, is_of_another, is_sub_of_another, lacks_interest, lacks_role, may_become, may_turn, references_wrongly, next_states, standing_rules};
ghost use Rattle.policy_core.specs.Standing.{Regards, lent_entity, lent_facts, lent_stated, lent_sub};

use crate::call::{Call, Operation};
use crate::rule::Rule;
use crate::scope::{Caller, Scope, ScopeSet};
use entity_core::availability::Availability;
use entity_core::entity::Entity;
use entity_core::entity_id::EntityId;
use entity_core::interest::Interest;
use entity_core::nature::{Kind, Nature, State};
use entity_core::ovn::Ovn;
use entity_core::serial::MAX_SERIAL;
use entity_core::subscription::Sub;
use entity_core::text::Text;
use entity_core::version::MAX_VERSION;

/// The facts that were looked up for a call, borrowed.
#[derive(Clone, Copy, Debug)]
pub struct FactsRef<'a> {
    /// The stored entity with the kind and id that the call names.
    pub found: Option<&'a Entity>,
    /// The stored availability of the USS whose availability is read or set.
    pub stated: Option<(Availability, &'a Ovn)>,
    /// The number of changes so far.
    pub serial: u64,
    /// The subscription that the call is about or that its put references.
    pub sub: Option<&'a Sub>,
    /// Whether some intent references the subscription to delete.
    pub depended: bool,
}

/// The result of checking the stateful rules.
#[derive(Clone, Copy, Debug, PartialEq, Eq)]
pub struct Findings {
    /// The first broken rule of P7 to P13, P16 and P17, in this order.
    pub first: Option<Rule>,
    /// Whether P15 is broken.
    pub limit: bool,
}

// P7 FOUND
fn breaks_found(op: &Operation, found: Option<&Entity>, sub: Option<&Sub>) -> bool
    ensures { result ≡ breaks_found op.now (lent_entity found.entry) (lent_sub sub.entry) }
{
    match op {
        Operation::Read(_, _) | Operation::Update(_, _, _) | Operation::Delete(_, _, _) => {
            found.is_none()
        }
        Operation::ReadSub(_) | Operation::UpdateSub(_, _, _) | Operation::DeleteSub(_, _) => {
            sub.is_none()
        }
        _ => false,
    }
}

// P8 FRESH
fn breaks_fresh(op: &Operation, found: Option<&Entity>, sub: Option<&Sub>) -> bool
    ensures { result ≡ breaks_fresh op.now (lent_entity found.entry) (lent_sub sub.entry) }
{
    match op {
        Operation::Create(_, _) => found.is_some(),
        Operation::CreateSub(_, _) => sub.is_some(),
        _ => false,
    }
}

// P9 MANAGER
fn breaks_manager(call: &Call, found: Option<&Entity>, sub: Option<&Sub>) -> bool
    ensures { result ≡ breaks_manager call.now.caller call.now.op (lent_entity found.entry)
        (lent_sub sub.entry) }
{
    match &call.op {
        Operation::Update(_, _, _) | Operation::Delete(_, _, _) => {
            is_of_another(&call.caller, found)
        }
        Operation::ReadSub(_) | Operation::UpdateSub(_, _, _) | Operation::DeleteSub(_, _) => {
            is_sub_of_another(&call.caller, sub)
        }
        _ => false,
    }
}

fn is_sub_of_another(caller: &Option<Caller>, sub: Option<&Sub>) -> bool
    ensures { result ≡ is_sub_of_another caller.now (lent_sub sub.entry) }
{
    match (caller, sub) {
        (Some(caller), Some(sub)) => sub.manager.text() != caller.uss.text(),
        _ => false,
    }
}

fn is_of_another(caller: &Option<Caller>, found: Option<&Entity>) -> bool
    ensures { result ≡ is_of_another caller.now (lent_entity found.entry) }
{
    match (caller, found) {
        (Some(caller), Some(entity)) => entity.manager.text() != caller.uss.text(),
        _ => false,
    }
}

// P10 VERSION
fn breaks_version(
    op: &Operation,
    found: Option<&Entity>,
    stated: Option<(Availability, &Ovn)>,
    sub: Option<&Sub>,
) -> bool
    ensures { result ≡ breaks_version op.now (lent_entity found.entry) (lent_stated stated.entry)
        (lent_sub sub.entry) }
{
    match op {
        Operation::Update(_, ovn, _) | Operation::Delete(_, _, ovn) => has_another_ovn(found, ovn),
        Operation::SetAvail(_, old, _) => !is_present(stated, old),
        Operation::UpdateSub(_, version, _) | Operation::DeleteSub(_, version) => {
            has_another_version(sub, version)
        }
        _ => false,
    }
}

fn has_another_version(sub: Option<&Sub>, version: &Ovn) -> bool
    ensures { result ≡ has_another_version (lent_sub sub.entry) version.now }
{
    match sub {
        Some(sub) => version.text() != sub.version.text(),
        None => false,
    }
}

fn has_another_ovn(found: Option<&Entity>, ovn: &Ovn) -> bool
    ensures { result ≡ has_another_ovn (lent_entity found.entry) ovn.now }
{
    match found {
        Some(entity) => ovn.text() != entity.ovn.text(),
        None => false,
    }
}

fn is_present(stated: Option<(Availability, &Ovn)>, old: &Text) -> bool
    ensures { result ≡ same_text old.now (availability_version (lent_stated stated.entry)) }
{
    match stated {
        Some((_, version)) => old.text() == version.text(),
        None => old.text() == "",
    }
}

// P11 ROLE
fn breaks_role(call: &Call) -> bool
    ensures { result ≡ breaks_role call.now.caller call.now.op }
{
    match &call.op {
        Operation::Create(_, put) | Operation::Update(_, _, put) => {
            is_barred_from(&call.caller, put.nature)
        }
        Operation::CreateSub(_, put) | Operation::UpdateSub(_, _, put) => {
            is_barred_for(&call.caller, put.interest)
        }
        _ => false,
    }
}

fn lacks_interest(scopes: ScopeSet, interest: Interest) -> bool
    ensures { result ≡ lacks_interest scopes interest }
{
    (interest.wants(Kind::Intent) && !scopes.has(Scope::StrategicCoordination))
        || (interest.wants(Kind::Constraint) && !scopes.has(Scope::ConstraintProcessing))
}

fn is_barred_for(caller: &Option<Caller>, interest: Interest) -> bool
    ensures { result ≡ is_barred_for caller.now interest }
{
    match caller {
        Some(caller) => lacks_interest(caller.scopes, interest),
        None => false,
    }
}

fn lacks_role(scopes: ScopeSet, nature: Nature) -> bool
    ensures { result ≡ lacks_role scopes nature }
{
    match nature {
        Nature::Intent(State::Accepted | State::Activated, _) => {
            !scopes.has(Scope::StrategicCoordination)
        }
        Nature::Intent(State::Nonconforming | State::Contingent, _) => {
            !scopes.has(Scope::ConformanceMonitoring)
        }
        Nature::Constraint => false,
    }
}

fn is_barred_from(caller: &Option<Caller>, nature: Nature) -> bool
    ensures { result ≡ is_barred_from caller.now nature }
{
    match caller {
        Some(caller) => lacks_role(caller.scopes, nature),
        None => false,
    }
}

// P12 CHANGE
fn breaks_change(op: &Operation, found: Option<&Entity>) -> bool
    ensures { result ≡ breaks_change op.now (lent_entity found.entry) }
{
    match (op, found) {
        (Operation::Update(_, _, put), Some(entity)) => !may_turn(entity.nature, put.nature),
        _ => false,
    }
}

// Returns the states that may follow a state.
fn next_states(state: State) -> &'static [State]
    ensures { result.now ≡ next_states state }
{
    match state {
        State::Accepted => &[
            State::Accepted,
            State::Activated,
            State::Nonconforming,
            State::Contingent,
        ],
        State::Activated => &[State::Activated, State::Nonconforming, State::Contingent],
        State::Nonconforming => &[State::Nonconforming, State::Activated, State::Contingent],
        State::Contingent => &[State::Contingent],
    }
}

fn may_become(state: State, next: State) -> bool
    ensures { result ≡ may_become state next }
{
    next_states(state).contains(&next)
}

fn may_turn(nature: Nature, next: Nature) -> bool
    ensures { result ≡ may_turn nature next }
{
    match (nature, next) {
        (Nature::Intent(state, _), Nature::Intent(next, _)) => may_become(state, next),
        _ => true,
    }
}

// P13 ENDED
fn breaks_ended(now: u64, op: &Operation) -> bool
    ensures { result ≡ breaks_ended now op.now }
{
    match op {
        Operation::Create(_, put) | Operation::Update(_, _, put) => put.volumes.times().1 <= now,
        Operation::CreateSub(_, put) | Operation::UpdateSub(_, _, put) => {
            put.volume.time().1 <= now
        }
        _ => false,
    }
}

// P16 SUBSCRIPTION
fn breaks_subscription(call: &Call, sub: Option<&Sub>) -> bool
    ensures { result ≡ breaks_subscription call.now.caller call.now.op (lent_sub sub.entry) }
{
    match &call.op {
        Operation::Create(_, put) | Operation::Update(_, _, put) => {
            references_wrongly(&call.caller, put.nature.subscription(), sub)
        }
        _ => false,
    }
}

fn references_wrongly(caller: &Option<Caller>, named: Option<EntityId>, sub: Option<&Sub>) -> bool
    ensures { result ≡ references_wrongly caller.now named (lent_sub sub.entry) }
{
    match caller {
        Some(_) => named.is_some() && (sub.is_none() || is_sub_of_another(caller, sub)),
        None => false,
    }
}

// P17 DEPENDED
fn breaks_depended(op: &Operation, depended: bool) -> bool
    ensures { result ≡ breaks_depended op.now depended }
{
    match op {
        Operation::DeleteSub(_, _) => depended,
        _ => false,
    }
}

// P15 LIMIT
fn breaks_limit(op: &Operation, found: Option<&Entity>, serial: u64) -> bool
    ensures { result ≡ breaks_limit op.now (lent_entity found.entry) serial }
{
    match op {
        Operation::Update(_, _, _) => serial >= MAX_SERIAL || has_last_version(found),
        Operation::Create(_, _)
        | Operation::Delete(_, _, _)
        | Operation::SetAvail(_, _, _)
        | Operation::CreateSub(_, _)
        | Operation::UpdateSub(_, _, _)
        | Operation::DeleteSub(_, _) => serial >= MAX_SERIAL,
        _ => false,
    }
}

fn has_last_version(found: Option<&Entity>) -> bool
    ensures { result ≡ has_last_version (lent_entity found.entry) }
{
    match found {
        Some(entity) => entity.version.number() >= MAX_VERSION,
        None => false,
    }
}

// Returns the first broken rule of P7 to P13, P16 and P17.
fn first_standing(now: u64, call: &Call, facts: &FactsRef<'_>) -> Option<Rule>
    ensures { result ≡ find (breaks_given (lent_facts facts.now) now call.now) standing_rules }
{
    if breaks_found(&call.op, facts.found, facts.sub) {
        return Some(Rule::Found);
    }
    if breaks_fresh(&call.op, facts.found, facts.sub) {
        return Some(Rule::Fresh);
    }
    if breaks_manager(call, facts.found, facts.sub) {
        return Some(Rule::Manager);
    }
    if breaks_version(&call.op, facts.found, facts.stated, facts.sub) {
        return Some(Rule::Version);
    }
    if breaks_role(call) {
        return Some(Rule::Role);
    }
    if breaks_change(&call.op, facts.found) {
        return Some(Rule::Change);
    }
    if breaks_ended(now, &call.op) {
        return Some(Rule::Ended);
    }
    if breaks_subscription(call, facts.sub) {
        return Some(Rule::Subscription);
    }
    if breaks_depended(&call.op, facts.depended) {
        return Some(Rule::Depended);
    }
    None
}

/// Returns the stateful rules that a call at a time breaks, given the facts that were looked up for
/// it.
///
/// The time is in Unix seconds. Allocates nothing.
pub fn standing(now: u64, call: &Call, facts: &FactsRef<'_>) -> Findings
    ensures first { result.first
        ≡ find (breaks_given (lent_facts facts.now) now call.now) standing_rules }
    ensures limit { result.limit
        ≡ breaks_given (lent_facts facts.now) now call.now Rule.Limit }
    ensures first_in { (a : Airspace) → Regards a call.now.op (lent_facts facts.now)
        → result.first ≡ find (breaks a now call.now) standing_rules }
    ensures limit_in { (a : Airspace) → Regards a call.now.op (lent_facts facts.now)
        → result.limit ≡ breaks a now call.now Rule.Limit }
{
    let first = first_standing(now, call, facts);
    let limit = breaks_limit(&call.op, facts.found, facts.serial);
    Findings { first, limit }
}
