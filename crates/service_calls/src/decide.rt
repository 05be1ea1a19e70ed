//! The decision to deny or to allow a call.
ghost use Rattle.std.specs.Prelude.{◌≡◌, map, not, Ok, Err, None, IfOk, IsErrOf, true};
ghost use Rattle.entity_core.specs.Airspace.{Airspace};
ghost use Rattle.grid_core.specs.Extent.{region_of};
ghost use Rattle.policy_core.specs.Missing.{is_nothing};
ghost use Rattle.service_step.specs.Admitted.{IsAdmitted};
ghost use Rattle.service_step.specs.Looks.{LooksUp, IsReady};
ghost use Rattle.service_calls.specs.Decision.{BreaksNoStanding, BreaksNoStandingBy, Decides};
ghost use Rattle.service_calls.specs.Decision.{IsFirstBy, IsMissingFor, IsReadyIfAllowed};
ghost use Rattle.service_calls.specs.Decision.{decision_of, missing_by, missing_kind_by};

use entity_core::nature::Kind;
use entity_core::subscription::Sub;
use grid_core::volume::Area;
use policy_core::call::Operation;
use policy_core::missing::needs_key;
use policy_core::reference::{Missing, References};
use policy_core::rule::Rule;
use policy_core::standing::standing;
use service_step::admitted::Admitted;
use service_step::call_fault::CallFault;
use service_step::look_up::{OwnedFacts, look_up};
use service_step::needed::{EvaluatedPut, missing_from, needed_with};
use space_core::space::{Space, SpaceFault};
use std::alloc::Global;

/// The decision about a call.
#[derive(Debug, Drop)]
pub enum Decision {
    /// The call breaks this rule first; these references are missing.
    Refused(Rule, Missing),
    /// The call breaks no rule; these facts were looked up for it.
    Allowed(OwnedFacts),
}

// Returns all references that the key of a call lacks, given the subscription that it references.
#[tactic(auto, unfolding(policy_core::specs::Missing::missing_from))]
fn missing_for<S: Space>(
    space: &mut S,
    alloc: Global,
    admitted: &Admitted<'_>,
    sub: &Option<Sub>,
) -> Result<Missing, CallFault>
    ensures { LooksUp S.Space space.old space.new result (IsMissingFor admitted.now sub.now) }
{
    match &admitted.call.op {
        Operation::Create(id, put) | Operation::Update(id, _, put) => {
            let evaluated = EvaluatedPut {
                id: *id,
                put,
                sub,
                caller: admitted.caller,
            };
            missing_with(space, alloc, &evaluated)
        }
        _ => Ok(Missing::empty(alloc)),
    }
}

// Returns all references that the key of a put lacks.
fn missing_with<S: Space>(
    space: &mut S,
    alloc: Global,
    evaluated: &EvaluatedPut<'_>,
) -> Result<Missing, CallFault>
    ensures { LooksUp S.Space space.old space.new result
        (λ a missing. missing ≡ missing_by a evaluated.now) }
{
    if !needs_key(evaluated.put.nature) {
        return Ok(Missing::empty(alloc));
    }
    missing_kinds(space, alloc, evaluated)
}

// Returns the missing references of both kinds.
fn missing_kinds<S: Space>(
    space: &mut S,
    alloc: Global,
    evaluated: &EvaluatedPut<'_>,
) -> Result<Missing, CallFault>
    ensures { LooksUp S.Space space.old space.new result
        (λ a missing. missing ≡ missing_by a evaluated.now) }
{
    let areas = evaluated.put.volumes.areas(alloc)?;
    let intents = missing_kind(space, alloc, Kind::Intent, evaluated, &areas)?;
    let constraints = missing_kind(space, alloc, Kind::Constraint, evaluated, &areas)?;
    Ok(Missing {
        intents,
        constraints,
    })
}

// Returns the missing references of a kind.
fn missing_kind<S: Space>(
    space: &mut S,
    alloc: Global,
    kind: Kind,
    evaluated: &EvaluatedPut<'_>,
    areas: &[Area],
) -> Result<References, CallFault>
    requires areas { areas.now ≡ map region_of evaluated.now.put.now.volumes }
    ensures { LooksUp S.Space space.old space.new result
        (λ a references. references ≡ missing_kind_by kind a evaluated.now) }
{
    let needed = needed_with(space, alloc, kind, evaluated, areas)?;
    Ok(missing_from(
        alloc,
        &evaluated.caller.uss,
        evaluated.put.key.items(),
        &needed,
    )?)
}

// Returns true if P14 KEY is broken.
fn breaks_key(missing: &Missing) -> bool
    ensures { result ≡ not (is_nothing missing.now) }
{
    !missing.is_empty()
}

// Returns the first broken stateful rule, and the missing references.
fn evaluate<S: Space>(
    space: &mut S,
    alloc: Global,
    admitted: &Admitted<'_>,
    facts: &OwnedFacts,
) -> Result<Option<(Rule, Missing)>, CallFault>
    requires { IsAdmitted admitted.now }
    ensures looks { LooksUp S.Space space.old space.new result (IsFirstBy admitted.now facts.now) }
    ensures ready { result ≡ Ok None
        → IsReady admitted.now.call.now.op facts.now.found facts.now.sub }
    ensures memory { result ≡ Err CallFault.NoMemory → BreaksNoStandingBy admitted.now facts.now }
{
    let lent = facts.lent();
    let findings = standing(admitted.moment, admitted.call, &lent);
    if let Some(broken) = findings.first {
        return Ok(Some((broken, Missing::empty(alloc))));
    }
    let missing = missing_for(space, alloc, admitted, &facts.sub)?;
    if breaks_key(&missing) {
        return Ok(Some((Rule::Key, missing)));
    }
    if findings.limit {
        return Ok(Some((Rule::Limit, Missing::empty(alloc))));
    }
    Ok(None)
}

fn decision_of(facts: OwnedFacts, evaluated: Option<(Rule, Missing)>) -> Decision
    ensures { result ≡ decision_of facts evaluated }
{
    match evaluated {
        Some((broken, missing)) => Decision::Refused(broken, missing),
        None => Decision::Allowed(facts),
    }
}

/// Evaluates a call that breaks no stateless rule.
///
/// Returns `NoMemory` only if the call breaks none of P7 to P13, P16 and P17.
pub fn decide<S: Space>(
    space: &mut S,
    alloc: Global,
    admitted: &Admitted<'_>,
) -> Result<Decision, CallFault>
    requires { IsAdmitted admitted.now }
    ensures looks { LooksUp S.Space space.old space.new result (Decides admitted.now) }
    ensures ready { IfOk result (IsReadyIfAllowed admitted.now.call.now.op) }
    ensures memory { result ≡ Err CallFault.NoMemory → S.is_sound space.new → (a : Airspace)
        → S.holds space.old a → BreaksNoStanding admitted.now a }
    ensures broken { S.is_broken space.old ≡ true
        → IsErrOf result (CallFault.Space SpaceFault.Broken) }
{
    let facts = look_up(space, &admitted.call.op)?;
    let evaluated = evaluate(space, alloc, admitted, &facts)?;
    Ok(decision_of(facts, evaluated))
}
