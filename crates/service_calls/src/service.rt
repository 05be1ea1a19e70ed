//! The service over a space.
ghost use Rattle.std.specs.Prelude.{◌≡◌, ◌<◌, ℕ, Some, IfOk, IfSome, MatchOption, OnErr, true, false};
ghost use Rattle.std.specs.Borrow.{Lends, sem};
ghost use Rattle.entity_core.specs.Airspace.{Airspace};
ghost use Rattle.entity_purge.specs.PurgeItem.{IsPurgedAlready};
ghost use Rattle.space_core.specs.Calls.{CallReportsFault, ForEachHeld};
ghost use Rattle.space_core.specs.Space.{IsContent};
ghost use Rattle.service_calls.specs.contracts.service.Service.{the_row};
ghost use Rattle.service_step.specs.Admitted.{IsAdmitted};
ghost use Rattle.service_step.specs.Looks.{IsReady};
ghost use Rattle.service_calls.specs.Decision.{Allows, Decides};
ghost use Rattle.service_calls.specs.Service.{AllowsTo, AnswersTo, IsNotDone, reply_of};
ghost use Rattle.service_calls.specs.Run.{Answered, IsAllowed, IsReplyTo};
ghost use Rattle.service_calls.specs.FromEmpty.{RunIsAware, RunIsCounted, RunIsNumbered};
ghost use Rattle.service_calls.specs.Stale.{RefusesStale};
ghost use Rattle.service_calls.specs.Held.{space_of, salt_of, is_shut, with_space};
ghost use Rattle.service_calls.specs.Purged.{ArePurged, LeavesPartly};

use crate::decide::{Decision, decide};
use entity_core::salt::Salt;
use policy_core::call::Call;
use policy_core::early::early;
use policy_core::reference::Missing;
use policy_core::sub_view::EntityIds;
use service_step::admitted::Admitted;
use service_step::call_fault::CallFault;
use service_step::effects::prepare;
use service_step::look_up::OwnedFacts;
use service_step::prepared::Prepared;
use service_step::reply::{Answer, Reply};
use space_core::group_commit::GroupCommit;
use space_core::purge_ended::PurgeEnded;
use space_core::space::{Change, Space, SpaceFault};
use std::alloc::{AllocError, Global};

// Returns the reply to an aborted call.
fn reply_to_fault(halt: CallFault) -> Reply
    ensures { result ≡ reply_of halt }
{
    match halt {
        CallFault::NoMemory => Reply::Fault,
        CallFault::Space(SpaceFault::Unchanged) => Reply::Fault,
        CallFault::Space(SpaceFault::Broken) => Reply::Stopped,
    }
}

// Returns the reply to a call that breaks no stateless rule.
fn answer_admitted<S: Space>(space: &mut S, alloc: Global, admitted: &Admitted<'_>) -> Reply
    requires { IsAdmitted admitted.now }
    ensures answers { AnswersTo S.Space admitted.now space.old space.new result }
    ensures broken { S.is_broken space.old ≡ true → result ≡ Reply.Stopped }
{
    match decide(space, alloc, admitted) {
        Ok(Decision::Refused(broken, missing)) => Reply::Denied(broken, missing),
        Ok(Decision::Allowed(facts)) => answer_allowed(space, alloc, admitted, &facts),
        Err(halt) => reply_to_fault(halt),
    }
}

// Returns the reply to a call that breaks no stateless rule, or `None` if it breaks no rule. Does not
// make the call.
fn deny_admitted<S: Space>(space: &mut S, alloc: Global, admitted: &Admitted<'_>) -> Option<Reply>
    requires { IsAdmitted admitted.now }
    ensures answers { MatchOption result (AllowsTo S.Space admitted.now space.old space.new)
        (λ reply. AnswersTo S.Space admitted.now space.old space.new reply) }
    ensures unmade { IfSome result IsNotDone }
    ensures broken { S.is_broken space.old ≡ true → result ≡ Some Reply.Stopped }
{
    match decide(space, alloc, admitted) {
        Ok(Decision::Refused(broken, missing)) => Some(Reply::Denied(broken, missing)),
        Ok(Decision::Allowed(_)) => None,
        Err(halt) => Some(reply_to_fault(halt)),
    }
}

// Returns the reply to a call that breaks no rule.
fn answer_allowed<S: Space>(
    space: &mut S,
    alloc: Global,
    admitted: &Admitted<'_>,
    facts: &OwnedFacts,
) -> Reply
    requires admitted { IsAdmitted admitted.now }
    requires ready { IsReady admitted.now.call.now.op facts.now.found facts.now.sub }
    requires given { ForEachHeld S.Space space.old (λ a.
        Decides admitted.now a (Decision.Allowed facts.now)) }
    ensures { AnswersTo S.Space admitted.now space.old space.new result }
{
    let Prepared {
        change,
        notify,
        answer,
    } = match prepare(space, alloc, admitted, facts) {
        Ok(made) => made,
        Err(halt) => return reply_to_fault(halt),
    };
    match change {
        Some(change) => answer_changed(space, admitted, change, &notify, answer),
        None => Reply::Done(answer),
    }
}

// Makes the change, and returns the reply.
fn answer_changed<S: Space>(
    space: &mut S,
    admitted: &Admitted<'_>,
    change: Change,
    notify: &EntityIds,
    answer: Answer,
) -> Reply
    requires admitted { IsAdmitted admitted.now }
    requires given { ForEachHeld S.Space space.old (λ a.
        Allows admitted.now a (Some change) notify.now answer) }
    ensures { AnswersTo S.Space admitted.now space.old space.new result }
{
    let _admitted = admitted;
    match space.apply(change, notify.items()) {
        Ok(()) => Reply::Done(answer),
        Err(fault) => reply_to_fault(CallFault::Space(fault)),
    }
}

// Purges some of what has ended.
fn purged<S: PurgeEnded>(space: &mut S, until: u64, most: usize) -> Result<usize, SpaceFault>
    ensures tells { CallReportsFault S.Space space.old space.new result }
    ensures waits { S.is_pending space.new ≡ S.is_pending space.old }
    ensures sound { S.is_sound space.new → S.is_sound space.old }
    ensures whole { S.is_sound space.new → S.is_whole space.old → S.is_whole space.new }
    ensures left { S.is_sound space.new → (a : Airspace) → IsContent S.holds space.old a
        → LeavesPartly S.Space until a space.new result }
    ensures gone { S.is_sound space.new → (a : Airspace) → IsContent S.holds space.old a
        → IfOk result (λ n. ArePurged S.Space until most n a space.new) }
    ensures last { S.is_sound space.new → IfOk result (λ n. n ≡ 0 → 0 < most
        → (a : Airspace) → S.holds space.new a → IsPurgedAlready until a) }
{
    let gone = space.find_ended(until, most)?;
    if !gone.is_empty() {
        space.purge(gone.as_slice())?;
    }
    Ok(gone.len())
}

/// A service that answers calls by the policy, over a storage backend (trait `Space`).
#[derive(Drop)]
pub struct Service<S: Space> {
    space: S,
    salt: Salt,
    stopped: bool,
}

impl<S: Space + Drop> Service<S> {
    /// Creates a service over a space, with the salt of its OVNs and versions. Allocates nothing.
    pub fn new(space: S, salt: Salt) -> Self
        ensures space { space_of result ≡ space }
        ensures salt { salt_of result ≡ salt }
        ensures goes { is_shut result ≡ false }
    {
        Service {
            space,
            salt,
            stopped: false,
        }
    }

    /// Borrows the space, to read it.
    pub fn space_ref(&self) -> &S
        ensures { result.now ≡ space_of self.now }
    {
        &self.space
    }

    /// Borrows the space.
    pub fn space(&mut self) -> &mut S
        ensures* lends { sem 𝓛 (Lends (the_row S.row) S.row self.entry result
            (with_space self.entry.now)) }
        ensures value { result.now ≡ space_of self.entry.now }
    {
        &mut self.space
    }

    /// Returns the space as it is now.
    pub fn into_space(self) -> S
        ensures { result ≡ space_of self }
    {
        let Service {
            space,
            salt: _,
            stopped: _,
        } = self;
        space
    }

    /// Replies to one call at a time (Unix seconds) as the policy says.
    ///
    /// After `Fault` the content is as before: memory ran out, or the space answered `Unchanged`. A
    /// call that breaks one of P1 to P6 never gets it. A call that breaks one of P7 to P13, P16 or
    /// P17 gets it only if the space's count of refusals rose, or is at its maximum.
    ///
    /// The call in which the space answers `Broken` gets `Stopped`, and so does each call after it.
    /// If the space was broken before, so does the first call that breaks none of P1 to P6. A call
    /// that does is denied without memory and without a call of the space.
    ///
    /// A put that needs to know an entity, and whose key has only OVNs of other serials, is never
    /// done. It is denied by one of P1 to P14 or by P16; a denial by P14 lists the entity.
    pub fn call(&mut self, alloc: Global, now: u64, call: &Call) -> Reply
        ensures reply { IsReplyTo S.Space self.old self.new now call.now result }
        ensures stale { RefusesStale S.Space self.old self.new call.now result }
    {
        if self.stopped {
            return Reply::Stopped;
        }
        if let Some(broken) = early(call) {
            return Reply::Denied(broken, Missing::empty(alloc));
        }
        let Some(caller) = &call.caller else {
            unreachable!();
        };
        let admitted = Admitted {
            salt: &self.salt,
            moment: now,
            call,
            caller,
        };
        let reply = answer_admitted(&mut self.space, alloc, &admitted);
        self.stopped = reply.is_stopped();
        reply
    }

    /// Replies to a call as `call` does, unless it breaks no rule. Returns `None` then, and does not
    /// make the call.
    pub fn deny(&mut self, alloc: Global, now: u64, call: &Call) -> Option<Reply>
        ensures reply { MatchOption result (IsAllowed S.Space self.old self.new now call.now)
            (λ reply. IsReplyTo S.Space self.old self.new now call.now reply) }
        ensures unmade { IfSome result IsNotDone }
    {
        if self.stopped {
            return Some(Reply::Stopped);
        }
        if let Some(broken) = early(call) {
            return Some(Reply::Denied(broken, Missing::empty(alloc)));
        }
        let Some(caller) = &call.caller else {
            unreachable!();
        };
        let admitted = Admitted {
            salt: &self.salt,
            moment: now,
            call,
            caller,
        };
        let reply = deny_admitted(&mut self.space, alloc, &admitted)?;
        self.stopped = reply.is_stopped();
        Some(reply)
    }

    /// Replies to calls in order, each at its time.
    ///
    /// Allocates the room for the replies first: after an error no call was made.
    ///
    /// If the space was empty, each entity has the OVN of its own serial afterwards. If also no
    /// reply is `Stopped`, the last put of the later of two meeting entities had the OVN of the
    /// other in its key. This applies if the later one is an intent that is planned or flown as
    /// planned. It applies to a constraint if the put referenced a subscription for constraints, or
    /// none and its caller processes constraints. It applies to an intent that was only planned
    /// then if its manager was not down.
    ///
    /// The index of each subscription is the number of calls with the reply `Done` that notified
    /// it, as it was before that call, after the last call that created it.
    pub fn run(&mut self, alloc: Global, calls: &[(u64, Call)]) -> Result<Vec<Reply>, AllocError>
        ensures none_made { OnErr result (self.new ≡ self.old) }
        ensures answered { IfOk result (λ replies.
            Answered S.Space self.old calls.now replies.items self.new) }
        ensures aware { IfOk result (λ replies.
            RunIsAware S.Space self.old calls.now replies.items self.new) }
        ensures counted { IfOk result (λ replies.
            RunIsCounted S.Space self.old calls.now replies.items self.new) }
        ensures numbered { RunIsNumbered S.Space self.old self.new }
    {
        let mut replies = Vec::with_capacity(alloc, calls.len())?;
        for entry in calls {
            let reply = self.call(alloc, entry.0, &entry.1);
            let Ok(()) = replies.push(reply) else {
                unreachable!();
            };
        }
        Ok(replies)
    }
}

impl<S: GroupCommit + Drop> Service<S> {
    ghost use Rattle.service_calls.specs.Batches.{IsCommitted};

    /// Returns true if changes are pending. If so before or after a call, its reply is deferred.
    pub fn has_pending(&self) -> bool
        ensures { result ≡ S.is_pending (space_of self.now) }
    {
        self.space.has_pending()
    }

    /// Commits all pending changes, or none. Afterwards none is pending.
    ///
    /// A reply is deferred until then if changes are pending before or after its call, since its
    /// changes may still be lost. After `Ok` it is delivered as it was made. After `Unchanged` it
    /// is delivered as `Fault`, and the last durable airspace is visible again. After `Broken` it
    /// is delivered as `Stopped`, and each later call gets `Stopped`. By the law
    /// `batches_are_the_policy`, the delivered replies are those of the policy.
    pub fn commit(&mut self) -> Result<(), SpaceFault>
        ensures { IsCommitted S.Space S.GroupCommit.own self.old self.new result }
    {
        let settled = self.space.commit();
        if let Err(SpaceFault::Broken) = settled {
            self.stopped = true;
        }
        settled
    }
}

impl<S: PurgeEnded + Drop> Service<S> {
    ghost use Rattle.service_calls.specs.Purged.{IsPurge};

    /// Purges some of what has ended by a time (Unix seconds), and returns the number of purged
    /// items.
    ///
    /// Purges at most `most` intents, constraints and subscriptions together. Returns zero only if
    /// nothing is left that has ended. A purge is no call: the serial stays, and nobody is
    /// notified.
    ///
    /// Purges nothing while changes are pending: returns `Unchanged` then if something has ended.
    /// Also returns `Unchanged` if the space cannot determine what has ended. Everything is as
    /// before in both cases. After `Broken`, and if the service was shut, each call gets `Stopped`.
    pub fn purge(&mut self, until: u64, most: usize) -> Result<usize, SpaceFault>
        ensures { IsPurge S.Space S.GroupCommit.own until most self.old self.new result }
    {
        if self.stopped {
            return Err(SpaceFault::Broken);
        }
        let purged = purged(&mut self.space, until, most);
        if let Err(SpaceFault::Broken) = purged {
            self.stopped = true;
        }
        purged
    }
}
