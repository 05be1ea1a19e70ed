//! Laws of the policy's steps and of batches. Each is the contract of a function that does nothing.
ghost use Rattle.service_calls.specs.Aware.{MeetingIsMutual};
ghost use Rattle.service_calls.specs.Blind.{CallIsBlind, RunIsBlind};
ghost use Rattle.service_calls.specs.Batches.{CommittedBatchesRun, OpenBatchIsNotDurable};
ghost use Rattle.service_calls.specs.Batches.{BatchIsAsked, BatchesAreAware, BatchesAreCounted};
ghost use Rattle.service_calls.specs.Batches.{BatchesAreNumbered, BatchesAreThePolicy};
ghost use Rattle.service_calls.specs.Stale.{StaleIsRefused};
ghost use Rattle.service_calls.specs.Purged.{OpenSegmentIsNotDurable};
ghost use Rattle.service_calls.specs.Purged.{SegmentsAreThePolicy, PurgedIsNumbered};
ghost use Rattle.service_step.specs.Step.{StepsAnswer, StepsPreserve};

use space_core::group_commit::GroupCommit;

/// States that a step of a valid airspace leaves a valid airspace.
///
/// Every entity is stored under its own kind and id, every subscription under its own id, and no
/// index exceeds the serial.
pub fn steps_preserve()
    ensures { StepsPreserve }
{}

/// States that the policy replies `Done` or `Denied` to each call.
///
/// `Fault` and `Stopped` only report that memory ran out or a space failed.
pub fn steps_answer()
    ensures { StepsAnswer }
{}

/// States that a USS's call does not depend on the OVNs and versions of what other USSs manage, if
/// its key knows as much of them.
///
/// This covers its reply and what it leaves.
pub fn call_is_blind()
    ensures { CallIsBlind }
{}

/// States the same over any list of calls, by any callers.
///
/// Over batches, the delivered replies are those of the policy over the calls that did not fail
/// (`batches_are_the_policy`). The law applies to these.
pub fn run_is_blind()
    ensures { RunIsBlind }
{}

/// States that a put whose key has only old OVNs is denied for each entity that it needs to know.
///
/// If its reply is deferred, the caller gets this denial or a failure, and never `Done`.
pub fn stale_is_refused()
    ensures { StaleIsRefused }
{}

/// States that meeting is symmetric.
pub fn meeting_is_mutual()
    ensures { MeetingIsMutual }
{}

/// States that the replies over batches are those of the policy, in order, over the calls that did
/// not fail.
///
/// If a batch ends with `Ok`, its replies are delivered as they were made. After `Unchanged` each
/// deferred reply is delivered as `Fault`, and the airspace is as if its call had not been made.
/// After `Broken` each deferred reply is delivered as `Stopped`. While the service is not shut, the
/// policy's airspace is durable.
pub fn batches_are_the_policy<S: GroupCommit>()
    ensures { BatchesAreThePolicy S.Space S.GroupCommit.own }
{}

/// States that a crash within a batch leaves the durable airspace that it has without its changes.
pub fn open_batch_is_not_durable<S: GroupCommit>()
    ensures { OpenBatchIsNotDurable S.Space S.GroupCommit.own }
{}

/// States that the calls of a batch are made in order.
///
/// If every batch is committed, all calls have the replies that `Service::run` gives over a space
/// without pending changes.
pub fn committed_batches_run<S: GroupCommit>()
    ensures asked { BatchIsAsked S.Space S.GroupCommit.own }
    ensures runs { CommittedBatchesRun S.Space S.GroupCommit.own }
{}

/// States the properties of the durable airspace after batches from the empty airspace.
///
/// Each entity has the OVN of its own serial. If no reply was `Stopped`, the last put of the later
/// of two meeting entities knew the other, as `Service::run` says. The index of each subscription
/// is the number of calls with the reply `Done` that notified it after the last call that created
/// it.
pub fn batches_are_aware<S: GroupCommit>()
    ensures numbered { BatchesAreNumbered S.GroupCommit.own }
    ensures aware { BatchesAreAware S.GroupCommit.own }
    ensures counted { BatchesAreCounted S.GroupCommit.own }
{}

/// States that the replies and the durable airspace are those of the policy, with purges of ended
/// items between batches.
///
/// They are those of the batches over the airspace that the segments before left, partly purged.
/// While the service is not shut, one airspace is durable.
pub fn segments_are_the_policy<S: GroupCommit>()
    ensures { SegmentsAreThePolicy S.Space S.GroupCommit.own }
{}

/// States that, with purges, a crash within a batch leaves the durable airspace that it has without
/// its changes.
pub fn open_segment_is_not_durable<S: GroupCommit>()
    ensures { OpenSegmentIsNotDurable S.Space S.GroupCommit.own }
{}

/// States that after segments and batches from the empty airspace, each durable entity has the OVN
/// of its own serial.
///
/// No OVN is given twice, since a purge leaves the serial unchanged.
pub fn purged_is_numbered<S: GroupCommit>()
    ensures { PurgedIsNumbered S.GroupCommit.own }
{}
