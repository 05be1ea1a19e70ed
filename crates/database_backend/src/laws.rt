//! Laws of a database as a backend. Each is the contract of a function that does nothing.
ghost use Rattle.database_backend.specs.Batches.{EventsFormSegments};
ghost use Rattle.database_backend.specs.Blind.{PurgeIsBlind, PurgedRunIsBlind};
ghost use Rattle.database_backend.specs.Delivered.{OutcomesAreDelivered, RoundsAreTold};
ghost use Rattle.database_backend.specs.Policy.{EventsAreKnown, EventsAreThePolicy, PurgesArePlausible};

use space_core::group_commit::GroupCommit;

/// States that the events of a database form segments of batches.
///
/// Each call is that of its request, at its place. Each batch ends with the first commit after its
/// calls, and has the outcome of that commit. Purges come between batches.
pub fn events_form_segments<S: GroupCommit>()
    ensures { EventsFormSegments S.Space S.GroupCommit.own }
{}

/// States that the replies that a database gives to its requests, at once or by an outcome under a
/// ticket, are those that its batches deliver, each at its place.
pub fn outcomes_are_delivered<S: GroupCommit>()
    ensures { OutcomesAreDelivered S.Space S.GroupCommit.own }
{}

/// States that all outcomes are given, and no call is left without a commit, after events that end
/// the batch and give its outcomes after the last request. So each request has its reply then.
pub fn rounds_are_told<S: GroupCommit>()
    ensures { RoundsAreTold S.Space S.GroupCommit.own }
{}

/// States that the delivered replies, and the durable airspace, are those of the policy over what
/// the purges left.
///
/// If no reply was `Stopped`, and each call is forward-looking from the purges before it, they are
/// those of the policy without purges. After events from the empty airspace, each durable entity
/// has the OVN of its own serial. If no reply was `Stopped`, the last put of the later of two
/// meeting entities knew the other, and each index is the number of calls that notified the
/// subscription.
pub fn events_are_the_policy<S: GroupCommit>()
    ensures replies { EventsAreThePolicy S.Space S.GroupCommit.own }
    ensures known { EventsAreKnown S.Space S.GroupCommit.own }
{}

/// States that purge chunks run up to times of the clock less the retention, in the order of these
/// times, and none at a time that is held as wrong.
pub fn purges_are_plausible<S: GroupCommit>()
    ensures { PurgesArePlausible S.Space S.GroupCommit.own }
{}

/// States that over any calls and purges, by any callers, a USS gets the same replies from two
/// airspaces that differ only in OVNs and versions that it does not know.
///
/// The same items are purged in both: what has ended does not depend on an OVN.
pub fn purges_are_blind()
    ensures purge { PurgeIsBlind }
    ensures run { PurgedRunIsBlind }
{}
