//! Laws of a pool. Each is the contract of a function that does nothing.
ghost use Rattle.pool_core.specs.Acts.{ActsInOrder, CallsAreActs, OnlyCallsGetReplies};
ghost use Rattle.pool_core.specs.Atomic.{AtomicLogIsPool, PoolCanAnswer, PoolCanPurge};
ghost use Rattle.pool_core.specs.AtomicFrom.{AtomicLogFromIsPool, FromFileCanAnswer};
ghost use Rattle.pool_core.specs.Blind.{ActsAreBlind, PurgeIsBlind};
ghost use Rattle.pool_core.specs.FromEmpty.{CallsAreKnown, ListedStaleIsRefused, ListsAreKnown};
ghost use Rattle.pool_core.specs.FromEmpty.{PoolIsKnown};
ghost use Rattle.pool_core.specs.FromFiles.{FilesFollow, FromBeginning, FromFilesIsKnown};
ghost use Rattle.pool_core.specs.FromFiles.{ListHasTimes, PoolFromFiles};
ghost use Rattle.pool_core.specs.OneList.{PoolIsOneList};
ghost use Rattle.pool_core.specs.Starts.{MayStartBehind};
ghost use Rattle.pool_core.specs.Unlogged.{DenialChangesNothing, EarlyIsAnywhere};
ghost use Rattle.pool_core.specs.Unlogged.{ReadingChangesNothing};
ghost use Rattle.pool_core.specs.Unseen.{PurgesAreUnseen};

/// States the properties of lists of acts: calls, and purges between them.
///
/// A list of calls only has the airspace and the replies of these calls. The acts of two lists
/// happen one after the other. A purge has no reply.
pub fn acts_are_calls_and_purges()
    ensures calls { CallsAreActs }
    ensures order { ActsInOrder }
    ensures replies { OnlyCallsGetReplies }
{}

/// States that the calls and purges of a pool are one list, in which each reply is that of the
/// policy.
///
/// The list has the acts of the log in their order, and the readings that instances answered. So it
/// has the purges of the log and no others. A request that was answered before another was received
/// is before it, at whichever instances. This concerns the instances that serve the pool. Nothing
/// is assumed of how others make the calls, nor of what they write.
pub fn pool_is_one_list()
    ensures { PoolIsOneList }
{}

/// States the properties of the list of a pool that started from the empty airspace.
///
/// They hold of each airspace that an instance holds, after the first entries of the log. Of two
/// meeting entities, the last put of the later one knew the other. The index of each subscription
/// is the number of calls that notified it. Each entity has the OVN of its own serial. The puts and
/// calls can be before or after purges of the list. For a list without purges, these are the
/// properties of a run of its calls.
pub fn pool_from_empty()
    ensures known { PoolIsKnown }
    ensures lists { ListsAreKnown }
    ensures calls { CallsAreKnown }
{}

/// States that a put of the list whose key has only old OVNs is denied.
pub fn pool_refuses_stale()
    ensures { ListedStaleIsRefused }
{}

/// States that a USS gets the same replies over calls and purges from airspaces that are alike to
/// it.
///
/// They differ only in the OVNs of entities and the versions of subscriptions that it does not
/// manage. They stay alike to it.
pub fn acts_are_blind()
    ensures purge { PurgeIsBlind }
    ensures acts { ActsAreBlind }
{}

/// States that calls get the replies that they get without the purges of the list, if each is
/// forward-looking from the purges before it.
///
/// The airspace after them is the one without purges, partly purged.
pub fn purges_are_unseen()
    ensures { PurgesAreUnseen }
{}

/// States which calls need no entry in the log.
///
/// A call that breaks a stateless rule gets the same denial in each airspace, so an instance can
/// reply at once. A call that is denied, or only reads, changes nothing, so it can get the reply of
/// the airspace after the first entries.
pub fn some_need_no_entry()
    ensures early { EarlyIsAnywhere }
    ensures denied { DenialChangesNothing }
    ensures reading { ReadingChangesNothing }
{}

/// States that a new instance can be given the first entries of the log at once.
///
/// So an instance that starts with a file counts as one that was given the entries of the file as
/// it started, and the laws hold of it.
pub fn instance_may_start_behind()
    ensures { MayStartBehind }
{}

/// States that the calls and purges of a pool are one list also if its instances start from files.
///
/// A file has the airspace after the first entries of the log. The events are those that happened:
/// the counts in them begin behind the file of their instance.
pub fn pool_from_files()
    ensures list { PoolFromFiles }
    ensures times { ListHasTimes }
    ensures known { FromFilesIsKnown }
    ensures files { FilesFollow }
    ensures beginning { FromBeginning }
{}

/// States that the premises of these laws can be met.
///
/// Any events at an atomic log are those of a pool. At such a log, two instances can answer any
/// call in its place, and any reading after it. One can purge, and the other can answer any reading
/// after the purge. The same holds of instances that start from files: one of them can answer the
/// reading with no entry given to it.
pub fn pools_exist()
    ensures atomic { AtomicLogIsPool }
    ensures answers { PoolCanAnswer }
    ensures purges { PoolCanPurge }
    ensures from { AtomicLogFromIsPool }
    ensures behind { FromFileCanAnswer }
{}
