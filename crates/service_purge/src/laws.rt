//! Laws of calls before and after a purge. Each is the contract of a function that does nothing.
ghost use Rattle.service_purge.specs.Ahead.{RunCommutes, RunIsInvisible, PurgeCommutes};
ghost use Rattle.service_purge.specs.Ahead.{PurgeIsInvisible, PurgeStaysAlone, TheseLookAhead};
ghost use Rattle.service_purge.specs.Ahead.{ReadersDoNotDisturb};
ghost use Rattle.service_purge.specs.Back.{LookingBackFindsLess};
ghost use Rattle.service_purge.specs.Ended.{EndedIsRefused};
ghost use Rattle.service_purge.specs.Kept.{PurgeKeepsAware, PurgeKeepsCounts, PurgeKeepsNumbers};
ghost use Rattle.service_purge.specs.Segments.{OneMomentIsEnough, ReadersMayLookBack};
ghost use Rattle.service_purge.specs.Segments.{SegmentsAreAware, SegmentsAreInvisible};

use space_core::group_commit::GroupCommit;

/// States that an entity has ended by a time exactly if rule P13 of the policy denies putting it
/// then.
pub fn ended_is_refused()
    ensures { EndedIsRefused }
{}

/// States that a purge preserves the laws of a run.
///
/// It notifies nobody, and changes no index, no OVN and no serial of the retained items.
pub fn purge_keeps_laws()
    ensures counted { PurgeKeepsCounts }
    ensures aware { PurgeKeepsAware }
    ensures numbered { PurgeKeepsNumbers }
{}

/// States that a forward-looking call gets the same reply, byte for byte, before and after a purge.
///
/// It leaves airspaces that differ only by the purge.
pub fn purge_is_invisible()
    ensures reply { PurgeIsInvisible }
    ensures alone { PurgeStaysAlone }
{}

/// States that calls of certain forms are forward-looking.
///
/// They query, put or delete what begins later, read what has not ended, or read or set an
/// availability.
pub fn these_look_ahead()
    ensures { TheseLookAhead }
{}

/// States that any list of forward-looking calls gets the same replies after a purge, after a part
/// of it, and without it.
///
/// Each forward-looking call of a list also gets the same reply if the other calls of the list look
/// back, as long as those change nothing.
pub fn run_is_invisible()
    ensures same { RunIsInvisible }
    ensures readers { ReadersDoNotDisturb }
{}

/// States that a purge before a call leaves the same as a purge after it, if the call is
/// forward-looking and frees no ended subscription.
///
/// The same holds over a list of such calls.
pub fn purge_commutes()
    ensures call { PurgeCommutes }
    ensures run { RunCommutes }
{}

/// States that a backward-looking call finds after a purge what it found before, without the purged
/// items.
pub fn looking_back_finds_less()
    ensures { LookingBackFindsLess }
{}

/// States the properties of the durable airspace after segments and batches from the empty
/// airspace, if no reply was `Stopped`.
///
/// The last put of the later of two meeting entities knew the other, in whichever segment it was.
/// The index of each subscription is the number of calls with the reply `Done` that notified it,
/// over all segments, after the last call that created it. The purges between change neither.
pub fn segments_are_aware<S: GroupCommit>()
    ensures { SegmentsAreAware S.GroupCommit.own }
{}

/// States that the replies over all segments are those of the policy without any purge, if each
/// call is forward-looking from the purges before it.
///
/// The durable airspace is the one without purges, partly purged. Calls before the first purge can
/// be any. It suffices if the others are forward-looking from one time that is not before the time
/// of any purge. Calls that change nothing need not be: then the law compares the replies to the
/// forward-looking ones.
pub fn segments_are_invisible<S: GroupCommit>()
    ensures unseen { SegmentsAreInvisible S.GroupCommit.own }
    ensures enough { OneMomentIsEnough }
    ensures readers { ReadersMayLookBack S.GroupCommit.own }
{}
