//! Laws of the log over etcd. Each is the contract of a function that does nothing.
ghost use Rattle.pool_etcd.specs.Admitted.{AdmittedCallsAreAssigned, WithoutListAllAreAdmitted};
ghost use Rattle.pool_etcd.specs.Comparisons.{OneOrganizationEndsNobody};
ghost use Rattle.pool_etcd.specs.Following.{ChangesAreNext, FirstFenceDecides, KnownSettingsDecide};
ghost use Rattle.pool_etcd.specs.Linked.{LinkedEntriesShareChanges};
ghost use Rattle.pool_etcd.specs.Lives.{PutsAreConsecutive};
ghost use Rattle.pool_etcd.specs.OneKey.{EachValueOnce, FenceSettles, UnmadeIsFinal};
ghost use Rattle.pool_etcd.specs.Value.{OneValue};

use pool_chain::laws::{kept_decides, same_link_same_items};
use pool_entry::laws::callers_are_suppliers;

/// States that the entries of a process are the values that it has taken, in order, each once, or
/// all but the last one.
///
/// The puts that it sends can be lost, come late, be stored before or after their answer is lost,
/// and be sent again at any time. Others can write under the key. It is assumed that etcd makes a
/// put only if the last write of the key is at the revision of its compare, that its answers are
/// true, and that nobody else writes the values of the process.
pub fn each_value_once()
    ensures { EachValueOnce }
{}

/// States that the entries behind a fence of a process are values that it has taken after the fence
/// was stored, in order, each once, or all but the last one.
///
/// So an entry that it offered before the fence stands before it, or never in the log. The same is
/// assumed as in `each_value_once`.
pub fn fence_settles()
    ensures { FenceSettles }
{}

/// States that if a process has learned that its fence is stored in place of a value, this value is
/// the last one that it has taken, and the only one that is not written, whatever happens later.
pub fn unmade_is_final()
    ensures { UnmadeIsFinal }
{}

/// States that the value of a key is the supplier list, an entry, a link, a fence or none of these,
/// in one way. So its bytes alone decide, with its key, what every instance reads.
pub fn one_value()
    ensures { OneValue }
{}

/// States that an instance that received the lines of a watch has the settings in the first fence
/// of them all, however the changes were cut into lines, and whenever it took entries.
///
/// So an instance with other settings than those in the first fence does not receive the line that
/// has it. It is assumed that it knew no settings at the start.
pub fn first_fence_decides()
    ensures { FirstFenceDecides }
{}

/// States that an instance that knows other settings of the pool at the start receives no line.
pub fn known_settings_decide()
    ensures { KnownSettingsDecide }
{}

/// States that each change that an instance received is the next one of its key, by etcd's own count
/// of the puts of the key.
///
/// So if etcd counts truly, no put of a key is left out between two that were received, unless the
/// key was deleted between them, however the changes were cut into lines.
pub fn changes_are_next()
    ensures { ChangesAreNext }
{}

/// States that the versions of the puts of a key since one of its creations are consecutive, if each
/// change is the next one of its key and each revision is later than the one before.
///
/// So if etcd counts truly, none of these puts is left out before one that was received. It is
/// assumed that the keys at the start were created before the changes.
pub fn puts_are_consecutive()
    ensures { PutsAreConsecutive }
{}

/// States that each call that an admitted entry makes has a caller whose USS the supplier list at
/// the entry's place assigns to the organization of the entry's key.
///
/// So an organization makes no call of a USS for which it may not act, whatever its instances put.
/// It is assumed that an instance can put values only under its own key.
pub fn admitted_calls_are_assigned()
    ensures { AdmittedCallsAreAssigned }
{
    callers_are_suppliers();
}

/// States that every entry is admitted if no supplier list was put.
pub fn without_list_all_are_admitted()
    ensures { WithoutListAllAreAdmitted }
{}

/// States that the writer of an entry that is not passed over for its link was given the same
/// changes as this instance, as many as the link tells, or that two different texts have one digest.
///
/// So an instance that makes the calls of another one shares its changes up to there, whatever etcd
/// lost or changed. It is assumed that the writer took its link from the changes that it was given,
/// and that this instance began with a record of its own changes.
pub fn linked_entries_share_changes()
    ensures { LinkedEntriesShareChanges }
{
    kept_decides();
    same_link_same_items();
}

/// States that one organization alone, whatever links it puts, makes no instance of another one end.
pub fn one_organization_ends_nobody()
    ensures { OneOrganizationEndsNobody }
{}
