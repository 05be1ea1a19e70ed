//! Laws of a purge. Each is the contract of a function that does nothing.
ghost use Rattle.entity_purge.specs.PurgeItem.{GoneIsPurged};
ghost use Rattle.entity_purge.specs.Purge.{EndedIsAll, ChunksMakePurges, PurgeIsExact, PurgeKeeps, PurgeKeepsReferences, PurgesJoin, PartlyIsPlain, PurgedIsPartly};

/// States that volumes have ended by a time exactly if each of them has.
pub fn ended_when_all_volumes_ended()
    ensures { EndedIsAll }
{}

/// States what a purge up to a time removes.
///
/// It removes the entities that have ended, and the subscriptions that have ended and that no
/// retained intent references. Everything else stays, including the serial.
pub fn purge_is_exact()
    ensures { PurgeIsExact }
{}

/// States that a purge keeps an airspace valid.
///
/// If each referenced subscription existed before the purge, each referenced one exists after it.
pub fn purge_keeps()
    ensures airspace { PurgeKeeps }
    ensures names { PurgeKeepsReferences }
{}

/// States that two consecutive purges equal the later one.
pub fn purges_join()
    ensures { PurgesJoin }
{}

/// States that an airspace is partly purged exactly if it lacks nothing but what is due.
///
/// Nothing is new in it, and everything else is equal.
pub fn partly_purged_lacks_only_due()
    ensures { PartlyIsPlain }
{}

/// States that a purge can be done in chunks.
///
/// A purge up to an earlier time is a part of it.
pub fn chunks_make_purges()
    ensures chunks { ChunksMakePurges }
    ensures earlier { PurgedIsPartly }
{}

/// States that purging items that are due, one after another, gives a partly purged airspace.
///
/// Each of them can be purged. Purging any items of a valid airspace gives a valid airspace.
pub fn purged_items_are_partly_purged()
    ensures { GoneIsPurged }
{}
