//! The mirror of a space over tables.
ghost use Rattle.std.specs.Prelude.{◌≡◌, false, IfSome, Result};
ghost use Rattle.space_core.specs.Space.{Reads, ReportsFault};
ghost use Rattle.space_core.specs.declared.space.SpaceFault.{SpaceFault};
ghost use Rattle.space_sql_load.specs.Checking.{loaded_airspace};
ghost use Rattle.space_sql_load.specs.declared.table_check.LoadedAirspace.{LoadedAirspace};
ghost use Rattle.space_mirror.specs.Mirrored.{is_pending_in};
ghost use Rattle.space_sql.specs.Holding.{holds_of, is_sound_of, is_whole_of};
ghost use Rattle.space_sql.specs.Load.{IsAllOf};

use entity_maps::entities::Entities;
use entity_maps::subscriptions::Subscriptions;
use space_memory::memory::MemorySpace;
use space_mirror::mirrored::Mirrored;
use space_quota::usage_table::UsageTable;
use space_sql::space::SqlSpace;
use space_sql_load::table_check::LoadedAirspace;
use sqlite::Alter;
use std::alloc::Global;

fn count(tally: &mut Option<UsageTable>, entities: &Entities, subscriptions: &Subscriptions) {
    if let Some(tally) = tally {
        tally.count(entities, subscriptions);
    }
}

fn give_up(tally: &mut Option<UsageTable>) {
    if let Some(tally) = tally {
        tally.disable();
    }
}

// Returns the space with this complete airspace as its mirror, or without one if memory runs out
// for the indexes. Counts its usage if there is a quota.
fn with_lists<S: Alter + Drop>(
    alloc: Global,
    space: SqlSpace<S>,
    loaded: LoadedAirspace,
    tally: &mut Option<UsageTable>,
) -> Mirrored<SqlSpace<S>>
    requires { IsAllOf S.Store space loaded }
    ensures same { result.store ≡ space }
    ensures calm { is_pending_in result ≡ false }
    ensures fresh { result.refusals ≡ 0 }
{
    let LoadedAirspace {
        entities,
        subscriptions,
        availabilities,
        serial,
    } = loaded;
    count(tally, &entities, &subscriptions);
    match MemorySpace::from_parts(alloc, entities, subscriptions, availabilities, serial) {
        Ok(list) => Mirrored::new(alloc, space, list),
        Err(_) => Mirrored::without_mirror(alloc, space),
    }
}

// Reads all that the space holds once, and returns the space with a mirror of it.
fn read_whole<S: Alter + Drop>(
    alloc: Global,
    space: SqlSpace<S>,
    tally: &mut Option<UsageTable>,
) -> Mirrored<SqlSpace<S>>
    ensures read { (answer : Result LoadedAirspace SpaceFault)
        × ReportsFault space.refusals result.store.refusals space.broken result.store.broken answer
        × Reads (holds_of S.Store) (is_sound_of S.Store) (is_whole_of S.Store) space result.store
        answer (λ a found. loaded_airspace found ≡ a) }
    ensures calm { is_pending_in result ≡ false }
    ensures fresh { result.refusals ≡ 0 }
{
    let mut space = space;
    match space.load_airspace() {
        Ok(loaded) => with_lists(alloc, space, loaded, tally),
        Err(_) => {
            give_up(tally);
            Mirrored::without_mirror(alloc, space)
        }
    }
}

/// Returns the space with a mirror of all that it holds, which is read once if it is not given.
///
/// There is no mirror if that read failed or memory ran out. No changes are pending, and the space
/// has counted no failures. Its usage is counted if there is a quota.
pub(crate) fn with_mirror<S: Alter + Drop>(
    alloc: Global,
    space: SqlSpace<S>,
    loaded: Option<LoadedAirspace>,
    tally: &mut Option<UsageTable>,
) -> Mirrored<SqlSpace<S>>
    requires { IfSome loaded (IsAllOf S.Store space) }
    ensures read { (answer : Result LoadedAirspace SpaceFault)
        × ReportsFault space.refusals result.store.refusals space.broken result.store.broken answer
        × Reads (holds_of S.Store) (is_sound_of S.Store) (is_whole_of S.Store) space result.store
        answer (λ a found. loaded_airspace found ≡ a) }
    ensures calm { is_pending_in result ≡ false }
    ensures fresh { result.refusals ≡ 0 }
{
    match loaded {
        Some(loaded) => with_lists(alloc, space, loaded, tally),
        None => read_whole(alloc, space, tally),
    }
}
