//! The entities that meet areas, read from a connection.
ghost use Rattle.std.specs.Prelude.{◌≡◌, false};
ghost use Rattle.sqlite.specs.Held.{state};
ghost use Rattle.space_core.specs.Met.{met_in};
ghost use Rattle.space_sql_schema.specs.Within.{SameConnection, Within};
ghost use Rattle.space_sql_select.specs.Reading.{Reads, ReadsAlive, ReadsAlone, ReadsTables};
ghost use Rattle.space_sql_search.specs.SearchRanges.{AsksForAll};
ghost use Rattle.space_sql_search.specs.Met.{FindsMet};

use crate::candidates::read_candidates;
use crate::managers::with_availabilities;
use crate::search_ranges::{SearchRanges, ranges_of};
use entity_core::entity_id::EntityId;
use entity_core::nature::Kind;
use entity_maps::entities::Entities;
use grid_core::volume::Area;
use space_core::met::Met;
use space_sql_select::reading::{connection_facts, is_store_alive};
use sqlite::{Alter, Connection, Error, Transaction};
use std::alloc::Global;

fn find_meeting<S: Alter>(
    alloc: Global,
    tx: &mut Transaction<'_, S>,
    searched: &SearchRanges,
    kind: Kind,
    areas: &[Area],
    except: Option<EntityId>,
) -> Result<Vec<Met>, Error>
    requires { AsksForAll searched.now areas.now }
    ensures same_reference { SameConnection tx.old tx.new }
    ensures reads { Within S.Store tx.old tx.new
        (Reads (λ db met. FindsMet kind areas.now except db met.items)) result }
{
    let found: Entities = read_candidates(alloc, tx, searched)?;
    let range = found.meeting(alloc, kind, areas, except)?;
    with_availabilities(alloc, tx, range)
}

fn read_meeting_alone<S: Alter>(
    alloc: Global,
    conn: &mut Connection<S>,
    searched: &SearchRanges,
    kind: Kind,
    areas: &[Area],
    except: Option<EntityId>,
) -> Result<Vec<Met>, Error>
    requires outside { conn.old.in_transaction ≡ false }
    requires searched { AsksForAll searched.now areas.now }
    ensures ended { conn.new.in_transaction ≡ false }
    ensures reads { ReadsAlone (λ db met. FindsMet kind areas.now except db met.items)
        (state S.Store conn.old) (state S.Store conn.new) result }
{
    let mut tx = conn.transaction();
    let met = find_meeting(alloc, &mut tx, searched, kind, areas, except)?;
    tx.rollback();
    Ok(met)
}

// Reads the entities that meet, if the store is alive after it.
fn read_meeting_alive<S: Alter>(
    alloc: Global,
    conn: &mut Connection<S>,
    searched: &SearchRanges,
    kind: Kind,
    areas: &[Area],
    except: Option<EntityId>,
) -> Result<Vec<Met>, Error>
    requires outside { conn.old.in_transaction ≡ false }
    requires searched { AsksForAll searched.now areas.now }
    ensures outside { conn.new.in_transaction ≡ false }
    ensures reads { ReadsAlive (λ db met. FindsMet kind areas.now except db met.items)
        (state S.Store conn.old) (state S.Store conn.new) result }
{
    connection_facts(conn);
    let met = read_meeting_alone(alloc, conn, searched, kind, areas, except)?;
    is_store_alive(conn)?;
    Ok(met)
}

/// Returns the entities of a kind that meet an area, in ascending order of ids, each with its
/// manager's availability.
///
/// It excludes the entity with the id `except`. If the tables represent no airspace, the result is
/// unspecified.
///
/// It reads the rows of `cell` that the index on `lo` and `hi` finds, and the rows of their
/// entities. It also reads the row of `availability` of each manager of an entity that meets. All
/// reads are in one transaction. Returns an error if the store fails or memory runs out.
pub fn read_meeting<S: Alter>(
    alloc: Global,
    conn: &mut Connection<S>,
    kind: Kind,
    areas: &[Area],
    except: Option<EntityId>,
) -> Result<Vec<Met>, Error>
    requires { conn.old.in_transaction ≡ false }
    ensures outside { conn.new.in_transaction ≡ false }
    ensures reads { ReadsTables (state S.Store conn.old) (state S.Store conn.new) result
        (λ a met. met.items ≡ met_in a kind areas.now except) }
{
    let searched = ranges_of(alloc, areas)?;
    read_meeting_alive(alloc, conn, &searched, kind, areas, except)
}
