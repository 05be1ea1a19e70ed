//! The subscriptions that meet areas, read from a connection.
ghost use Rattle.std.specs.Prelude.{◌≡◌, false};
ghost use Rattle.sqlite.specs.Held.{state};
ghost use Rattle.entity_core.specs.Search.{subscribers_in, subscriptions_in};
ghost use Rattle.space_sql_select.specs.Reading.{ReadsAlive, ReadsAlone, ReadsTables};
ghost use Rattle.space_sql_search.specs.declared.cell_table.CellTable.TheVariants.{OfSubscriptions};
ghost use Rattle.space_sql_search.specs.Candidates.{HoldsFound, HoldsNearSubs, HoldsSubs};

use crate::candidates::read_candidates;
use crate::search_ranges::{SearchRanges, ranges_of};
use entity_core::nature::Kind;
use entity_core::subscription::Sub;
use entity_core::uss_id::UssId;
use entity_maps::subscriptions::Subscriptions;
use grid_core::volume::Area;
use space_sql_select::reading::{connection_facts, is_store_alive};
use sqlite::{Alter, Connection, Error};
use std::alloc::Global;

fn read_subs_alone<S: Alter>(
    alloc: Global,
    conn: &mut Connection<S>,
    searched: &SearchRanges,
) -> Result<Subscriptions, Error>
    requires { conn.old.in_transaction ≡ false }
    ensures ended { conn.new.in_transaction ≡ false }
    ensures reads { ReadsAlone (HoldsFound OfSubscriptions searched.now HoldsSubs)
        (state S.Store conn.old) (state S.Store conn.new) result }
{
    let mut tx = conn.transaction();
    let found = read_candidates(alloc, &mut tx, searched)?;
    tx.rollback();
    Ok(found)
}

// Reads the subscriptions near areas, if the store is alive after it.
fn read_subs_alive<S: Alter>(
    alloc: Global,
    conn: &mut Connection<S>,
    searched: &SearchRanges,
) -> Result<Subscriptions, Error>
    requires { conn.old.in_transaction ≡ false }
    ensures outside { conn.new.in_transaction ≡ false }
    ensures reads { ReadsAlive (HoldsFound OfSubscriptions searched.now HoldsSubs)
        (state S.Store conn.old) (state S.Store conn.new) result }
{
    connection_facts(conn);
    let found = read_subs_alone(alloc, conn, searched)?;
    is_store_alive(conn)?;
    Ok(found)
}

// Returns some subscriptions, among them all whose volume meets an area.
fn read_near<S: Alter>(
    alloc: Global,
    conn: &mut Connection<S>,
    areas: &[Area],
) -> Result<Subscriptions, Error>
    requires { conn.old.in_transaction ≡ false }
    ensures outside { conn.new.in_transaction ≡ false }
    ensures reads { ReadsTables (state S.Store conn.old) (state S.Store conn.new) result
        (λ a found. HoldsNearSubs areas.now a.subscriptions found) }
{
    let searched = ranges_of(alloc, areas)?;
    read_subs_alive(alloc, conn, &searched)
}

/// Returns the subscriptions of a USS whose volume meets an area, in ascending order of ids.
///
/// If the tables represent no airspace, the result is unspecified. It reads the rows of
/// `subscription_cell` that the index on `lo` and `hi` finds, and those of their subscriptions, in
/// one transaction. Returns an error if the store fails or memory runs out.
pub fn find_subscriptions_of<S: Alter>(
    alloc: Global,
    conn: &mut Connection<S>,
    uss: &UssId,
    area: &Area,
) -> Result<Vec<Sub>, Error>
    requires { conn.old.in_transaction ≡ false }
    ensures outside { conn.new.in_transaction ≡ false }
    ensures reads { ReadsTables (state S.Store conn.old) (state S.Store conn.new) result
        (λ a found. found.items ≡ subscriptions_in a.subscriptions uss.now area.now) }
{
    let near = read_near(alloc, conn, std::slice::from_ref(area))?;
    let own = near.subscriptions_of(alloc, uss, area)?;
    Ok(own)
}

/// Returns the subscriptions for a kind whose volume meets an area, in ascending order of ids,
/// of all managers. Otherwise it behaves like `find_subscriptions_of`.
pub fn find_subscribers<S: Alter>(
    alloc: Global,
    conn: &mut Connection<S>,
    kind: Kind,
    areas: &[Area],
) -> Result<Vec<Sub>, Error>
    requires { conn.old.in_transaction ≡ false }
    ensures outside { conn.new.in_transaction ≡ false }
    ensures reads { ReadsTables (state S.Store conn.old) (state S.Store conn.new) result
        (λ a found. found.items ≡ subscribers_in a.subscriptions kind areas.now) }
{
    let near = read_near(alloc, conn, areas)?;
    let wanting = near.subscribers(alloc, kind, areas)?;
    Ok(wanting)
}
