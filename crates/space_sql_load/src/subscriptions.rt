//! The subscriptions that the rows represent, one after the other.
ghost use Rattle.std.specs.Prelude.{◌≡◌, ◌↔◌, ◌≤◌, pos, [], None, IsTrue, IfOk, IfSome, MatchOption, length, take, drop};
ghost use Rattle.std.specs.List.{AllByRecursion};
ghost use Rattle.std.specs.Ordering.{int_cmp};
ghost use Rattle.std.specs.FinMap.{get, empty};
ghost use Rattle.entity_maps.specs.Sorted.{Rise};
ghost use Rattle.entity_maps.specs.Subscriptions.{subscription_map};
ghost use Rattle.space_rows.specs.declared.rows.SubCellRow.{SubCellRow};
ghost use Rattle.space_rows.specs.Finds.{Finds};
ghost use Rattle.space_sql_load.specs.Gathering.{GathersSubs, IsNextSub, ListsSubs, StartsElse, Subs, number_pair, subs_of};

use crate::naming::Numbered;
use crate::rising::is_before;
use crate::tables::SubTables;
use entity_core::entity_id::EntityId;
use entity_core::subscription::Sub;
use entity_maps::subscriptions::Subscriptions;
use space_rows::rows::{SubCellRow, SubRow};
use space_rows::sub::sub_of;
use space_sql_select::sub_rows::{sub_cell_rows, sub_rows};
use sqlite::Error;
use std::alloc::{AllocError, Global};

/// Subscriptions, and the number of each in ascending order.
#[derive(Drop)]
pub struct KnownSubs {
    pub subscriptions: Subscriptions,
    pub numbers: Vec<Numbered>,
}

// Returns the number of rows at the front that belong to a subscription.
fn sub_cell_count(rows: &[SubCellRow], num: i64) -> usize
    ensures most { result ≤ length rows.now }
    ensures these { AllByRecursion (λ (r : SubCellRow). r.subscription ≡ num)
        (take result rows.now) }
    ensures others { StartsElse (λ (r : SubCellRow). r.subscription ≡ num)
        (drop result rows.now) }
{
    for (i, row) in rows.iter().enumerate() {
        if row.subscription != num {
            return i;
        }
    }
    rows.len()
}

fn is_sub_free(out: &Subscriptions, id: EntityId) -> Result<bool, AllocError>
    ensures { IfOk result (λ b. IsTrue b ↔ (get (subscription_map out.now) id ≡ None)) }
{
    match out.subscription(id)? {
        Some(_) => Ok(false),
        None => Ok(true),
    }
}

// Returns the next subscription, if the rows represent one that can follow those before it.
fn next_sub(
    alloc: Global,
    serial: u64,
    last: i64,
    row: &SubRow,
    cells: &[SubCellRow],
    out: &Subscriptions,
) -> Result<Option<Sub>, AllocError>
    ensures { let before = subscription_map out.now in
        IfOk result (λ o. Finds (IsNextSub serial last row.now cells.now before) o) }
{
    if !is_before(last, row.num) {
        return Ok(None);
    }
    let Some(sub) = sub_of(alloc, row, cells)? else {
        return Ok(None);
    };
    if sub.serial.number() > serial {
        return Ok(None);
    }
    if sub.index.number() > serial {
        return Ok(None);
    }
    if is_sub_free(out, sub.id)? {
        Ok(Some(sub))
    } else {
        Ok(None)
    }
}

// Returns the subscriptions that all rows represent, if they represent any.
fn gather_subs(
    alloc: Global,
    serial: u64,
    rows: &[SubRow],
    cells: &[SubCellRow],
) -> Result<Option<KnownSubs>, AllocError>
    ensures { let r = rows.now in
        let c = cells.now in
        IfOk result (λ o. MatchOption o ((a : Subs)
        → ¬ GathersSubs serial (pos 0) r c (empty, []) a)
        (λ k. GathersSubs serial (pos 0) r c (empty, []) (subs_of k))) }
{
    let mut subscriptions = Subscriptions::new(alloc);
    let mut numbers = Vec::new(alloc);
    let mut last = 0i64;
    let mut cells_left = cells;
    for row in rows {
        let (own, more) = cells_left.split_at(sub_cell_count(cells_left, row.num));
        let Some(sub) = next_sub(alloc, serial, last, row, own, &subscriptions)? else {
            return Ok(None);
        };
        numbers.push(Numbered {
            num: row.num,
            id: sub.id,
        })?;
        subscriptions.put(sub)?;
        last = row.num;
        cells_left = more;
    }
    if cells_left.is_empty() {
        Ok(Some(KnownSubs {
            subscriptions,
            numbers,
        }))
    } else {
        Ok(None)
    }
}

/// Returns the subscriptions that the rows of the two tables represent, if they do, with serials
/// and indexes up to the given serial.
pub fn subs_in(alloc: Global, serial: u64, tables: &SubTables) -> Result<Option<KnownSubs>, Error>
    ensures lists { let t = tables.now in
        IfOk result (λ o. MatchOption o ((a : Subs) → ¬ ListsSubs serial t a)
        (λ k. ListsSubs serial t (subs_of k))) }
    ensures rise { IfOk result (λ o. IfSome o (λ k. Rise int_cmp number_pair k.numbers.items)) }
{
    let Some(rows) = sub_rows(alloc, tables.subscriptions.as_slice())? else {
        return Ok(None);
    };
    let Some(cells) = sub_cell_rows(alloc, tables.cells.as_slice())? else {
        return Ok(None);
    };
    Ok(gather_subs(alloc, serial, rows.as_slice(), cells.as_slice())?)
}
