//! Purging of items from the tables, in one transaction that leaves the serial unchanged.
ghost use Rattle.std.specs.Prelude.{◌≡◌, ◌∷◌, false};
ghost use Rattle.sqlite.specs.Held.{state};
ghost use Rattle.entity_purge.specs.PurgeItem.{CanPurgeAll, without_items};
ghost use Rattle.entity_purge.specs.declared.purge_item.PurgeItem.TheVariants.{Entity, Subscription};
ghost use Rattle.space_sql_schema.specs.Within.{SameConnection, Within};
ghost use Rattle.space_sql_write.specs.Committing.{Commits, HoldsAcrossChange};
ghost use Rattle.space_sql_write.specs.Numbering.{KeepsNumbers};
ghost use Rattle.space_sql_write.specs.Statements.{Runs, MakesLess, MakesLessAll, MakesLessRest};

use crate::number::{number_of, sub_number_of};
use crate::remove::clear_entity;
use crate::sub_remove::clear_sub;
use entity_core::entity_id::EntityId;
use entity_core::nature::Kind;
use entity_purge::purge_item::PurgeItem;
use sqlite::{Alter, Connection, Error, Transaction};
use std::alloc::Global;

fn purge_entity<S: Alter>(
    alloc: Global,
    tx: &mut Transaction<'_, S>,
    kind: Kind,
    id: EntityId,
) -> Result<(), Error>
    ensures same_reference { SameConnection tx.old tx.new }
    ensures goes { Within S.Store tx.old tx.new (Runs (λ _. MakesLess (Entity kind id))) result }
{
    let Some(num) = number_of(alloc, tx, kind, id)? else {
        return Err(Error::QueryReturnedNoRows);
    };
    clear_entity(tx, num)
}

fn purge_sub<S: Alter>(
    alloc: Global,
    tx: &mut Transaction<'_, S>,
    id: EntityId,
) -> Result<(), Error>
    ensures same_reference { SameConnection tx.old tx.new }
    ensures goes { Within S.Store tx.old tx.new (Runs (λ _. MakesLess (Subscription id))) result }
{
    let Some(num) = sub_number_of(alloc, tx, id)? else {
        return Err(Error::QueryReturnedNoRows);
    };
    clear_sub(tx, num)
}

// Purges one item. Returns an error if it does not exist or an intent references it.
fn purge_one<S: Alter>(
    alloc: Global,
    tx: &mut Transaction<'_, S>,
    gone: &PurgeItem,
) -> Result<(), Error>
    ensures same_reference { SameConnection tx.old tx.new }
    ensures goes { Within S.Store tx.old tx.new (Runs (λ _. MakesLess gone.now)) result }
{
    match gone {
        PurgeItem::Entity(kind, id) => purge_entity(alloc, tx, *kind, *id),
        PurgeItem::Subscription(id) => purge_sub(alloc, tx, *id),
    }
}

fn purge_rest<S: Alter>(
    alloc: Global,
    tx: &mut Transaction<'_, S>,
    rest: &[PurgeItem],
) -> Result<(), Error>
    ensures same_reference { SameConnection tx.old tx.new }
    ensures goes { Within S.Store tx.old tx.new (Runs (λ _. MakesLessRest rest.now)) result }
{
    for next in rest {
        purge_one(alloc, tx, next)?;
    }
    Ok(())
}

fn purge_each<S: Alter>(
    alloc: Global,
    tx: &mut Transaction<'_, S>,
    first: &PurgeItem,
    rest: &[PurgeItem],
) -> Result<(), Error>
    ensures same_reference { SameConnection tx.old tx.new }
    ensures goes { Within S.Store tx.old tx.new
        (Runs (λ _. MakesLessAll (first.now ∷ rest.now))) result }
{
    purge_one(alloc, tx, first)?;
    purge_rest(alloc, tx, rest)
}

/// Purges items, one after the other, in one transaction: removes their rows, and leaves the serial
/// unchanged.
///
/// Each remaining item keeps its number. It is for tables that represent an airspace in which the
/// first item exists. Each other one exists after the previous ones are purged. No intent
/// references an item when it is purged.
///
/// # Errors
///
/// Returns an error if the database fails or memory runs out. While the connection stays open, the
/// previously committed database is visible.
pub fn purge_all<S: Alter>(
    alloc: Global,
    conn: &mut Connection<S>,
    first: &PurgeItem,
    rest: &[PurgeItem],
) -> Result<(), Error>
    requires { conn.old.in_transaction ≡ false }
    ensures ended { conn.new.in_transaction ≡ false }
    ensures commits { let old = state S.Store conn.old in
        Commits (CanPurgeAll (first.now ∷ rest.now)) (without_items (first.now ∷ rest.now))
        old (state S.Store conn.new) result }
    ensures numbers { let old = state S.Store conn.old in
        HoldsAcrossChange (CanPurgeAll (first.now ∷ rest.now))
        (λ a. KeepsNumbers a (without_items (first.now ∷ rest.now) a))
        old (state S.Store conn.new) result }
{
    let mut tx = conn.transaction();
    purge_each(alloc, &mut tx, first, rest)?;
    tx.commit()
}
