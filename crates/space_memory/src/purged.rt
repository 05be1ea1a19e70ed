//! Finding and purging what has ended, in chunks.
ghost use Rattle.std.specs.Prelude.{◌≡◌, ℕ, ◌<◌, IfOk, IsFalse, List, length};
ghost use Rattle.std.specs.Map.{values_of};
ghost use Rattle.entity_maps.specs.declared.availabilities.AvailabilityEntry.{AvailabilityEntry};
ghost use Rattle.entity_maps.specs.Entities.{entity_map};
ghost use Rattle.entity_maps.specs.Lists.{airspace_of};
ghost use Rattle.entity_purge.specs.PurgeItem.{IsPurgeChunk, without_items, without_item};
ghost use Rattle.entity_purge.specs.Purge.{has_ended, sub_has_ended};
ghost use Rattle.space_memory.specs.Memory.{content_of, refusals_of};
ghost use Rattle.space_memory.specs.Purged.{AreFirst, IsChunkIfAny, ended_in, free_in, is_free};

use crate::indexed::IndexedEntities;
use crate::indexed_subscriptions::IndexedSubscriptions;
use crate::memory::MemorySpace;
use entity_core::entity::Entity;
use entity_core::subscription::Sub;
use entity_maps::entities::OrderKey;
use entity_maps::subscriptions::Subscriptions;
use entity_purge::purge_item::PurgeItem;
use std::alloc::{AllocError, Global};
use std::collections::btree_map::Range;

/// The number of cells after which a chunk ends.
///
/// Each cell is a row to delete, and no client should wait long for that.
const MAX_CELLS: usize = 1024;

// ---- tests of what has ended

fn has_ended(entity: &Entity, until: u64) -> bool
    ensures { result ≡ has_ended until entity.now }
{
    entity.times().1 <= until
}

fn sub_has_ended(sub: &Sub, until: u64) -> bool
    ensures { result ≡ sub_has_ended until sub.now }
{
    sub.volume.time().1 <= until
}

// Returns true if a subscription has ended and no intent references it.
fn is_free(sub: &Sub, entities: &IndexedEntities, until: u64) -> bool
    ensures { result ≡ is_free until (entity_map entities.now) sub.now }
{
    sub_has_ended(sub, until) && !entities.is_named(sub.id)
}

// Returns the number of cells of an entity's volumes.
fn cells_of(entity: &Entity) -> usize {
    let mut cells = 0usize;
    for volume in entity.volumes.items() {
        cells = cells.saturating_add(volume.cells().len());
    }
    cells
}

// Returns true if a chunk is full.
fn is_full(gone: &Vec<PurgeItem>, cells: usize, most: usize) -> bool
    ensures { IsFalse result → length gone.now.items < most }
{
    gone.len() >= most || cells > MAX_CELLS
}

// ---- the items of a chunk

// Returns the first entities that have ended.
fn first_ended(
    alloc: Global,
    entities: Range<'_, OrderKey, Entity>,
    until: u64,
    most: usize,
) -> Result<Vec<PurgeItem>, AllocError>
    requires { 0 < most }
    ensures { IfOk result (λ gone.
        AreFirst most gone.items (ended_in until (values_of entities.entry))) }
{
    let mut gone = Vec::new(alloc);
    let mut cells = 0usize;
    for (_, entity) in entities {
        if has_ended(entity, until) {
            gone.push(PurgeItem::Entity(entity.nature.kind(), entity.id))?;
            cells = cells.saturating_add(cells_of(entity));
            if is_full(&gone, cells, most) {
                return Ok(gone);
            }
        }
    }
    Ok(gone)
}

// Returns the first subscriptions that have ended and that no intent references.
fn first_free(
    alloc: Global,
    subscriptions: Range<'_, u128, Sub>,
    entities: &IndexedEntities,
    until: u64,
    most: usize,
) -> Result<Vec<PurgeItem>, AllocError>
    requires { 0 < most }
    ensures { IfOk result (λ gone. AreFirst most gone.items
        (free_in until (entity_map entities.now) (values_of subscriptions.entry))) }
{
    let mut gone = Vec::new(alloc);
    let mut cells = 0usize;
    for (_, sub) in subscriptions {
        if is_free(sub, entities, until) {
            gone.push(PurgeItem::Subscription(sub.id))?;
            cells = cells.saturating_add(sub.volume.cells().len());
            if is_full(&gone, cells, most) {
                return Ok(gone);
            }
        }
    }
    Ok(gone)
}

// Returns a chunk that starts at the item that was purged last. It has only entities or only
// subscriptions.
fn chunk_from(
    alloc: Global,
    entities: &IndexedEntities,
    subscriptions: &Subscriptions,
    last: PurgeItem,
    until: u64,
    most: usize,
) -> Result<Vec<PurgeItem>, AllocError>
    requires { 0 < most }
    ensures { IfOk result (λ gone. (settings : List AvailabilityEntry) (serial : ℕ)
        → IsChunkIfAny until most gone.items
        (airspace_of entities.now subscriptions.now settings serial)) }
{
    match last {
        PurgeItem::Entity(kind, id) => {
            let next = entities.entities().range_from(kind, id);
            first_ended(alloc, next, until, most)
        }
        PurgeItem::Subscription(id) => {
            let next = subscriptions.range_from(id);
            first_free(alloc, next, entities, until, most)
        }
    }
}

// Returns a chunk that starts at the item that was purged last, or nothing if none was purged.
fn next_chunk(
    alloc: Global,
    entities: &IndexedEntities,
    subscriptions: &Subscriptions,
    last: Option<PurgeItem>,
    until: u64,
    most: usize,
) -> Result<Vec<PurgeItem>, AllocError>
    requires { 0 < most }
    ensures { IfOk result (λ gone. (settings : List AvailabilityEntry) (serial : ℕ)
        → IsChunkIfAny until most gone.items
        (airspace_of entities.now subscriptions.now settings serial)) }
{
    match last {
        Some(last) => chunk_from(alloc, entities, subscriptions, last, until, most),
        None => Ok(Vec::new(alloc)),
    }
}

// Returns the next chunk. It continues where the last purge ended, because a search from the start
// passes everything that is retained. A search from the start takes entities before subscriptions,
// since purging an intent can free the subscription that it references.
fn chunk_of(
    alloc: Global,
    entities: &IndexedEntities,
    subscriptions: &Subscriptions,
    last: Option<PurgeItem>,
    until: u64,
    most: usize,
) -> Result<Vec<PurgeItem>, AllocError>
    requires { 0 < most }
    ensures { IfOk result (λ gone. (settings : List AvailabilityEntry) (serial : ℕ)
        → IsPurgeChunk until most gone.items
        (airspace_of entities.now subscriptions.now settings serial)) }
{
    let next = next_chunk(alloc, entities, subscriptions, last, until, most)?;
    if !next.is_empty() {
        return Ok(next);
    }
    let gone = first_ended(alloc, entities.entities().entries(), until, most)?;
    if !gone.is_empty() {
        return Ok(gone);
    }
    first_free(alloc, subscriptions.entries(), entities, until, most)
}

// ---- purging

fn purge_one(
    entities: &mut IndexedEntities,
    subscriptions: &mut IndexedSubscriptions,
    gone: &PurgeItem,
)
    ensures { (settings : List AvailabilityEntry) (serial : ℕ)
        → airspace_of entities.new subscriptions.new settings serial
        ≡ without_item (airspace_of entities.old subscriptions.old settings serial) gone.now }
{
    match *gone {
        PurgeItem::Entity(kind, id) => entities.remove(kind, id),
        PurgeItem::Subscription(id) => subscriptions.remove(id),
    }
}

fn purge_all(
    entities: &mut IndexedEntities,
    subscriptions: &mut IndexedSubscriptions,
    gone: &[PurgeItem],
)
    ensures { (settings : List AvailabilityEntry) (serial : ℕ)
        → airspace_of entities.new subscriptions.new settings serial
        ≡ without_items gone.now (airspace_of entities.old subscriptions.old settings serial) }
{
    for one in gone {
        purge_one(entities, subscriptions, one);
    }
}

impl MemorySpace {
    /// Returns some items that a purge up to a time removes, at most `most` of them.
    ///
    /// Returns no item only if nothing remains to purge or `most` is 0. A chunk has only entities,
    /// or only subscriptions that no intent references. It ends early once its items count for more
    /// than 1,024 cells. A subscription counts for its own cells and for one more for every 40
    /// intents that reference any subscription. Returns `AllocError` if memory runs out.
    pub fn find_ended(&self, until: u64, most: usize) -> Result<Vec<PurgeItem>, AllocError>
        ensures { IfOk result (λ gone. IsPurgeChunk until most gone.items (content_of self.now)) }
    {
        if most == 0 {
            return Ok(Vec::new(self.alloc));
        }
        chunk_of(
            self.alloc,
            &self.entities,
            self.subscriptions.subscriptions(),
            self.last_removed,
            until,
            most,
        )
    }

    /// Purges these items in order, and ignores those that do not exist.
    ///
    /// A purge is not a change: the serial stays, and no subscription is notified. Allocates
    /// nothing.
    pub fn purge(&mut self, gone: &[PurgeItem])
        ensures content { content_of self.new ≡ without_items gone.now (content_of self.old) }
        ensures refusals { refusals_of self.new ≡ refusals_of self.old }
    {
        self.last_removed = gone.last().copied().or(self.last_removed);
        purge_all(&mut self.entities, &mut self.subscriptions, gone);
    }
}
