//! The usage of each USS.
ghost use Rattle.std.specs.Prelude.{◌≡◌, IsSome};
ghost use Rattle.space_quota.specs.QuotaSpace.{IsPut};

use crate::usage::Usage;
use crate::uss_usage::{UssUsage, usage_added};
use entity_core::uss_id::UssId;
use entity_maps::entities::Entities;
use entity_maps::subscriptions::Subscriptions;
use space_core::space::Change;
use std::alloc::{AllocError, Global};

/// A USS and its usage.
#[derive(Debug, Drop)]
struct UssEntry {
    uss: UssId,
    /// The visible usage.
    now: Usage,
    /// The usage without the pending changes.
    committed: Usage,
}

/// The usage of each USS, and the quota.
///
/// The quota is a number of entities and subscriptions, and 64 cells for each of them. If memory
/// runs out while counting, every put fails.
#[derive(Debug, Drop)]
pub struct UsageTable {
    most: u32,
    entries: Vec<UssEntry>,
    // Whether everything stored was counted.
    is_whole: bool,
}

/// The effect of a change on the usage of the USSs at these indexes.
#[derive(Clone, Copy, Debug)]
pub(crate) struct UsageDelta {
    taken: Option<(usize, Usage)>,
    given: Option<(usize, Usage)>,
}

// Returns the usage at an index after a part is taken away.
fn left_at(was: Usage, at: usize, taken: Option<(usize, Usage)>) -> Usage {
    match taken {
        Some((from, size)) => { if from == at { was.without(size) } else { was } }
        None => was,
    }
}

impl UsageTable {
    /// Creates an empty table with this quota of entities and subscriptions for each USS.
    pub fn new(alloc: Global, most: u32) -> UsageTable {
        UsageTable {
            most,
            entries: Vec::new(alloc),
            is_whole: true,
        }
    }

    /// Adds the usage of these entities and subscriptions.
    pub fn count(&mut self, entities: &Entities, subscriptions: &Subscriptions) {
        if self.count_all(entities, subscriptions).is_err() {
            self.disable();
        }
        self.commit();
    }

    /// Disables the table, because the stored data cannot be counted: every put fails from now on.
    pub fn disable(&mut self) {
        self.is_whole = false;
    }

    fn count_all(
        &mut self,
        entities: &Entities,
        subscriptions: &Subscriptions,
    ) -> Result<(), AllocError> {
        for entity in entities.iter() {
            let at = self.place(&entity.manager)?;
            self.give(at, Usage::of_entity(entity));
        }
        for sub in subscriptions.iter() {
            let at = self.place(&sub.manager)?;
            self.give(at, Usage::of_sub(sub));
        }
        Ok(())
    }

    fn find(&self, uss: &UssId) -> Option<usize> {
        self.entries
            .iter()
            .position(|supplier| supplier.uss.is(uss))
    }

    // Returns the index of a USS, and adds an entry if it has none.
    fn place(&mut self, uss: &UssId) -> Result<usize, AllocError> {
        if let Some(at) = self.find(uss) {
            return Ok(at);
        }
        let at = self.entries.len();
        self.entries.push(UssEntry {
            uss: uss.clone()?,
            now: Usage::nothing(),
            committed: Usage::nothing(),
        })?;
        Ok(at)
    }

    fn at(&self, at: usize) -> Usage {
        match self.entries.get(at) {
            Some(supplier) => supplier.now,
            None => Usage::nothing(),
        }
    }

    fn give(&mut self, at: usize, size: Usage) {
        if let Some(supplier) = self.entries.get_mut(at) {
            supplier.now = supplier.now.with(size);
        }
    }

    fn take(&mut self, at: usize, size: Usage) {
        if let Some(supplier) = self.entries.get_mut(at) {
            supplier.now = supplier.now.without(size);
        }
    }

    /// Returns the effect of a change on the usage, which takes away what the change replaces.
    ///
    /// Returns `None` for a put if its USS would exceed both its quota and its previous usage. Also
    /// returns `None` for a put if memory runs out or the table is disabled.
    pub(crate) fn delta(
        &mut self,
        change: &Change,
        replaced: Option<UssUsage>,
    ) -> Option<UsageDelta>
        ensures { ¬ IsPut change.now → IsSome result }
    {
        let taken = match &replaced {
            Some(part) => match self.find(&part.manager) {
                Some(at) => Some((at, part.size)),
                None => None,
            },
            None => None,
        };
        let Some((manager, size)) = usage_added(change) else {
            return Some(UsageDelta { taken, given: None });
        };
        if !self.is_whole {
            return None;
        }
        let Ok(at) = self.place(manager) else {
            return None;
        };
        let before = self.at(at);
        let after = left_at(before, at, taken).with(size);
        if after.is_within(self.most, before) {
            Some(UsageDelta {
                taken,
                given: Some((at, size)),
            })
        } else {
            None
        }
    }

    /// Applies the effect of a change that was made.
    ///
    /// Commits it unless the change is pending.
    pub(crate) fn apply(&mut self, step: UsageDelta, is_waiting: bool) {
        if let Some((at, size)) = step.taken {
            self.take(at, size);
        }
        if let Some((at, size)) = step.given {
            self.give(at, size);
        }
        if !is_waiting {
            self.commit();
        }
    }

    /// Reduces the usage of a USS.
    pub(crate) fn subtract(&mut self, uss: &UssId, size: Usage) {
        if let Some(at) = self.find(uss) {
            self.take(at, size);
        }
    }

    /// Commits the visible usage: no change is pending any more.
    pub(crate) fn commit(&mut self) {
        for supplier in self.entries.iter_mut() {
            supplier.committed = supplier.now;
        }
    }

    /// Restores the usage without the pending changes, which were not made.
    pub(crate) fn rollback(&mut self) {
        for supplier in self.entries.iter_mut() {
            supplier.now = supplier.committed;
        }
    }
}
