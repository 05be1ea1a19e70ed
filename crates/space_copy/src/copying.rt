//! The rounds of a copy.
//!
//! In a round each item of the airspace is compared with what the tables have, and written or
//! removed if it differs. A round can take several steps, between which the airspace can change. A
//! round during which it did not change leaves its items in the tables.
use crate::budget::Budget;
use crate::stored::{Stored, StoredEntity, StoredSub};
use entity_core::entity::Entity;
use entity_core::entity_id::EntityId;
use entity_core::nature::Kind;
use entity_core::subscription::Sub;
use entity_maps::availabilities::Availabilities;
use entity_maps::entities::{Entities, OrderKey};
use entity_maps::subscriptions::Subscriptions;
use space_snapshot::snapshot::Snapshot;
use space_sql_write::availability::set_availability;
use space_sql_write::put::put_entity;
use space_sql_write::remove::remove_entity;
use space_sql_write::serial::set_serial;
use space_sql_write::sub_put::put_sub;
use space_sql_write::sub_remove::remove_sub;
use sqlite::{Alter, Error, Transaction};
use std::alloc::{AllocError, Global};

// The number of rows of an item apart from its cells.
const OWN_ROWS: usize = 3;

// The number of phases of a round.
const PHASES: usize = 4;

// What a round does next, and from where on. References of entities to subscriptions make this
// order.
#[derive(Clone, Copy, Debug)]
enum Phase {
    // Stores subscriptions.
    Subs(Option<EntityId>),
    // Stores entities.
    Entities(Option<(Kind, EntityId)>),
    // Removes entities.
    GoneEntities(OrderKey),
    // Removes subscriptions.
    GoneSubs(u128),
}

/// A copy in progress, apart from its database.
#[derive(Drop)]
pub(crate) struct Copying {
    alloc: Global,
    stored: Stored,
    phase: Phase,
    // The stamp of the airspace when the round began.
    stamp: u64,
    // The number of rounds during which the airspace changed.
    rounds: u32,
    // The number of entities that the round has compared.
    passed: usize,
}

// Returns the subscriptions from this one on that the tables do not have as they are, as far as the
// budget goes, and the next one after them.
fn other_subs<'a>(
    alloc: Global,
    shown: &'a Subscriptions,
    stored: &Stored,
    from: Option<EntityId>,
    budget: &mut Budget,
) -> Result<(Vec<&'a Sub>, Option<EntityId>), AllocError> {
    let mut found = Vec::new(alloc);
    let entries = match from {
        Some(id) => shown.range_from(id),
        None => shown.entries(),
    };
    for (_, sub) in entries {
        if budget.is_spent() {
            return Ok((found, Some(sub.id)));
        }
        budget.look();
        if !stored.has_sub(sub) {
            budget.write(OWN_ROWS.saturating_add(sub.volume.cells().len()));
            found.push(sub)?;
        }
    }
    Ok((found, None))
}

// Returns the number of rows of an entity.
fn rows_of(entity: &Entity) -> usize {
    let mut rows = OWN_ROWS;
    for volume in entity.volumes.items() {
        rows = rows.saturating_add(1).saturating_add(volume.cells().len());
    }
    rows
}

// Returns the entities from this one on that the tables do not have as they are, as far as the
// budget goes, and the next one after them.
fn other_entities<'a>(
    alloc: Global,
    shown: &'a Entities,
    stored: &Stored,
    from: Option<(Kind, EntityId)>,
    budget: &mut Budget,
) -> Result<(Vec<&'a Entity>, Option<(Kind, EntityId)>), AllocError> {
    let mut found = Vec::new(alloc);
    let entries = match from {
        Some((kind, id)) => shown.range_from(kind, id),
        None => shown.entries(),
    };
    for (_, entity) in entries {
        if budget.is_spent() {
            return Ok((found, Some((entity.nature.kind(), entity.id))));
        }
        budget.look();
        if !stored.has_entity(entity) {
            budget.write(rows_of(entity));
            found.push(entity)?;
        }
    }
    Ok((found, None))
}

// Returns the stored entities from this key on that the airspace does not have, as far as the budget
// goes, and the next key after them.
fn gone_entities(
    alloc: Global,
    shown: &Entities,
    stored: &Stored,
    from: OrderKey,
    budget: &mut Budget,
) -> Result<(Vec<StoredEntity>, Option<OrderKey>), AllocError> {
    let mut found = Vec::new(alloc);
    for (key, entity) in stored.entities.range(from..) {
        if budget.is_spent() {
            return Ok((found, Some(*key)));
        }
        budget.look();
        if shown.get(entity.kind, entity.id.number()).is_none() {
            budget.write(OWN_ROWS);
            found.push(*entity)?;
        }
    }
    Ok((found, None))
}

// Returns the stored subscriptions from this number on that the airspace does not have, as far as
// the budget goes, and the next number after them.
fn gone_subs(
    alloc: Global,
    shown: &Subscriptions,
    stored: &Stored,
    from: u128,
    budget: &mut Budget,
) -> Result<(Vec<StoredSub>, Option<u128>), AllocError> {
    let mut found = Vec::new(alloc);
    for (number, sub) in stored.subs.range(from..) {
        if budget.is_spent() {
            return Ok((found, Some(*number)));
        }
        budget.look();
        if shown.get(*number).is_none() {
            budget.write(OWN_ROWS);
            found.push(*sub)?;
        }
    }
    Ok((found, None))
}

// Stores a subscription.
fn write_sub<S: Alter>(
    alloc: Global,
    tx: &mut Transaction<'_, S>,
    stored: &mut Stored,
    sub: &Sub,
) -> Result<(), Error> {
    put_sub(alloc, tx, sub)?;
    stored.put_sub(sub)?;
    Ok(())
}

// Stores an entity, and before it the subscription that it references if the tables have none with
// that id.
fn write_entity<S: Alter>(
    alloc: Global,
    tx: &mut Transaction<'_, S>,
    stored: &mut Stored,
    shown: &Subscriptions,
    entity: &Entity,
) -> Result<(), Error> {
    if let Some(id) = entity.nature.subscription()
        && !stored.has_sub_id(id)
    {
        match shown.get(id.number()) {
            Some(sub) => write_sub(alloc, tx, stored, sub)?,
            None => return Err(Error::QueryReturnedNoRows),
        }
    }
    put_entity(alloc, tx, entity)?;
    stored.put_entity(entity)?;
    Ok(())
}

// Stores the availabilities of all USSs.
fn write_availabilities<S: Alter>(
    tx: &mut Transaction<'_, S>,
    shown: &Availabilities,
) -> Result<(), Error> {
    for entry in shown.items() {
        if let Some((availability, version)) = shown.availability(entry.uss())? {
            set_availability(tx, entry.uss(), availability, &version)?;
        }
    }
    Ok(())
}

impl Copying {
    /// Returns a copy in empty tables.
    pub(crate) fn new(alloc: Global) -> Copying {
        Copying {
            alloc,
            stored: Stored::new(alloc),
            phase: Phase::Subs(None),
            stamp: 0,
            rounds: 0,
            passed: 0,
        }
    }

    // Stores subscriptions. Returns the next phase.
    fn put_subs<S: Alter>(
        &mut self,
        tx: &mut Transaction<'_, S>,
        shown: Snapshot<'_>,
        from: Option<EntityId>,
        budget: &mut Budget,
    ) -> Result<Phase, Error> {
        let (found, next) = other_subs(
            self.alloc,
            shown.subscriptions,
            &self.stored,
            from,
            budget,
        )?;
        for sub in &found {
            write_sub(self.alloc, tx, &mut self.stored, *sub)?;
        }
        Ok(match next {
            Some(id) => Phase::Subs(Some(id)),
            None => Phase::Entities(None),
        })
    }

    // Stores entities. Returns the next phase.
    fn put_entities<S: Alter>(
        &mut self,
        tx: &mut Transaction<'_, S>,
        shown: Snapshot<'_>,
        from: Option<(Kind, EntityId)>,
        budget: &mut Budget,
    ) -> Result<Phase, Error> {
        if from.is_none() {
            self.passed = 0;
        }
        let before = budget.looked();
        let (found, next) = other_entities(self.alloc, shown.entities, &self.stored, from, budget)?;
        self.passed = self
            .passed
            .saturating_add(budget.looked().saturating_sub(before));
        for entity in &found {
            write_entity(
                self.alloc,
                tx,
                &mut self.stored,
                shown.subscriptions,
                *entity,
            )?;
        }
        Ok(match next {
            Some(key) => Phase::Entities(Some(key)),
            None => Phase::GoneEntities((0, 0)),
        })
    }

    // Removes entities. Returns the next phase.
    fn remove_entities<S: Alter>(
        &mut self,
        tx: &mut Transaction<'_, S>,
        shown: Snapshot<'_>,
        from: OrderKey,
        budget: &mut Budget,
    ) -> Result<Phase, Error> {
        let (found, next) = gone_entities(self.alloc, shown.entities, &self.stored, from, budget)?;
        for entity in &found {
            remove_entity(self.alloc, tx, entity.kind, entity.id)?;
            self.stored.remove_entity(*entity);
        }
        Ok(match next {
            Some(key) => Phase::GoneEntities(key),
            None => Phase::GoneSubs(0),
        })
    }

    // Removes subscriptions. Returns the next phase, or `None` at the end of the round.
    fn remove_subs<S: Alter>(
        &mut self,
        tx: &mut Transaction<'_, S>,
        shown: Snapshot<'_>,
        from: u128,
        budget: &mut Budget,
    ) -> Result<Option<Phase>, Error> {
        let (found, next) = gone_subs(self.alloc, shown.subscriptions, &self.stored, from, budget)?;
        for sub in &found {
            remove_sub(self.alloc, tx, sub.id)?;
            self.stored.remove_sub(*sub);
        }
        Ok(match next {
            Some(number) => Some(Phase::GoneSubs(number)),
            None => None,
        })
    }

    // Runs the current phase. Returns the next one, or `None` at the end of the round.
    //
    // If the airspace has not changed during the round, the tables have all its items, and so they
    // have others only if they have more. An entity in the tables can reference a subscription that
    // is gone only if the airspace has changed. Then none is removed in this round.
    fn run_phase<S: Alter>(
        &mut self,
        tx: &mut Transaction<'_, S>,
        shown: Snapshot<'_>,
        is_same: bool,
        budget: &mut Budget,
    ) -> Result<Option<Phase>, Error> {
        match self.phase {
            Phase::Subs(from) => Ok(Some(self.put_subs(tx, shown, from, budget)?)),
            Phase::Entities(from) => Ok(Some(self.put_entities(tx, shown, from, budget)?)),
            Phase::GoneEntities(_) if self.stored.entities.len() == self.passed => {
                Ok(Some(Phase::GoneSubs(0)))
            }
            Phase::GoneEntities(from) => Ok(Some(self.remove_entities(tx, shown, from, budget)?)),
            Phase::GoneSubs(_) if self.stored.subs.len() == shown.subscriptions.len() => Ok(None),
            Phase::GoneSubs(from) if is_same => self.remove_subs(tx, shown, from, budget),
            Phase::GoneSubs(_) => Ok(None),
        }
    }

    // Ends a round. Returns true if the tables have the airspace.
    fn end_round<S: Alter>(
        &mut self,
        tx: &mut Transaction<'_, S>,
        shown: Snapshot<'_>,
        is_same: bool,
    ) -> Result<bool, Error> {
        self.phase = Phase::Subs(None);
        self.rounds = self.rounds.saturating_add(1);
        if !is_same {
            return Ok(false);
        }
        write_availabilities(tx, shown.availabilities)?;
        let Ok(serial) = i64::try_from(shown.serial) else {
            return Err(Error::IntegralValueOutOfRange(0));
        };
        set_serial(tx, serial)?;
        Ok(true)
    }

    /// Runs a step, given a snapshot of the airspace and its stamp. Returns true if the tables have
    /// the airspace.
    pub(crate) fn step<S: Alter>(
        &mut self,
        tx: &mut Transaction<'_, S>,
        shown: Snapshot<'_>,
        stamp: u64,
    ) -> Result<bool, Error> {
        if let Phase::Subs(None) = self.phase {
            self.stamp = stamp;
        }
        let is_same = self.stamp == stamp;
        let mut budget = Budget::after(self.rounds);
        for _ in 0..PHASES {
            if budget.is_spent() {
                return Ok(false);
            }
            match self.run_phase(tx, shown, is_same, &mut budget)? {
                Some(phase) => self.phase = phase,
                None => return self.end_round(tx, shown, is_same),
            }
        }
        Ok(false)
    }
}
