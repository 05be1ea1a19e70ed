//! The entities and subscriptions of a page.
ghost use Rattle.std.specs.Prelude.{◌≡◌, IfOk, map};
ghost use Rattle.admin_airspace.specs.Cursor.{entities_past, is_past, subs_past};
ghost use Rattle.admin_airspace.specs.Page.{AreFirst};

use crate::key::Cursor;
use crate::query::PageQuery;
use crate::volume::cells_of;
use entity_core::entity::Entity;
use entity_core::subscription::Sub;
use entity_maps::entities::Entities;
use entity_maps::subscriptions::Subscriptions;
use std::alloc::{AllocError, Global};

// The approximate maximum number of cells on a page. A page ends after the item that reaches it.
const MAX_CELLS: usize = 8_192;

/// The remaining size of a page.
#[derive(Clone, Copy)]
pub(crate) struct PageBudget {
    things: usize,
    cells: usize,
}

impl PageBudget {
    /// Returns the budget of a page with the query's limit.
    pub(crate) fn of(query: &PageQuery) -> PageBudget {
        PageBudget {
            things: query.limit,
            cells: MAX_CELLS,
        }
    }

    fn is_full(&self) -> bool {
        self.things == 0 || self.cells == 0
    }

    fn take(&mut self, cells: usize) {
        self.things = self.things.saturating_sub(1);
        self.cells = self.cells.saturating_sub(cells);
    }
}

/// The first items after a cursor, in their order, and whether these are all of them.
#[derive(Drop)]
pub(crate) struct First<'a, T> {
    pub(crate) found: Vec<&'a T>,
    pub(crate) are_all: bool,
}

// Returns true if a cursor comes after the given one, if any.
fn is_past(after: Option<Cursor>, key: Cursor) -> bool
    ensures { result ≡ is_past after key }
{
    match after {
        None => true,
        Some(after) => key.comes_after(after),
    }
}

/// Returns the first entities after a cursor within the budget, but at least one if there is any.
pub(crate) fn first_entities<'a>(
    alloc: Global,
    entities: &'a Entities,
    after: Option<Cursor>,
    room: &mut PageBudget,
) -> Result<First<'a, Entity>, AllocError>
    ensures { IfOk result (λ first. AreFirst (entities_past after entities.now)
        (map (λ e. e.now) first.found.items) first.are_all) }
{
    let mut found = Vec::new(alloc);
    for entity in entities.iter() {
        if is_past(after, Cursor::of_entity(entity)) {
            if room.is_full() {
                return Ok(First {
                    found,
                    are_all: false,
                });
            }
            room.take(cells_of(entity.volumes.items()));
            found.push(entity)?;
        }
    }
    Ok(First {
        found,
        are_all: true,
    })
}

/// Returns the first subscriptions after a cursor within the budget.
pub(crate) fn first_subs<'a>(
    alloc: Global,
    subscriptions: &'a Subscriptions,
    after: Option<Cursor>,
    room: &mut PageBudget,
) -> Result<First<'a, Sub>, AllocError>
    ensures { IfOk result (λ first. AreFirst (subs_past after subscriptions.now)
        (map (λ s. s.now) first.found.items) first.are_all) }
{
    let mut found = Vec::new(alloc);
    for sub in subscriptions.iter() {
        if is_past(after, Cursor::of_sub(sub)) {
            if room.is_full() {
                return Ok(First {
                    found,
                    are_all: false,
                });
            }
            room.take(sub.volume.cells().len());
            found.push(sub)?;
        }
    }
    Ok(First {
        found,
        are_all: true,
    })
}
