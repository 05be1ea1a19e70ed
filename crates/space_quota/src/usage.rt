//! Usage: the amount of stored data.
ghost use Rattle.std.specs.Prelude.{◌↔◌, IsTrue};
ghost use Rattle.space_quota.specs.QuotaSpace.{IsWithin, max_cells};

use entity_core::entity::Entity;
use entity_core::subscription::Sub;
use grid_core::volume::Volume;

/// The amount of stored data: entities and subscriptions, and the cells of all their volumes.
///
/// A cell in two volumes counts twice, since it is stored twice. Counts stop at their maximum.
#[derive(Clone, Copy, Debug)]
pub(crate) struct Usage {
    pub things: u64,
    pub cells: u64,
}

fn cells_of(volumes: &[Volume]) -> u64 {
    let mut cells = 0u64;
    for volume in volumes {
        cells = cells.saturating_add(volume.cells().len() as u64);
    }
    cells
}

impl Usage {
    pub(crate) fn nothing() -> Usage {
        Usage {
            things: 0,
            cells: 0,
        }
    }

    pub(crate) fn of_entity(entity: &Entity) -> Usage {
        Usage {
            things: 1,
            cells: cells_of(entity.volumes.items()),
        }
    }

    pub(crate) fn of_sub(sub: &Sub) -> Usage {
        Usage {
            things: 1,
            cells: sub.volume.cells().len() as u64,
        }
    }

    pub(crate) fn with(self, more: Usage) -> Usage {
        Usage {
            things: self.things.saturating_add(more.things),
            cells: self.cells.saturating_add(more.cells),
        }
    }

    pub(crate) fn without(self, less: Usage) -> Usage {
        Usage {
            things: self.things.saturating_sub(less.things),
            cells: self.cells.saturating_sub(less.cells),
        }
    }

    /// Returns true if each count is at most its quota or at most its previous value.
    ///
    /// The quota is `most` entities and subscriptions, and 64 cells for each of them.
    pub(crate) fn is_within(self, most: u32, before: Usage) -> bool
        ensures { IsTrue result ↔ IsWithin most before self }
    {
        let things = u64::from(most);
        let cells = things * 64;
        (self.things <= things || self.things <= before.things)
            && (self.cells <= cells || self.cells <= before.cells)
    }
}
