//! The entities and the subscriptions with the numbers that the index finds.
ghost use Rattle.std.specs.Prelude.{◌≡◌, ℤ, List, []};
ghost use Rattle.sqlite.specs.Effect.{Database};
ghost use Rattle.space_sql_schema.specs.Within.{SameConnection, Within};
ghost use Rattle.space_sql_select.specs.Reading.{Reads};
ghost use Rattle.space_sql_search.specs.declared.cell_table.CellTable.{CellTable};
ghost use Rattle.space_sql_search.specs.Candidates.{AddsNumbered, HoldsFound};

use crate::cell_table::CellTable;
use crate::numbers::find_numbers;
use crate::search_ranges::SearchRanges;
use entity_maps::entities::Entities;
use entity_maps::subscriptions::Subscriptions;
use space_sql_lookup::entity::read_entity_by_num;
use space_sql_lookup::subscription::read_sub_by_num;
use sqlite::{Alter, Error, Transaction};
use std::alloc::Global;

/// Items with rows and cells in the tables, each with a number: entities or subscriptions.
pub(crate) trait Candidates: Drop {
    /// The table of their cells.
    ghost cells: { CellTable };

    /// Holds if they are some of the items that the tables represent, and all with one of the
    /// numbers.
    ghost holds: { List ℤ → Database → Self → Type 0 };

    /// Returns the table of their cells.
    fn cell_table() -> CellTable
        ensures { result ≡ cells };

    /// Returns an empty collection.
    fn none(alloc: Global) -> Self
        ensures { (db : Database) → holds [] db result };

    /// Reads the item with a number, if there is one, and adds it.
    fn add<S: Alter>(
        &mut self,
        alloc: Global,
        tx: &mut Transaction<'_, S>,
        num: i64,
    ) -> Result<(), Error>
        ensures same_reference { SameConnection tx.old tx.new }
        ensures adds { Within S.Store tx.old tx.new
            (Reads (λ db _. AddsNumbered holds num db self.old self.new)) result };
}

impl Candidates for Entities {
    ghost use Rattle.space_sql_search.specs.declared.cell_table.CellTable.TheVariants.{OfEntities};
    ghost use Rattle.space_sql_search.specs.Candidates.{HoldsEntities};

    ghost cells = { OfEntities };

    ghost holds = { HoldsEntities };

    fn cell_table() -> CellTable {
        CellTable::OfEntities
    }

    fn none(alloc: Global) -> Entities {
        Entities::new(alloc)
    }

    fn add<S: Alter>(
        &mut self,
        alloc: Global,
        tx: &mut Transaction<'_, S>,
        num: i64,
    ) -> Result<(), Error> {
        match read_entity_by_num(alloc, tx, num)? {
            Some(entity) => Ok(self.put(entity)?),
            None => Ok(()),
        }
    }
}

impl Candidates for Subscriptions {
    ghost use Rattle.space_sql_search.specs.declared.cell_table.CellTable.TheVariants.{OfSubscriptions};
    ghost use Rattle.space_sql_search.specs.Candidates.{HoldsSubs};

    ghost cells = { OfSubscriptions };

    ghost holds = { HoldsSubs };

    fn cell_table() -> CellTable {
        CellTable::OfSubscriptions
    }

    fn none(alloc: Global) -> Subscriptions {
        Subscriptions::new(alloc)
    }

    fn add<S: Alter>(
        &mut self,
        alloc: Global,
        tx: &mut Transaction<'_, S>,
        num: i64,
    ) -> Result<(), Error> {
        match read_sub_by_num(alloc, tx, num)? {
            Some(sub) => Ok(self.put(sub)?),
            None => Ok(()),
        }
    }
}

fn read_all<C: Candidates, S: Alter>(
    alloc: Global,
    tx: &mut Transaction<'_, S>,
    numbers: &[i64],
) -> Result<C, Error>
    ensures same_reference { SameConnection tx.old tx.new }
    ensures reads { Within S.Store tx.old tx.new (Reads (C.holds numbers.now)) result }
{
    let mut found = C::none(alloc);
    for num in numbers {
        found.add(alloc, tx, *num)?;
    }
    Ok(found)
}

/// Returns the items that the index finds, each read once, by its number.
pub(crate) fn read_candidates<C: Candidates, S: Alter>(
    alloc: Global,
    tx: &mut Transaction<'_, S>,
    searched: &SearchRanges,
) -> Result<C, Error>
    ensures same_reference { SameConnection tx.old tx.new }
    ensures reads { Within S.Store tx.old tx.new
        (Reads (HoldsFound C.cells searched.now C.holds)) result }
{
    let numbers = find_numbers(alloc, tx, C::cell_table(), searched)?;
    read_all(alloc, tx, numbers.as_slice())
}
