//! The check of the rows of all tables: an airspace, another format, or neither.
ghost use Rattle.std.specs.Prelude.{◌≡◌, ◌↔◌, ◌≤◌, [], ◌∷◌, IfOk, IsTrue};
ghost use Rattle.entity_core.specs.Serial.{max_serial};
ghost use Rattle.space_sql_schema.specs.Spelling.{meta_values};
ghost use Rattle.space_sql_load.specs.Gathering.{Judges, HaveRisingIds};

use crate::entities::entities_in;
use crate::rising::are_rising;
use crate::settings::settings_in;
use crate::subscriptions::subs_in;
use crate::table_check::{LoadedAirspace, TableCheck};
use crate::tables::{Rowids, Tables};
use space_sql_select::meta::{Meta, meta_of};
use sqlite::Error;
use std::alloc::Global;

fn have_rising_ids(alloc: Global, tables: &Tables) -> Result<bool, Error>
    ensures { IfOk result (λ b. IsTrue b ↔ HaveRisingIds tables.now) }
{
    let ids = &tables.rowids;
    if !are_rising(alloc, ids.volumes.as_slice())? {
        return Ok(false);
    }
    if !are_rising(alloc, ids.cells.as_slice())? {
        return Ok(false);
    }
    if !are_rising(alloc, ids.settings.as_slice())? {
        return Ok(false);
    }
    are_rising(alloc, ids.sub_cells.as_slice())
}

fn check_our_tables(alloc: Global, tables: &Tables, serial: u64) -> Result<TableCheck, Error>
    requires meta { tables.now.metas.items ≡ meta_values 2 serial ∷ [] }
    requires most { serial ≤ max_serial }
    ensures { IfOk result (Judges tables.now) }
{
    if !have_rising_ids(alloc, tables)? {
        return Ok(TableCheck::Invalid);
    }
    let Some(known) = subs_in(alloc, serial, &tables.subscriptions)? else {
        return Ok(TableCheck::Invalid);
    };
    let numbers = known.numbers.as_slice();
    let Some(entities) = entities_in(alloc, serial, numbers, &tables.entities)? else {
        return Ok(TableCheck::Invalid);
    };
    match settings_in(alloc, tables.settings.as_slice())? {
        Some(availabilities) => Ok(TableCheck::Valid(LoadedAirspace {
            entities,
            subscriptions: known.subscriptions,
            availabilities,
            serial,
        })),
        None => Ok(TableCheck::Invalid),
    }
}

/// Checks the rows of all tables.
pub fn check_tables(alloc: Global, tables: &Tables) -> Result<TableCheck, Error>
    ensures { IfOk result (Judges tables.now) }
{
    match meta_of(tables.metas.as_slice()) {
        Meta::Ours(serial) => check_our_tables(alloc, tables, serial),
        Meta::Other => Ok(TableCheck::OtherFormat),
        Meta::Neither => Ok(TableCheck::Invalid),
    }
}
