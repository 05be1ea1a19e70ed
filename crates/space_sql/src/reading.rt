//! Reading of all that the tables have, and of the entities of a kind.
ghost use Rattle.std.specs.Prelude.{◌≡◌, false, IfOk};
ghost use Rattle.sqlite.specs.Held.{state};
ghost use Rattle.sqlite.specs.State.{HasCleanDisk};
ghost use Rattle.entity_core.specs.Search.{all_in};
ghost use Rattle.space_sql_load.specs.Checking.{loaded_airspace};
ghost use Rattle.space_sql_select.specs.Reading.{ReadsTables};
ghost use Rattle.space_sql_schema.specs.Spelling.{Spells};
ghost use Rattle.space_sql_schema.specs.Tables.{dss_schema};

use entity_core::entity::Entity;
use entity_core::nature::Kind;
use space_sql_load::reading::read_airspace;
use space_sql_load::table_check::{LoadedAirspace, TableCheck};
use sqlite::{Alter, Connection, Error, ErrorCode};
use std::alloc::Global;

/// Reads all tables. Reports tables that represent no airspace as corrupt.
pub(crate) fn read_loaded<S: Alter>(
    alloc: Global,
    conn: &mut Connection<S>,
) -> Result<LoadedAirspace, Error>
    requires { conn.old.in_transaction ≡ false }
    ensures outside { conn.new.in_transaction ≡ false }
    ensures reads { ReadsTables (state S.Store conn.old) (state S.Store conn.new) result
        (λ a found. loaded_airspace found ≡ a) }
    ensures spelt { HasCleanDisk (state S.Store conn.new)
        → (state S.Store conn.old).now.schema ≡ dss_schema → IfOk result
        (λ found. Spells (state S.Store conn.new).now (loaded_airspace found)) }
{
    match read_airspace(alloc, conn) {
        Ok(TableCheck::Valid(listed)) => Ok(listed),
        Ok(_) => Err(Error::SqliteFailure(ErrorCode::DatabaseCorrupt)),
        Err(error) => Err(error),
    }
}

fn all_among(alloc: Global, listed: &LoadedAirspace, kind: Kind) -> Result<Vec<Entity>, Error>
    ensures { IfOk result (λ found. found.items
        ≡ all_in (loaded_airspace listed.now).entities kind) }
{
    let found = listed.entities.all(alloc, kind)?;
    Ok(found)
}

/// Returns the entities of a kind.
pub(crate) fn read_all<S: Alter>(
    alloc: Global,
    conn: &mut Connection<S>,
    kind: Kind,
) -> Result<Vec<Entity>, Error>
    requires { conn.old.in_transaction ≡ false }
    ensures outside { conn.new.in_transaction ≡ false }
    ensures reads { ReadsTables (state S.Store conn.old) (state S.Store conn.new) result
        (λ a found. found.items ≡ all_in a.entities kind) }
{
    match read_loaded(alloc, conn) {
        Ok(listed) => all_among(alloc, &listed, kind),
        Err(error) => Err(error),
    }
}
