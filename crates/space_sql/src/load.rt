//! Loading of all that a space over tables holds.
ghost use Rattle.std.specs.Prelude.{◌≡◌, false, IfOk, IsTrue};
ghost use Rattle.sqlite.specs.Held.{state};
ghost use Rattle.sqlite.specs.State.{HasCleanDisk};
ghost use Rattle.space_core.specs.Space.{Reads, ReportsFault};
ghost use Rattle.space_sql_load.specs.Checking.{loaded_airspace};
ghost use Rattle.space_sql_select.specs.Reading.{ReadsTables};
ghost use Rattle.space_sql.specs.Holding.{holds_of, is_sound_of, is_whole_of};
ghost use Rattle.space_sql.specs.Load.{IsAllOf};
ghost use Rattle.space_sql_schema.specs.Spelling.{Spells};
ghost use Rattle.space_sql_schema.specs.Tables.{dss_schema};

use crate::answers::answer_of;
use crate::open::memory;
use crate::reading::read_loaded;
use crate::schema::same_schema;
use crate::space::SqlSpace;
use space_core::space::SpaceFault;
use space_sql_load::table_check::LoadedAirspace;
use space_sql_schema::make::make_tables;
use sqlite::{Alter, Connection, Error, ErrorCode};
use sqlite_schema::schema::Schema;
use std::alloc::Global;

/// Returns true only if these are exactly the tables of format 2, as created in memory. It can
/// return false for them, for example if memory runs out.
pub(crate) fn is_ours(alloc: Global, schema: &Schema) -> bool
    ensures { IsTrue result → schema.now ≡ dss_schema }
{
    let Ok(mut made) = memory(alloc) else {
        return false;
    };
    match make_tables(&mut made) {
        Ok(()) => same_schema(schema, made.schema()),
        Err(_) => false,
    }
}

// Reads all tables, if they are exactly those of format 2. Reports others as corrupt, and also
// those that represent no airspace.
fn read_ours<S: Alter>(alloc: Global, conn: &mut Connection<S>) -> Result<LoadedAirspace, Error>
    requires { conn.old.in_transaction ≡ false }
    ensures outside { conn.new.in_transaction ≡ false }
    ensures reads { ReadsTables (state S.Store conn.old) (state S.Store conn.new) result
        (λ a found. loaded_airspace found ≡ a) }
    ensures spelt { HasCleanDisk (state S.Store conn.new) → IfOk result
        (λ found. Spells (state S.Store conn.new).now (loaded_airspace found)) }
{
    if !is_ours(alloc, conn.schema()) {
        return Err(Error::SqliteFailure(ErrorCode::DatabaseCorrupt));
    }
    read_loaded(alloc, conn)
}

impl<S: Alter> SqlSpace<S> {
    /// Returns all that the space holds, as sorted vectors.
    ///
    /// Returns `Unchanged` if the database has tables other than those of format 2, beside them or
    /// in their place.
    pub fn load_airspace(&mut self) -> Result<LoadedAirspace, SpaceFault>
        ensures tells { ReportsFault self.old.refusals self.new.refusals self.old.broken
            self.new.broken
            result }
        ensures reads { Reads (holds_of S.Store) (is_sound_of S.Store) (is_whole_of S.Store)
            self.old self.new result (λ a found. loaded_airspace found ≡ a) }
        ensures all { IfOk result (IsAllOf S.Store self.new) }
    {
        if self.broken {
            return Err(SpaceFault::Broken);
        }
        let read = read_ours(self.alloc, &mut self.conn);
        answer_of(&mut self.conn, &mut self.refusals, &mut self.broken, read)
    }
}
