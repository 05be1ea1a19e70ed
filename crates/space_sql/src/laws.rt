//! Laws of spaces over tables. No program calls these functions: they state facts in their
//! contracts.
ghost use Rattle.std.specs.Prelude.{◌≡◌, false};
ghost use Rattle.space_sql.specs.Crash.{LeavesContent, LeavesHeld, LeftIsFound};
ghost use Rattle.space_sql.specs.Found.{NewIsUnmade};
ghost use Rattle.space_sql.specs.OpenResult.{HoldsEachSpelt, OneAirspaceAs};
ghost use Rattle.space_sql.specs.Restart.{LeavesFiles, LeavesTrees, NextRefused, NextRun, RefusedIsFound};

use crate::space::SqlSpace;
use space_core::space::Space;
use space_sql_select::reading::connection_facts;
use sqlite::{Alter, Connection, FileFrom, FileStore, MemStore, Start};
use sqlite_disk::Disk;

/// States that whatever a crash leaves of a space represents an airspace that it holds. If it holds
/// exactly one, a crash leaves that one.
///
/// The clauses of `Space` say which airspaces a space holds after each call, and those of a service
/// say it for its calls.
pub fn crash_leaves_what_is_held<S: Alter>(space: &SqlSpace<S>)
    ensures held { LeavesHeld S.Store space.now }
    ensures content { LeavesContent S.Store space.now }
{
    let _ = space;
}

/// States that a connection that sees what a crash may have left of a space is adopted with exactly
/// one airspace, which the space held. `NotADss` and `Version` do not occur.
///
/// It applies to any result of `SqlSpace::adopt`, by its clauses `taken` and `refused`.
pub fn crash_is_recovered<S: Alter, T: Alter>(before: &SqlSpace<S>, conn: &Connection<T>)
    requires { conn.now.in_transaction ≡ false }
    ensures { LeftIsFound S.Store before.now T.Store ⟦<SqlSpace<T> as Space>⟧ conn.now }
{
    let _ = before;
    connection_facts(conn);
}

/// States that a space over tables in memory is always sound, since it has no disk.
pub fn memory_is_sound(space: &SqlSpace<MemStore>)
    ensures { ⟦<SqlSpace<MemStore> as Space>⟧.is_sound space.now }
{
    let _broken = space.broken;
}

/// Returns the store of a space over files, and writes nothing more.
///
/// What a crash leaves of the two files represents an airspace that the space held. If it held
/// exactly one, it represents that one.
pub fn files_left<S: Start>(space: SqlSpace<FileStore<FileFrom<S>>>) -> FileStore<FileFrom<S>>
    ensures { LeavesFiles space result }
{
    let _broken = space.broken;
    space.release().into_store()
}

/// Returns the store of a connection over files, such as one returned after a fault, and writes
/// nothing more.
///
/// What a crash leaves of the two files is a database that a crash of the connection may have left.
pub fn trees_left<S: Start>(conn: Connection<FileStore<FileFrom<S>>>) -> FileStore<FileFrom<S>>
    ensures { LeavesTrees conn result }
{
    conn.into_store()
}

/// States that a database file without a byte is unmade, whatever its log holds.
pub fn empty_file_has_no_tables()
    ensures { NewIsUnmade }
{}

/// States that a space opened over files that represent an airspace in format 2 holds exactly that
/// airspace. `Store` is the only fault of opening.
///
/// It applies to any result of `SqlSpace::open`, by its clauses `finds` and `refuses`.
pub fn reopen_recovers<S: Alter>()
    ensures { NextRun S.Store ⟦<SqlSpace<S> as Space>⟧ }
{}

/// States that an opening that fails over files that represent an airspace in either format returns
/// `Store`, even if no connection is returned.
///
/// It applies to any result of `SqlSpace::open`, by its clause `refuses`.
pub fn refused_open_keeps_airspace<S: Start>()
    ensures { NextRefused ⟦<FileFrom<S> as Disk>⟧ }
{}

/// States that a failed opening of files that represent an airspace in either format does not lose
/// it. If the opening returned its connection, what a crash then leaves of the files opens with
/// exactly that airspace. An interrupted upgrade of format 1 is one case.
///
/// It applies to the faults of `SqlSpace::open`, by its clause `refuses`, to its results, by its
/// clause `finds`, and to the store that `trees_left` returns.
pub fn refused_is_found<S: Start, T: Alter>()
    ensures { RefusedIsFound ⟦<FileFrom<S> as Disk>⟧ ⟦<SqlSpace<T> as Space>⟧ }
{}

/// States that tables of a format represent at most one airspace, and that a space adopted over
/// them holds exactly that one.
///
/// It applies to any result of `SqlSpace::adopt`, by its clause `taken`.
pub fn one_airspace_as<S: Alter>()
    ensures one { OneAirspaceAs }
    ensures holds { HoldsEachSpelt S.Store ⟦<SqlSpace<S> as Space>⟧ }
{}
