//! Creation, adoption, opening and closing of a space over tables.
ghost use Rattle.std.specs.Prelude.{◌≡◌, ◌≢◌, codes, false, IfErr, IfOk, IfSome, IsErrAnd, IsTrue};
ghost use Rattle.sqlite.specs.Files.{file_state, over_files};
ghost use Rattle.sqlite.specs.Recovery.{Image};
ghost use Rattle.sqlite.specs.WalFiles.{image_at};
ghost use Rattle.sqlite.specs.Held.{state};
ghost use Rattle.sqlite.specs.State.{HasCleanDisk, Survives};
ghost use Rattle.sqlite.specs.Steps.{IsEmpty, over_memory};
ghost use Rattle.sqlite.specs.declared.error.Error.TheVariants.{SqliteFailure};
ghost use Rattle.sqlite.specs.declared.error.ErrorCode.TheVariants.{NotADatabase};
ghost use Rattle.entity_core.specs.Airspace.{Airspace, empty_at};
ghost use Rattle.space_core.specs.Space.{IsContent};
ghost use Rattle.space_sql_schema.specs.Making.{IsSettled, EmptyIfNoTable};
ghost use Rattle.space_sql_schema.specs.Spelling.{Spells};
ghost use Rattle.space_sql_schema.specs.Presence.{presence_in};
ghost use Rattle.space_sql_schema.specs.Tables.{dss_schema, no_schema};
ghost use Rattle.space_sql_schema.specs.declared.format.Format.{Format};
ghost use Rattle.space_sql_schema.specs.declared.format.Format.TheVariants.{Two};
ghost use Rattle.space_sql_open.specs.Opening.{MayHaveUpgraded, format_before};
ghost use Rattle.space_sql_open.specs.declared.open_fault.OpenFault.TheVariants.{Store, Version};
ghost use Rattle.space_sql.specs.Found.{FindsSpelt, IsOver, RefusesFound};
ghost use Rattle.space_sql.specs.FailedOpen.{RefusesOpening};
ghost use Rattle.space_sql.specs.Load.{IsAllOf};
ghost use Rattle.space_sql.specs.OpenResult.{HoldsEmpty, HoldsSpelt, HoldsSpeltAs, IsDueFault, IsDueFaultAs, IsFresh, IsUnwritten, IsUnwrittenAs, MayBeOpened, finds_first, is_format_1};
ghost use Rattle.space_sql.specs.Closing.{KeepsFiles};
ghost use Rattle.space_sql.specs.Restart.{ClosesFiles};

use crate::answers::at_rest;
use crate::failed_open::FailedOpen;
use crate::left_files::close_connection;
use crate::load::is_ours;
use crate::space::SqlSpace;
use space_core::space::{Space, SpaceFault};
use space_sql_load::table_check::LoadedAirspace;
use space_sql_open::checking::{check_format_2, partial_schema_fault};
use space_sql_open::old_format::OldFormat;
use space_sql_open::open_fault::OpenFault;
use space_sql_open::upgrading::upgrade_format;
use space_sql_schema::format::Format;
use space_sql_schema::make::make_tables;
use space_sql_schema::presence::{Presence, presence_of};
use sqlite::{Alter, Connection, Error, ErrorCode, FileFrom, FileStore, Files, MemStore, Start};
use std::alloc::Global;
use std::io::Read;
use std::{fs, io};

// Returns a space over a connection outside a transaction, whose tables represent an airspace.
fn space_over<S: Alter>(alloc: Global, conn: Connection<S>, upgraded: bool) -> SqlSpace<S>
    requires outside { conn.in_transaction ≡ false }
    requires open { HasCleanDisk (state S.Store conn) → IsTrue (state S.Store conn).is_open }
    ensures same { result.conn ≡ conn }
    ensures fresh { IsFresh S.Store ⟦<SqlSpace<S> as Space>⟧ result }
    ensures told { result.upgraded ≡ upgraded }
    ensures content { ⟦<SqlSpace<S> as Space>⟧.is_sound result → IsSettled (state S.Store conn)
        → (a : Airspace) → Spells (state S.Store conn).now a
        → IsContent ⟦<SqlSpace<S> as Space>⟧.holds result a }
{
    at_rest(&conn);
    SqlSpace {
        conn,
        refusals: 0,
        broken: false,
        upgraded,
        alloc,
    }
}

/// A space over a connection, with the airspace of its tables if it was loaded; or a fault, with
/// the returned connection.
pub type AdoptResult<S> = Result<(SqlSpace<S>, Option<LoadedAirspace>), (OpenFault, Connection<S>)>;

// Creates the tables in a database that has none of them.
fn make_new<S: Alter>(alloc: Global, mut conn: Connection<S>) -> AdoptResult<S>
    requires { conn.in_transaction ≡ false }
    ensures clean { IfOk result (λ t. HasCleanDisk (state S.Store t.0.conn)
        → HasCleanDisk (state S.Store conn)) }
    ensures fresh { IfOk result (λ t. IsFresh S.Store ⟦<SqlSpace<S> as Space>⟧ t.0) }
    ensures made { IfOk result
        (λ t. HoldsEmpty ⟦<SqlSpace<S> as Space>⟧ (state S.Store conn) t.0) }
    ensures new { IfOk result (λ t. t.0.upgraded ≡ false) }
    ensures all { IfOk result (λ t. (state S.Store conn).now.schema ≡ dss_schema
        → IfSome t.1 (IsAllOf S.Store t.0)) }
    ensures store { IfErr result (λ e. e.0 ≡ OpenFault.Store) }
    ensures back { IfErr result (λ e. e.1.in_transaction ≡ false) }
    ensures left { IfErr result (λ e. Survives (state S.Store conn) (state S.Store e.1)
        (EmptyIfNoTable (state S.Store conn))) }
{
    match make_tables(&mut conn) {
        Ok(()) => Ok((space_over(alloc, conn, false), None)),
        Err(_) => Err((OpenFault::Store, conn)),
    }
}

// Adopts tables of format 2 as they are.
fn adopt_format_2<S: Alter>(alloc: Global, mut conn: Connection<S>) -> AdoptResult<S>
    requires { conn.in_transaction ≡ false }
    ensures clean { IfOk result (λ t. HasCleanDisk (state S.Store t.0.conn)
        → HasCleanDisk (state S.Store conn)) }
    ensures fresh { IfOk result (λ t. IsFresh S.Store ⟦<SqlSpace<S> as Space>⟧ t.0) }
    ensures taken { IfOk result
        (λ t. HoldsSpeltAs Two ⟦<SqlSpace<S> as Space>⟧ (state S.Store conn) t.0) }
    ensures same { IfOk result (λ t. t.0.upgraded ≡ false) }
    ensures all { IfOk result (λ t. (state S.Store conn).now.schema ≡ dss_schema
        → IfSome t.1 (IsAllOf S.Store t.0)) }
    ensures refused { IfErr result
        (λ e. IsDueFaultAs Two (state S.Store conn) (state S.Store e.1) e.0) }
    ensures back { IfErr result (λ e. e.1.in_transaction ≡ false) }
    ensures unwritten { IfErr result
        (λ e. IsUnwrittenAs Two (state S.Store conn) (state S.Store e.1) e.0) }
    ensures left { IfErr result (λ e.
        Survives (state S.Store conn) (state S.Store e.1) (λ _. ⊥)) }
{
    match check_format_2(alloc, &mut conn) {
        Ok(loaded) => Ok((space_over(alloc, conn, false), loaded)),
        Err(fault) => Err((fault, conn)),
    }
}

fn is_format_1(from: OldFormat) -> bool
    ensures { result ≡ is_format_1 from }
{
    match from {
        OldFormat::One | OldFormat::OldOne => true,
        OldFormat::TwoUnindexed | OldFormat::OldTwoUnindexed | OldFormat::OldTwo => false,
    }
}

// Upgrades tables of an old format to format 2, and adopts them.
fn adopt_old<S: Alter>(alloc: Global, mut conn: Connection<S>, from: OldFormat) -> AdoptResult<S>
    requires { conn.in_transaction ≡ false }
    ensures clean { IfOk result (λ t. HasCleanDisk (state S.Store t.0.conn)
        → HasCleanDisk (state S.Store conn)) }
    ensures fresh { IfOk result (λ t. IsFresh S.Store ⟦<SqlSpace<S> as Space>⟧ t.0) }
    ensures taken { IfOk result
        (λ t. HoldsSpeltAs (format_before from) ⟦<SqlSpace<S> as Space>⟧
        (state S.Store conn) t.0) }
    ensures upgraded { IfOk result (λ t. t.0.upgraded ≡ is_format_1 from) }
    ensures all { IfOk result (λ t. (state S.Store conn).now.schema ≡ dss_schema
        → IfSome t.1 (IsAllOf S.Store t.0)) }
    ensures refused { IfErr result
        (λ e. IsDueFaultAs (format_before from) (state S.Store conn) (state S.Store e.1) e.0) }
    ensures back { IfErr result (λ e. e.1.in_transaction ≡ false) }
    ensures unwritten { IfErr result
        (λ e. IsUnwrittenAs (format_before from) (state S.Store conn) (state S.Store e.1) e.0) }
    ensures left { IfErr result (λ e. Survives (state S.Store conn) (state S.Store e.1)
        (λ trees. (e.0 ≡ OpenFault.Store) × MayHaveUpgraded from (state S.Store conn) trees)) }
{
    match upgrade_format(alloc, &mut conn, from) {
        Ok(()) => Ok((space_over(alloc, conn, is_format_1(from)), None)),
        Err(fault) => Err((fault, conn)),
    }
}

// Returns why a database with only some of the tables is rejected, with its connection.
fn refused<S: Alter>(mut conn: Connection<S>) -> (OpenFault, Connection<S>)
    requires { conn.in_transaction ≡ false }
    ensures back { result.1.in_transaction ≡ false }
    ensures left { Survives (state S.Store conn) (state S.Store result.1) (λ _. ⊥) }
{
    let fault = partial_schema_fault(&mut conn);
    (fault, conn)
}

impl<S: Alter> SqlSpace<S> {
    /// Adopts a connection that is outside a transaction.
    ///
    /// If it has none of the tables, they are created. Tables of format 1 are upgraded to format 2,
    /// in one transaction, with the same airspace. Tables of format 2 that lack the index on
    /// `naming` get it in the same way, and tables in the old order are created anew. If the tables
    /// were complete, of format 2 and in the new order, the loaded airspace is returned with the
    /// space. If memory runs out for that airspace, `None` is returned in its place, and the tables
    /// are checked in ranges of numbers. The contract says that the airspace is all that the space
    /// holds only if the tables are exactly as `make_tables` creates them.
    ///
    /// Returns `Version` if `meta` has one row, of a format that is neither 1 nor 2. Otherwise
    /// returns `NotADss` if only some of the tables exist or their rows represent no airspace.
    /// After a fault the connection is returned. After `NotADss` and `Version` nothing was written.
    /// After `Store` the tables are as before, or as this call would have created them.
    pub fn adopt(alloc: Global, conn: Connection<S>) -> AdoptResult<S>
        requires { conn.in_transaction ≡ false }
        ensures clean { IfOk result (λ t. HasCleanDisk (state S.Store t.0.conn)
            → HasCleanDisk (state S.Store conn)) }
        ensures fresh { IfOk result (λ t. IsFresh S.Store ⟦<SqlSpace<S> as Space>⟧ t.0) }
        ensures made { IfOk result
            (λ t. HoldsEmpty ⟦<SqlSpace<S> as Space>⟧ (state S.Store conn) t.0) }
        ensures taken { IfOk result
            (λ t. HoldsSpelt ⟦<SqlSpace<S> as Space>⟧ (state S.Store conn) t.0) }
        ensures upgraded { IfOk result (λ t.
            t.0.upgraded ≡ finds_first (presence_in (state S.Store conn).now.schema)) }
        ensures all { IfOk result (λ t. (state S.Store conn).now.schema ≡ dss_schema
            → IfSome t.1 (IsAllOf S.Store t.0)) }
        ensures new { IfErr result (λ e. (state S.Store conn).now.schema ≡ no_schema
            → e.0 ≡ OpenFault.Store) }
        ensures refused { IfErr result
            (λ e. IsDueFault (state S.Store conn) (state S.Store e.1) e.0) }
        ensures unwritten { IfErr result
            (λ e. IsUnwritten (state S.Store conn) (state S.Store e.1) e.0) }
        ensures left { IfErr result (λ e. Survives (state S.Store conn) (state S.Store e.1)
            (MayBeOpened (state S.Store conn) e.0)) }
        ensures back { IfErr result (λ e. e.1.in_transaction ≡ false) }
    {
        match presence_of(conn.schema()) {
            Presence::Missing => make_new(alloc, conn),
            Presence::Whole(Format::One) => adopt_old(alloc, conn, OldFormat::One),
            Presence::Whole(Format::TwoUnindexed) => {
                adopt_old(alloc, conn, OldFormat::TwoUnindexed)
            }
            Presence::Whole(Format::Two) => adopt_format_2(alloc, conn),
            Presence::Whole(Format::OldOne) => adopt_old(alloc, conn, OldFormat::OldOne),
            Presence::Whole(Format::OldTwoUnindexed) => {
                adopt_old(alloc, conn, OldFormat::OldTwoUnindexed)
            }
            Presence::Whole(Format::OldTwo) => adopt_old(alloc, conn, OldFormat::OldTwo),
            Presence::Partial => Err(refused(conn)),
        }
    }

    /// Returns true if the tables were those of format 1 when they were adopted.
    pub fn upgraded(&self) -> bool
        ensures { result ≡ self.now.upgraded }
    {
        self.upgraded
    }

    /// Returns the connection as it is.
    pub fn release(self) -> Connection<S>
        ensures same { result ≡ self.conn }
        ensures outside { result.in_transaction ≡ false }
    {
        let SqlSpace {
            conn,
            refusals: _,
            broken: _,
            upgraded: _,
            alloc: _,
        } = self;
        conn
    }
}

// Adopts a connection that was opened over files, whatever their content.
fn adopt_tables<S: Alter>(alloc: Global, conn: Connection<S>) -> AdoptResult<S>
    requires { conn.in_transaction ≡ false }
    ensures fresh { IfOk result (λ t. IsFresh S.Store ⟦<SqlSpace<S> as Space>⟧ t.0) }
    ensures all { IfOk result (λ t. (state S.Store conn).now.schema ≡ dss_schema
        → IfSome t.1 (IsAllOf S.Store t.0)) }
    ensures finds { (image : Image) → IsOver image (state S.Store conn)
        → IfOk result (λ t. FindsSpelt image ⟦<SqlSpace<S> as Space>⟧ t.0) }
    ensures refuses { (image : Image) → IsOver image (state S.Store conn)
        → IfErr result (λ e. RefusesFound image (state S.Store e.1) e.0) }
{
    at_rest(&conn);
    SqlSpace::adopt(alloc, conn)
}

// Adopts a connection, and returns all that the space then holds if its tables are as created.
fn adopt_loaded<S: Alter>(alloc: Global, conn: Connection<S>) -> AdoptResult<S>
    requires { conn.in_transaction ≡ false }
    ensures fresh { IfOk result (λ t. IsFresh S.Store ⟦<SqlSpace<S> as Space>⟧ t.0) }
    ensures all { IfOk result (λ t. IfSome t.1 (IsAllOf S.Store t.0)) }
    ensures finds { (image : Image) → IsOver image (state S.Store conn)
        → IfOk result (λ t. FindsSpelt image ⟦<SqlSpace<S> as Space>⟧ t.0) }
    ensures refuses { (image : Image) → IsOver image (state S.Store conn)
        → IfErr result (λ e. RefusesFound image (state S.Store e.1) e.0) }
{
    if is_ours(alloc, conn.schema()) {
        return adopt_tables(alloc, conn);
    }
    match adopt_tables(alloc, conn) {
        Ok((space, _)) => Ok((space, None)),
        Err(refused) => Err(refused),
    }
}

// Returns a database in memory, without a table.
pub(crate) fn memory(alloc: Global) -> Result<Connection<MemStore>, OpenFault>
    ensures empty { IfOk result (λ conn. IsEmpty (state over_memory conn)) }
    ensures store { IfErr result (λ fault. fault ≡ OpenFault.Store) }
{
    match Connection::open_in_memory(alloc) {
        Ok(conn) => Ok(conn),
        Err(_) => Err(OpenFault::Store),
    }
}

impl SqlSpace<MemStore> {
    /// Returns an empty airspace in memory.
    ///
    /// Its only fault is `Store`.
    pub fn create(alloc: Global) -> Result<SqlSpace<MemStore>, OpenFault>
        ensures sound { IfOk result ⟦<SqlSpace<MemStore> as Space>⟧.is_sound }
        ensures content { IfOk result (λ s.
            IsContent ⟦<SqlSpace<MemStore> as Space>⟧.holds s (empty_at 0)) }
        ensures fresh { IfOk result (λ s. (⟦<SqlSpace<MemStore> as Space>⟧.refusals s ≡ 0)
            × (⟦<SqlSpace<MemStore> as Space>⟧.is_broken s ≡ false)) }
        ensures store { IfErr result (λ fault. fault ≡ OpenFault.Store) }
    {
        match make_new(alloc, memory(alloc)?) {
            Ok((space, _)) => Ok(space),
            Err((fault, _)) => Err(fault),
        }
    }
}

// Returns true if a file starts like a database of SQLite.
fn begins_as_database(rt: &HostRuntime, path: &str) -> io::Result<bool> {
    let mut head = [0; 16];
    let mut file = fs::File::open(rt, path)?;
    file.read_exact(&mut head)?;
    Ok(head == *b"SQLite format 3\0")
}

// Returns why a file was not opened. `sqlite` opens no database whose rows break a rule of their
// tables, for example by referring to a missing table. Such a database represents no airspace.
fn unopened(rt: &HostRuntime, path: &str, error: &Error) -> OpenFault
    ensures store { error.now ≢ SqliteFailure NotADatabase → result ≡ Store }
    ensures unread { result ≢ Version }
{
    match error {
        Error::SqliteFailure(ErrorCode::NotADatabase) => match begins_as_database(rt, path) {
            Ok(true) => OpenFault::NotADss,
            Ok(false) => OpenFault::Store,
            Err(_) => OpenFault::Store,
        },
        _ => OpenFault::Store,
    }
}

// Opens the file, or creates it.
fn file<S: Start>(
    rt: &HostRuntime,
    path: &str,
    start: S,
) -> Result<Connection<FileStore<FileFrom<S>>>, (OpenFault, FailedOpen<FileFrom<S>>)>
    ensures outside { IfOk result (λ conn. conn.in_transaction ≡ false) }
    ensures memory { path.now ≡ codes ":memory:"
        → IsErrAnd result (λ e. e.0 ≡ OpenFault.Store) }
    ensures opened { IfOk result (λ conn. IsOver (image_at S.Start) (file_state conn)) }
    ensures refuses { IfErr result (λ e. RefusesOpening (image_at S.Start) e.1 e.0) }
{
    match Connection::open_from(rt, path, false, start) {
        Ok(conn) => Ok(conn),
        Err((error, None)) => Err((unopened(rt, path, &error), FailedOpen::Nothing)),
        Err((error, Some(left))) => Err((unopened(rt, path, &error), FailedOpen::Files(left))),
    }
}

/// A space over a file, with all that it holds if that was loaded; or a fault, with the state of
/// the files.
pub type OpenResult<S> = Result<
    (SqlSpace<FileStore<FileFrom<S>>>, Option<LoadedAirspace>),
    (OpenFault, FailedOpen<FileFrom<S>>),
>;

impl<S: Start> SqlSpace<FileStore<FileFrom<S>>> {
    /// Opens a file, or creates it, and adopts its content (`adopt`).
    ///
    /// `S` stands for the content of the file and its log. No clause ties it to the name. The name
    /// `:memory:` is rejected. All that the space holds is returned with it, unless the tables were
    /// created or upgraded, or are not as created, or memory ran out for it.
    pub fn open(rt: &HostRuntime, path: &str, start: S) -> OpenResult<S>
        ensures fresh { IfOk result (λ t.
            IsFresh over_files ⟦<SqlSpace<FileStore<FileFrom<S>>> as Space>⟧ t.0) }
        ensures finds { IfOk result (λ t. FindsSpelt (image_at S.Start)
            ⟦<SqlSpace<FileStore<FileFrom<S>>> as Space>⟧ t.0) }
        ensures all { IfOk result (λ t. IfSome t.1 (IsAllOf over_files t.0)) }
        ensures refuses { IfErr result (λ e. RefusesOpening (image_at S.Start) e.1 e.0) }
        ensures memory { path.now ≡ codes ":memory:"
            → IsErrAnd result (λ e. e.0 ≡ OpenFault.Store) }
    {
        let conn = match file(rt, path, start) {
            Ok(conn) => conn,
            Err(refused) => return Err(refused),
        };
        match adopt_loaded(rt.alloc(), conn) {
            Ok(taken) => Ok(taken),
            Err((fault, conn)) => Err((fault, FailedOpen::Connection(conn))),
        }
    }

    /// Closes the files and returns them.
    ///
    /// Returns `Broken` if that fails, with the store that is left of the files. A crash then
    /// leaves of them only what the space held.
    pub fn close_files(self) -> Result<Files<FileFrom<S>>, (SpaceFault, FileStore<FileFrom<S>>)>
        ensures broken { IfErr result (λ e. e.0 ≡ SpaceFault.Broken) }
        ensures closed { IfOk result (λ files. ClosesFiles self files) }
        ensures left { IfErr result (λ e. KeepsFiles self e.1) }
    {
        let _broken = self.broken;
        match close_connection(self.release()) {
            Ok(files) => Ok(files),
            Err(store) => Err((SpaceFault::Broken, store)),
        }
    }
}
