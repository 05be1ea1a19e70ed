//! The commands over a database, whose files are opened first and closed last. Their contracts
//! cover any contents of the file and its log, which `Start` represents.
ghost use Rattle.std.specs.Prelude.{◌≡◌, ◌⊎◌, IfErr, IfOk, IfSome, IsSome, OnOk};
ghost use Rattle.sqlite.specs.Files.{over_files};
ghost use Rattle.sqlite.specs.WalFiles.{image_at};
ghost use Rattle.space_sql.specs.Found.{FindsSpelt};
ghost use Rattle.space_sql.specs.Load.{IsAllOf};
ghost use Rattle.token_conf.specs.TokenFile.{salt_of};
ghost use Rattle.wire_http.specs.Counted.{inner_of};
ghost use Rattle.dss_command.specs.Service.{setup_in};
ghost use Rattle.dss_command.specs.Stream.{ServesOver, ServesPartOver};
ghost use Rattle.dss_command.specs.declared.fault.Fault.TheVariants.{DatabaseFailed, Memory, Output};
ghost use Rattle.dss_database.specs.Files.{ClosesServed, EndsClosing, IsOfDatabase};
ghost use Rattle.dss_database.specs.Files.{KeepsAirspace, KeepsAirspaceIn, RefusesDatabase};
ghost use Rattle.dss_database.specs.Files.{ReportsFiles, ReportsSpace, ServesClosing, ServesMirrored};
ghost use Rattle.dss_database.specs.Files.{PurgesFiles, PurgesPartly, UpgradesFiles};
ghost use Rattle.dss_command.specs.Purging.{PurgesSpace};

use crate::failure::Failure;
use crate::file_backups::for_any_backend;
use crate::with_mirror::with_mirror;
use database_backend::database::Database;
use dss_command::clients::{ServeConfig, serve_port};
use dss_command::fault::Fault;
use dss_command::ports::Listen;
use dss_command::print;
use dss_command::print::{put_format, put_purged};
use dss_command::purge::purge_space;
use dss_command::purged::PurgeCounts;
use dss_command::request_log::LogFile;
use dss_command::stream::serve_stream_over;
use entity_core::salt::Salt;
use server_backend::backend::Backend;
use server_base::backups::MakeBackups;
use server_watch::token_watch::{TokenSource, TokenWatch};
use space_core::space::{Space, SpaceFault};
use space_mirror::mirrored::Mirrored;
use space_quota::quota_space::QuotaSpace;
use space_quota::usage_table::UsageTable;
use space_sql::left_files::LeftFiles;
use space_sql::space::SqlSpace;
use space_sql_load::table_check::LoadedAirspace;
use sqlite::{Alter, FileFrom, FileStore, Files, Start};
use sqlite_disk::Disk;
use std::alloc::Global;
use std::io::{Read, Write};
use token_conf::token_table::TokenTable;
use wire_http::{Counted, Moments};

/// Opens the database in the file of that name, with everything that it holds if that was read.
/// After a fault, closes what it opened, and returns what is left of the files.
pub fn open_database<F: Start>(
    rt: &HostRuntime,
    name: &str,
    start: F,
) -> Result<(SqlSpace<FileStore<FileFrom<F>>>, Option<LoadedAirspace>), Failure<FileFrom<F>>>
    ensures finds { IfOk result (λ t. FindsSpelt (image_at F.Start)
        ⟦<SqlSpace<FileStore<FileFrom<F>>> as Space>⟧ t.0) }
    ensures all { IfOk result (λ t. IfSome t.1 (IsAllOf over_files t.0)) }
    ensures refused { IfErr result (RefusesDatabase (image_at F.Start)) }
{
    match SqlSpace::open(rt, name, start) {
        Ok(taken) => Ok(taken),
        Err((fault, remains)) => Err(Failure {
            fault: Fault::Database(fault),
            left: remains.close(),
        }),
    }
}

/// Closes the database of a command with that result. A fault of the work takes precedence over one
/// of the close. Either comes with what is left of the files.
pub fn close_database<F: Start>(
    done: Result<(), Fault>,
    space: SqlSpace<FileStore<FileFrom<F>>>,
) -> Result<Files<FileFrom<F>>, Failure<FileFrom<F>>>
    ensures { EndsClosing done space result }
{
    match (space.close_files(), done) {
        (Ok(files), Ok(())) => Ok(files),
        (Ok(files), Err(fault)) => Err(Failure {
            fault,
            left: LeftFiles::Closed(files),
        }),
        (Err((_, store)), Ok(())) => Err(Failure {
            fault: Fault::DatabaseFailed,
            left: LeftFiles::Unclosed(store),
        }),
        (Err((_, store)), Err(fault)) => Err(Failure {
            fault,
            left: LeftFiles::Unclosed(store),
        }),
    }
}

/// Prints the report of tables in some store. It is generic in the store, because proofs over the
/// store of a file are expensive.
pub(crate) fn report_tables<A: Alter + Drop, W: Write>(
    alloc: Global,
    space: &mut SqlSpace<A>,
    places: bool,
    output: &mut W,
) -> Result<(), Fault>
    ensures { ReportsSpace ⟦<SqlSpace<A> as Space>⟧ places
        (W.contents output.old) (W.contents output.new) space.old space.new result }
{
    print::report(alloc, space, places, output)
}

/// Runs the command `report`: prints the report of the airspace in the file of that name, or the
/// cells of its references.
pub fn report<F: Start, W: Write>(
    rt: &HostRuntime,
    name: &str,
    start: F,
    places: bool,
    output: &mut W,
) -> Result<Files<FileFrom<F>>, Failure<FileFrom<F>>>
    ensures reported { IfOk result (ReportsFiles ⟦<FileFrom<F> as Disk>⟧ (image_at F.Start) places
        (W.contents output.old) (W.contents output.new)) }
    ensures left { IfErr result (λ failure. RefusesDatabase (image_at F.Start) failure
        ⊎ KeepsAirspaceIn (image_at F.Start) failure.left) }
    ensures told { IfErr result (λ failure.
        IsOfDatabase failure.fault ⊎ (failure.fault ≡ Memory) ⊎ (failure.fault ≡ Output)) }
{
    let (mut space, _) = open_database(rt, name, start)?;
    let done = report_tables(rt.alloc(), &mut space, places, output);
    close_database(done, space)
}

/// Runs the command `upgrade`: opens the database in the file of that name, which upgrades it,
/// closes it, and then prints its previous format.
pub fn upgrade<F: Start, W: Write>(
    rt: &HostRuntime,
    name: &str,
    start: F,
    output: &mut W,
) -> Result<Files<FileFrom<F>>, Failure<FileFrom<F>>>
    ensures upgraded { IfOk result (UpgradesFiles ⟦<FileFrom<F> as Disk>⟧ (image_at F.Start)
        (W.contents output.old) (W.contents output.new)) }
    ensures left { IfErr result (λ failure. RefusesDatabase (image_at F.Start) failure
        ⊎ KeepsAirspaceIn (image_at F.Start) failure.left) }
    ensures told { IfErr result (λ failure. (IsOfDatabase failure.fault × (output.new ≡ output.old))
        ⊎ (failure.fault ≡ Output)) }
{
    let (space, _) = open_database(rt, name, start)?;
    let upgraded = space.upgraded();
    let files = close_database(Ok(()), space)?;
    match put_format(upgraded, output) {
        Ok(()) => Ok(files),
        Err(fault) => Err(Failure {
            fault,
            left: LeftFiles::Closed(files),
        }),
    }
}

/// Opens and closes the database in the file of that name for a backup, so that the file contains
/// everything without its log. No other program opens the database until the files are dropped.
pub fn checkpoint_database<F: Start>(
    rt: &HostRuntime,
    name: &str,
    start: F,
) -> Result<Files<FileFrom<F>>, Failure<FileFrom<F>>>
    ensures kept { IfOk result (KeepsAirspace ⟦<FileFrom<F> as Disk>⟧ (image_at F.Start)) }
    ensures left { IfErr result (λ failure. RefusesDatabase (image_at F.Start) failure
        ⊎ KeepsAirspaceIn (image_at F.Start) failure.left) }
    ensures told { IfErr result (λ failure. IsOfDatabase failure.fault) }
{
    let (space, _) = open_database(rt, name, start)?;
    close_database(Ok(()), space)
}

// Purges tables in some store through a mirror.
fn purged_with_mirror<A: Alter + Drop>(
    alloc: Global,
    space: SqlSpace<A>,
    loaded: Option<LoadedAirspace>,
    until: u64,
) -> (Result<PurgeCounts, SpaceFault>, SqlSpace<A>)
    requires { IfSome loaded (IsAllOf A.Store space) }
    ensures { PurgesSpace ⟦<SqlSpace<A> as Space>⟧ until space result.1 result.0 }
{
    let mut grouped = with_mirror(alloc, space, loaded, &mut None);
    let done = purge_space(&mut grouped, until);
    (done, grouped.into_store())
}

/// Runs the command `purge`: purges the airspace in the file of that name up to a time in Unix
/// seconds, closes the file, and then prints how much was purged. After a fault, part of it may be
/// purged.
pub fn purge<F: Start, W: Write>(
    rt: &HostRuntime,
    name: &str,
    start: F,
    until: u64,
    output: &mut W,
) -> Result<Files<FileFrom<F>>, Failure<FileFrom<F>>>
    ensures purged { IfOk result (PurgesFiles ⟦<FileFrom<F> as Disk>⟧ (image_at F.Start) until
        (W.contents output.old) (W.contents output.new)) }
    ensures partly { IfErr result (λ failure. RefusesDatabase (image_at F.Start) failure
        ⊎ PurgesPartly ⟦<SqlSpace<FileStore<FileFrom<F>>> as Space>⟧ (image_at F.Start) until
        failure.left) }
    ensures told { IfErr result (λ failure. (IsOfDatabase failure.fault × (output.new ≡ output.old))
        ⊎ (failure.fault ≡ Output)) }
{
    let (space, loaded) = open_database(rt, name, start)?;
    let (done, space) = purged_with_mirror(rt.alloc(), space, loaded, until);
    match done {
        Ok(purged) => {
            let files = close_database(Ok(()), space)?;
            match put_purged(purged, output) {
                Ok(()) => Ok(files),
                Err(fault) => Err(Failure {
                    fault,
                    left: LeftFiles::Closed(files),
                }),
            }
        }
        Err(_) => close_database(Err(Fault::DatabaseFailed), space),
    }
}

// Serves one stream over tables in some store.
fn served<A: Alter + Drop, R: Read, W: Write>(
    alloc: Global,
    space: SqlSpace<A>,
    salt: Salt,
    tokens: &TokenTable,
    now: u64,
    reader: &mut Counted<R>,
    writer: &mut Counted<W>,
) -> (Result<(), Fault>, SqlSpace<A>)
    requires { salt ≡ salt_of tokens.now }
    ensures served { OnOk result.0 (ServesOver ⟦<SqlSpace<A> as Space>⟧ tokens.now now
        (R.remaining (inner_of reader.old))
        (W.contents (inner_of writer.old)) (W.contents (inner_of writer.new)) space result.1) }
    ensures part { IfErr result.0 (ServesPartOver ⟦<SqlSpace<A> as Space>⟧ tokens.now now
        (R.remaining (inner_of reader.old))
        (W.contents (inner_of writer.old)) (W.contents (inner_of writer.new)) space result.1) }
{
    serve_stream_over(alloc, space, salt, tokens, now, reader, writer)
}

/// Runs the command `run` over an open database, which is closed last.
pub fn run<F: Start, R: Read, W: Write>(
    alloc: Global,
    space: SqlSpace<FileStore<FileFrom<F>>>,
    salt: Salt,
    tokens: &TokenTable,
    now: u64,
    reader: &mut Counted<R>,
    writer: &mut Counted<W>,
) -> Result<Files<FileFrom<F>>, Failure<FileFrom<F>>>
    requires { salt ≡ salt_of tokens.now }
    ensures { ServesClosing ⟦<SqlSpace<FileStore<FileFrom<F>>> as Space>⟧ tokens.now now
        (R.remaining (inner_of reader.old))
        (W.contents (inner_of writer.old)) (W.contents (inner_of writer.new)) space result }
{
    let (done, space) = served(alloc, space, salt, tokens, now, reader, writer);
    close_database(done, space)
}

// Creates a usage table of all USSs, if there is a quota.
fn tally_of(alloc: Global, quota: Option<u32>) -> Option<UsageTable> {
    match quota {
        Some(most) => Some(UsageTable::new(alloc, most)),
        None => None,
    }
}

// Answers the clients of a port over tables in some store, with a mirror.
fn served_with_mirror<
    A: Alter + Drop,
    M: Moments,
    N: Listen + Drop,
    B: MakeBackups<()> + Drop,
    L: LogFile + Drop,
    T: TokenSource + Drop,
    E: Write,
>(
    alloc: Global,
    space: SqlSpace<A>,
    loaded: Option<LoadedAirspace>,
    quota: Option<u32>,
    salt: Salt,
    given: ServeConfig<'_>,
    watch: TokenWatch<T>,
    moments: &mut M,
    sockets: &mut N,
    backups: Option<B>,
    log: Option<L>,
    error: &mut E,
) -> (Result<(), Fault>, SqlSpace<A>)
    requires salt { salt ≡ salt_of given.tokens.now }
    requires loaded { IfSome loaded (IsAllOf A.Store space) }
    ensures served { ServesMirrored ⟦<SqlSpace<A> as Space>⟧
        ⟦<QuotaSpace<Mirrored<SqlSpace<A>>> as Space>⟧
        ⟦<Database<QuotaSpace<Mirrored<SqlSpace<A>>>> as Backend>⟧ M.Moments T.TokenSource
        (setup_in given.entry) given.entry.keep watch space result.1 moments.old moments.new
        (N.history sockets.old) (N.history sockets.new) result.0 }
    ensures counted { OnOk result.0 (IsSome given.entry.limits.count
        ⊎ IsSome given.entry.operated) }
{
    let mut tally = tally_of(alloc, quota);
    let grouped = with_mirror(alloc, space, loaded, &mut tally);
    let bounded = QuotaSpace::new(grouped, tally);
    let (done, served) = serve_port(
        alloc,
        bounded,
        salt,
        given,
        watch,
        moments,
        sockets,
        for_any_backend(backups),
        log,
        error,
    );
    let inside = served.into_inner();
    (done, inside.into_store())
}

/// Runs the command `serve` over an open database, which is closed last.
///
/// It has a mirror as long as memory lasts, and watches the token file. The pending changes of a
/// batch are committed at its end, all or none. What ended at least the retention ago is purged, a
/// chunk at a time, as long as there is a mirror. With a quota, the stored entities and
/// subscriptions of each USS are limited.
pub fn serve<
    F: Start,
    M: Moments,
    N: Listen + Drop,
    B: MakeBackups<()> + Drop,
    L: LogFile + Drop,
    T: TokenSource + Drop,
    E: Write,
>(
    alloc: Global,
    space: SqlSpace<FileStore<FileFrom<F>>>,
    loaded: Option<LoadedAirspace>,
    quota: Option<u32>,
    salt: Salt,
    given: ServeConfig<'_>,
    watch: TokenWatch<T>,
    moments: &mut M,
    sockets: &mut N,
    backups: Option<B>,
    log: Option<L>,
    error: &mut E,
) -> Result<Files<FileFrom<F>>, Failure<FileFrom<F>>>
    requires salt { salt ≡ salt_of given.tokens.now }
    requires loaded { IfSome loaded (IsAllOf over_files space) }
    ensures served { ClosesServed ⟦<SqlSpace<FileStore<FileFrom<F>>> as Space>⟧
        ⟦<QuotaSpace<Mirrored<SqlSpace<FileStore<FileFrom<F>>>>> as Space>⟧
        ⟦<Database<QuotaSpace<Mirrored<SqlSpace<FileStore<FileFrom<F>>>>>> as Backend>⟧
        M.Moments T.TokenSource (setup_in given.entry) given.entry.keep watch
        space moments.old moments.new (N.history sockets.old) (N.history sockets.new) result }
    ensures counted { OnOk result (IsSome given.entry.limits.count
        ⊎ IsSome given.entry.operated) }
{
    let (done, space) = served_with_mirror(
        alloc, space, loaded, quota, salt, given, watch, moments, sockets, backups, log, error,
    );
    close_database(done, space)
}
