//! The commands over a database of a pool: one follows a log, the other loads the database into
//! memory. Their contracts cover any contents of the file and its log, which `Start` represents.
ghost use Rattle.std.specs.Prelude.{◌≡◌, ◌⊎◌, IfErr, IfOk, IfSome, OnOk};
ghost use Rattle.sqlite.specs.WalFiles.{image_at};
ghost use Rattle.space_memory.specs.Memory.{content_of};
ghost use Rattle.space_sql.specs.Load.{IsAllOf};
ghost use Rattle.space_sql_load.specs.Checking.{loaded_airspace};
ghost use Rattle.dss_command.specs.declared.fault.Fault.TheVariants.{Memory};
ghost use Rattle.dss_database.specs.Files.{IsOfDatabase, KeepsAirspaceIn, LeavesSpace};
ghost use Rattle.dss_database.specs.Files.{RefusesDatabase};
ghost use Rattle.dss_database.specs.PoolFiles.{EndsFollowing, FollowsFiles, FollowsSpace};
ghost use Rattle.dss_database.specs.PoolFiles.{IsOfFollowing, LoadsFiles, LoadsSpace};

use crate::failure::Failure;
use crate::files::{close_database, open_database};
use crate::with_mirror::with_mirror;
use dss_command::fault::Fault;
use dss_command::pool_fault::PoolFault;
use entity_core::salt::Salt;
use pool_core::log::Log;
use pool_core::log_io::LogIo;
use pool_follow::follow::{Waiting, follow as follow_log};
use pool_follow::follow_fault::FollowFault;
use pool_follow::follower::Follower;
use service_calls::service::Service;
use space_core::space::Space;
use space_memory::memory::MemorySpace;
use space_sql::left_files::LeftFiles;
use space_sql::space::SqlSpace;
use space_sql_load::table_check::LoadedAirspace;
use sqlite::{Alter, FileFrom, FileStore, Files, Start};
use sqlite_disk::Disk;
use std::alloc::Global;
use wire_route::routes::Routes;

// Returns how following a log ends.
fn end_following(followed: Result<(), FollowFault>) -> Result<(), Fault>
    ensures { EndsFollowing followed result }
{
    match followed {
        Ok(()) => Ok(()),
        Err(FollowFault::Memory) => Err(Fault::Memory),
        Err(FollowFault::Lost) => Err(Fault::Pool(PoolFault::Ended)),
        Err(FollowFault::Space) => Err(Fault::DatabaseFailed),
        Err(FollowFault::Silent) => Err(Fault::Pool(PoolFault::Silent)),
        Err(FollowFault::Wait) => Err(Fault::Socket),
    }
}

// Follows a log with tables in some store, through a mirror. Returns the tables and the log.
fn followed_with_mirror<A: Alter + Drop, L: Log + Drop, I: LogIo<L>, W: Waiting>(
    alloc: Global,
    space: SqlSpace<A>,
    loaded: Option<LoadedAirspace>,
    salt: Salt,
    log: L,
    io: &mut I,
    waiting: &mut W,
) -> (Result<(), Fault>, SqlSpace<A>, L)
    requires { IfSome loaded (IsAllOf A.Store space) }
    ensures followed { OnOk result.0 (FollowsSpace ⟦<SqlSpace<A> as Space>⟧ salt
        (L.history log) (L.history result.2) space result.1) }
    ensures told { IfErr result.0 IsOfFollowing }
{
    let Ok(routes) = Routes::new(alloc) else {
        return (Err(Fault::Memory), space, log);
    };
    let mirrored = with_mirror(alloc, space, loaded, &mut None);
    let service = Service::new(mirrored, salt);
    let mut follower = Follower::new(log, service);
    let followed = follow_log(alloc, &routes, &mut follower, io, waiting);
    let (log, mirrored) = follower.into_parts();
    let space = mirrored.into_store();
    (end_following(followed), space, log)
}

/// Follows a log with the database in the file of that name, and closes it. Returns the log.
///
/// The service does the acts of the entries that the log gives, with this salt, up to an end that
/// the log is asked for. After a fault the database may have only some of the acts.
pub fn follow<F: Start, L: Log + Drop, I: LogIo<L>, W: Waiting>(
    rt: &HostRuntime,
    name: &str,
    start: F,
    salt: Salt,
    log: L,
    io: &mut I,
    waiting: &mut W,
) -> (Result<Files<FileFrom<F>>, Failure<FileFrom<F>>>, L)
    ensures followed { IfOk result.0 (FollowsFiles ⟦<FileFrom<F> as Disk>⟧ (image_at F.Start) salt
        (L.history log) (L.history result.1)) }
    ensures told { IfErr result.0 (λ failure.
        IsOfDatabase failure.fault ⊎ IsOfFollowing failure.fault) }
{
    let (space, loaded) = match open_database(rt, name, start) {
        Ok(opened) => opened,
        Err(failure) => return (Err(failure), log),
    };
    let (done, space, log) = followed_with_mirror(
        rt.alloc(),
        space,
        loaded,
        salt,
        log,
        io,
        waiting,
    );
    (close_database(done, space), log)
}

// Closes the database of a command that failed with that fault.
fn close_failed<F: Start>(
    fault: Fault,
    space: SqlSpace<FileStore<FileFrom<F>>>,
) -> Failure<FileFrom<F>>
    ensures told { result.fault ≡ fault }
    ensures left { LeavesSpace space result.left }
{
    match space.close_files() {
        Ok(files) => Failure {
            fault,
            left: LeftFiles::Closed(files),
        },
        Err((_, store)) => Failure {
            fault,
            left: LeftFiles::Unclosed(store),
        },
    }
}

// Returns a loaded airspace as a space in memory.
fn in_memory(alloc: Global, loaded: LoadedAirspace) -> Result<MemorySpace, Fault>
    ensures content { IfOk result (λ memory. content_of memory ≡ loaded_airspace loaded) }
    ensures fault { IfErr result (λ fault. fault ≡ Memory) }
{
    let LoadedAirspace {
        entities,
        subscriptions,
        availabilities,
        serial,
    } = loaded;
    match MemorySpace::from_parts(alloc, entities, subscriptions, availabilities, serial) {
        Ok(memory) => Ok(memory),
        Err(_) => Err(Fault::Memory),
    }
}

// Loads all that tables in some store hold into memory. They are read if they were not.
fn loaded_tables<A: Alter + Drop>(
    alloc: Global,
    space: &mut SqlSpace<A>,
    loaded: Option<LoadedAirspace>,
) -> Result<MemorySpace, Fault>
    requires { IfSome loaded (IsAllOf A.Store space.old) }
    ensures { LoadsSpace ⟦<SqlSpace<A> as Space>⟧ space.old space.new result }
{
    match loaded {
        Some(loaded) => in_memory(alloc, loaded),
        None => match space.load_airspace() {
            Ok(loaded) => in_memory(alloc, loaded),
            Err(_) => Err(Fault::DatabaseFailed),
        },
    }
}

/// Loads the database in the file of that name into memory, and closes it.
///
/// Opening upgrades an older format, and creates the tables of an empty airspace if there are none.
pub fn load<F: Start>(
    rt: &HostRuntime,
    name: &str,
    start: F,
) -> Result<(MemorySpace, Files<FileFrom<F>>), Failure<FileFrom<F>>>
    ensures loaded { IfOk result (λ t.
        LoadsFiles ⟦<FileFrom<F> as Disk>⟧ (image_at F.Start) t.0 t.1) }
    ensures left { IfErr result (λ failure. RefusesDatabase (image_at F.Start) failure
        ⊎ KeepsAirspaceIn (image_at F.Start) failure.left) }
    ensures told { IfErr result (λ failure. IsOfDatabase failure.fault ⊎ (failure.fault ≡ Memory)) }
{
    let (mut space, loaded) = open_database(rt, name, start)?;
    match loaded_tables(rt.alloc(), &mut space, loaded) {
        Ok(memory) => {
            let files = close_database(Ok(()), space)?;
            Ok((memory, files))
        }
        Err(fault) => Err(close_failed(fault, space)),
    }
}
