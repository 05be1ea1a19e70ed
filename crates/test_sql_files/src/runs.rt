//! Runs of a service over files, each for one call, and a life of three.
ghost use Rattle.std.specs.Prelude.{◌≡◌, IfSome, IsTrue, false};
ghost use Rattle.sqlite.specs.Files.{file_state, image_of};
ghost use Rattle.sqlite.specs.Held.{state};
ghost use Rattle.sqlite.specs.Recovery.{Image};
ghost use Rattle.service_step.specs.declared.reply.Reply.TheVariants.{Done};
ghost use Rattle.space_sql.specs.Found.{FindsSpelt, IsOver};
ghost use Rattle.test_sql_files.specs.Runs.{ClosedRun, CrashedRun, LeavesConnection, Life, ThreeRuns};

use crate::files::{abandon, close, connect, crash_files};
use entity_core::salt::Salt;
use policy_core::call::Call;
use service_calls::service::Service;
use service_step::reply::{Answer, Reply};
use space_core::space::Space;
use space_sql::space::SqlSpace;
use sqlite::{Alter, Connection, FileStore, Files};
use sqlite_disk::{Crash, Disk, Memory};
use std::alloc::Global;

/// The answers to three calls.
pub struct Told {
    pub first: Answer,
    pub second: Answer,
    pub third: Answer,
}

// It is written out, so that a caller does not prove again how each part is dropped.
impl Drop for Told {
    fn drop(self) {
        let Told {
            first: _,
            second: _,
            third: _,
        } = self;
    }
}

/// The replies with three answers.
pub struct Replies {
    pub first: Reply,
    pub second: Reply,
    pub third: Reply,
}

impl Drop for Replies {
    fn drop(self) {
        let Replies {
            first: _,
            second: _,
            third: _,
        } = self;
    }
}

impl Told {
    /// Returns the replies with the answers.
    pub fn into_replies(self) -> Replies {
        let Told {
            first,
            second,
            third,
        } = self;
        Replies {
            first: Reply::Done(first),
            second: Reply::Done(second),
            third: Reply::Done(third),
        }
    }
}

// States that a crash may leave the last commit of an open connection. It does nothing.
fn last_commit_may_stay<S: Alter>(conn: &Connection<S>)
    ensures { let s = state S.Store conn.now in
        IsTrue s.is_open → s.may_leave s.committed.trees }
{
    let _ = conn;
}

// Adopts a connection that was opened over files, whatever their content.
fn adopt_found<S: Alter + Drop>(alloc: Global, conn: Connection<S>) -> Option<SqlSpace<S>>
    requires { conn.in_transaction ≡ false }
    ensures { (image : Image) → IsOver image (state S.Store conn)
        → IfSome result (FindsSpelt image ⟦<SqlSpace<S> as Space>⟧) }
{
    match SqlSpace::adopt(alloc, conn) {
        Ok((space, _)) => Some(space),
        Err(_) => None,
    }
}

// Executes a call over a connection that was opened over files. Returns the reply and the
// connection.
fn run_over<S: Alter + Drop>(
    alloc: Global,
    salt: Salt,
    conn: Connection<S>,
    call: &(u64, Call),
) -> Option<(Reply, Connection<S>)>
    requires { conn.in_transaction ≡ false }
    ensures run { (image : Image) → IsOver image (state S.Store conn)
        → IfSome result (λ r. LeavesConnection ⟦<SqlSpace<S> as Space>⟧
        image salt call.now r.0 r.1) }
    ensures outside { IfSome result (λ r. r.1.in_transaction ≡ false) }
    ensures stays { IfSome result (λ r. let s = state S.Store r.1 in
        IsTrue s.is_open → s.may_leave s.committed.trees) }
{
    let mut service = Service::new(adopt_found(alloc, conn)?, salt);
    let reply = service.call(alloc, call.0, &call.1);
    let left = service.into_space().release();
    last_commit_may_stay(&left);
    Some((reply, left))
}

// Opens files and executes a call. Returns the reply and the connection.
fn run_call<D: Disk + Drop>(
    alloc: Global,
    salt: Salt,
    files: Files<D>,
    call: &(u64, Call),
) -> Option<(Reply, Connection<FileStore<D>>)>
    requires log { IsTrue (D.Disk.is_usable files.log) }
    requires db { IsTrue (D.Disk.is_usable files.db) }
    ensures run { IfSome result (λ r. LeavesConnection ⟦<SqlSpace<FileStore<D>> as Space>⟧
        (image_of D.Disk files) salt call.now r.0 r.1) }
    ensures outside { IfSome result (λ r. r.1.in_transaction ≡ false) }
    ensures stays { IfSome result (λ r. let s = file_state r.1 in
        IsTrue s.is_open → s.may_leave s.committed.trees) }
{
    let conn = connect(alloc, files)?;
    run_over(alloc, salt, conn, call)
}

/// Opens files, executes a call, and closes them.
pub fn run_and_close<D: Disk + Drop>(
    alloc: Global,
    salt: Salt,
    files: Files<D>,
    call: &(u64, Call),
) -> Option<(Reply, Files<D>)>
    requires log { IsTrue (D.Disk.is_usable files.log) }
    requires db { IsTrue (D.Disk.is_usable files.db) }
    ensures run { IfSome result (λ r. ClosedRun ⟦<SqlSpace<FileStore<D>> as Space>⟧
        (image_of D.Disk files) salt call.now r.0 r.1) }
    ensures log { IfSome result (λ r. IsTrue (D.Disk.is_usable r.1.log)) }
    ensures db { IfSome result (λ r. IsTrue (D.Disk.is_usable r.1.db)) }
{
    let (reply, conn) = run_call(alloc, salt, files, call)?;
    Some((reply, close(conn)?))
}

/// Opens files and executes a call. Then the machine stops, and a crash leaves the returned files.
pub fn run_and_crash<D: Crash + Drop>(
    alloc: Global,
    salt: Salt,
    files: Files<D>,
    call: &(u64, Call),
) -> Option<(Reply, Files<D>)>
    requires log { IsTrue (D.Disk.is_usable files.log) }
    requires db { IsTrue (D.Disk.is_usable files.db) }
    ensures run { IfSome result (λ r. CrashedRun ⟦<SqlSpace<FileStore<D>> as Space>⟧
        (image_of D.Disk files) salt call.now r.0 r.1) }
    ensures log { IfSome result (λ r. IsTrue (D.Disk.is_usable r.1.log)) }
    ensures db { IfSome result (λ r. IsTrue (D.Disk.is_usable r.1.db)) }
{
    let (reply, conn) = run_call(alloc, salt, files, call)?;
    Some((reply, crash_files(abandon(conn)?)))
}

// Returns the answer of a reply, if the call was done.
fn answer_of(reply: Reply) -> Option<Answer>
    ensures { IfSome result (λ answer. reply ≡ Done answer) }
{
    match reply {
        Reply::Done(answer) => Some(answer),
        _ => None,
    }
}

// Returns a copy of a salt, unless memory runs out.
fn copied(salt: &Salt) -> Option<Salt>
    ensures { IfSome result (λ copy. copy ≡ salt.now) }
{
    match salt.clone() {
        Ok(copy) => Some(copy),
        Err(_) => None,
    }
}

/// Executes three calls over files, each in a run of its own. The first and the last run are
/// closed. The second is ended by a crash.
///
/// Returns the answers and the files if each call was done.
pub fn run_thrice<D: Crash + Drop>(
    alloc: Global,
    salt: &Salt,
    files: Files<D>,
    first: &(u64, Call),
    second: &(u64, Call),
    third: &(u64, Call),
) -> Option<(Told, Files<D>)>
    requires log { IsTrue (D.Disk.is_usable files.log) }
    requires db { IsTrue (D.Disk.is_usable files.db) }
    ensures { IfSome result (λ r. ThreeRuns ⟦<SqlSpace<FileStore<D>> as Space>⟧ salt.now
        first.now second.now third.now r.0 files r.1) }
{
    let (begun, closed) = run_and_close(alloc, copied(salt)?, files, first)?;
    let (gone, crashed) = run_and_crash(alloc, copied(salt)?, closed, second)?;
    let (ended, last) = run_and_close(alloc, copied(salt)?, crashed, third)?;
    let created = answer_of(begun)?;
    let changed = answer_of(gone)?;
    let read = answer_of(ended)?;
    let told = Told {
        first: created,
        second: changed,
        third: read,
    };
    Some((told, last))
}

/// Executes three calls over new files in memory, as `run_thrice` does. A disk in memory always
/// returns what was written, so the premises of the laws about runs over files are met at once.
pub fn live_in_memory(
    alloc: Global,
    salt: &Salt,
    first: &(u64, Call),
    second: &(u64, Call),
    third: &(u64, Call),
) -> Option<Told>
    ensures { IfSome result (Life ⟦<SqlSpace<FileStore<Memory>> as Space>⟧ salt.now
        first.now second.now third.now) }
{
    let log = Memory::new(alloc);
    let db = Memory::new(alloc);
    let (told, last) = run_thrice(alloc, salt, Files { log, db }, first, second, third)?;
    let _ = last;
    Some(told)
}
