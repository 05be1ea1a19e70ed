//! Laws of a service over tables. No program calls these functions: they state facts in their
//! contracts.
ghost use Rattle.service_calls.specs.Purged.{OpenSegmentIsNotDurable};
ghost use Rattle.service_recovery.specs.Crash.{CrashAfterCall, CrashAfterGroupedCall, CrashAfterBatch, quota_pending_of};
ghost use Rattle.service_recovery.specs.InBatches.{ContinuesInBatches, ContinuesInBatchesClosed, SomeIsHeld};
ghost use Rattle.service_recovery.specs.Life.{AloneIsStepped, AskedOn, ContinuesClosed, ContinuesRefused, ContinuesRefusedClosed, ContinuesServed, LifeIsFound, LifeLeaves, PurgeRunIsPartly, UnstoppedIsExpected, UnstoppedIsDuePurged};
ghost use Rattle.service_recovery.specs.Restart.{RestartAfterCall};

use space_core::space::Space;
use space_mirror::mirrored::Mirrored;
use space_quota::quota_space::QuotaSpace;
use space_sql::space::SqlSpace;
use sqlite::{Alter, FileFrom, FileStore, Start};
use sqlite_disk::Disk;

/// States what a crash leaves of the tables after each call, whatever its reply.
///
/// After an answer it is the policy's airspace. After a denial or a fault it is the one before.
/// After `Stopped` it is one of the two, and nothing else from then on. It applies to any reply of
/// `Service::call`, by its clause `reply`.
pub fn crash_after_a_call<S: Alter>()
    ensures { CrashAfterCall S.Store ⟦<SqlSpace<S> as Space>⟧ }
{}

/// States the same for a service over tables whose changes can be pending.
///
/// If no change is pending before and after a call, a crash leaves what it leaves without pending
/// changes. Otherwise it leaves the tables as they were before the call. It applies to any reply of
/// `Service::call`, by its clause `reply`.
pub fn crash_after_a_grouped_call<S: Alter + Drop>()
    ensures { CrashAfterGroupedCall S.Store ⟦<Mirrored<SqlSpace<S>> as Space>⟧ }
{}

/// States what a crash leaves after a commit.
///
/// After `Ok` it is the airspace that was visible before. After `Unchanged` it is the last durable
/// one. After `Broken` it is one of the two. It applies to any result of `Service::commit`.
pub fn crash_after_a_batch<S: Alter + Drop>()
    ensures { CrashAfterBatch S.Store ⟦<SqlSpace<S> as Space>⟧
        ⟦<Mirrored<SqlSpace<S>> as Space>⟧ }
{}

// States that a whole space over tables in a store holds some airspace. It is generic in the store,
// since the proof for that of a file is expensive.
fn some_is_held<A: Alter>()
    ensures { SomeIsHeld ⟦<SqlSpace<A> as Space>⟧ }
{}

// States the law of open segments over tables in any store.
fn open_segment_of_tables<A: Alter + Drop>()
    ensures { OpenSegmentIsNotDurable ⟦<QuotaSpace<Mirrored<SqlSpace<A>>> as Space>⟧
        (quota_pending_of ⟦<SqlSpace<A> as Space>⟧) }
{}

/// States that, after a call of a service over files and a crash, a space opened over the files has
/// the airspace that is due. The reply can be any.
///
/// It applies to any reply of `Service::call`, to the store that `space_sql::laws::files_left`
/// returns, and to what `SqlSpace::open` finds, by its clause `finds`.
pub fn restart_after_a_call<S: Start, T: Alter>()
    ensures { RestartAfterCall ⟦<SqlSpace<FileStore<FileFrom<S>>> as Space>⟧
        ⟦<SqlSpace<T> as Space>⟧ }
{}

/// States that files that stood for an airspace before a whole run stand for one that may follow
/// from it. The run consists of opening, calls and a crash.
///
/// A machine that stops is a disk on which every later call fails. Then the current call returns,
/// or the opening is rejected. It applies to what `SqlSpace::open` adopts, to the results of
/// `Service::call`, `Service::run` and `serve_stream`, and to the store that
/// `space_sql::laws::files_left` returns.
pub fn run_continues<S: Start>()
    ensures { ContinuesServed ⟦<SqlSpace<FileStore<FileFrom<S>>> as Space>⟧ }
{}

/// States the same for a service whose changes can be pending. It can have a quota for each USS,
/// and can purge between two batches.
///
/// It applies to the results of `Service::call`, `Service::commit` and `Service::purge`, to those
/// of `QuotaSpace::into_inner` and `Mirrored::into_store`, and then to
/// `space_sql::laws::files_left`.
pub fn run_in_batches_continues<S: Start>()
    ensures { ContinuesInBatches ⟦<SqlSpace<FileStore<FileFrom<S>>> as Space>⟧
        ⟦<QuotaSpace<Mirrored<SqlSpace<FileStore<FileFrom<S>>>>> as Space>⟧ }
{
    some_is_held::<FileStore<FileFrom<S>>>();
    open_segment_of_tables::<FileStore<FileFrom<S>>>();
}

/// States the same if the run ends with `SqlSpace::close_files`, even if the log is then removed.
pub fn closed_run_continues<S: Start>()
    ensures { ContinuesClosed ⟦<SqlSpace<FileStore<FileFrom<S>>> as Space>⟧ }
{}

/// States the same for a service whose changes can be pending, whose space is taken out and closed.
pub fn closed_run_in_batches_continues<S: Start>()
    ensures { ContinuesInBatchesClosed ⟦<SqlSpace<FileStore<FileFrom<S>>> as Space>⟧
        ⟦<QuotaSpace<Mirrored<SqlSpace<FileStore<FileFrom<S>>>>> as Space>⟧ }
{
    some_is_held::<FileStore<FileFrom<S>>>();
    open_segment_of_tables::<FileStore<FileFrom<S>>>();
}

/// States that a failed opening that returns a connection keeps the airspace.
///
/// It applies to the faults of `SqlSpace::open`, and to the store that
/// `space_sql::laws::trees_left` returns.
pub fn refusal_continues<S: Start>()
    ensures { ContinuesRefused ⟦<FileFrom<S> as Disk>⟧ }
{}

/// States the same if the connection is closed, which is what the program does, even if the log is
/// then removed.
///
/// It applies if a failed `SqlSpace::open` returned a connection, and `FailedOpen::close` closed it
/// and returned its files.
pub fn closed_refusal_continues<S: Start>()
    ensures { ContinuesRefusedClosed ⟦<FileFrom<S> as Disk>⟧ }
{}

/// States the effects of a whole life: runs in sequence, each over what a stop or a crash of the
/// previous one left.
pub fn life_leaves()
    ensures { LifeLeaves }
{}

/// States that the next opening finds what such a life leaves.
pub fn life_is_found<T: Alter>()
    ensures { LifeIsFound ⟦<SqlSpace<T> as Space>⟧ }
{}

/// States that a run of a service over a space without pending changes is one batch. Exactly what
/// its calls may have made may be durable.
pub fn alone_is_stepped()
    ensures { AloneIsStepped }
{}

/// States that, if no call of a run returned `Stopped`, only the policy's airspace after all
/// answered calls may follow from it. If the run purged, the steps continue from what its purges
/// left.
pub fn unstopped_is_due()
    ensures due { UnstoppedIsExpected }
    ensures purged { UnstoppedIsDuePurged }
{}

/// States that a run without calls that only purges leaves a partly purged airspace, and nothing
/// else. A purge of files that no service uses is such a run.
pub fn purge_run_is_partly()
    ensures { PurgeRunIsPartly }
{}

/// States that calls received over several connections, one after the other, are one list of calls.
pub fn asked_on<S: Space>()
    ensures { AskedOn S.Space }
{}
