//! Laws of the commands over a database. No program calls them: their contracts are the statements.
ghost use Rattle.dss_database.specs.Served.{NextStartFinds, NextStartFindsLeft};

use database_backend::database::Database;
use server_backend::backend::Backend;
use server_watch::token_watch::TokenSource;
use service_recovery::laws::{closed_run_in_batches_continues, run_in_batches_continues};
use space_core::space::Space;
use space_mirror::mirrored::Mirrored;
use space_quota::quota_space::QuotaSpace;
use space_sql::space::SqlSpace;
use sqlite::{Alter, FileFrom, FileStore, Start};
use wire_http::Moments;

/// States that the next start of `serve` finds what this one, once it is closed, has reported to
/// its clients as done.
///
/// It relates what `opened` opens (clause `finds`), what `serve` then closes (clause `served`), and
/// what `SqlSpace::open` opens next. The bytes that `serve` sent, as the history of its sockets
/// records them, are the texts of the replies of one list of calls. The airspace that is found next
/// follows by the policy from these calls with these replies.
pub fn next_start_finds<F: Start, M: Moments, T: Alter, W: TokenSource>()
    ensures { NextStartFinds ⟦<SqlSpace<FileStore<FileFrom<F>>> as Space>⟧
        ⟦<QuotaSpace<Mirrored<SqlSpace<FileStore<FileFrom<F>>>>> as Space>⟧
        ⟦<Database<QuotaSpace<Mirrored<SqlSpace<FileStore<FileFrom<F>>>>>> as Backend>⟧
        M.Moments W.TokenSource ⟦<SqlSpace<T> as Space>⟧ }
{
    closed_run_in_batches_continues::<F>();
}

/// States the same if `serve` fails, also if its close fails, or if the machine stops.
///
/// The next start finds what this one has reported to its clients as done. It relates what `opened`
/// opens, what `serve` then leaves (clause `served`), and what `SqlSpace::open` opens next. A
/// machine that stops is a disk on which every later call fails. Then `serve` fails, and its close
/// too, and a crash leaves what `AreLeft` says.
pub fn next_start_finds_after_a_failure<F: Start, M: Moments, T: Alter, W: TokenSource>()
    ensures { NextStartFindsLeft ⟦<SqlSpace<FileStore<FileFrom<F>>> as Space>⟧
        ⟦<QuotaSpace<Mirrored<SqlSpace<FileStore<FileFrom<F>>>>> as Space>⟧
        ⟦<Database<QuotaSpace<Mirrored<SqlSpace<FileStore<FileFrom<F>>>>>> as Backend>⟧
        M.Moments W.TokenSource ⟦<SqlSpace<T> as Space>⟧ }
{
    closed_run_in_batches_continues::<F>();
    run_in_batches_continues::<F>();
}
