//! Following a log up to its end.
ghost use Rattle.std.specs.Prelude.{◌≡◌, OnOk, IfOk};
ghost use Rattle.pool_follow.specs.Follower.{DidSome, Follows, RunsOnce, Stays};

use crate::follow_fault::FollowFault;
use crate::follower::Follower;
use pool_core::log::Log;
use pool_core::log_io::LogIo;
use space_core::purge_ended::PurgeEnded;
use std::alloc::Global;
use std::io;
use std::time::Duration;
use wire_route::routes::Routes;

// The max number of entries between two commits.
const ENTRIES: u64 = 64;

// The time in milliseconds after which a log is silent that has not answered.
const SILENCE: u64 = 30_000;

/// Waits for the connections of a log.
pub trait Waiting {
    /// Returns the time of a clock that does not go back.
    fn now(&mut self) -> Duration;

    /// Waits until a connection is ready, but no longer than this time.
    fn wait(&mut self, patience: Duration) -> io::Result<()>;
}

// Takes entries until the log gives none, but at most `ENTRIES`. Returns true if it gave none.
fn take_some<L: Log + Drop, S: PurgeEnded + Drop>(
    alloc: Global,
    routes: &Routes,
    follower: &mut Follower<L, S>,
) -> Result<bool, FollowFault>
    ensures stays { Stays L.Log S.Space follower.old follower.new }
    ensures takes { OnOk result (DidSome L.Log S.Space follower.old follower.new) }
{
    for _ in 0..ENTRIES {
        if !follower.take(alloc, routes)? {
            return Ok(true);
        }
    }
    Ok(false)
}

// Moves the bytes of the log, takes the entries that it gives, and commits. Returns the time until
// the next iteration. Returns `None` at the end, if the log gave all that it received.
fn run_once<L: Log + Drop, S: PurgeEnded + Drop, I: LogIo<L>>(
    alloc: Global,
    routes: &Routes,
    follower: &mut Follower<L, S>,
    io: &mut I,
    now: Duration,
) -> Result<Option<Duration>, FollowFault>
    ensures stays { Stays L.Log S.Space follower.old follower.new }
    ensures runs { IfOk result
        (RunsOnce L.Log S.Space S.GroupCommit.own follower.old follower.new) }
{
    let patience = follower.advance_log(io, now);
    follower.learn();
    let is_empty = take_some(alloc, routes, follower)?;
    follower.commit()?;
    if !is_empty {
        return Ok(Some(Duration::ZERO));
    }
    if follower.is_at_end() {
        return Ok(None);
    }
    let silence = io.status(follower.log(), now).silence;
    if silence > Duration::from_millis(SILENCE) {
        return Err(FollowFault::Silent);
    }
    Ok(Some(patience))
}

/// Follows the log up to an end that it asks for, and commits the changes of the space. Commits at
/// least once in 64 entries.
///
/// After `Ok` the acts are done of all entries that the log had when it was asked for its end.
/// The last call of the log returned no entry, so that no received entry waits in it.
///
/// Returns `Silent` if the log has not answered for 30 seconds.
pub fn follow<L: Log + Drop, S: PurgeEnded + Drop, I: LogIo<L>, W: Waiting>(
    alloc: Global,
    routes: &Routes,
    follower: &mut Follower<L, S>,
    io: &mut I,
    waiting: &mut W,
) -> Result<(), FollowFault>
    ensures stays { Stays L.Log S.Space follower.old follower.new }
    ensures follows { OnOk result
        (Follows L.Log S.Space S.GroupCommit.own follower.old follower.new) }
{
    follower.ask()?;
    for _ in 0..u64::MAX {
        let now = waiting.now();
        let Some(patience) = run_once(alloc, routes, follower, io, now)? else {
            return Ok(());
        };
        if waiting.wait(patience).is_err() {
            return Err(FollowFault::Wait);
        }
    }
    // more iterations than can ever run
    Err(FollowFault::Silent)
}
