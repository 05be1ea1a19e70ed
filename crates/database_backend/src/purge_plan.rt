//! When ended entities are purged.
ghost use Rattle.std.specs.Prelude.{◌≡◌, ◌<◌, ◌↔◌, IsTrue, false};
ghost use Rattle.std.specs.Duration.{as_nanos};
ghost use Rattle.database_backend.specs.PurgePlan.{IsDue, IsLeft, IsPlanned, due_of, is_running_in, removed_of, report_of, rests_in};

use server_watch::purge_fault::PurgeFault;
use std::mem;
use std::time::Duration;

// The interval between purges, in seconds.
const GAP: u64 = 60;

// Returns true if this time is before the deadline.
fn is_before(now: Duration, deadline: Duration) -> bool
    ensures { IsTrue result ↔ (as_nanos now < as_nanos deadline) }
{
    !deadline.saturating_sub(now).is_zero()
}

/// The schedule of purges: one chunk a minute and, while chunks find something, one more after each
/// round without a chunk.
#[derive(Clone, Copy, Debug)]
pub struct PurgePlan {
    // When the next chunk is due.
    due: Duration,
    // True if the last chunk purged something, so that there may be more.
    is_running: bool,
    // True if the next round runs no chunk.
    rests: bool,
    // The number of items that the chunks of the current purge removed.
    removed: usize,
}

impl PurgePlan {
    /// Creates a plan whose first chunk is due at once.
    pub fn new() -> PurgePlan
        ensures due { due_of result ≡ 0 }
        ensures running { is_running_in result ≡ false }
        ensures rests { rests_in result ≡ false }
        ensures removed { removed_of result ≡ 0 }
    {
        PurgePlan {
            due: Duration::from_secs(0),
            is_running: false,
            rests: false,
            removed: 0,
        }
    }

    /// Returns true if the last chunk purged something, so that there may be more.
    pub fn is_running(&self) -> bool
        ensures { result ≡ is_running_in self.now }
    {
        self.is_running
    }

    /// Begins a round. Returns true if a chunk is due in it.
    pub fn begin(&mut self, now: Duration) -> bool
        ensures due { IsTrue result ↔ IsDue self.old now }
        ensures left { IsLeft self.old self.new }
    {
        let rests = mem::replace(&mut self.rests, false);
        !rests && !is_before(now, self.due)
    }

    // Ends the current purge. Returns how many items it removed, if any.
    fn end(&mut self) -> Option<usize>
        ensures due { due_of self.new ≡ due_of self.old }
        ensures running { is_running_in self.new ≡ false }
        ensures rests { rests_in self.new ≡ false }
        ensures removed { removed_of self.new ≡ 0 }
        ensures reports { result ≡ report_of (removed_of self.old) }
    {
        self.is_running = false;
        self.rests = false;
        match mem::replace(&mut self.removed, 0) {
            0 => None,
            removed => Some(removed),
        }
    }

    /// Records the result of a chunk that was due, and plans the next one. Without a result, purges
    /// are held, and the next chunk stays due. Returns how many items a purge removed that ended
    /// with this round, if any.
    pub fn plan(
        &mut self,
        purged: Option<Result<usize, PurgeFault>>,
        now: Duration,
    ) -> Option<usize>
        ensures { IsPlanned purged now self.old self.new result }
    {
        match purged {
            Some(Ok(count)) if count > 0 => {
                self.is_running = true;
                self.rests = true;
                self.removed = self.removed.saturating_add(count);
                None
            }
            Some(_) => {
                self.due = now.saturating_add(Duration::from_secs(GAP));
                self.end()
            }
            None => self.end(),
        }
    }
}
