//! The trait of storage backends that can delay making changes durable.
ghost use Rattle.std.specs.Prelude.{◌≡◌, ◌||◌, Bool, true, false, ◌↔◌};
ghost use Rattle.entity_core.specs.Airspace.{Airspace};
ghost use Rattle.space_core.specs.Calls.{CallCommits, CallReportsFault};

use crate::space::{Space, SpaceFault};

/// A storage backend that can delay making its changes durable.
///
/// Calls see their own changes at once (`holds`). A crash loses the changes that are pending: it
/// leaves the durable airspace (`persists`). That is the visible airspace if no change is pending,
/// and otherwise the one before the pending changes.
pub trait GroupCommit: Space {
    /// Relates the space to the airspaces that can be durable.
    ghost persists: { Self → Airspace → Type 0 };

    /// Whether changes are pending.
    ghost is_pending: { Self → Bool };

    /// Returns true if changes are pending.
    fn has_pending(&self) -> bool
        ensures { result ≡ is_pending self.now };

    /// Commits all pending changes, or none.
    ///
    /// Returns `Unchanged` if none was committed: the last durable airspace is visible again.
    /// Returns `Broken` if the outcome is unknown. No change is pending afterwards.
    fn commit(&mut self) -> Result<(), SpaceFault>
        ensures tells { CallReportsFault Self.Space self.old self.new result }
        ensures calm { is_pending self.new ≡ false }
        ensures settles { CallCommits Self.Space self.old self.new result persists };

    /// If no change is pending, visible and durable airspaces are the same.
    ghost persists_held: { (s : Self) (a : Airspace) → is_pending s ≡ false
        → Self.holds s a ↔ persists s a };

    /// While changes are pending, calls do not change the durable airspace.
    ///
    /// `fixed` stands for what no call but `commit` changes. For a store with an in-memory mirror
    /// that is the store itself while the mirror exists. So the durable airspace is the store's:
    /// it was there before the first pending change, stays until `commit`, and is what a crash
    /// leaves. The trait knows neither stores nor mirrors, so it says only that two states with
    /// the same fixed part have the same durable airspace.
    ghost persists_while_pending: { (s t : Self) (a : Airspace) → Self.fixed t ≡ Self.fixed s
        → (is_pending s || is_pending t) ≡ true → persists s a ↔ persists t a };

    /// While changes are pending, no call breaks the space.
    ghost unbroken_while_pending: { (s t : Self) → Self.fixed t ≡ Self.fixed s
        → (is_pending s || is_pending t) ≡ true
        → Self.is_broken t ≡ Self.is_broken s };

    /// A sound space with pending changes is not broken.
    ghost pending_is_unbroken: { (s : Self) → Self.is_sound s → is_pending s ≡ true
        → Self.is_broken s ≡ false };
}
