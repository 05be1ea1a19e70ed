//! Batches of changes.
ghost use Rattle.space_core.specs.Calls.{CallChanges, CallReportsFault, ForEachHeld};
ghost use Rattle.space_core.specs.Batch.{FitAll, changed_all};

use crate::space::{Change, Space, SpaceFault};
use entity_core::entity_id::EntityId;

/// A change of a batch, and the subscriptions that it notifies.
#[derive(Debug, Drop)]
pub struct BatchChange {
    pub change: Change,
    pub notify: Vec<EntityId>,
}

/// A storage backend that applies a batch of changes atomically.
pub trait ApplyBatch: Space {
    /// Applies all changes of a batch in order, as `apply` applies one, or none.
    ///
    /// Each change must fit the airspace that the previous ones leave. The visible airspace, and
    /// the one that a crash leaves, is the airspace before the batch or after it.
    fn apply_batch(&mut self, batch: &[BatchChange]) -> Result<(), SpaceFault>
        requires fits { ForEachHeld Self.Space self.old (FitAll batch.now) }
        ensures tells { CallReportsFault Self.Space self.old self.new result }
        ensures changes { CallChanges Self.Space self.old self.new result
            (changed_all batch.now) };
}
