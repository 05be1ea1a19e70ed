//! What a backend did besides answering requests.
use server_watch::purge_fault::PurgeFault;
use server_watch::store_watch::CommitOutcome;

/// What a backend did besides answering requests, for the metrics and the log of the server.
#[derive(Clone, Copy, Debug, PartialEq, Eq)]
pub struct Progress {
    /// What became known of the store, if anything.
    pub store: Option<CommitOutcome>,
    /// How many items were purged, if a purge made a step, or why none was.
    pub purged: Option<Result<usize, PurgeFault>>,
    /// How many items a purge removed that has ended now, if it removed any.
    pub removed: Option<usize>,
}
