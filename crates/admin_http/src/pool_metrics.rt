//! The metrics of an instance of a pool.
use crate::exposition::{Exposition, Metric, MetricKind};
use crate::service_metrics::wide;
use std::alloc::AllocError;
use std::time::Duration;

/// What an instance of a pool has taken of its log, and what waits for the log.
#[derive(Clone, Copy, Debug)]
pub struct PoolMetrics {
    /// The number of entries that were taken.
    pub entries: u64,
    /// The number of requests that wait for the log.
    pub waiting: usize,
    /// The number of batches and purges that were offered, and whose outcome is not known.
    pub open: usize,
    /// The revision of the last change that was received of the log.
    pub revision: u64,
    /// The time since the log last answered. It is at least 4 seconds until the log was read.
    pub silence: Duration,
    /// The number of other organizations whose last comparable link differs from the own chain.
    pub differing: usize,
    /// The time of the last call of another organization since the start, if there was one.
    pub heard: Option<u64>,
    /// The latest end of a purge, or 0, in Unix seconds.
    pub purged_until: u64,
}

impl PoolMetrics {
    /// Appends their lines to the text.
    pub(crate) fn put(&self, text: &mut Exposition) -> Result<(), AllocError> {
        let entries = Metric {
            name: "dss_pool_entries_total",
            kind: MetricKind::Counter,
            help: "Entries of the pool's log that the instance has taken.",
        };
        text.one(entries, self.entries)?;
        let waiting = Metric {
            name: "dss_pool_requests_waiting",
            kind: MetricKind::Gauge,
            help: "Requests that wait for the pool's log.",
        };
        text.one(waiting, wide(self.waiting))?;
        let open = Metric {
            name: "dss_pool_batches_open",
            kind: MetricKind::Gauge,
            help: "Batches of changes, and purges, that were offered to the pool's log without an outcome yet.",
        };
        text.one(open, wide(self.open))?;
        let revision = Metric {
            name: "dss_pool_revision",
            kind: MetricKind::Gauge,
            help: "Revision of the last change that was received of the pool's log.",
        };
        text.one(revision, self.revision)?;
        let silence = Metric {
            name: "dss_pool_silence_seconds",
            kind: MetricKind::Gauge,
            help: "Whole seconds since the pool's log last answered; at least 4 until the instance has read it.",
        };
        text.one(silence, self.silence.as_secs())?;
        let differing = Metric {
            name: "dss_pool_organizations_differing",
            kind: MetricKind::Gauge,
            help: "Other organizations whose last comparable link differs from the instance's own chain.",
        };
        text.one(differing, wide(self.differing))?;
        let purged = Metric {
            name: "dss_pool_purged_until_seconds",
            kind: MetricKind::Gauge,
            help: "Latest end of a purge of the pool's log, in Unix seconds, or 0.",
        };
        text.one(purged, self.purged_until)?;
        let Some(time) = self.heard else {
            return Ok(());
        };
        let heard = Metric {
            name: "dss_pool_heard_time_seconds",
            kind: MetricKind::Gauge,
            help: "Time of the last call of another organization since the start, by its clock, in Unix seconds.",
        };
        text.one(heard, time)
    }
}
