//! The metrics of purges.
use crate::exposition::{Exposition, Metric, MetricKind};
use crate::service_metrics::wide;
use std::alloc::AllocError;

/// The numbers of purges, purged items and failed purges.
#[derive(Clone, Copy, Debug)]
pub struct PurgeMetrics {
    // The number of purges that removed something.
    purges: u64,
    // The number of purged intents, constraints and subscriptions.
    gone: u64,
    faults: u64,
}

impl PurgeMetrics {
    /// Creates metrics of zero.
    pub(crate) fn new() -> PurgeMetrics {
        PurgeMetrics {
            purges: 0,
            gone: 0,
            faults: 0,
        }
    }

    /// Counts purged items.
    pub fn note_purged(&mut self, count: usize) {
        self.gone = self.gone.saturating_add(wide(count));
    }

    /// Counts a purge that removed something.
    pub fn note_purge(&mut self) {
        self.purges = self.purges.saturating_add(1);
    }

    /// Counts a failed purge.
    pub fn note_fault(&mut self) {
        self.faults = self.faults.saturating_add(1);
    }

    /// Appends their lines to the text.
    pub(crate) fn put(&self, text: &mut Exposition) -> Result<(), AllocError> {
        let purges = Metric {
            name: "dss_purges_total",
            kind: MetricKind::Counter,
            help: "Purges that removed something.",
        };
        text.one(purges, self.purges)?;
        let gone = Metric {
            name: "dss_purged_total",
            kind: MetricKind::Counter,
            help: "Ended intents, constraints and subscriptions that were purged.",
        };
        text.one(gone, self.gone)?;
        let faults = Metric {
            name: "dss_purge_failures_total",
            kind: MetricKind::Counter,
            help: "Purges that failed.",
        };
        text.one(faults, self.faults)
    }
}
