//! The metrics of the token file.
use crate::exposition::{Exposition, Metric, MetricKind};
use std::alloc::AllocError;
use std::time::Duration;

/// The load time of the active token table, the number of rejected reloads, and the state of the
/// file.
#[derive(Clone, Copy, Debug)]
pub struct TokenMetrics {
    /// The load time since the start of the service.
    pub read: Duration,
    /// The number of changed token files that were rejected.
    pub refusals: u64,
    /// True if the file has no error now.
    pub is_valid: bool,
}

impl TokenMetrics {
    /// Creates the metrics of the table of the start.
    pub fn new() -> TokenMetrics {
        TokenMetrics {
            read: Duration::from_secs(0),
            refusals: 0,
            is_valid: true,
        }
    }

    /// Appends their lines to the text. `started` is the start of the service in Unix seconds.
    pub(crate) fn put(&self, text: &mut Exposition, started: u64) -> Result<(), AllocError> {
        let read = Metric {
            name: "dss_tokens_loaded_time_seconds",
            kind: MetricKind::Gauge,
            help: "Unix time when the active token table was loaded, in seconds.",
        };
        text.one(read, started.saturating_add(self.read.as_secs()))?;
        let refusals = Metric {
            name: "dss_tokens_reload_failures_total",
            kind: MetricKind::Counter,
            help: "Changed token files that were rejected.",
        };
        text.one(refusals, self.refusals)?;
        let valid = Metric {
            name: "dss_tokens_valid",
            kind: MetricKind::Gauge,
            help: "Whether the token file is the active one (1) or was rejected (0).",
        };
        text.one(valid, if self.is_valid { 1 } else { 0 })
    }
}
