//! The metrics of the clock.
use crate::exposition::{Exposition, Metric, MetricKind};
use std::alloc::AllocError;

/// The number of jumps of the clock, and whether purges are held.
#[derive(Clone, Copy, Debug, PartialEq, Eq)]
pub struct ClockMetrics {
    /// The number of jumps since the start.
    pub jumps: u64,
    /// True if nothing is purged until an operator confirms the clock, or it returns.
    pub is_held: bool,
}

impl ClockMetrics {
    /// Creates the metrics of a clock that has not jumped.
    pub fn new() -> ClockMetrics {
        ClockMetrics {
            jumps: 0,
            is_held: false,
        }
    }

    /// Appends their lines to the text.
    pub(crate) fn put(&self, text: &mut Exposition) -> Result<(), AllocError> {
        let jumps = Metric {
            name: "dss_clock_jumps_total",
            kind: MetricKind::Counter,
            help: "Jumps of the clock, forward by over 60 seconds or backward by over 5.",
        };
        text.one(jumps, self.jumps)?;
        let held = Metric {
            name: "dss_purge_held",
            kind: MetricKind::Gauge,
            help: "Whether purges are held until the clock is confirmed (1) or not (0).",
        };
        text.one(held, if self.is_held { 1 } else { 0 })
    }
}
