//! The metrics of failures of the machine.
use crate::exposition::{Exposition, Metric, MetricKind};
use std::alloc::AllocError;

/// The numbers of failures of the store, of memory, of the clock and of the access log.
#[derive(Clone, Copy, Debug)]
pub struct FailureMetrics {
    /// The number of dropped lines of the access log.
    pub dropped_lines: u64,
    store: u64,
    memory: u64,
    clock: u64,
}

impl FailureMetrics {
    /// Creates metrics of zero.
    pub(crate) fn new() -> FailureMetrics {
        FailureMetrics {
            dropped_lines: 0,
            store: 0,
            memory: 0,
            clock: 0,
        }
    }

    /// Counts a failed commit.
    pub(crate) fn note_store(&mut self) {
        self.store = self.store.saturating_add(1);
    }

    /// Counts a failed memory allocation.
    pub fn note_memory(&mut self) {
        self.memory = self.memory.saturating_add(1);
    }

    /// Counts a failed reading of the clock.
    pub fn note_clock(&mut self) {
        self.clock = self.clock.saturating_add(1);
    }

    /// Appends their lines to the text.
    pub(crate) fn put(&self, text: &mut Exposition) -> Result<(), AllocError> {
        let store = Metric {
            name: "dss_store_failures_total",
            kind: MetricKind::Counter,
            help: "Commits that failed.",
        };
        text.one(store, self.store)?;
        let memory = Metric {
            name: "dss_memory_failures_total",
            kind: MetricKind::Counter,
            help: "Connections closed or aborted because an allocation failed.",
        };
        text.one(memory, self.memory)?;
        let clock = Metric {
            name: "dss_clock_failures_total",
            kind: MetricKind::Counter,
            help: "Requests for which the clock returned no time.",
        };
        text.one(clock, self.clock)?;
        let dropped_lines = Metric {
            name: "dss_log_lines_dropped_total",
            kind: MetricKind::Counter,
            help: "Access log lines that could not be written completely.",
        };
        text.one(dropped_lines, self.dropped_lines)
    }
}
