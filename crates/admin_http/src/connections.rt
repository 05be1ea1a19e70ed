//! The metrics of clients' connections.
use crate::exposition::{Exposition, Label, Metric, MetricKind};
use crate::service_metrics::wide;
use std::alloc::AllocError;

/// The cause of an aborted connection.
#[derive(Clone, Copy, Debug, PartialEq, Eq)]
pub enum ConnectionFailure {
    /// A read failed.
    Read,
    /// A write failed.
    Write,
    /// The clock failed.
    Clock,
    /// A memory allocation failed.
    Memory,
    /// The maximum number of reads of one stream was reached.
    Turns,
}

// The number of aborted connections, by cause.
#[derive(Clone, Copy, Debug)]
struct Failed {
    read: u64,
    write: u64,
    clock: u64,
    memory: u64,
    turns: u64,
}

/// The metrics of clients' connections.
#[derive(Clone, Copy, Debug)]
pub struct ConnectionMetrics {
    /// The number of open connections.
    pub open: usize,
    /// The number of clients that wait until they may send a large request.
    pub waiting: usize,
    accepted: u64,
    refused: u64,
    failed_accepts: u64,
    failed: Failed,
}

impl ConnectionMetrics {
    /// Creates metrics of zero.
    pub(crate) fn new() -> ConnectionMetrics {
        ConnectionMetrics {
            open: 0,
            waiting: 0,
            accepted: 0,
            refused: 0,
            failed_accepts: 0,
            failed: Failed {
                read: 0,
                write: 0,
                clock: 0,
                memory: 0,
                turns: 0,
            },
        }
    }

    /// Counts an accepted connection.
    pub fn accept(&mut self) {
        self.accepted = self.accepted.saturating_add(1);
    }

    /// Counts a connection that was closed at once.
    pub fn refuse(&mut self) {
        self.refused = self.refused.saturating_add(1);
    }

    /// Counts an accept that failed for lack of descriptors or memory.
    pub fn note_failed_accept(&mut self) {
        self.failed_accepts = self.failed_accepts.saturating_add(1);
    }

    /// Counts an aborted connection.
    pub fn fail(&mut self, cause: ConnectionFailure) {
        let failed = &mut self.failed;
        let count = match cause {
            ConnectionFailure::Read => &mut failed.read,
            ConnectionFailure::Write => &mut failed.write,
            ConnectionFailure::Clock => &mut failed.clock,
            ConnectionFailure::Memory => &mut failed.memory,
            ConnectionFailure::Turns => &mut failed.turns,
        };
        *count = (*count).saturating_add(1);
    }

    // Appends the samples of aborted connections, by cause.
    fn put_failed(&self, text: &mut Exposition) -> Result<(), AllocError> {
        let metric = Metric {
            name: "dss_connections_failed_total",
            kind: MetricKind::Counter,
            help: "Connections aborted, by cause.",
        };
        text.describe(metric)?;
        let failed = self.failed;
        let causes = [
            ("read", failed.read),
            ("write", failed.write),
            ("clock", failed.clock),
            ("memory", failed.memory),
            ("turns", failed.turns),
        ];
        for (cause, number) in &causes {
            let label = Label {
                name: "cause",
                value: cause,
            };
            text.sample(metric.name, &[label], *number)?;
        }
        Ok(())
    }

    /// Appends their lines to the text.
    pub(crate) fn put(&self, text: &mut Exposition) -> Result<(), AllocError> {
        let open = Metric {
            name: "dss_connections_open",
            kind: MetricKind::Gauge,
            help: "Open client connections.",
        };
        text.one(open, wide(self.open))?;
        let accepted = Metric {
            name: "dss_connections_accepted_total",
            kind: MetricKind::Counter,
            help: "Client connections accepted.",
        };
        text.one(accepted, self.accepted)?;
        let refused = Metric {
            name: "dss_connections_refused_total",
            kind: MetricKind::Counter,
            help: "Connections closed right after accepting them, for lack of resources.",
        };
        text.one(refused, self.refused)?;
        let failed_accepts = Metric {
            name: "dss_accept_failures_total",
            kind: MetricKind::Counter,
            help: "Failed accepts, for lack of file descriptors or memory. The connection waits.",
        };
        text.one(failed_accepts, self.failed_accepts)?;
        self.put_failed(text)?;
        let waiting = Metric {
            name: "dss_large_requests_waiting",
            kind: MetricKind::Gauge,
            help: "Clients that wait for a buffer for a large request.",
        };
        text.one(waiting, wide(self.waiting))
    }
}
