//! The metrics that the system has of the process and of the database files.
use crate::exposition::{Exposition, Metric, MetricKind};
use std::alloc::AllocError;
use std::time::Duration;

/// The metrics that the system has. A metric is absent if the system returns none.
#[derive(Clone, Copy, Debug, PartialEq, Eq)]
pub struct MachineMetrics {
    /// The processor time that the process used.
    pub cpu: Option<Duration>,
    /// The resident memory of the process in bytes.
    pub resident: Option<u64>,
    /// The number of open file descriptors.
    pub open_files: Option<u64>,
    /// The maximum number of open file descriptors.
    pub max_files: Option<u64>,
    /// The size of the database file in bytes.
    pub database: Option<u64>,
    /// The size of the log of the database in bytes.
    pub log: Option<u64>,
}

// Appends a metric, if there is a number.
fn put_known(
    text: &mut Exposition,
    metric: Metric<'_>,
    number: Option<u64>,
) -> Result<(), AllocError> {
    match number {
        Some(number) => text.one(metric, number),
        None => Ok(()),
    }
}

impl MachineMetrics {
    /// Creates metrics without numbers.
    pub fn unknown() -> MachineMetrics {
        MachineMetrics {
            cpu: None,
            resident: None,
            open_files: None,
            max_files: None,
            database: None,
            log: None,
        }
    }

    // Appends the lines of the process.
    fn put_process(&self, text: &mut Exposition) -> Result<(), AllocError> {
        if let Some(time) = self.cpu {
            let cpu = Metric {
                name: "process_cpu_seconds_total",
                kind: MetricKind::Counter,
                help: "Processor time that the process used, in seconds.",
            };
            text.describe(cpu)?;
            text.sample_seconds(cpu.name, &[], time)?;
        }
        let resident = Metric {
            name: "process_resident_memory_bytes",
            kind: MetricKind::Gauge,
            help: "Resident memory of the process in bytes.",
        };
        put_known(text, resident, self.resident)?;
        let open = Metric {
            name: "process_open_fds",
            kind: MetricKind::Gauge,
            help: "Open file descriptors.",
        };
        put_known(text, open, self.open_files)?;
        let most = Metric {
            name: "process_max_fds",
            kind: MetricKind::Gauge,
            help: "Maximum number of open file descriptors.",
        };
        put_known(text, most, self.max_files)
    }

    /// Appends their lines to the text.
    pub(crate) fn put(&self, text: &mut Exposition) -> Result<(), AllocError> {
        self.put_process(text)?;
        let database = Metric {
            name: "dss_database_bytes",
            kind: MetricKind::Gauge,
            help: "Size of the database file in bytes.",
        };
        put_known(text, database, self.database)?;
        let log = Metric {
            name: "dss_database_log_bytes",
            kind: MetricKind::Gauge,
            help: "Size of the log of the database in bytes.",
        };
        put_known(text, log, self.log)
    }
}
