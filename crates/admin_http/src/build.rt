//! The constant information about a running service.
use crate::exposition::{Exposition, Label, Metric, MetricKind};
use crate::web_page::OwnHosts;
use std::alloc::AllocError;

/// The constant information about a running service.
#[derive(Clone, Copy, Debug)]
pub struct BuildInfo<'a> {
    /// The time of its start, in Unix seconds.
    pub started: u64,
    /// The version of the package.
    pub version: &'a str,
    /// The kit with which it was built.
    pub kit: &'a str,
    /// The values of the field `Host` that name the admin port.
    pub hosts: &'a OwnHosts,
}

impl<'a> BuildInfo<'a> {
    /// Appends its lines to the text.
    pub(crate) fn put(&self, text: &mut Exposition) -> Result<(), AllocError> {
        let started = Metric {
            name: "dss_start_time_seconds",
            kind: MetricKind::Gauge,
            help: "Unix time when the service started, in seconds.",
        };
        text.one(started, self.started)?;
        let process = Metric {
            name: "process_start_time_seconds",
            kind: MetricKind::Gauge,
            help: "Unix time when the process started to serve, in seconds.",
        };
        text.one(process, self.started)?;
        let build = Metric {
            name: "dss_build_info",
            kind: MetricKind::Gauge,
            help: "Version and kit of the build.",
        };
        text.describe(build)?;
        let version = Label {
            name: "version",
            value: self.version,
        };
        let kit = Label {
            name: "kit",
            value: self.kit,
        };
        text.sample(build.name, &[version, kit], 1)
    }
}
