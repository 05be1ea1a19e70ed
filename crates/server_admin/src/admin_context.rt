//! The context of admin requests, the same for all connections.
use admin_http::admin_route::AdminRoute;
use admin_http::build::BuildInfo;
use admin_http::service_metrics::ServiceMetrics;
use space_snapshot::snapshot::{NoMirror, Snapshot};
use std::alloc::Global;

/// The context from which admin requests are answered.
#[derive(Clone, Copy)]
pub struct AdminContext<'a> {
    pub alloc: Global,
    pub metrics: &'a ServiceMetrics,
    pub build: BuildInfo<'a>,
    /// The endpoint at which backups are requested, if there is a maker of backups.
    pub backs_up: Option<AdminRoute>,
    /// The airspace of the service, or the reason why none can be shown.
    pub shown: Result<Snapshot<'a>, NoMirror>,
}
