//! The metrics in the text format of Prometheus.
use crate::admin_route::Health;
use crate::build::BuildInfo;
use crate::exposition::{Exposition, Label, Metric, MetricKind};
use crate::service_metrics::ServiceMetrics;
use std::alloc::{AllocError, Global};

// Appends the health: 1 for the state of the service, and 0 for the others.
fn put_health(text: &mut Exposition, health: Health) -> Result<(), AllocError> {
    let metric = Metric {
        name: "dss_health",
        kind: MetricKind::Gauge,
        help: "Whether the health of the service is this state (1) or not (0).",
    };
    text.describe(metric)?;
    let states = [
        ("serving", Health::Serving),
        ("degraded", Health::Degraded),
        ("failing", Health::Failing),
        ("silent", Health::Silent),
        ("stopped", Health::Stopped),
        ("stopping", Health::Stopping),
    ];
    for (value, state) in &states {
        let label = Label {
            name: "state",
            value,
        };
        text.sample(metric.name, &[label], if *state == health { 1 } else { 0 })?;
    }
    Ok(())
}

/// Returns the metrics in the text format of Prometheus, group by group.
pub(crate) fn metrics(
    alloc: Global,
    figures: &ServiceMetrics,
    build: BuildInfo<'_>,
) -> Result<String, AllocError> {
    let mut text = Exposition::new(alloc);
    figures.connections.put(&mut text)?;
    figures.requests.put(&mut text, alloc)?;
    figures.suppliers.put(&mut text)?;
    figures.faults.put(&mut text)?;
    figures.kept.put(&mut text)?;
    figures.purged.put(&mut text)?;
    figures.clock.put(&mut text)?;
    figures.tokens.put(&mut text, build.started)?;
    if let Some(pool) = &figures.pool {
        pool.put(&mut text)?;
    }
    put_health(&mut text, figures.shown_health())?;
    figures.machine.put(&mut text)?;
    build.put(&mut text)?;
    Ok(text.into_text())
}
