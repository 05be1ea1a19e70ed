//! The metrics of the stored airspace, from its mirror.
use crate::exposition::{Exposition, Label, Metric, MetricKind};
use crate::service_metrics::wide;
use entity_core::nature;
use space_snapshot::snapshot::{NoMirror, Snapshot};
use std::alloc::AllocError;

// The numbers of a mirror.
#[derive(Clone, Copy, Debug)]
struct Numbers {
    intents: u64,
    constraints: u64,
    subscriptions: u64,
    serial: u64,
}

/// The metrics of the stored airspace, if there is a mirror.
#[derive(Clone, Copy, Debug)]
pub struct StoreMetrics {
    numbers: Option<Numbers>,
}

impl StoreMetrics {
    /// Creates metrics without a mirror.
    pub(crate) fn unknown() -> StoreMetrics {
        StoreMetrics { numbers: None }
    }

    /// Counts the items of a snapshot.
    pub fn of(shown: Result<Snapshot<'_>, NoMirror>) -> StoreMetrics {
        match shown {
            Ok(shown) => StoreMetrics {
                numbers: Some(Numbers {
                    intents: shown.counts.of(nature::Kind::Intent),
                    constraints: shown.counts.of(nature::Kind::Constraint),
                    subscriptions: wide(shown.subscriptions.len()),
                    serial: shown.serial,
                }),
            },
            Err(_) => StoreMetrics::unknown(),
        }
    }

    // Appends the lines of a mirror to the text.
    fn put_numbers(text: &mut Exposition, numbers: Numbers) -> Result<(), AllocError> {
        let entities = Metric {
            name: "dss_entities",
            kind: MetricKind::Gauge,
            help: "Stored entities, by kind.",
        };
        text.describe(entities)?;
        let kinds = [
            ("intent", numbers.intents),
            ("constraint", numbers.constraints),
        ];
        for (value, number) in &kinds {
            let kind = Label {
                name: "kind",
                value,
            };
            text.sample(entities.name, &[kind], *number)?;
        }
        let subscriptions = Metric {
            name: "dss_subscriptions",
            kind: MetricKind::Gauge,
            help: "Stored subscriptions.",
        };
        text.one(subscriptions, numbers.subscriptions)?;
        let serial = Metric {
            name: "dss_serial",
            kind: MetricKind::Gauge,
            help: "Changes since the database was created.",
        };
        text.one(serial, numbers.serial)
    }

    /// Appends their lines to the text. Without a mirror, the only line says so.
    pub(crate) fn put(&self, text: &mut Exposition) -> Result<(), AllocError> {
        let copy = Metric {
            name: "dss_mirror_up",
            kind: MetricKind::Gauge,
            help: "Whether the in-memory mirror exists (1) or not (0).",
        };
        match self.numbers {
            Some(numbers) => {
                text.one(copy, 1)?;
                Self::put_numbers(text, numbers)
            }
            None => text.one(copy, 0),
        }
    }
}
