//! The metrics of requests by USS.
use crate::exposition::{Exposition, Label, Metric, MetricKind};
use std::alloc::{AllocError, Global};

// The maximum number of USSs with counts of their own. The requests of the others count together.
const MAX_SUPPLIERS: usize = 1_000;

// The label of the requests that count together. No USS has such an id.
const OTHERS: &str = "(others)";

// The name of the metric.
const ANSWERED: &str = "dss_uss_requests_total";

// The numbers of answered requests, by outcome.
#[derive(Clone, Copy, Debug)]
struct Outcomes {
    done: u64,
    denied: u64,
    failed: u64,
    stopped: u64,
}

impl Outcomes {
    // Creates counts of zero.
    fn new() -> Outcomes {
        Outcomes {
            done: 0,
            denied: 0,
            failed: 0,
            stopped: 0,
        }
    }

    // Counts a request that was answered with this status.
    fn note(&mut self, status: u16) {
        let count = match status {
            200..=299 => &mut self.done,
            500 => &mut self.failed,
            503 => &mut self.stopped,
            _ => &mut self.denied,
        };
        *count = (*count).saturating_add(1);
    }

    // Appends the samples of a USS, except zeros.
    fn put(&self, text: &mut Exposition, supplier: &str) -> Result<(), AllocError> {
        let counts = [
            ("done", self.done),
            ("denied", self.denied),
            ("failed", self.failed),
            ("stopped", self.stopped),
        ];
        for (outcome, count) in &counts {
            if *count > 0 {
                put_count(text, supplier, outcome, *count)?;
            }
        }
        Ok(())
    }
}

// Appends the sample of a USS and an outcome.
fn put_count(
    text: &mut Exposition,
    supplier: &str,
    outcome: &str,
    count: u64,
) -> Result<(), AllocError> {
    let labels = [
        Label {
            name: "uss",
            value: supplier,
        },
        Label {
            name: "outcome",
            value: outcome,
        },
    ];
    text.sample(ANSWERED, &labels, count)
}

// The answered requests of a USS.
#[derive(Debug, Drop)]
struct Supplier {
    id: String,
    outcomes: Outcomes,
}

/// The metrics of requests by USS.
///
/// The first 1,000 USSs have counts of their own, as far as there is memory for them.
#[derive(Debug, Drop)]
pub struct UssMetrics {
    alloc: Global,
    suppliers: Vec<Supplier>,
    others: Outcomes,
}

impl UssMetrics {
    /// Creates metrics of zero.
    pub(crate) fn new(alloc: Global) -> UssMetrics {
        UssMetrics {
            alloc,
            suppliers: Vec::new(alloc),
            others: Outcomes::new(),
        }
    }

    // Adds a USS, whose first request was answered with this status.
    fn add(&mut self, id: &str, status: u16) -> Result<(), AllocError> {
        let id = String::from_str(self.alloc, id)?;
        let mut outcomes = Outcomes::new();
        outcomes.note(status);
        self.suppliers.push(Supplier { id, outcomes })?;
        Ok(())
    }

    /// Counts a request of the USS with this id that was answered with this status.
    pub fn note(&mut self, id: &str, status: u16) {
        for supplier in &mut self.suppliers {
            if supplier.id.as_str() == id {
                supplier.outcomes.note(status);
                return;
            }
        }
        if self.suppliers.len() >= MAX_SUPPLIERS || self.add(id, status).is_err() {
            self.others.note(status);
        }
    }

    /// Appends their lines to the text.
    pub(crate) fn put(&self, text: &mut Exposition) -> Result<(), AllocError> {
        text.describe(Metric {
            name: ANSWERED,
            kind: MetricKind::Counter,
            help: "Requests answered, by USS and outcome.",
        })?;
        for supplier in &self.suppliers {
            supplier.outcomes.put(text, supplier.id.as_str())?;
        }
        self.others.put(text, OTHERS)
    }
}
