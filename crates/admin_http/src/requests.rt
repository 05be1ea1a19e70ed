//! The metrics of requests and their responses.
use crate::durations::Durations;
use crate::exposition::{Exposition, Label, Metric, MetricKind};
use crate::operation::{OPERATIONS, operation_name};
use crate::service_metrics::wide;
use policy_core::call::OpKind;
use policy_core::rule::Rule;
use std::alloc::{AllocError, Global};
use std::time::Duration;
use wire_head::rule::WireRule;

// The possible statuses of responses.
const STATUSES: [u16; 13] = [
    200, 201, 400, 401, 403, 404, 405, 409, 413, 431, 500, 501, 503,
];

/// The rule that denied a request.
#[derive(Clone, Copy, Debug, PartialEq, Eq)]
pub enum Denial {
    /// A rule of the policy.
    Policy(Rule),
    /// A protocol rule.
    Wire(WireRule),
}

/// A request that was answered.
#[derive(Clone, Copy, Debug, PartialEq, Eq)]
pub struct ResponseRecord {
    /// The requested operation; `None` if the request has no route, a wrong method or a syntax
    /// error.
    pub operation: Option<OpKind>,
    /// The rule that denied it, if any.
    pub denial: Option<Denial>,
    /// The status of the response.
    pub status: u16,
    /// The size of the response in bytes.
    pub size: usize,
    /// The time from the complete request until the response may be sent, if the clock returned it.
    pub took: Option<Duration>,
}

// The metrics of requests for one operation.
#[derive(Clone, Copy, Debug)]
struct Served {
    by_status: [u64; 13],
    durations: Durations,
}

/// The metrics of requests and their responses.
#[derive(Clone, Copy, Debug)]
pub struct RequestMetrics {
    by_operation: [Served; 18],
    by_rule: [u64; 17],
    by_wire_rule: [u64; 5],
    bytes: u64,
}

// Increments the count at an index.
fn count_at(counts: &mut [u64], place: usize) {
    if let Some(count) = counts.get_mut(place) {
        *count = (*count).saturating_add(1);
    }
}

// The name of the metric of answered requests.
const ANSWERED: &str = "dss_requests_total";

// Appends the sample of an operation and a status.
fn put_count(
    text: &mut Exposition,
    operation: &str,
    status: &str,
    count: u64,
) -> Result<(), AllocError> {
    let labels = [
        Label {
            name: "operation",
            value: operation,
        },
        Label {
            name: "status",
            value: status,
        },
    ];
    text.sample(ANSWERED, &labels, count)
}

impl RequestMetrics {
    /// Creates metrics of zero.
    pub(crate) fn new() -> RequestMetrics {
        let none = Served {
            by_status: [0; 13],
            durations: Durations::new(),
        };
        RequestMetrics {
            by_operation: [none; 18],
            by_rule: [0; 17],
            by_wire_rule: [0; 5],
            bytes: 0,
        }
    }

    // Counts a denial by its rule.
    fn note_denial(&mut self, denial: Denial) {
        match denial {
            Denial::Policy(rule) => {
                count_at(
                    &mut self.by_rule,
                    usize::from(rule.number()).saturating_sub(1),
                );
            }
            Denial::Wire(rule) => {
                count_at(
                    &mut self.by_wire_rule,
                    usize::from(rule.number()).saturating_sub(1),
                );
            }
        }
    }

    /// Counts an answered request.
    pub fn note(&mut self, answered: &ResponseRecord) {
        self.bytes = self.bytes.saturating_add(wide(answered.size));
        if let Some(denial) = answered.denial {
            self.note_denial(denial);
        }
        let operation = answered.operation;
        let Some(place) = OPERATIONS.iter().position(|it| *it == operation) else {
            return;
        };
        let Some(served) = self.by_operation.get_mut(place) else {
            return;
        };
        if let Some(at) = STATUSES.iter().position(|it| *it == answered.status) {
            count_at(&mut served.by_status, at);
        }
        if let Some(took) = answered.took {
            served.durations.note(took);
        }
    }

    // Appends the numbers of answered requests, by operation and status, except zeros.
    fn put_answered(&self, text: &mut Exposition, alloc: Global) -> Result<(), AllocError> {
        let metric = Metric {
            name: ANSWERED,
            kind: MetricKind::Counter,
            help: "Requests answered, by operation and response status.",
        };
        text.describe(metric)?;
        for (operation, served) in OPERATIONS.iter().zip(self.by_operation.iter()) {
            let word = operation_name(*operation);
            for (status, count) in STATUSES.iter().zip(served.by_status.iter()) {
                if *count > 0 {
                    let written = format!(in alloc; "{status}")?;
                    put_count(text, word, written.as_str(), *count)?;
                }
            }
        }
        Ok(())
    }

    // Appends the numbers of denied requests, by rule.
    fn put_denied(&self, text: &mut Exposition, alloc: Global) -> Result<(), AllocError> {
        let metric = Metric {
            name: "dss_requests_denied_total",
            kind: MetricKind::Counter,
            help: "Requests denied or rejected, by the first broken rule.",
        };
        text.describe(metric)?;
        for (letter, counts) in [("H", &self.by_wire_rule[..]), ("P", &self.by_rule[..])] {
            for (at, count) in counts.iter().enumerate() {
                let number = at.saturating_add(1);
                let rule = format!(in alloc; "{letter}{number}")?;
                let label = Label {
                    name: "rule",
                    value: rule.as_str(),
                };
                text.sample(metric.name, &[label], *count)?;
            }
        }
        Ok(())
    }

    // Appends the durations, by operation, except empty ones.
    fn put_durations(&self, text: &mut Exposition) -> Result<(), AllocError> {
        text.describe(Metric {
            name: "dss_request_duration_seconds",
            kind: MetricKind::Histogram,
            help: "Time from a complete request until its response may be sent.",
        })?;
        for (operation, served) in OPERATIONS.iter().zip(self.by_operation.iter()) {
            if !served.durations.is_empty() {
                served.durations.put(text, operation_name(*operation))?;
            }
        }
        Ok(())
    }

    /// Appends their lines to the text.
    pub(crate) fn put(&self, text: &mut Exposition, alloc: Global) -> Result<(), AllocError> {
        self.put_answered(text, alloc)?;
        self.put_denied(text, alloc)?;
        self.put_durations(text)?;
        let bytes = Metric {
            name: "dss_response_bytes_total",
            kind: MetricKind::Counter,
            help: "Bytes of the responses to requests.",
        };
        text.one(bytes, self.bytes)
    }
}
