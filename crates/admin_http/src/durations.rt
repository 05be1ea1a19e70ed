//! Histograms of durations.
ghost use Rattle.std.specs.Duration.{as_nanos};
ghost use Rattle.admin_http.specs.Durations.{IsPlace};

use crate::exposition::{Exposition, Label};
use std::alloc::AllocError;
use std::time::Duration;

// The bounds in nanoseconds, and their text in seconds.
const BOUNDS: [u128; 12] = [
    500_000,
    1_000_000,
    2_500_000,
    5_000_000,
    10_000_000,
    25_000_000,
    50_000_000,
    100_000_000,
    250_000_000,
    500_000_000,
    1_000_000_000,
    2_500_000_000,
];

const WRITTEN: [&str; 13] = [
    "0.0005", "0.001", "0.0025", "0.005", "0.01", "0.025", "0.05", "0.1", "0.25", "0.5", "1",
    "2.5", "+Inf",
];

/// A histogram of durations: the count of each bucket, and the sum.
#[derive(Clone, Copy, Debug)]
pub(crate) struct Durations {
    between: [u64; 13],
    sum: Duration,
}

// Returns the index of the first bound that the duration does not exceed, or the number of bounds
// if it exceeds all.
fn bucket_index(took: Duration) -> usize
    ensures { IsPlace (as_nanos took) result }
{
    let time = took.as_nanos();
    for place in 0..BOUNDS.len() {
        if time <= BOUNDS[place] {
            return place;
        }
    }
    BOUNDS.len()
}

// Appends the sample of the durations up to a bound.
fn put_bucket(
    text: &mut Exposition,
    operation: &str,
    bound: &str,
    count: u64,
) -> Result<(), AllocError> {
    let labels = [
        Label {
            name: "operation",
            value: operation,
        },
        Label {
            name: "le",
            value: bound,
        },
    ];
    text.sample("dss_request_duration_seconds_bucket", &labels, count)
}

impl Durations {
    /// Creates an empty histogram.
    pub(crate) fn new() -> Durations {
        Durations {
            between: [0; 13],
            sum: Duration::from_millis(0),
        }
    }

    /// Adds a duration.
    pub(crate) fn note(&mut self, took: Duration) {
        if let Some(count) = self.between.get_mut(bucket_index(took)) {
            *count = (*count).saturating_add(1);
        }
        self.sum = self.sum.saturating_add(took);
    }

    /// Returns true if it has no duration.
    pub(crate) fn is_empty(&self) -> bool {
        self.between.iter().all(|count| *count == 0)
    }

    /// Appends its samples to the text, under three names: the cumulative counts of the buckets,
    /// the sum, and the total count.
    pub(crate) fn put(&self, text: &mut Exposition, operation: &str) -> Result<(), AllocError> {
        let mut count = 0_u64;
        for (bound, between) in WRITTEN.iter().zip(self.between.iter()) {
            count = count.saturating_add(*between);
            put_bucket(text, operation, bound, count)?;
        }
        let label = Label {
            name: "operation",
            value: operation,
        };
        text.sample_seconds("dss_request_duration_seconds_sum", &[label], self.sum)?;
        text.sample("dss_request_duration_seconds_count", &[label], count)
    }
}
