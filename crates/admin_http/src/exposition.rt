//! The text format of Prometheus: the description of a metric, and its samples.
use std::alloc::{AllocError, Global};
use std::time::Duration;

/// The type of a metric.
#[derive(Clone, Copy, Debug, PartialEq, Eq)]
pub(crate) enum MetricKind {
    /// A value that only increases.
    Counter,
    /// A value that increases and decreases.
    Gauge,
    /// Cumulative counts by bounds.
    Histogram,
}

impl MetricKind {
    // Returns its word in the format.
    fn word(self) -> &'static str {
        match self {
            MetricKind::Counter => "counter",
            MetricKind::Gauge => "gauge",
            MetricKind::Histogram => "histogram",
        }
    }
}

/// A metric's name, type and help text.
#[derive(Clone, Copy, Debug)]
pub(crate) struct Metric<'a> {
    pub(crate) name: &'a str,
    pub(crate) kind: MetricKind,
    /// The help text: one sentence, on one line and without a backslash.
    pub(crate) help: &'a str,
}

/// A label of a sample, with any text as its value.
#[derive(Clone, Copy, Debug)]
pub(crate) struct Label<'a> {
    pub(crate) name: &'a str,
    pub(crate) value: &'a str,
}

/// A growing text of samples.
#[derive(Drop)]
pub(crate) struct Exposition {
    alloc: Global,
    text: String,
}

// Escapes the value of a label for use between quotes.
fn quoted(alloc: Global, value: &str) -> Result<String, AllocError> {
    let slashed = value.replace(alloc, '\\', "\\\\")?;
    let joined = slashed.as_str().replace(alloc, '\n', "\\n")?;
    joined.as_str().replace(alloc, '"', "\\\"")
}

impl Exposition {
    /// Creates an empty text.
    pub(crate) fn new(alloc: Global) -> Exposition {
        Exposition {
            alloc,
            text: String::new(alloc),
        }
    }

    /// Returns the text.
    pub(crate) fn into_text(self) -> String {
        self.text
    }

    /// Appends the description of a metric, whose samples follow.
    pub(crate) fn describe(&mut self, metric: Metric<'_>) -> Result<(), AllocError> {
        let Metric { name, kind, help } = metric;
        let word = kind.word();
        let lines = format!(in self.alloc; "# HELP {name} {help}\n# TYPE {name} {word}\n")?;
        self.text.push_str(lines.as_str())
    }

    // Appends the part of a sample before its number.
    fn begin(&mut self, name: &str, labels: &[Label<'_>]) -> Result<(), AllocError> {
        self.text.push_str(name)?;
        let mut before = "{";
        for label in labels {
            let value = quoted(self.alloc, label.value)?;
            self.text.push_str(before)?;
            self.text.push_str(label.name)?;
            self.text.push_str("=\"")?;
            self.text.push_str(value.as_str())?;
            self.text.push_str("\"")?;
            before = ",";
        }
        self.text
            .push_str(if labels.is_empty() { " " } else { "} " })
    }

    /// Appends a sample.
    pub(crate) fn sample(
        &mut self,
        name: &str,
        labels: &[Label<'_>],
        number: u64,
    ) -> Result<(), AllocError> {
        self.begin(name, labels)?;
        let end = format!(in self.alloc; "{number}\n")?;
        self.text.push_str(end.as_str())
    }

    /// Appends a sample of a duration in seconds.
    pub(crate) fn sample_seconds(
        &mut self,
        name: &str,
        labels: &[Label<'_>],
        time: Duration,
    ) -> Result<(), AllocError> {
        self.begin(name, labels)?;
        let (seconds, micros) = (time.as_secs(), time.subsec_micros());
        let end = format!(in self.alloc; "{seconds}.{micros:06}\n")?;
        self.text.push_str(end.as_str())
    }

    /// Appends a metric with one sample.
    pub(crate) fn one(&mut self, metric: Metric<'_>, number: u64) -> Result<(), AllocError> {
        self.describe(metric)?;
        self.sample(metric.name, &[], number)
    }
}
