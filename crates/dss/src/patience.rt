//! How long the steps of a file wait for clients.
use std::time::{Duration, Instant};

// The longest time from a step to the next one while clients wait, in milliseconds. Most reads take
// less.
const LONGEST: u64 = 3;

/// The time of the last step.
#[derive(Drop)]
pub(crate) struct Patience<'a> {
    rt: &'a HostRuntime,
    last: Option<Instant>,
}

impl<'a> Patience<'a> {
    /// Creates a patience without a step.
    pub(crate) fn new(rt: &'a HostRuntime) -> Patience<'a> {
        Patience { rt, last: None }
    }

    // Returns the time. Without one, no step waits.
    fn now(&self) -> Option<Instant> {
        match Instant::now(self.rt) {
            Ok(now) => Some(now),
            Err(_) => None,
        }
    }

    /// Returns true if the next step waits, while clients wait.
    pub(crate) fn lasts(&self) -> bool {
        let (Some(last), Some(now)) = (self.last, self.now()) else {
            return false;
        };
        now.saturating_duration_since(last) < Duration::from_millis(LONGEST)
    }

    /// Records the end of a step.
    pub(crate) fn note_step(&mut self) {
        self.last = self.now();
    }
}
