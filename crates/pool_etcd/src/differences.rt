//! The links of other instances that differ from the own chain, to be reported.
use crate::names::name_of;
use crate::payload::Payload;
use crate::times::later;
use pool_chain::link::Link;
use std::alloc::{AllocError, Global};
use std::collections::VecDeque;
use std::time::Duration;

// The time between two reports of one key, in milliseconds.
const PAUSE: u64 = 60_000;

/// A link of another instance that differs from the own chain.
#[derive(Drop)]
pub struct Difference {
    /// The key of the instance.
    pub key: Payload,
    /// Its link.
    pub link: Link,
    /// The own digest after as many changes, if there are as many.
    pub own: Option<[u8; 32]>,
}

impl Difference {
    /// Returns the name of the instance.
    pub fn name(&self) -> &[u8] {
        name_of(self.key.bytes())
    }
}

// A key, and when a difference under it was reported last.
#[derive(Drop)]
struct Reported {
    key: Payload,
    at: Duration,
}

/// The differences that were not taken yet: at most one for each key and minute.
#[derive(Drop)]
pub(crate) struct Differences {
    reported: Vec<Reported>,
    waiting: VecDeque<Difference>,
}

impl Differences {
    /// Creates an empty list.
    pub(crate) fn new(alloc: Global) -> Differences {
        Differences {
            reported: Vec::new(alloc),
            waiting: VecDeque::new(alloc),
        }
    }

    // Returns true if a difference under the key is reported now.
    fn is_due(&mut self, alloc: Global, key: &[u8], now: Duration) -> Result<bool, AllocError> {
        for reported in &mut self.reported {
            if reported.key.bytes() == key {
                let is_due = now >= later(reported.at, PAUSE);
                if is_due {
                    reported.at = now;
                }
                return Ok(is_due);
            }
        }
        let key = Payload::from_vec(Vec::from_slice(alloc, key)?);
        match self.reported.push(Reported { key, at: now }) {
            Ok(()) => Ok(true),
            Err(_) => Err(AllocError),
        }
    }

    /// Adds a difference, unless one under its key was added within the last minute.
    pub(crate) fn add(
        &mut self,
        alloc: Global,
        difference: Difference,
        now: Duration,
    ) -> Result<(), AllocError> {
        if self.is_due(alloc, difference.key.bytes(), now)? {
            return match self.waiting.push_back(difference) {
                Ok(()) => Ok(()),
                Err(_) => Err(AllocError),
            };
        }
        Ok(())
    }

    /// Takes the next difference.
    pub(crate) fn take(&mut self) -> Option<Difference> {
        self.waiting.pop_front()
    }
}
