//! A log in memory, whose entries arrive as a test says.
use pool_core::log::{Entry, Log, LogEnd, LogFault, OfferFault};
use pool_core::log_io::{LogIo, LogStatus};
use std::alloc::{AllocError, Global};
use std::time::Duration;

// The first number in the entries. All have as many digits.
const FIRST: u64 = 10_000;

/// What happens at a log.
#[derive(Clone, Copy)]
pub struct Plan {
    /// The number of entries.
    pub entries: u64,
    /// How many of them arrive at once.
    pub arriving: u64,
    /// After how many moves of its bytes the log tells its end.
    pub told_after: u64,
    /// The log is lost before this entry.
    pub lost_at: u64,
    /// The index of an entry that represents neither a batch nor a purge.
    pub nonsense: u64,
    /// The index of an entry that is a purge.
    pub purge_at: u64,
    /// The time up to which it purges.
    pub until: u64,
    /// The time since the log last answered.
    pub silence: Duration,
}

/// A log in memory.
#[derive(Drop)]
pub struct ListLog {
    alloc: Global,
    plan: Plan,
    arrived: u64,
    moves: u64,
    asked: Option<u64>,
    /// The number of entries that it gave.
    pub given: u64,
}

impl ListLog {
    /// Creates a log of which no entry has arrived.
    pub fn new(alloc: Global, plan: Plan) -> Self {
        ListLog {
            alloc,
            plan,
            arrived: 0,
            moves: 0,
            asked: None,
            given: 0,
        }
    }

    // Returns the bytes of the entry with this index: a put of an intent, which meets no other, or
    // what the plan says.
    fn bytes_at(&self, index: u64) -> Result<String, AllocError> {
        if index == self.plan.nonsense {
            return String::from_str(self.alloc, "dss-batch 0\n");
        }
        if index == self.plan.purge_at {
            let until = self.plan.until;
            return format!(in self.alloc; "dss-purge 1\n{until}\n");
        }
        let id = FIRST.saturating_add(index);
        let start = index.saturating_mul(10).saturating_add(FIRST);
        let end = start.saturating_add(5);
        let path = format!(in self.alloc;
            "/dss/v1/operational_intent_references/2f8343be-6482-4d1b-a474-16847e0{id}"
        )?;
        let body = format!(in self.alloc;
            r#"{{"extents":[{{"cells":["89c25904"],"altitude_lower":0,"altitude_upper":1200,"time_start":{start},"time_end":{end}}}],"state":"Accepted","uss_base_url":"https://a.example"}}"#
        )?;
        let (path_length, body_length) = (path.len(), body.len());
        format!(in self.alloc;
            "dss-batch 1\n1000 5:uss-a s---a 3:PUT {path_length}:{path} {body_length}:{body}\n"
        )
    }
}

impl Log for ListLog {
    ghost use Rattle.std.specs.Prelude.{None};

    ghost writer = { λ _. 1 };

    ghost history = { λ _. None };

    fn number(&self) -> u64 {
        1
    }

    fn next_has_other_clock(&self) -> bool {
        true
    }

    fn is_read(&self) -> bool {
        true
    }

    fn admits(&self, _uss: &str) -> bool {
        true
    }

    fn offer(&mut self, _bytes: &[u8]) -> Result<(), OfferFault> {
        Err(OfferFault::TooLong)
    }

    fn next(&mut self) -> Result<Option<Entry>, LogFault> {
        if self.given == self.plan.lost_at {
            return Err(LogFault::Lost);
        }
        if self.given >= self.arrived {
            return Ok(None);
        }
        let Ok(text) = self.bytes_at(self.given) else {
            return Err(LogFault::NoMemory);
        };
        self.given = self.given.saturating_add(1);
        let bytes = text.into_bytes();
        Ok(Some(Entry { writer: 2, bytes }))
    }

    fn ask_end(&mut self) -> Result<u64, LogFault> {
        self.asked = Some(7);
        Ok(7)
    }

    fn end(&mut self) -> Option<LogEnd> {
        if self.moves < self.plan.told_after {
            return None;
        }
        let question = self.asked.take()?;
        let count = self.plan.entries;
        Some(LogEnd { question, count })
    }
}

/// Makes the entries of a log in memory arrive.
#[derive(Drop)]
pub struct Arrivals;

impl LogIo<ListLog> for Arrivals {
    fn advance_log(&mut self, log: &mut ListLog, _now: Duration) -> Duration {
        let arrived = log.arrived.saturating_add(log.plan.arriving);
        log.arrived = arrived.min(log.plan.entries);
        log.moves = log.moves.saturating_add(1);
        Duration::from_millis(100)
    }

    fn status(&self, log: &ListLog, _now: Duration) -> LogStatus {
        LogStatus {
            revision: log.arrived,
            open: 0,
            silence: log.plan.silence,
            differing: 0,
        }
    }
}
