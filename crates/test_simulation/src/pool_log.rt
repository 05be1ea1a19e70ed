//! The log of a simulated pool, in memory.
//!
//! Entries are stored, arrive and are counted after drawn times, in their order. An offer can be lost,
//! and so can the answer to a question for the end.
use crate::draws::Draws;
use crate::shared::{SECOND, Shared};
use pool_core::log::{Entry, Log, LogEnd, LogFault, OfferFault};
use pool_core::log_io::LogIo;
use std::alloc::{AllocError, Global};
use std::time::Duration;

// The most nanoseconds that something takes which is slow.
const SLOW: u64 = 12 * SECOND;

/// An entry of the log.
#[derive(Debug, Drop)]
pub(crate) struct Stored {
    /// The number of the process that wrote it.
    pub(crate) writer: u64,
    pub(crate) bytes: Vec<u8>,
    /// The time from which the instance can take it.
    pub(crate) arrives: u64,
    /// True if it was written with another clock than that of the instance.
    pub(crate) has_other_clock: bool,
}

/// An entry that another process stores at a time.
#[derive(Debug, Drop)]
pub(crate) struct Coming {
    pub(crate) at: u64,
    pub(crate) writer: u64,
    pub(crate) bytes: Vec<u8>,
    pub(crate) has_other_clock: bool,
}

/// A batch or a purge that the instance offered.
#[derive(Debug, Drop)]
pub(crate) struct Offered {
    pub(crate) bytes: Vec<u8>,
    /// When it was offered, and the time of day then.
    pub(crate) at: u64,
    pub(crate) moment: u64,
    /// When it is stored, if it ever is.
    pub(crate) stores: Option<u64>,
}

// A question for the end of the log.
#[derive(Clone, Copy, Debug)]
struct Question {
    number: u64,
    // When the entries are counted, and when the instance gets their number.
    counted: u64,
    answered: u64,
    count: Option<u64>,
}

/// How the log behaves.
#[derive(Clone, Copy, Debug)]
pub(crate) struct LogCourse {
    /// The maximum times, in nanoseconds, until an offer is stored, an entry arrives, and a question is
    /// answered.
    pub(crate) stores: u64,
    pub(crate) arrives: u64,
    pub(crate) answers: u64,
    /// How often of a hundred times one of these takes seconds.
    pub(crate) slow: u64,
    /// How often of a hundred times an offer is never stored, a question is never answered, and a call
    /// finds no memory.
    pub(crate) unmade: u64,
    pub(crate) unanswered: u64,
    pub(crate) memory: u64,
    /// When the log is lost, if it is, and whether it is lost after an offer that is never stored.
    pub(crate) lost_at: Option<u64>,
    pub(crate) ends_unmade: bool,
    /// The USS for which the instance may not act, if there is one.
    pub(crate) excluded: Option<&'static str>,
}

/// What the log has, and what the instance did with it.
#[derive(Drop)]
pub(crate) struct LogState<'a> {
    pub(crate) alloc: Global,
    pub(crate) shared: &'a Shared,
    pub(crate) draws: Draws,
    pub(crate) course: LogCourse,
    /// The entries, and those that other processes store later, in the order of their times.
    pub(crate) entries: Vec<Stored>,
    pub(crate) coming: Vec<Coming>,
    /// How many of the latter are stored.
    pub(crate) came: usize,
    /// What the instance offered, and how much of it is stored.
    pub(crate) offers: Vec<Offered>,
    pub(crate) made: usize,
    questions: Vec<Question>,
    asked: u64,
    /// The index of the first entry that the instance reads, how many entries there were when it
    /// started, and the index of the next one that it takes.
    pub(crate) first: usize,
    start: usize,
    given: usize,
}

/// The log of a simulated pool, seen from an instance.
#[derive(Drop)]
pub(crate) struct SimLog<'a> {
    number: u64,
    pub(crate) state: LogState<'a>,
}

impl<'a> LogState<'a> {
    // Draws a time of at most `most` nanoseconds, or a longer one if the log is slow.
    fn delay(&mut self, most: u64) -> u64 {
        if self.draws.chance(self.course.slow) {
            self.draws.below(SLOW)
        } else {
            self.draws.below(most)
        }
    }

    // Draws when a new entry arrives: not before the one before it.
    fn arrival(&mut self) -> u64 {
        let delay = self.delay(self.course.arrives);
        let arrives = self.shared.now().saturating_add(delay);
        match self.entries.last() {
            Some(last) => arrives.max(last.arrives),
            None => arrives,
        }
    }

    // Stores an entry.
    fn store(
        &mut self,
        writer: u64,
        bytes: Vec<u8>,
        has_other_clock: bool,
    ) -> Result<(), AllocError> {
        let arrives = self.arrival();
        self.entries.push(Stored {
            writer,
            bytes,
            arrives,
            has_other_clock,
        })?;
        self.shared.store(self.entries.len());
        Ok(())
    }

    // Returns the time of the next entry of another process, if there is one.
    fn next_coming(&self) -> Option<u64> {
        Some(self.coming.get(self.came)?.at)
    }

    // Returns the time when the next offer is stored, if it is.
    fn next_offer(&self) -> Option<u64> {
        self.offers.get(self.made)?.stores
    }

    // Stores the next entry of another process.
    fn store_coming(&mut self) -> Option<()> {
        let coming = self.coming.get(self.came)?;
        let (writer, has_other_clock) = (coming.writer, coming.has_other_clock);
        let bytes = Vec::from_slice(self.alloc, coming.bytes.as_slice()).ok()?;
        self.store(writer, bytes, has_other_clock).ok()?;
        self.came = self.came.saturating_add(1);
        Some(())
    }

    // Stores the next offer.
    fn store_offer(&mut self, writer: u64) -> Option<()> {
        let offer = self.offers.get(self.made)?;
        let bytes = Vec::from_slice(self.alloc, offer.bytes.as_slice()).ok()?;
        self.store(writer, bytes, false).ok()?;
        self.made = self.made.saturating_add(1);
        Some(())
    }

    // Stores the next entry that is due, if there is one.
    fn store_next(&mut self, writer: u64) -> Option<()> {
        let now = self.shared.now();
        let coming = due(self.next_coming(), now);
        let offer = due(self.next_offer(), now);
        match (coming, offer) {
            (Some(other), Some(own)) if other <= own => self.store_coming(),
            (_, Some(_)) => self.store_offer(writer),
            (Some(_), None) => self.store_coming(),
            (None, None) => None,
        }
    }

    // Counts the entries for the questions whose time has come.
    fn count(&mut self) {
        let now = self.shared.now();
        let count = self.entries.len().saturating_sub(self.first) as u64;
        for question in self.questions.iter_mut() {
            if question.count.is_none() && question.counted <= now {
                question.count = Some(count);
            }
        }
    }

    // Loses the log if its time has come.
    fn lose(&mut self) {
        if let Some(at) = self.course.lost_at
            && at <= self.shared.now()
        {
            self.shared.lose();
        }
    }

    // Returns the time of what happens next.
    fn next_time(&self) -> Option<u64> {
        let mut least = earlier(self.next_coming(), self.next_offer());
        least = earlier(least, self.course.lost_at);
        if let Some(next) = self.entries.get(self.given) {
            least = earlier(least, Some(next.arrives));
        }
        for question in &self.questions {
            let next = match question.count {
                Some(_) => question.answered,
                None => question.counted,
            };
            least = earlier(least, Some(next));
        }
        least
    }

    // Lets happen what is due. Returns the time until what happens next.
    fn advance(&mut self, writer: u64) -> Duration {
        for _ in 0..self.coming.len().saturating_add(self.offers.len()) {
            if self.store_next(writer).is_none() {
                break;
            }
        }
        self.count();
        self.lose();
        let now = self.shared.now();
        match self.next_time() {
            Some(time) => Duration::from_nanos(time.saturating_sub(now).min(SECOND)),
            None => Duration::from_nanos(SECOND),
        }
    }

    // Draws when an offer is stored, if it is.
    fn draw_offer(&mut self) -> Option<u64> {
        let now = self.shared.now();
        if !self.draws.chance(self.course.unmade) {
            let delay = self.delay(self.course.stores);
            return Some(now.saturating_add(delay));
        }
        if self.course.ends_unmade {
            let delay = self.draws.below(SLOW);
            let at = now.saturating_add(10 * SECOND).saturating_add(delay);
            self.course.lost_at = earlier(self.course.lost_at, Some(at));
        }
        None
    }

    // Takes an offer.
    fn offer(&mut self, bytes: &[u8]) -> Result<(), AllocError> {
        if self.draws.chance(self.course.memory) {
            return Err(AllocError);
        }
        let bytes = Vec::from_slice(self.alloc, bytes)?;
        let stores = self.draw_offer();
        let moment = self.shared.wall();
        let at = self.shared.now();
        self.offers.push(Offered {
            bytes,
            at,
            moment,
            stores,
        })?;
        Ok(())
    }

    // Returns the next entry, if it has arrived.
    fn take(&mut self) -> Result<Option<Entry>, LogFault> {
        if self.shared.is_lost() {
            return Err(LogFault::Lost);
        }
        if self.draws.chance(self.course.memory) {
            return Err(LogFault::NoMemory);
        }
        let Some(next) = self.entries.get(self.given) else {
            return Ok(None);
        };
        if next.arrives > self.shared.now() {
            return Ok(None);
        }
        let Ok(bytes) = Vec::from_slice(self.alloc, next.bytes.as_slice()) else {
            return Err(LogFault::NoMemory);
        };
        let writer = next.writer;
        self.given = self.given.saturating_add(1);
        self.shared.give(self.given);
        Ok(Some(Entry { writer, bytes }))
    }

    // Takes a question.
    fn ask(&mut self) -> Result<u64, LogFault> {
        if self.shared.is_lost() {
            return Err(LogFault::Lost);
        }
        if self.draws.chance(self.course.memory) {
            return Err(LogFault::NoMemory);
        }
        let number = self.asked;
        self.asked = number.wrapping_add(1);
        if self.draws.chance(self.course.unanswered) {
            return Ok(number);
        }
        let counted = self
            .shared
            .now()
            .saturating_add(self.delay(self.course.answers));
        let answered = counted.saturating_add(self.delay(self.course.answers));
        let question = Question {
            number,
            counted,
            answered,
            count: None,
        };
        match self.questions.push(question) {
            Ok(()) => Ok(number),
            Err(_) => Err(LogFault::NoMemory),
        }
    }

    // Returns the place of a question whose answer has come.
    fn place_of_answer(&self) -> Option<usize> {
        let now = self.shared.now();
        self.questions.iter().position(|question| question.count.is_some()
            && question.answered <= now)
    }

    // Returns the next answer, if one has come.
    fn answer(&mut self) -> Option<LogEnd> {
        let place = self.place_of_answer()?;
        if place >= self.questions.len() {
            return None;
        }
        let Question { number, count, .. } = self.questions.remove(place);
        Some(LogEnd {
            question: number,
            count: count?,
        })
    }

    // Returns true if the next entry has another clock, once the log was read.
    fn has_other_clock(&self) -> bool {
        match self.entries.get(self.given) {
            Some(next) => self.given >= self.start && next.has_other_clock,
            None => false,
        }
    }
}

// Returns the time if it is not later than another.
fn due(at: Option<u64>, now: u64) -> Option<u64> {
    match at {
        Some(at) if at <= now => Some(at),
        _ => None,
    }
}

// Returns the earlier one of two times.
fn earlier(one: Option<u64>, other: Option<u64>) -> Option<u64> {
    match (one, other) {
        (Some(one), Some(other)) => Some(one.min(other)),
        (Some(one), None) => Some(one),
        (None, other) => other,
    }
}

impl<'a> SimLog<'a> {
    /// Creates the log as a new process finds it, which has this number and reads it from an index on.
    /// The times of the entries that arrive are drawn.
    pub(crate) fn new(
        alloc: Global,
        shared: &'a Shared,
        draws: Draws,
        course: LogCourse,
        number: u64,
        entries: Vec<Stored>,
        coming: Vec<Coming>,
        first: usize,
    ) -> SimLog<'a> {
        let start = entries.len();
        shared.store(start);
        shared.give(first);
        SimLog {
            number,
            state: LogState {
                alloc,
                shared,
                draws,
                course,
                entries,
                coming,
                came: 0,
                offers: Vec::new(alloc),
                made: 0,
                questions: Vec::new(alloc),
                asked: 1,
                first,
                start,
                given: first,
            },
        }
    }
}

impl<'a> Log for SimLog<'a> {
    ghost use Rattle.std.specs.Prelude.{None};

    ghost writer = { λ log. log.number };

    // what the log takes and gives is not known in advance
    ghost history = { λ _. None };

    fn number(&self) -> u64 {
        self.number
    }

    fn next_has_other_clock(&self) -> bool {
        self.state.has_other_clock()
    }

    fn is_read(&self) -> bool {
        self.state.given >= self.state.start
    }

    fn admits(&self, uss: &str) -> bool {
        match self.state.course.excluded {
            Some(excluded) => uss != excluded,
            None => true,
        }
    }

    fn offer(&mut self, bytes: &[u8]) -> Result<(), OfferFault> {
        match self.state.offer(bytes) {
            Ok(()) => Ok(()),
            Err(_) => Err(OfferFault::NoMemory),
        }
    }

    fn next(&mut self) -> Result<Option<Entry>, LogFault> {
        match self.state.take() {
            Ok(entry) => Ok(entry),
            Err(fault) => Err(fault),
        }
    }

    fn ask_end(&mut self) -> Result<u64, LogFault> {
        match self.state.ask() {
            Ok(question) => Ok(question),
            Err(fault) => Err(fault),
        }
    }

    fn end(&mut self) -> Option<LogEnd> {
        self.state.answer()
    }
}

/// What makes the entries of the log arrive.
#[derive(Drop)]
pub(crate) struct SimLogIo;

impl<'a> LogIo<SimLog<'a>> for SimLogIo {
    fn advance_log(&mut self, log: &mut SimLog<'a>, _now: Duration) -> Duration {
        let writer = log.number;
        log.state.advance(writer)
    }
}
