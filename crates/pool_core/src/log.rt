//! The log that the instances of a pool share.

/// An entry of a log.
#[derive(Debug, Drop)]
pub struct Entry {
    /// The number of the instance that wrote it.
    pub writer: u64,
    /// The bytes that were written.
    pub bytes: Vec<u8>,
}

/// The answer to a question for the end of a log.
#[derive(Clone, Copy, Debug, PartialEq, Eq)]
pub struct LogEnd {
    /// The number of the question.
    pub question: u64,
    /// How many entries the log had at some time after the question.
    pub count: u64,
}

/// The reason why a log did not take a batch.
#[derive(Clone, Copy, Debug, PartialEq, Eq)]
pub enum OfferFault {
    /// The batch is longer than an entry may be.
    TooLong,
    /// Memory ran out.
    NoMemory,
}

/// The reason why a log failed.
#[derive(Clone, Copy, Debug, PartialEq, Eq)]
pub enum LogFault {
    /// Memory ran out. A later call can succeed.
    NoMemory,
    /// The log is lost for this instance, which must end: another process writes under its number,
    /// or entries that it was not given were removed.
    Lost,
}

/// A log of entries that several instances write and read, seen from one of them. No call blocks.
///
/// `writer` is the number of this instance. A process that starts again is another instance, with a
/// new number. `history` is what the instance did with the log so far, in order, if it is known.
pub trait Log {
    ghost use Rattle.std.specs.Prelude.{◌≡◌, ℕ, [], ◌∷◌, List, Option, MatchResult};
    ghost use Rattle.pool_core.specs.Log.{AsksEnd, Continues, LogEvent, TakesBatch};
    ghost use Rattle.pool_core.specs.Log.{end_events, next_events};

    ghost writer: { Self → ℕ };

    ghost history: { Self → Option (List LogEvent) };

    /// Returns the number of this instance.
    fn number(&self) -> u64
        ensures { result ≡ writer self.now };

    /// Returns true if the next entry was written with another clock than that of this instance,
    /// after this instance started. Returns false if the log does not know.
    fn next_has_other_clock(&self) -> bool;

    /// Returns true once the log was read up to the start of this instance.
    fn is_read(&self) -> bool;

    /// Returns true if the pool lets this instance act for this USS, as far as the log was read. An
    /// entry with a call of another USS would have no effect.
    fn admits(&self, uss: &str) -> bool;

    /// Offers a batch. It becomes an entry or never does, which is open until `next` returns it.
    ///
    /// An instance can offer more batches before. They become entries in the order of their offers.
    fn offer(&mut self, bytes: &[u8]) -> Result<(), OfferFault>
        ensures writer { writer self.new ≡ writer self.old }
        ensures history { MatchResult result
            (λ _. Continues (history self.old) (history self.new) (TakesBatch bytes.now ∷ []))
            (λ _. history self.new ≡ history self.old) };

    /// Returns the next entry, if it has arrived. After `Lost` none arrives.
    fn next(&mut self) -> Result<Option<Entry>, LogFault>
        ensures writer { writer self.new ≡ writer self.old }
        ensures history { MatchResult result
            (λ entry. Continues (history self.old) (history self.new) (next_events entry))
            (λ _. history self.new ≡ history self.old) };

    /// Asks how many entries the log has, and returns the number of this question.
    fn ask_end(&mut self) -> Result<u64, LogFault>
        ensures writer { writer self.new ≡ writer self.old }
        ensures history { MatchResult result
            (λ question. Continues (history self.old) (history self.new) (AsksEnd question ∷ []))
            (λ _. history self.new ≡ history self.old) };

    /// Returns the next answer to a question, if one has arrived.
    fn end(&mut self) -> Option<LogEnd>
        ensures writer { writer self.new ≡ writer self.old }
        ensures history { Continues (history self.old) (history self.new) (end_events result) };
}
