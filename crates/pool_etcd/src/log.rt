//! The log, as an instance uses it.
use crate::etcd_log::{EtcdLog, MAX_BATCH};
use crate::log_value::entry_value;
use crate::names::organization_of;
use crate::suppliers::admits;
use pool_core::log::{Entry, Log, LogEnd, LogFault, OfferFault};

impl Log for EtcdLog {
    ghost use Rattle.std.specs.Prelude.{None};

    ghost writer = { λ log. log.number };

    // What etcd takes and gives is not known in advance.
    ghost history = { λ _. None };

    fn number(&self) -> u64 {
        self.number
    }

    // Instances of one organization, which may run on one machine, count as having one clock.
    fn next_has_other_clock(&self) -> bool {
        if !self.state.is_read || self.state.earlier > 0 {
            return false;
        }
        match self.state.following.entries.front() {
            Some(entry) => organization_of(entry.key.bytes())
                != organization_of(self.state.key.as_bytes()),
            None => false,
        }
    }

    fn is_read(&self) -> bool {
        self.state.is_read
    }

    fn admits(&self, uss: &str) -> bool {
        let list = self.state.following.suppliers.bytes();
        admits(list, self.state.key.as_bytes(), uss)
    }

    fn offer(&mut self, bytes: &[u8]) -> Result<(), OfferFault> {
        if bytes.len() > MAX_BATCH {
            return Err(OfferFault::TooLong);
        }
        let link = self.state.following.chain.link();
        let Ok(value) = entry_value(self.state.alloc, self.run, &link, bytes) else {
            return Err(OfferFault::NoMemory);
        };
        match self.queue.push_back(value) {
            Ok(()) => {
                self.state.has_news = false;
                Ok(())
            }
            Err(_) => Err(OfferFault::NoMemory),
        }
    }

    fn next(&mut self) -> Result<Option<Entry>, LogFault> {
        if self.state.loss.is_some() {
            return Err(LogFault::Lost);
        }
        match self.state.following.next() {
            Some(entry) => {
                self.state.earlier = self.state.earlier.saturating_sub(1);
                Ok(Some(Entry {
                    writer: entry.writer,
                    bytes: entry.bytes.into_vec(),
                }))
            }
            None => Ok(None),
        }
    }

    fn ask_end(&mut self) -> Result<u64, LogFault> {
        if self.state.loss.is_some() {
            return Err(LogFault::Lost);
        }
        match self.state.questions.ask() {
            Some(question) => Ok(question),
            None => Err(LogFault::Lost),
        }
    }

    fn end(&mut self) -> Option<LogEnd> {
        if !self.state.may_end() {
            return None;
        }
        let question = self.state.questions.answer(self.state.following.revision)?;
        Some(LogEnd {
            question,
            count: self.state.following.count,
        })
    }
}
