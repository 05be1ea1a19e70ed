//! An instance at a log.
use crate::commands::Command;
use mio::{Events, Poll, Token};
use pool_core::log::Log;
use pool_etcd::etcd_fault::{EndpointFault, EtcdFault};
use pool_etcd::etcd_log::EtcdLog;
use pool_etcd::settings::EtcdSettings;
use std::io::Write;
use std::time::{Duration, Instant};
use std::{io, str};

// The maximum number of events taken at once.
const EVENTS: usize = 16;

/// What follows a command.
#[derive(Clone, Copy, Debug, PartialEq, Eq)]
pub(crate) enum Outcome {
    /// The next command.
    GoesOn,
    /// The end of the program.
    Ends,
    /// The end of the program, since the log is lost.
    Lost,
}

/// An instance at a log.
#[derive(Drop)]
pub(crate) struct Instance<'a> {
    rt: &'a HostRuntime,
    start: Instant,
    poll: Poll,
    events: Events,
    log: EtcdLog,
    // The number of questions without an answer.
    open_questions: u64,
}

impl<'a> Instance<'a> {
    /// Creates an instance.
    pub(crate) fn new(rt: &'a HostRuntime, settings: EtcdSettings) -> io::Result<Instance<'a>> {
        Ok(Instance {
            rt,
            start: Instant::now(rt)?,
            poll: Poll::new(rt)?,
            events: Events::with_capacity(rt.alloc(), EVENTS)?,
            log: EtcdLog::new(rt.alloc(), settings, Token(0), Token(1))?,
            open_questions: 0,
        })
    }

    // Returns the time since the start.
    fn now(&self) -> io::Result<Duration> {
        Ok(Instant::now(self.rt)?.saturating_duration_since(self.start))
    }

    /// Runs a command.
    pub(crate) fn run(&mut self, command: Command<'_>) -> io::Result<Outcome> {
        match command {
            Command::Offer(text) => self.offer(text.as_bytes()),
            Command::Long(count) => {
                let bytes = vec![in self.rt.alloc(); b'x'; count]?;
                self.offer(bytes.as_slice())
            }
            Command::Admits(uss) => {
                println!(self.rt; "admits {uss} {}", self.log.admits(uss))?;
                Ok(Outcome::GoesOn)
            }
            Command::End => {
                if let Ok(question) = self.log.ask_end() {
                    println!(self.rt; "asked {question}")?;
                    self.open_questions = self.open_questions.saturating_add(1);
                }
                Ok(Outcome::GoesOn)
            }
            Command::Wait(time) => self.go_on(time, false),
            Command::Settle(time) => self.go_on(time, true),
            Command::Quit => Ok(Outcome::Ends),
        }
    }

    // Offers a batch.
    fn offer(&mut self, bytes: &[u8]) -> io::Result<Outcome> {
        if let Err(fault) = self.log.offer(bytes) {
            println!(self.rt; "not offered: {fault:?}")?;
        }
        Ok(Outcome::GoesOn)
    }

    // Goes on for a time, or until nothing is open.
    fn go_on(&mut self, millis: u64, until_settled: bool) -> io::Result<Outcome> {
        let end = self.now()?.saturating_add(Duration::from_millis(millis));
        for _ in 0..u64::MAX {
            let now = self.now()?;
            let patience = self.log.advance(self.rt, self.poll.registry(), now);
            self.print_news()?;
            if let Some(loss) = self.log.loss() {
                println!(self.rt; "lost {}", loss.name())?;
                return Ok(Outcome::Lost);
            }
            let open = self.log.open_batches();
            let is_settled = open == 0 && self.open_questions == 0;
            if now >= end || (until_settled && is_settled) {
                let (revision, count) = self.log.position();
                println!(self.rt; "done open {open} at {revision} count {count}")?;
                break;
            }
            let patience = patience.min(end.saturating_sub(now));
            self.poll.poll(&mut self.events, Some(patience))?;
        }
        self.rt.stdout().flush()?;
        Ok(Outcome::GoesOn)
    }

    // Prints the entries, ends and faults that have come.
    fn print_news(&mut self) -> io::Result<()> {
        for _ in 0..u64::MAX {
            let Ok(Some(entry)) = self.log.next() else {
                break;
            };
            let text = str::from_utf8(entry.bytes.as_slice()).unwrap_or("?");
            println!(self.rt; "entry {} {text}", entry.writer)?;
        }
        for _ in 0..u64::MAX {
            let Some(end) = self.log.end() else {
                break;
            };
            println!(self.rt; "end {} {}", end.question, end.count)?;
            self.open_questions = self.open_questions.saturating_sub(1);
        }
        for _ in 0..u64::MAX {
            let Some(difference) = self.log.take_difference() else {
                break;
            };
            let name = str::from_utf8(difference.name()).unwrap_or("?");
            let kind = if difference.own.is_some() {
                "differs"
            } else {
                "ahead"
            };
            println!(self.rt; "{kind} {name} {}", difference.link.count)?;
        }
        for _ in 0..2 {
            if let Some(EndpointFault { fault, .. }) = self.log.take_fault() {
                self.print_fault(fault)?;
            }
        }
        Ok(())
    }

    fn print_fault(&self, fault: EtcdFault) -> io::Result<()> {
        match fault {
            EtcdFault::Status(status) => println!(self.rt; "fault status {status}"),
            fault => println!(self.rt; "fault {}", fault.name()),
        }
    }
}
