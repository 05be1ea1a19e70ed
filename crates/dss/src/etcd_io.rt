//! The connections to etcd.
use mio::Registry;
use pool_core::log_io::{LogIo, LogStatus};
use pool_etcd::differences::Difference;
use pool_etcd::etcd_fault::{EndpointFault, EtcdFault};
use pool_etcd::etcd_log::EtcdLog;
use std::alloc::AllocError;
use std::str;
use std::time::Duration;

// A fault of one kind at one address is printed once in this many seconds.
const SILENCE: u64 = 60;

// The maximum number of faults that are remembered.
const REMEMBERED: usize = 32;

/// The input and output of a log over etcd. Prints faults of its connections on standard error.
#[derive(Drop)]
pub(crate) struct EtcdIo<'a> {
    rt: &'a HostRuntime,
    registry: Registry,
    // The faults that were printed, and until when each is not printed again.
    printed: Vec<(EndpointFault, Duration)>,
}

impl<'a> EtcdIo<'a> {
    /// Creates the input and output, with the registry in which the connections are watched.
    pub(crate) fn new(rt: &'a HostRuntime, registry: Registry) -> EtcdIo<'a> {
        EtcdIo {
            rt,
            registry,
            printed: Vec::new(rt.alloc()),
        }
    }

    // Returns true if a fault is to be printed at this time, and records that it is.
    fn is_due(&mut self, fault: EndpointFault, now: Duration) -> bool {
        let until = now.saturating_add(Duration::from_secs(SILENCE));
        for (printed, silent_until) in &mut self.printed {
            if *printed == fault {
                if now < *silent_until {
                    return false;
                }
                *silent_until = until;
                return true;
            }
        }
        if self.printed.len() >= REMEMBERED {
            self.printed.clear();
        }
        let _ = self.printed.push((fault, until));
        true
    }

    // Prints a fault on a line. A failed print is ignored.
    fn print(&self, fault: EndpointFault) {
        let EndpointFault { fault, address } = fault;
        let Some(address) = address else {
            return;
        };
        let name = fault.name();
        let _ = match fault {
            EtcdFault::Status(status) => {
                eprintln!(self.rt; "dss: etcd: {address}: {name} {status}; trying the next address")
            }
            _ => eprintln!(self.rt; "dss: etcd: {address}: {name}; trying the next address"),
        };
    }

    // Prints a fault, if there is one and it is due.
    fn report(&mut self, fault: Option<EndpointFault>, now: Duration) {
        if let Some(fault) = fault
            && self.is_due(fault, now)
        {
            self.print(fault);
        }
    }
}

// Prints a link of another instance that differs from the own chain, on a line. A failed print is
// ignored.
fn print_difference(rt: &HostRuntime, difference: &Difference) -> Result<(), AllocError> {
    let name = str::from_utf8(difference.name()).unwrap_or("?");
    let count = difference.link.count;
    let Some(own) = &difference.own else {
        let _ = eprintln!(rt; "dss: pool: {name} is ahead: it has {count} changes, here are fewer");
        return Ok(());
    };
    let theirs = hex::encode(rt.alloc(), difference.link.digest.as_slice())?;
    let own = hex::encode(rt.alloc(), own.as_slice())?;
    let (theirs, own) = (theirs.as_str(), own.as_str());
    let _ = eprintln!(rt; "dss: pool: {name} differs after {count} changes: {theirs}, here {own}");
    Ok(())
}

impl<'a> LogIo<EtcdLog> for EtcdIo<'a> {
    fn advance_log(&mut self, log: &mut EtcdLog, now: Duration) -> Duration {
        let patience = log.advance(self.rt, &self.registry, now);
        // one of the requests, and one of the watch
        self.report(log.take_fault(), now);
        self.report(log.take_fault(), now);
        // at most one for each key and minute
        for _ in 0..u64::MAX {
            match log.take_difference() {
                Some(difference) => {
                    let _ = print_difference(self.rt, &difference);
                }
                None => break,
            }
        }
        patience
    }

    fn status(&self, log: &EtcdLog, now: Duration) -> LogStatus {
        let (revision, _) = log.position();
        LogStatus {
            revision,
            open: log.open_batches(),
            silence: log.silence(now),
            differing: log.differing(),
        }
    }
}
