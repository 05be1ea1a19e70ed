//! Waiting for the connections to etcd, without other sockets.
use mio::{Events, Poll};
use pool_follow::follow::Waiting;
use std::io;
use std::io::ErrorKind;
use std::time::{Duration, Instant};

// The maximum number of events taken at once.
const EVENTS: usize = 16;

/// Waits for the connections to etcd.
#[derive(Drop)]
pub(crate) struct EtcdWaiting<'a> {
    rt: &'a HostRuntime,
    start: Instant,
    // The time of the last reading of the clock, since the start.
    last: Duration,
    poll: Poll,
    events: Events,
}

impl<'a> EtcdWaiting<'a> {
    /// Creates it over what watches the connections. Its clock begins at 0.
    pub(crate) fn new(rt: &'a HostRuntime, poll: Poll) -> io::Result<EtcdWaiting<'a>> {
        Ok(EtcdWaiting {
            rt,
            start: Instant::now(rt)?,
            last: Duration::ZERO,
            poll,
            events: Events::with_capacity(rt.alloc(), EVENTS)?,
        })
    }
}

impl<'a> Waiting for EtcdWaiting<'a> {
    fn now(&mut self) -> Duration {
        if let Ok(now) = Instant::now(self.rt) {
            self.last = now.saturating_duration_since(self.start);
        }
        self.last
    }

    fn wait(&mut self, patience: Duration) -> io::Result<()> {
        match self.poll.poll(&mut self.events, Some(patience)) {
            Err(cause) if cause.kind() == ErrorKind::Interrupted => Ok(()),
            done => done,
        }
    }
}
