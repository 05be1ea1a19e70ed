//! A simulated client.
ghost use Rattle.std.specs.Prelude.{◌≤◌, length, IfSome};

use crate::shared::Reached;
use std::alloc::Global;

/// How a client behaves.
#[derive(Clone, Copy, Debug)]
pub(crate) struct Manner {
    /// True if it does not wait for a response before it sends its next request.
    pub(crate) pipelines: bool,
    /// How many bytes it sends in all. It is then silent.
    pub(crate) stall: usize,
    /// True if it ends its side once it has sent all its bytes.
    pub(crate) ends: bool,
    /// How many bytes it takes in all.
    pub(crate) most: usize,
    /// True if it sends and takes only now and then.
    pub(crate) is_slow: bool,
    /// The number of waits after which it resets its connection.
    pub(crate) resets: u64,
    /// The most bytes that arrive at once, and the most that it takes at once.
    pub(crate) piece: usize,
    pub(crate) gulp: usize,
    /// True if it closes its side once the service has.
    pub(crate) closes: bool,
}

/// A simulated client: what it sends, and how much of it arrived and was read.
#[derive(Drop)]
pub(crate) struct Peer {
    pub(crate) script: Vec<u8>,
    pub(crate) ends: Vec<usize>,
    pub(crate) is_last: bool,
    pub(crate) manner: Manner,
    /// How many bytes arrived, how many of them the service has read in all, and before it ended its
    /// side.
    pub(crate) arrived: usize,
    pub(crate) read: usize,
    pub(crate) used: usize,
    /// What the service has sent.
    pub(crate) taken: Vec<u8>,
    /// How many bytes the service may send now, and whether it waits for more room.
    pub(crate) window: usize,
    pub(crate) is_blocked: bool,
    /// Whether the client ended its side, reset the connection, and whether the service ended its.
    pub(crate) has_ended: bool,
    pub(crate) is_reset: bool,
    pub(crate) is_shut: bool,
    /// The index of its connection and its key, once it is accepted and watched.
    pub(crate) connection: Option<usize>,
    pub(crate) key: Option<usize>,
    /// True if the sockets refused to watch it.
    pub(crate) is_refused: bool,
    /// How many waits there were since it was accepted.
    pub(crate) waits: u64,
    /// When it was accepted, when the service last read a first byte after a complete request, and
    /// when it last sent.
    pub(crate) accepted_at: u64,
    pub(crate) begun_at: u64,
    pub(crate) sent_at: u64,
    /// When it began to wait for room, when it ended its side, and when the service ended its.
    pub(crate) blocked_at: u64,
    pub(crate) ended_at: u64,
    pub(crate) shut_at: u64,
    /// What was reached when each of its requests was read.
    pub(crate) ready: Vec<Reached>,
}

impl Peer {
    /// Creates a client that has sent nothing.
    pub(crate) fn new(
        alloc: Global,
        script: Vec<u8>,
        ends: Vec<usize>,
        is_last: bool,
        manner: Manner,
    ) -> Peer {
        Peer {
            script,
            ends,
            is_last,
            manner,
            arrived: 0,
            read: 0,
            used: 0,
            taken: Vec::new(alloc),
            window: manner.gulp.min(manner.most),
            is_blocked: false,
            has_ended: false,
            is_reset: false,
            is_shut: false,
            connection: None,
            key: None,
            is_refused: false,
            waits: 0,
            accepted_at: 0,
            begun_at: 0,
            sent_at: 0,
            blocked_at: 0,
            ended_at: 0,
            shut_at: 0,
            ready: Vec::new(alloc),
        }
    }

    /// Returns how many bytes it sends while so many of its requests are answered.
    pub(crate) fn goal(&self, answered: u64) -> usize {
        if self.manner.pipelines {
            return self.manner.stall;
        }
        match self.ends.get(answered as usize) {
            Some(end) => (*end).min(self.manner.stall),
            None => self.manner.stall,
        }
    }

    /// Returns true if it has sent all that it will send.
    pub(crate) fn has_sent_all(&self) -> bool {
        self.arrived >= self.manner.stall
    }

    /// Returns true if it takes more bytes.
    pub(crate) fn takes_more(&self) -> bool {
        self.taken.len() < self.manner.most
    }

    /// Returns true if something will happen to it soon.
    pub(crate) fn is_lively(&self, answered: u64) -> bool {
        if self.is_reset {
            return false;
        }
        self.arrived < self.goal(answered)
            || (self.is_blocked && self.takes_more())
            || (self.manner.ends && self.has_sent_all() && !self.has_ended)
            || (self.is_shut && self.manner.closes && !self.has_ended)
            || self.waits < self.manner.resets && self.manner.resets < 1_000
    }

    /// Returns the number of bytes of the requests that were read whole.
    pub(crate) fn whole(&self) -> usize {
        match self.ready.len() {
            0 => 0,
            many => match self.ends.get(many.saturating_sub(1)) {
                Some(end) => *end,
                None => 0,
            },
        }
    }

    /// Returns true if it ended its side before the service did.
    pub(crate) fn has_ended_first(&self) -> bool {
        self.has_ended && (!self.is_shut || self.ended_at <= self.shut_at)
    }

    /// Returns true if it never stalls, resets or stops to read.
    pub(crate) fn is_faithful(&self) -> bool {
        self.manner.stall >= self.script.len()
            && self.manner.resets == u64::MAX
            && self.manner.most == usize::MAX
            && !self.manner.is_slow
            && !self.is_refused
    }

    /// Records that the service has read `count` more bytes when this was reached.
    pub(crate) fn note_read(&mut self, count: usize, reached: Reached) {
        let is_first = self.used <= self.whole();
        self.read = self.read.saturating_add(count);
        if self.is_shut || count == 0 {
            return;
        }
        if is_first {
            self.begun_at = reached.now;
        }
        self.used = self.read;
        self.note_whole(reached);
    }

    // Records which more requests were read whole.
    fn note_whole(&mut self, reached: Reached) {
        for index in self.ready.len()..self.ends.len() {
            let Some(end) = self.ends.get(index) else {
                return;
            };
            if *end > self.used {
                return;
            }
            if *end < self.used {
                self.begun_at = reached.now;
            }
            let _ = self.ready.push(reached);
        }
    }

    /// Copies the bytes that arrived into a chunk. Returns how many.
    pub(crate) fn give(&mut self, chunk: &mut [u8], reached: Reached) -> usize
        ensures { result ≤ length chunk.new }
    {
        let count = self.arrived.saturating_sub(self.read).min(chunk.len());
        for index in 0..count {
            if let Some(byte) = self.script.get(self.read.saturating_add(index))
                && let Some(place) = chunk.get_mut(index)
            {
                *place = *byte;
            }
        }
        self.note_read(count, reached);
        count
    }

    /// Takes some of these bytes. Returns how many, or `None` if memory runs out.
    pub(crate) fn take(&mut self, bytes: &[u8], now: u64) -> Option<usize>
        ensures { IfSome result (λ count. count ≤ length bytes.now) }
    {
        let count = self.window.min(bytes.len());
        let part = bytes.get(..count)?;
        self.taken.extend_from_slice(part).ok()?;
        self.window = self.window.saturating_sub(count);
        self.sent_at = now;
        Some(count)
    }

    /// Lets the service send more.
    pub(crate) fn widen(&mut self, count: usize) {
        let most = self.manner.most.saturating_sub(self.taken.len());
        self.window = count.min(most);
        self.is_blocked = self.window == 0;
    }
}
