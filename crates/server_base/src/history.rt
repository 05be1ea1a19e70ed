//! The history of sockets, which only clauses read.
ghost use Rattle.std.specs.Prelude.{◌≡◌, ◌++◌, List, []};
ghost use Rattle.std.specs.Borrow.{ftrue};
ghost use Rattle.server_base.specs.History.{HistoryEvent, events_of};

use std::marker::{Model, PhantomData};

/// The kinds of calls that `History::note` records.
pub const ACCEPT: u64 = 0;

pub const READ: u64 = 1;

pub const WRITE: u64 = 2;

/// What sockets accepted, received and sent, in order. It needs no memory: only clauses read it.
#[derive(Drop)]
pub struct History {
    marker: PhantomData<u8>,
    pub ghost events: { List HistoryEvent },
}

impl Model for History {
    ghost also_owns = { λ _. ftrue };
}

impl History {
    /// Creates an empty history.
    pub fn new() -> History
        ensures { result.events ≡ [] }
    {
        History {
            marker: PhantomData,
        }
    }

    /// Records a call: its kind and the name of its client, and the bytes that it moved.
    pub fn note(&mut self, _numbers: &[u64], _bytes: &[u8])
        ensures { self.new.events ≡ self.old.events ++ events_of _numbers.now _bytes.now }
    {}
}
