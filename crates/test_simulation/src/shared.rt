//! What the parts of a simulation share: its clock, and counts.
use std::alloc::{AllocError, Global};
use std::cell::Cell;
use std::time::Duration;

/// The time of the first request, in seconds since 1970.
pub(crate) const START: u64 = 5_000;

/// A second in nanoseconds.
pub(crate) const SECOND: u64 = 1_000_000_000;

// How often another token table can become active.
const MOST_LOADS: usize = 1_000;

/// What a simulation has reached: its time, how many requests were answered, and how many entries the
/// log of a pool has.
#[derive(Clone, Copy, Debug)]
pub(crate) struct Reached {
    pub(crate) now: u64,
    pub(crate) total: u64,
    pub(crate) stored: usize,
}

/// The clock of a simulation, and what its sockets, its log and its token file note for each other.
#[derive(Drop)]
pub(crate) struct Shared {
    // The time since the start in nanoseconds, and how much each reading adds to it.
    now: Cell<u64>,
    step: Cell<u64>,
    // The time of day in seconds. It changes only while the service waits.
    wall: Cell<u64>,
    // The index of the token table that is active.
    table: Cell<usize>,
    // How often another token table became active, and for each time twice the time of the clock, and
    // one more if it was the second table.
    load_count: Cell<usize>,
    loads: Vec<Cell<u64>>,
    // True once the operator has requested the stop, when, and how many entries of the log of a pool the
    // instance had taken then.
    stopping: Cell<bool>,
    stopped_at: Cell<u64>,
    given_at_stop: Cell<usize>,
    // How many entries the log of a pool has, how many of them the instance took, and whether the log
    // is lost.
    stored: Cell<usize>,
    given: Cell<usize>,
    lost: Cell<bool>,
    // How many requests were answered: of all clients, and of each connection.
    total: Cell<u64>,
    answered: Vec<Cell<u64>>,
    // When each client was closed, by name; 0 if it is open.
    closed: Vec<Cell<u64>>,
}

// Returns so many zeros.
fn zeros(alloc: Global, count: usize) -> Result<Vec<Cell<u64>>, AllocError> {
    let mut cells = Vec::with_capacity(alloc, count)?;
    for _ in 0..count {
        cells.push(Cell::new(0))?;
    }
    Ok(cells)
}

// Returns the number in the cell at that index, or 0.
fn number_at(cells: &[Cell<u64>], index: usize) -> u64 {
    match cells.get(index) {
        Some(cell) => cell.get(),
        None => 0,
    }
}

impl Shared {
    /// Creates the state at the start, for so many clients.
    pub(crate) fn new(alloc: Global, clients: usize) -> Result<Shared, AllocError> {
        Ok(Shared {
            now: Cell::new(SECOND),
            step: Cell::new(1_000),
            wall: Cell::new(START),
            table: Cell::new(0),
            load_count: Cell::new(0),
            loads: zeros(alloc, MOST_LOADS)?,
            stopping: Cell::new(false),
            stopped_at: Cell::new(u64::MAX),
            given_at_stop: Cell::new(usize::MAX),
            stored: Cell::new(0),
            given: Cell::new(0),
            lost: Cell::new(false),
            total: Cell::new(0),
            answered: zeros(alloc, clients)?,
            closed: zeros(alloc, clients)?,
        })
    }

    /// Returns the time since the start in nanoseconds.
    pub(crate) fn now(&self) -> u64 {
        self.now.get()
    }

    /// Reads the clock, which takes time.
    pub(crate) fn read(&self) -> Duration {
        let now = self.now.get().saturating_add(self.step.get());
        self.now.set(now);
        Duration::from_nanos(now)
    }

    /// Lets so many nanoseconds pass while the service waits. From now on a reading takes `step`
    /// nanoseconds.
    pub(crate) fn pass(&self, nanos: u64, step: u64) {
        let now = self.now.get().saturating_add(nanos);
        self.now.set(now);
        self.step.set(step);
        self.wall.set(START.saturating_add(now / SECOND));
    }

    /// Returns the time of day in seconds.
    pub(crate) fn wall(&self) -> u64 {
        self.wall.get()
    }

    /// Returns the index of the active token table.
    pub(crate) fn table(&self) -> usize {
        self.table.get()
    }

    /// Makes another token table active.
    pub(crate) fn load(&self, table: usize) {
        self.table.set(table);
        let count = self.load_count.get();
        if let Some(cell) = self.loads.get(count) {
            let twice = self.now.get().saturating_mul(2);
            cell.set(twice.saturating_add(table as u64));
            self.load_count.set(count.saturating_add(1));
        }
    }

    /// Returns true if another token table can become active.
    pub(crate) fn can_load(&self) -> bool {
        self.load_count.get() < MOST_LOADS
    }

    /// Returns the index of the token table that was active at a time.
    pub(crate) fn table_at(&self, time: u64) -> usize {
        let mut table = 0;
        for index in 0..self.load_count.get() {
            let load = number_at(self.loads.as_slice(), index);
            if load / 2 <= time {
                table = (load % 2) as usize;
            }
        }
        table
    }

    /// Returns true if the operator has requested the stop.
    pub(crate) fn is_stopping(&self) -> bool {
        self.stopping.get()
    }

    /// Records that the operator has requested the stop.
    pub(crate) fn stop(&self) {
        self.stopping.set(true);
        self.stopped_at.set(self.now.get());
        self.given_at_stop.set(self.given.get());
    }

    /// Returns the index of the first entry that the instance took after the stop. Returns the greatest
    /// number if there was no stop, or if it came before a request that was received at this time.
    pub(crate) fn first_after_stop(&self, received: u64) -> usize {
        if self.was_stopping(received) {
            return usize::MAX;
        }
        self.given_at_stop.get()
    }

    /// Returns true if the operator had requested the stop before a time.
    pub(crate) fn was_stopping(&self, time: u64) -> bool {
        self.stopped_at.get() < time
    }

    /// Returns what was reached.
    pub(crate) fn reached(&self) -> Reached {
        Reached {
            now: self.now.get(),
            total: self.total.get(),
            stored: self.stored.get(),
        }
    }

    /// Records how many entries the log of a pool has.
    pub(crate) fn store(&self, count: usize) {
        self.stored.set(count);
    }

    /// Returns how many entries of the log the instance took, counted from the first one of all.
    pub(crate) fn given(&self) -> usize {
        self.given.get()
    }

    /// Records how many entries of the log the instance took.
    pub(crate) fn give(&self, count: usize) {
        self.given.set(count);
    }

    /// Returns true if the log of the pool is lost.
    pub(crate) fn is_lost(&self) -> bool {
        self.lost.get()
    }

    /// Records that the log of the pool is lost.
    pub(crate) fn lose(&self) {
        self.lost.set(true);
    }

    /// Counts an answered request of a connection, whose index counts from 0.
    pub(crate) fn count_answer(&self, connection: usize) {
        self.total.set(self.total.get().saturating_add(1));
        if let Some(cell) = self.answered.get(connection) {
            cell.set(cell.get().saturating_add(1));
        }
    }

    /// Returns how many requests of a connection were answered.
    pub(crate) fn answers_of(&self, connection: usize) -> u64 {
        number_at(self.answered.as_slice(), connection)
    }

    /// Records that the service closed the client of that name.
    pub(crate) fn close(&self, name: usize) {
        if let Some(cell) = self.closed.get(name) {
            cell.set(self.now.get());
        }
    }

    /// Returns when the client of that name was closed, or 0 if it is open.
    pub(crate) fn closed_at(&self, name: usize) -> u64 {
        number_at(self.closed.as_slice(), name)
    }
}
