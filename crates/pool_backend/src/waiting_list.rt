//! The requests that wait for the log, and the outcomes that are still to be given.
ghost use Rattle.std.specs.Prelude.{◌≡◌, ◌+◌, ◌<◌, ◌≤◌, ◌∷◌, ◌++◌, [], IfOk, IfSome, IsTrue, MatchOption, vec_capacity, vec_len};
ghost use Rattle.std.specs.VecDeque.{deque_capacity, deque_len};

use crate::timeouts::Timeouts;
use entity_core::uss_id::UssId;
use pool_core::log::Log;
use pool_instance::instance::Instance;
use server_backend::outcome::Outcome;
use space_core::purge_ended::PurgeEnded;
use std::alloc::{AllocError, Global};
use std::collections::VecDeque;
use std::time::Duration;

// A request that waits: its ticket, the USS that made it, since when it waits, and whether the server
// was told that it can be answered now.
#[derive(Debug, Drop)]
struct Waiting {
    ticket: u64,
    uss: Option<UssId>,
    since: Duration,
    is_announced: bool,
}

/// The requests that wait for the log, in the order of their receipt, and the outcomes that are still
/// to be given.
///
/// The memory for all of them is allocated at first, so that no outcome is lost later for lack of it.
#[derive(Drop)]
pub(crate) struct WaitingList {
    items: Vec<Waiting>,
    outcomes: VecDeque<(u64, Outcome)>,
    most: usize,
    ghost list: { most ≤ vec_capacity items },
    ghost queue: { most ≤ deque_capacity outcomes },
    ghost room: { vec_len items + deque_len outcomes ≤ most },
}

impl WaitingList {
    ghost use Rattle.pool_backend.specs.Waiting.{HasRoom, given_by};

    /// Creates an empty list, with the memory for `most` requests and outcomes together.
    pub(crate) fn new(alloc: Global, most: usize) -> Result<WaitingList, AllocError>
        ensures { IfOk result (λ list. given_by list ≡ []) }
    {
        Ok(WaitingList {
            items: Vec::with_capacity(alloc, most)?,
            outcomes: VecDeque::with_capacity(alloc, most)?,
            most,
        })
    }

    /// Returns true if no request waits.
    pub(crate) fn is_empty(&self) -> bool {
        self.items.is_empty()
    }

    /// Returns the number of requests.
    pub(crate) fn len(&self) -> usize {
        self.items.len()
    }

    /// Returns true if there is memory for one more request.
    pub(crate) fn has_room(&self) -> bool
        ensures { IsTrue result → HasRoom self.now }
    {
        self.items.len() + self.outcomes.len() < self.most
    }

    /// Adds a request, the last one.
    pub(crate) fn push(&mut self, ticket: u64, uss: Option<UssId>, since: Duration)
        requires { HasRoom self.old }
        ensures { given_by self.new ≡ given_by self.old }
    {
        self.items.push_reserved(Waiting {
            ticket,
            uss,
            since,
            is_announced: false,
        });
    }

    // Returns the index of a request.
    fn place_of(&self, ticket: u64) -> Option<usize>
        ensures { IfSome result (λ place. place < vec_len self.now.items) }
    {
        self.items
            .iter()
            .position(|waiting| waiting.ticket == ticket)
    }

    /// Removes a request. Returns true if it waited.
    pub(crate) fn remove(&mut self, ticket: u64) -> bool
        ensures given { given_by self.new ≡ given_by self.old }
        ensures room { IsTrue result → HasRoom self.new }
    {
        let Some(place) = self.place_of(ticket) else {
            return false;
        };
        let _gone = self.items.remove(place);
        true
    }

    /// Puts an outcome behind the others.
    pub(crate) fn put(&mut self, ticket: u64, outcome: Outcome)
        requires { HasRoom self.old }
        ensures { given_by self.new ≡ given_by self.old ++ (ticket, outcome) ∷ [] }
    {
        self.outcomes.push_back_reserved((ticket, outcome));
    }

    /// Removes and returns the first outcome.
    pub(crate) fn pop(&mut self) -> Option<(u64, Outcome)>
        ensures { MatchOption result
            ((given_by self.old ≡ []) × (given_by self.new ≡ given_by self.old))
            (λ given. given_by self.old ≡ given ∷ given_by self.new) }
    {
        match self.outcomes.pop_front() {
            Some(given) => Some(given),
            None => None,
        }
    }

    /// Returns true if a request waits.
    pub(crate) fn has(&self, ticket: u64) -> bool {
        self.place_of(ticket).is_some()
    }

    /// Returns the first request.
    pub(crate) fn first(&self) -> Option<u64> {
        Some(self.items.first()?.ticket)
    }

    /// Returns the first request of a USS for which the instance may not act.
    pub(crate) fn first_unassigned<L: Log>(&self, log: &L) -> Option<(u64, &UssId)> {
        for waiting in &self.items {
            if let Some(uss) = &waiting.uss
                && !log.admits(uss.text())
            {
                return Some((waiting.ticket, uss));
            }
        }
        None
    }

    /// Returns the first request whose time is over. A request that was sent to the log has more
    /// time.
    pub(crate) fn first_late<L: Log + Drop, S: PurgeEnded + Drop>(
        &self,
        instance: &Instance<L, S>,
        timeouts: Timeouts,
        now: Duration,
    ) -> Option<u64> {
        for waiting in &self.items {
            let waited = now.saturating_sub(waiting.since);
            if waited <= timeouts.unsent {
                return None;
            }
            if waited > timeouts.sent || !instance.is_in_flight(waiting.ticket) {
                return Some(waiting.ticket);
            }
        }
        None
    }

    /// Announces a request that can be answered now. Returns false if it does not wait, or was
    /// announced before.
    pub(crate) fn announce(&mut self, ticket: u64) -> bool
        ensures { given_by self.new ≡ given_by self.old }
    {
        let Some(place) = self.place_of(ticket) else {
            return false;
        };
        let is_new = !self.items[place].is_announced;
        self.items[place].is_announced = true;
        is_new
    }
}
