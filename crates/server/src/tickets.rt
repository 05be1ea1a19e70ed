//! Which client waits under which ticket.
use std::alloc::{AllocError, Global};
use std::collections::VecDeque;

// A ticket, and the key of its client.
#[derive(Clone, Copy, Debug)]
struct Entry {
    ticket: u64,
    key: usize,
}

/// The keys of the clients whose requests were drafted or wait, in the order of their tickets.
///
/// It only makes finding them quick: each key is checked against its client, and a ticket that is
/// not here is looked for among all clients.
#[derive(Drop)]
pub(crate) struct Tickets {
    entries: VecDeque<Entry>,
}

impl Tickets {
    /// Creates an empty table with room for `most` tickets.
    pub(crate) fn new(alloc: Global, most: usize) -> Result<Tickets, AllocError> {
        Ok(Tickets {
            entries: VecDeque::with_capacity(alloc, most)?,
        })
    }

    /// Adds a ticket with the key of its client, if there is room.
    pub(crate) fn push(&mut self, ticket: u64, key: usize) {
        let _ = self.entries.push_back(Entry { ticket, key });
    }

    /// Removes a ticket and returns the key of its client, if the ticket is here.
    pub(crate) fn take(&mut self, ticket: u64) -> Option<usize> {
        if let Some(first) = self.entries.front()
            && first.ticket == ticket
        {
            let key = first.key;
            let _ = self.entries.pop_front();
            return Some(key);
        }
        let mut found = None;
        for _ in 0..self.entries.len() {
            let Some(entry) = self.entries.pop_front() else {
                return found;
            };
            if entry.ticket == ticket {
                found = Some(entry.key);
            } else {
                let _ = self.entries.push_back(entry);
            }
        }
        found
    }
}
