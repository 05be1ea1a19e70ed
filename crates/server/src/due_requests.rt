//! The requests that waited and can be answered, until they are.
use server_base::limits::MAX_CONNECTIONS;
use server_base::sockets::ClientSocket;
use server_clients::client_set::ClientSet;
use std::alloc::{AllocError, Global};

// A request that can be answered: its ticket, and the key of its client.
#[derive(Clone, Copy, Debug)]
struct DueRequest {
    ticket: u64,
    key: usize,
}

/// The requests that can be answered, in the order in which the backend announced them.
#[derive(Drop)]
pub(crate) struct DueRequests {
    items: Vec<DueRequest>,
}

impl DueRequests {
    /// Creates an empty list, with the memory for one request of each client.
    pub(crate) fn new(alloc: Global) -> Result<DueRequests, AllocError> {
        Ok(DueRequests {
            items: Vec::with_capacity(alloc, MAX_CONNECTIONS)?,
        })
    }

    /// Returns true if no request can be answered.
    pub(crate) fn is_empty(&self) -> bool {
        self.items.is_empty()
    }

    /// Adds a request. If memory runs out, it is dropped, and its client is closed at its timeout.
    pub(crate) fn push(&mut self, ticket: u64, key: usize) {
        let _ = self.items.push(DueRequest { ticket, key });
    }

    // Returns the place of the next request.
    fn next_place<C: ClientSocket>(&self, clients: &ClientSet<C>) -> Option<usize> {
        let mut found = None;
        let mut least = u64::MAX;
        for (place, due) in self.items.iter().enumerate() {
            let virtual_time = clients.virtual_time_of(due.key);
            if found.is_none() || virtual_time < least {
                least = virtual_time;
                found = Some(place);
            }
        }
        found
    }

    /// Removes and returns the next request: that of the class with the least virtual time, and of
    /// these the one that was announced first. Returns its ticket and the key of its client.
    pub(crate) fn take_next<C: ClientSocket>(
        &mut self,
        clients: &ClientSet<C>,
    ) -> Option<(u64, usize)> {
        let place = self.next_place(clients)?;
        if place >= self.items.len() {
            return None;
        }
        let due = self.items.remove(place);
        Some((due.ticket, due.key))
    }
}
