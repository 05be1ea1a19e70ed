//! All clients of a port, and which of them goes on next.
ghost use Rattle.std.specs.Prelude.{◌≡◌, ℕ, IfOk, IsTrue, None};
ghost use Rattle.server_clients.specs.ClientSet.{AddsIf, ChangesClients, ChangesUnseen};
ghost use Rattle.server_clients.specs.ClientSet.{KeepsClients, LimitsAt, LimitsBelow, clients_of};
ghost use Rattle.server_clients.specs.ServerEvents.{no_clients};

mod turns;

use crate::client_connection::{ClientConnection, TurnOutcome};
use crate::fair_queue::{ClassMember, FairQueue, WITHOUT_TOKEN};
use crate::reason::{Reason, reason_of};
use server_base::limits::{LARGE_BUFFERS, Limits, MAX_CONNECTIONS};
use server_base::sockets::{ClientSocket, SocketEvent, Sockets};
use slab::Slab;
use std::alloc::{AllocError, Global};
use std::collections::VecDeque;
use std::mem;
use std::time::Duration;
use token_conf::token_table::TokenTable;

/// The clients of a port, under their keys, with the queues in which they wait.
#[derive(Drop)]
pub struct ClientSet<T> {
    alloc: Global,
    connections: Slab<ClientConnection<T>>,
    // The maximum number of clients.
    most: usize,
    // The keys of the clients that have a turn next, a spare vector for the next turns, the keys of
    // the clients that wait for a large buffer, and the number of free large buffers.
    next: Vec<usize>,
    spare: Vec<usize>,
    wanting: VecDeque<usize>,
    large_buffers: usize,
    // The order in which requests are received.
    fair: FairQueue,
    // How many clients have their last response.
    ending: usize,
}

impl<T: ClientSocket> ClientSet<T> {
    /// Creates a set without clients. Allocates the memory for the maximum number of clients here,
    /// so that no client is dropped later for lack of it. Of a class, `share` requests may wait at
    /// the backend at once.
    pub fn new(alloc: Global, limits: Limits, share: usize) -> Result<ClientSet<T>, AllocError>
        ensures { IfOk result (λ set. clients_of T.name set ≡ no_clients) }
    {
        let most = limits.clients.min(MAX_CONNECTIONS);
        let connections = Slab::with_capacity(alloc, most)?;
        let next = Vec::with_capacity(alloc, most)?;
        let spare = Vec::with_capacity(alloc, most)?;
        let wanting = VecDeque::with_capacity(alloc, most)?;
        let fair = FairQueue::new(alloc, limits.response_memory, share)?;
        Ok(ClientSet {
            alloc,
            connections,
            most,
            next,
            spare,
            wanting,
            large_buffers: LARGE_BUFFERS,
            fair,
            ending: 0,
        })
    }

    /// Returns the number of clients.
    pub fn len(&self) -> usize {
        self.connections.len()
    }

    /// Returns true if there is no client.
    pub fn is_empty(&self) -> bool
        ensures { IsTrue result → (key : ℕ) → clients_of T.name self.now key ≡ None }
    {
        self.connections.is_empty()
    }

    /// Returns true if there are fewer clients than the maximum.
    pub fn has_room(&self) -> bool {
        self.connections.len() < self.most
    }

    /// Returns true if a client can go on at once.
    pub fn has_next(&self) -> bool {
        !self.next.is_empty() || self.fair.has_next()
    }

    /// Returns true if a client has its last response.
    pub fn is_any_ending(&self) -> bool {
        self.ending > 0
    }

    /// Queues a client for its next turn.
    pub fn queue(&mut self, key: usize)
        ensures { KeepsClients T.name self.old self.new }
    {
        let Some(client) = self.connections.get_mut(key) else {
            return;
        };
        if client.is_queued() {
            return;
        }
        client.set_queued(self.next.push(key).is_ok());
    }

    // Lets a client make at most one more request.
    fn limit_to_one_request(&mut self, key: usize)
        ensures { LimitsAt key (clients_of T.name self.old) (clients_of T.name self.new) }
    {
        if let Some(client) = self.connections.get_mut(key) {
            client.limit_to_one_request();
        }
    }

    /// Lets each client make at most one more request, and queues it for its next turn.
    pub fn limit_all(&mut self)
        ensures changes { ChangesUnseen T.name self.old self.new }
        ensures limits { LimitsBelow 1000 (clients_of T.name self.old)
            (clients_of T.name self.new) }
    {
        for key in 0..MAX_CONNECTIONS {
            self.limit_to_one_request(key);
            self.queue(key);
        }
    }

    /// Returns the keys of the queued clients, which are queued no more.
    pub fn take_queued(&mut self) -> Vec<usize>
        ensures { KeepsClients T.name self.old self.new }
    {
        let spare = mem::replace(&mut self.spare, Vec::new(self.alloc));
        mem::replace(&mut self.next, spare)
    }

    /// Keeps the memory of keys that were taken.
    pub fn return_queued(&mut self, mut keys: Vec<usize>)
        ensures { KeepsClients T.name self.old self.new }
    {
        keys.clear();
        self.spare = keys;
    }

    /// Records an event of a client's socket, and queues the client.
    pub fn note(&mut self, key: usize, told: SocketEvent)
        ensures { KeepsClients T.name self.old self.new }
    {
        let Some(client) = self.connections.get_mut(key) else {
            return;
        };
        client.note(told);
        self.queue(key);
    }

    /// Returns the key of the next client that is added.
    pub fn vacant_key(&self) -> usize {
        self.connections.vacant_key()
    }

    /// Adds a client. Returns false if memory runs out.
    pub fn insert(&mut self, socket: T, number: u64, now: Duration) -> bool
        ensures { AddsIf result (T.name socket) (clients_of T.name self.old)
            (clients_of T.name self.new) }
    {
        let client = ClientConnection::new(self.alloc, socket, number, now);
        let Ok(key) = self.connections.insert(client) else {
            return false;
        };
        // Read what it sent with its connection before the next call.
        self.queue(key);
        true
    }

    // Gives a free large buffer to a client that waits for one, unless its class has its maximum.
    fn grant_large_buffer(&mut self, key: usize, now: Duration)
        ensures { KeepsClients T.name self.old self.new }
    {
        let Some(client) = self.connections.get_mut(key) else {
            return;
        };
        if !client.wants_large_buffer() {
            return;
        }
        if !self.fair.may_take_large_buffer(client.member.class) {
            let _ = self.wanting.push_back(key);
            return;
        }
        client.take_large_buffer(now);
        self.fair.take_large_buffer(&mut client.member);
        self.large_buffers = self.large_buffers.saturating_sub(1);
        self.queue(key);
    }

    // Gives free large buffers to the clients that wait for one, in the order of their arrival.
    // Passes over a client whose class has its maximum.
    fn grant_large_buffers(&mut self, now: Duration)
        ensures { KeepsClients T.name self.old self.new }
    {
        for _ in 0..self.wanting.len() {
            if self.large_buffers == 0 {
                return;
            }
            let Some(key) = self.wanting.pop_front() else {
                return;
            };
            self.grant_large_buffer(key, now);
        }
    }

    // Makes a client wait for a large buffer. If memory runs out, the client times out.
    fn await_large_buffer(&mut self, key: usize)
        ensures { KeepsClients T.name self.old self.new }
    {
        let Some(client) = self.connections.get_mut(key) else {
            return;
        };
        if client.wants_large_buffer() || self.wanting.push_back(key).is_err() {
            return;
        }
        client.request_large_buffer();
    }

    // Makes a client wait for a large buffer, and gives it one if it can have it now.
    fn request_large_buffer(&mut self, key: usize, now: Duration)
        ensures { KeepsClients T.name self.old self.new }
    {
        self.await_large_buffer(key);
        self.grant_large_buffers(now);
    }

    // Frees the large buffer of a client that no longer needs it.
    fn free_large_buffer(&mut self, key: usize, now: Duration)
        ensures { KeepsClients T.name self.old self.new }
    {
        let Some(client) = self.connections.get_mut(key) else {
            return;
        };
        if !client.can_return_large_buffer() {
            return;
        }
        client.return_large_buffer();
        let member = client.member;
        self.add_large_buffer(member, now);
    }

    // Adds the large buffer that a client returned, and gives it to a client that waits for one.
    fn add_large_buffer(&mut self, member: ClassMember, now: Duration)
        ensures { KeepsClients T.name self.old self.new }
    {
        self.fair.return_large_buffer(member);
        self.large_buffers = self.large_buffers.saturating_add(1);
        self.grant_large_buffers(now);
    }

    /// Returns how many clients wait for a large buffer.
    pub fn waiting_for_buffers(&self) -> usize {
        let mut count = 0_usize;
        for key in &self.wanting {
            if let Some(client) = self.connections.get(*key)
                && client.wants_large_buffer()
            {
                count = count.saturating_add(1);
            }
        }
        count
    }

    // Closes a client. One that has not all its responses is stopped for this reason.
    fn close(&mut self, key: usize, why: Reason, now: Duration)
        ensures { ChangesUnseen T.name self.old self.new }
    {
        let Some(mut client) = self.connections.try_remove(key) else {
            return;
        };
        client.conclude(why);
        if client.is_ending() {
            self.ending = self.ending.saturating_sub(1);
        }
        self.fair.set_unsent(&mut client.member, 0);
        self.fair.set_outstanding(&mut client.member, false);
        if client.has_large_buffer() {
            self.add_large_buffer(client.member, now);
        }
    }

    /// Aborts a client, for this reason. It can still read what was sent before.
    pub fn abort<N: Sockets<Client = T>>(
        &mut self,
        sockets: &mut N,
        key: usize,
        why: Reason,
        now: Duration,
    ) -> TurnOutcome
        ensures { ChangesClients T.name self.old self.new
            (N.history sockets.old) (N.history sockets.new) }
    {
        match self.connections.get_mut(key) {
            Some(client) => client.end(sockets, why, now),
            None => TurnOutcome::Gone,
        }
    }

    /// Closes a client while the server stops, once it has all its responses.
    pub fn end_after<N: Sockets<Client = T>>(
        &mut self,
        sockets: &mut N,
        key: usize,
        turned: TurnOutcome,
        now: Duration,
    ) -> TurnOutcome
        ensures { ChangesClients T.name self.old self.new
            (N.history sockets.old) (N.history sockets.new) }
    {
        match self.connections.get_mut(key) {
            Some(client) => client.end_after(sockets, turned, now),
            None => TurnOutcome::Gone,
        }
    }

    /// Queues a client, makes it wait for a large buffer, or closes it.
    pub fn schedule(&mut self, key: usize, turned: TurnOutcome, now: Duration)
        ensures { ChangesUnseen T.name self.old self.new }
    {
        match turned {
            TurnOutcome::Again => {
                self.queue(key);
                self.free_large_buffer(key, now);
            }
            TurnOutcome::Rests | TurnOutcome::Waits | TurnOutcome::Ready => {
                self.free_large_buffer(key, now);
            }
            TurnOutcome::WantsLargeBuffer => self.request_large_buffer(key, now),
            TurnOutcome::Gone => self.close(key, Reason::Reset, now),
            TurnOutcome::Failed(fault) => self.close(key, reason_of(fault), now),
        }
    }

    /// Counts a client that got its last response in this turn.
    pub fn count_ending(&mut self, key: usize, was_ending: bool)
        ensures { KeepsClients T.name self.old self.new }
    {
        if let Some(client) = self.connections.get(key)
            && client.is_ending()
            && !was_ending
        {
            self.ending = self.ending.saturating_add(1);
        }
    }

    /// Counts the unsent bytes of a client, and its request if that waits at the backend, for its
    /// class.
    pub fn count_for_class(&mut self, key: usize)
        ensures { KeepsClients T.name self.old self.new }
    {
        let Some(client) = self.connections.get_mut(key) else {
            return;
        };
        let (unsent, waits) = (client.unsent(), client.ticket().is_some());
        self.fair.set_unsent(&mut client.member, unsent);
        self.fair.set_outstanding(&mut client.member, waits);
    }

    /// Returns the virtual time of the class of a client.
    pub fn virtual_time_of(&self, key: usize) -> u64 {
        self.fair.virtual_time_of(self.class_of(key))
    }

    /// Charges the class of a client its share of a commit that took so long.
    pub fn charge_share(&mut self, key: usize, took: u64, cost: u64)
        ensures { KeepsClients T.name self.old self.new }
    {
        if let Some(client) = self.connections.get(key) {
            self.fair.charge_share(client.member, took, cost);
        }
    }

    // Determines the class of a client's next request, and queues the client there if the request
    // is complete or the stream ends.
    fn classify(&mut self, key: usize, tokens: &TokenTable) -> TurnOutcome
        ensures { KeepsClients T.name self.old self.new }
    {
        match self.connections.get_mut(key) {
            Some(client) => client.classify(&mut self.fair, key, tokens),
            None => TurnOutcome::Gone,
        }
    }

    /// Returns the class of a client.
    pub fn class_of(&self, key: usize) -> usize {
        match self.connections.get(key) {
            Some(client) => client.member.class,
            None => WITHOUT_TOKEN,
        }
    }

    /// Determines the class of a client's next request if there is one.
    pub fn classify_ready(
        &mut self,
        key: usize,
        tokens: &TokenTable,
        moved: TurnOutcome,
    ) -> TurnOutcome
        ensures { KeepsClients T.name self.old self.new }
    {
        match moved {
            TurnOutcome::Ready => self.classify(key, tokens),
            _ => moved,
        }
    }
}
