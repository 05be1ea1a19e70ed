//! Fair queuing of requests by USS: whose request is answered next.
//!
//! The requests of one USS form a class, and those without a valid token form another. Each class
//! has a virtual time, which grows by the time that its requests took. The next request is that of
//! the class with the smallest virtual time. Within a class, clients take turns.
ghost use Rattle.std.specs.Prelude.{◌≡◌, IfSome, IsTrue};
ghost use Rattle.std.specs.List.{Contains};
ghost use Rattle.server_clients.specs.FairQueue.{IsCharged, IsNext, IsPicked, NeverFalls, WaitsIn, has_waiting, is_held_up, may_be_next, waiting_in};

use entity_core::uss_id::UssId;
use policy_core::scope::Caller;
use server_base::limits::{
    LARGE_BUFFERS_OF_USS, LARGE_BUFFERS_WITHOUT_TOKEN, MAX_CONNECTIONS, ROUND_TIME,
};
use std::alloc::{AllocError, Global};
use std::collections::VecDeque;
use std::time::Duration;

/// The index of the class of requests without a valid token.
pub const WITHOUT_TOKEN: usize = 0;

/// The least number of nanoseconds that a request is charged.
pub const LEAST_CHARGE: u64 = 1_000;

/// Returns the nanoseconds between two times, or zero if the clock did not return both.
pub fn nanos_between(begun: Option<Duration>, ended: Option<Duration>) -> u64 {
    match (begun, ended) {
        (Some(begun), Some(ended)) => {
            u64::try_from(ended.saturating_sub(begun).as_nanos()).unwrap_or(u64::MAX)
        }
        _ => 0,
    }
}

/// Returns true if no more requests are answered in a round, given the times of its begin and of
/// now.
pub fn is_round_over(begun: Option<Duration>, now: Option<Duration>) -> bool {
    nanos_between(begun, now) > ROUND_TIME * 1_000_000
}

/// What the queue records of a client.
#[derive(Clone, Copy, Debug)]
pub struct ClassMember {
    /// The class of its next request, or of its last one.
    pub class: usize,
    /// The class that its large buffer counts for.
    pub buffer_class: usize,
    /// True if it waits in the queue.
    pub waits: bool,
    /// The unsent bytes that are counted for its class.
    pub unsent: usize,
    /// The class that its request counts for while that waits at the backend.
    pub asked: Option<usize>,
    /// The nanoseconds that its last request took.
    pub cost: u64,
}

impl ClassMember {
    /// Creates the record of a client that has sent nothing.
    pub fn new() -> ClassMember {
        ClassMember {
            class: WITHOUT_TOKEN,
            buffer_class: WITHOUT_TOKEN,
            waits: false,
            unsent: 0,
            asked: None,
            cost: 0,
        }
    }
}

// The requests of one USS, or those without a valid token.
#[derive(Drop)]
struct UssClass {
    uss: Option<UssId>,
    // The keys of the clients with a complete request, in the order of these requests: those that
    // may send more, and those that send nothing more. The latter may be gone, so they come last.
    open: VecDeque<usize>,
    ended: VecDeque<usize>,
    // The virtual time in nanoseconds.
    virtual_time: u64,
    // The unsent bytes of its responses, how many of its requests wait at the backend, and how many
    // large buffers it has.
    unsent: usize,
    outstanding: usize,
    large_buffers: usize,
}

impl UssClass {
    // Creates a class in which no client waits, with room for the maximum number of clients.
    fn new(alloc: Global, uss: Option<UssId>) -> Result<UssClass, AllocError> {
        Ok(UssClass {
            uss,
            open: VecDeque::with_capacity(alloc, MAX_CONNECTIONS)?,
            ended: VecDeque::with_capacity(alloc, MAX_CONNECTIONS)?,
            virtual_time: 0,
            unsent: 0,
            outstanding: 0,
            large_buffers: 0,
        })
    }

    // Returns true if the requests of the caller are in this class.
    fn is_of(&self, caller: Option<&Caller>) -> bool {
        match (&self.uss, caller) {
            (Some(uss), Some(caller)) => uss.is(&caller.uss),
            (None, None) => true,
            _ => false,
        }
    }

    // Returns true if a client waits.
    fn has_waiting(&self) -> bool
        ensures { result ≡ has_waiting self.now }
    {
        !self.open.is_empty() || !self.ended.is_empty()
    }

    // Returns true if no request of the class is taken until more of its responses are sent, or
    // fewer of its requests than `share` wait at the backend. `total` is the number of unsent bytes
    // of all classes, and `memory` the budget.
    fn is_held_up(&self, memory: usize, total: usize, share: usize) -> bool
        ensures { result ≡ is_held_up memory total share self.now }
    {
        self.outstanding >= share
            || self.unsent > 0 && (self.unsent >= memory / 2 || total >= memory)
    }

    // Returns true if a client waits and the class is not held up.
    fn may_be_next(&self, memory: usize, total: usize, share: usize) -> bool
        ensures { result ≡ may_be_next memory total share self.now }
    {
        self.has_waiting() && !self.is_held_up(memory, total, share)
    }

    // Appends a client. Returns false if memory runs out.
    fn push(&mut self, key: usize, has_ended: bool) -> bool
        ensures waits { IsTrue result → Contains (waiting_in self.new) key }
        ensures time { self.new.virtual_time ≡ self.old.virtual_time }
    {
        if has_ended {
            self.ended.push_back(key).is_ok()
        } else {
            self.open.push_back(key).is_ok()
        }
    }

    // Removes and returns the next client.
    fn pop(&mut self) -> Option<usize>
        ensures waited { IfSome result (λ key. Contains (waiting_in self.old) key) }
        ensures time { self.new.virtual_time ≡ self.old.virtual_time }
    {
        match self.open.pop_front() {
            Some(key) => Some(key),
            None => self.ended.pop_front(),
        }
    }
}

/// The classes, and the clients that wait in each.
#[derive(Drop)]
pub struct FairQueue {
    alloc: Global,
    classes: Vec<UssClass>,
    // The virtual time of the request that was taken last.
    virtual_time: u64,
    // The budget for unsent bytes of responses, and the unsent bytes of all classes.
    memory: usize,
    unsent: usize,
    // How many requests of a class may wait at the backend at once.
    share: usize,
}

impl FairQueue {
    /// Creates a queue in which no client waits, with that budget for unsent bytes of responses. Of
    /// a class, `share` requests may wait at the backend at once.
    pub fn new(alloc: Global, memory: usize, share: usize) -> Result<FairQueue, AllocError> {
        let mut classes = Vec::new(alloc);
        classes.push(UssClass::new(alloc, None)?)?;
        Ok(FairQueue {
            alloc,
            classes,
            virtual_time: 0,
            memory,
            unsent: 0,
            share,
        })
    }

    // Returns the index of the caller's class. Adds the class if it is new; if memory runs out, the
    // index is that of requests without a token. Looks at the class `hint` first.
    fn class_of(&mut self, caller: Option<&Caller>, hint: usize) -> usize
        ensures { NeverFalls self.old self.new }
    {
        if let Some(class) = self.classes.get(hint)
            && class.is_of(caller)
        {
            return hint;
        }
        for (index, class) in self.classes.iter().enumerate() {
            if class.is_of(caller) {
                return index;
            }
        }
        let Some(caller) = caller else {
            return WITHOUT_TOKEN;
        };
        match self.add_class(caller) {
            Ok(index) => index,
            Err(_) => WITHOUT_TOKEN,
        }
    }

    // Adds the class of a caller, and returns its index.
    fn add_class(&mut self, caller: &Caller) -> Result<usize, AllocError>
        ensures { NeverFalls self.old self.new }
    {
        let class = UssClass::new(self.alloc, Some(caller.uss.clone()?))?;
        let index = self.classes.len();
        self.classes.push(class)?;
        Ok(index)
    }

    /// Appends a client to a class. Returns false if memory runs out.
    pub fn push(&mut self, index: usize, key: usize, has_ended: bool) -> bool
        ensures waits { IsTrue result → WaitsIn self.new index key }
        ensures never { NeverFalls self.old self.new }
    {
        let virtual_time = self.virtual_time;
        let Some(class) = self.classes.get_mut(index) else {
            return false;
        };
        if !class.has_waiting() {
            class.virtual_time = class.virtual_time.max(virtual_time);
        }
        class.push(key, has_ended)
    }

    // Returns the class whose request is next.
    fn next_class(&self) -> Option<usize>
        ensures { IfSome result (IsNext self.now) }
    {
        let mut found = None;
        let mut least = u64::MAX;
        for index in 0..self.classes.len() {
            let class = &self.classes[index];
            if class.may_be_next(self.memory, self.unsent, self.share)
                && class.virtual_time < least
            {
                least = class.virtual_time;
                found = Some(index);
            }
        }
        found
    }

    /// Returns true if a request may be answered now.
    pub fn has_next(&self) -> bool {
        self.next_class().is_some()
    }

    /// Removes and returns the client whose request is next, after the index of its class. The
    /// client waited in that class, and the class is not held up. No other such class has a smaller
    /// virtual time.
    pub fn pick(&mut self) -> Option<(usize, usize)>
        ensures picked { IfSome result (λ picked. IsPicked self.old picked.0 picked.1) }
        ensures never { NeverFalls self.old self.new }
    {
        let index = self.next_class()?;
        let class = self.classes.get_mut(index)?;
        self.virtual_time = class.virtual_time;
        let key = class.pop()?;
        Some((index, key))
    }

    /// Returns the virtual time of a class.
    pub fn virtual_time_of(&self, index: usize) -> u64 {
        match self.classes.get(index) {
            Some(class) => class.virtual_time,
            None => self.virtual_time,
        }
    }

    /// Adds to the virtual time of a class what a request of it took, and at least `LEAST_CHARGE`.
    pub fn charge(&mut self, index: usize, nanos: u64)
        ensures charged { IsCharged self.old index nanos self.new }
        ensures never { NeverFalls self.old self.new }
    {
        let virtual_time = self.virtual_time;
        if let Some(class) = self.classes.get_mut(index) {
            class.virtual_time = class
                .virtual_time
                .max(virtual_time)
                .saturating_add(nanos.max(LEAST_CHARGE));
        }
    }

    /// Charges the class of a client its share of a commit that took `nanos` nanoseconds, if the
    /// calls of the batch took `total` together.
    pub fn charge_share(&mut self, member: ClassMember, nanos: u64, total: u64)
        ensures { NeverFalls self.old self.new }
    {
        self.charge(
            member.class,
            nanos.saturating_mul(member.cost) / total.max(1),
        );
    }

    // Counts the unsent bytes of a client of a class: `now` instead of `before`.
    fn count_unsent(&mut self, index: usize, before: usize, now: usize)
        ensures { NeverFalls self.old self.new }
    {
        self.unsent = self.unsent.saturating_add(now).saturating_sub(before);
        if let Some(class) = self.classes.get_mut(index) {
            class.unsent = class.unsent.saturating_add(now).saturating_sub(before);
        }
    }

    /// Sets the number of unsent bytes of a client.
    pub fn set_unsent(&mut self, member: &mut ClassMember, unsent: usize)
        ensures { NeverFalls self.old self.new }
    {
        if unsent != member.unsent {
            self.count_unsent(member.class, member.unsent, unsent);
            member.unsent = unsent;
        }
    }

    /// Sets whether the request of a client waits at the backend.
    pub fn set_outstanding(&mut self, member: &mut ClassMember, waits: bool)
        ensures { NeverFalls self.old self.new }
    {
        match (member.asked, waits) {
            (None, true) => {
                if let Some(class) = self.classes.get_mut(member.class) {
                    class.outstanding = class.outstanding.saturating_add(1);
                }
                member.asked = Some(member.class);
            }
            (Some(index), false) => {
                if let Some(class) = self.classes.get_mut(index) {
                    class.outstanding = class.outstanding.saturating_sub(1);
                }
                member.asked = None;
            }
            _ => {}
        }
    }

    /// Moves a client, with its unsent bytes, to the class of a caller.
    pub fn set_class(&mut self, member: &mut ClassMember, caller: Option<&Caller>)
        ensures { NeverFalls self.old self.new }
    {
        let class = self.class_of(caller, member.class);
        if class != member.class {
            self.count_unsent(member.class, member.unsent, 0);
            self.count_unsent(class, 0, member.unsent);
            member.class = class;
        }
    }

    /// Returns true if a class may have one more large buffer.
    pub fn may_take_large_buffer(&self, index: usize) -> bool {
        let most = if index == WITHOUT_TOKEN {
            LARGE_BUFFERS_WITHOUT_TOKEN
        } else {
            LARGE_BUFFERS_OF_USS
        };
        match self.classes.get(index) {
            Some(class) => class.large_buffers < most,
            None => false,
        }
    }

    /// Counts the large buffer that a client takes.
    pub fn take_large_buffer(&mut self, member: &mut ClassMember)
        ensures { NeverFalls self.old self.new }
    {
        member.buffer_class = member.class;
        if let Some(class) = self.classes.get_mut(member.class) {
            class.large_buffers = class.large_buffers.saturating_add(1);
        }
    }

    /// Counts the large buffer that a client returns.
    pub fn return_large_buffer(&mut self, member: ClassMember)
        ensures { NeverFalls self.old self.new }
    {
        if let Some(class) = self.classes.get_mut(member.buffer_class) {
            class.large_buffers = class.large_buffers.saturating_sub(1);
        }
    }
}
