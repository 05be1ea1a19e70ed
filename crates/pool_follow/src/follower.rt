//! A follower of a log.
ghost use Rattle.std.specs.Prelude.{◌≡◌};
ghost use Rattle.pool_follow.specs.Parts.{fault_of};

use crate::acts::do_acts;
use crate::end_state::EndState;
use crate::follow_fault::FollowFault;
use pool_core::log::{Log, LogFault};
use pool_core::log_io::LogIo;
use service_calls::service::Service;
use space_core::group_commit::GroupCommit;
use space_core::purge_ended::PurgeEnded;
use space_core::space::Space;
use std::alloc::Global;
use std::time::Duration;
use wire_route::routes::Routes;

// Returns the fault of a follower whose log failed.
fn log_fault(fault: LogFault) -> FollowFault
    ensures { result ≡ fault_of fault }
{
    match fault {
        LogFault::NoMemory => FollowFault::Memory,
        LogFault::Lost => FollowFault::Lost,
    }
}

/// Does the acts of the entries of a log, in order, over the space of a service. It has no requests
/// of its own.
///
/// After `take` or `commit` returned a fault, both always return this fault. The space may then
/// have a part of the acts of an entry.
#[derive(Drop)]
pub struct Follower<L: Log, S: Space> {
    log: L,
    service: Service<S>,
    // How many entries were taken.
    taken: u64,
    end: EndState,
    failed: Option<FollowFault>,
}

impl<L: Log + Drop, S: Space + Drop> Follower<L, S> {
    ghost use Rattle.std.specs.Prelude.{◌≡◌, [], false, OnOk, Some};
    ghost use Rattle.entity_core.specs.Airspace.{Airspace};
    ghost use Rattle.space_core.specs.Space.{IsContent};
    ghost use Rattle.service_calls.specs.Held.{is_shut, salt_of, space_of};
    ghost use Rattle.pool_follow.specs.Follower.{AsksForEnd, Did, HasFollowed, Learns, Stays};
    ghost use Rattle.pool_follow.specs.Parts.{is_at_end, log_of, salt_in, space_in, with_fault};

    /// Creates a follower that has taken no entry, over a service whose space holds the airspace
    /// at the start of the log.
    ///
    /// Allocates nothing.
    pub fn new(log: L, service: Service<S>) -> Self
        ensures starts { is_shut service ≡ false → (start : Airspace)
            → (S.is_sound (space_of service) → IsContent S.holds (space_of service) start)
            → HasFollowed L.Log S.Space (L.history log) start [] result }
        ensures log { log_of result ≡ log }
        ensures space { space_in result ≡ space_of service }
        ensures salt { salt_in result ≡ salt_of service }
    {
        Follower {
            log,
            service,
            taken: 0,
            end: EndState::Unasked,
            failed: None,
        }
    }

    /// Borrows the log, for what its input and output know of it.
    pub fn log(&self) -> &L
        ensures { result.now ≡ log_of self.now }
    {
        &self.log
    }

    /// Returns the log and the space.
    pub fn into_parts(self) -> (L, S)
        ensures log { result.0 ≡ log_of self }
        ensures space { result.1 ≡ space_in self }
    {
        let Follower {
            log,
            service,
            taken: _,
            end: _,
            failed: _,
        } = self;
        (log, service.into_space())
    }

    /// Moves the bytes of the log, at a time of a clock that does not go back. Returns the time
    /// within which it has to be called again, unless a connection is ready before.
    pub fn advance_log<I: LogIo<L>>(&mut self, io: &mut I, now: Duration) -> Duration
        ensures stays { Stays L.Log S.Space self.old self.new }
        ensures nothing { Did L.Log S.Space self.old [] self.new }
    {
        io.advance_log(&mut self.log, now)
    }

    /// Asks the log for its end. An end that was known before is forgotten.
    pub fn ask(&mut self) -> Result<(), FollowFault>
        ensures stays { Stays L.Log S.Space self.old self.new }
        ensures asks { OnOk result (AsksForEnd L.Log S.Space self.old self.new) }
    {
        match self.log.ask_end() {
            Ok(question) => {
                self.end = EndState::Asked(question);
                Ok(())
            }
            Err(fault) => Err(log_fault(fault)),
        }
    }

    /// Learns the end, if the log tells it.
    pub fn learn(&mut self)
        ensures stays { Stays L.Log S.Space self.old self.new }
        ensures learns { Learns L.Log S.Space self.old self.new }
    {
        if let Some(end) = self.log.end() {
            self.end = self.end.after(end.question, end.count);
        }
    }

    /// Returns true if the end is known, and all entries up to it were taken.
    pub fn is_at_end(&self) -> bool
        ensures { result ≡ is_at_end self.now }
    {
        self.end.is_reached(self.taken)
    }

    // Notes a fault.
    fn fail(&mut self, fault: FollowFault) -> FollowFault
        ensures same { result ≡ fault }
        ensures failed { self.new ≡ with_fault self.old fault }
    {
        self.failed = Some(fault);
        fault
    }
}

impl<L: Log + Drop, S: PurgeEnded + Drop> Follower<L, S> {
    ghost use Rattle.std.specs.Prelude.{◌≡◌, IfOk};
    ghost use Rattle.pool_follow.specs.Follower.{FailsForGood, Stays, Takes};

    // Takes the next entry, if the log gives one, and does its acts. Returns true if it did.
    fn take_next(&mut self, alloc: Global, routes: &Routes) -> Result<bool, FollowFault>
        ensures stays { Stays L.Log S.Space self.old self.new }
        ensures takes { IfOk result (Takes L.Log S.Space self.old self.new) }
    {
        let Some(taken) = self.taken.checked_add(1) else {
            return Err(FollowFault::Lost);
        };
        match self.log.next() {
            Ok(None) => Ok(false),
            Ok(Some(entry)) => {
                do_acts(&mut self.service, alloc, routes, entry.bytes.as_slice())?;
                self.taken = taken;
                Ok(true)
            }
            Err(fault) => Err(log_fault(fault)),
        }
    }

    /// Takes the next entry, if the log gives one, and does its acts. Returns true if it did.
    pub fn take(&mut self, alloc: Global, routes: &Routes) -> Result<bool, FollowFault>
        ensures stays { Stays L.Log S.Space self.old self.new }
        ensures fails { FailsForGood self.old self.new result }
        ensures takes { IfOk result (Takes L.Log S.Space self.old self.new) }
    {
        if let Some(fault) = self.failed {
            return Err(fault);
        }
        match self.take_next(alloc, routes) {
            Ok(took) => Ok(took),
            Err(fault) => Err(self.fail(fault)),
        }
    }
}

impl<L: Log + Drop, S: GroupCommit + Drop> Follower<L, S> {
    ghost use Rattle.std.specs.Prelude.{◌≡◌, OnOk};
    ghost use Rattle.pool_follow.specs.Follower.{Commits, FailsForGood, Stays};

    /// Commits the pending changes of the space. Afterwards none is pending.
    pub fn commit(&mut self) -> Result<(), FollowFault>
        ensures stays { Stays L.Log S.Space self.old self.new }
        ensures fails { FailsForGood self.old self.new result }
        ensures commits { OnOk result
            (Commits L.Log S.Space S.GroupCommit.own self.old self.new) }
    {
        if let Some(fault) = self.failed {
            return Err(fault);
        }
        match self.service.commit() {
            Ok(()) => Ok(()),
            Err(_) => Err(self.fail(FollowFault::Space)),
        }
    }
}
