//! The entries of this instance on their way to etcd.
ghost use Rattle.std.specs.Prelude.{◌≡◌, ◌↔◌, IsTrue, IsOk, OnOk, OnErr, option_map};
ghost use Rattle.pool_etcd.specs.OwnEntries.{IsIdle, Takes, after_outcome, after_revision, after_settle, due_of};
ghost use Rattle.pool_etcd.specs.OwnEntries.{loss_after, loss_by, loss_of, open_in, put_of, settled_in, stored_at};

use crate::etcd_fault::Loss;
use crate::payload::Payload;
use crate::response::{PutOutcome, PutResponse, StoredValue};

/// The state of the own key, as far as it is known.
#[derive(Clone, Copy, Debug, PartialEq, Eq)]
pub enum OwnState {
    /// The revision of its last change has to be asked.
    Unknown,
    /// Its last change was at this revision. The fence is on its way.
    Fencing(u64),
    /// Its last change was the own one at this revision. Nothing is on its way.
    Idle(u64),
    /// Its last change was the own one at this revision. A value is on its way.
    Sending(u64),
    /// Its last change was the own one at this revision, or the value that was on its way. The fence
    /// is on its way, in place of that value.
    Settling(u64),
    /// The fence was stored at this revision, in place of a value, which never will be.
    Unmade(u64),
    /// Another process writes under the key.
    Lost,
}

/// A put that has to be sent.
#[derive(Clone, Copy)]
pub struct DuePut<'a> {
    pub value: &'a [u8],
    /// The last change of the own key must be at this revision.
    pub revision: u64,
}

/// The reason why no value was taken.
#[derive(Clone, Copy, Debug, PartialEq, Eq)]
pub enum NotTaken {
    /// The outcome of the value before is not known, or the fence has not been put.
    Busy,
    /// Another process writes under the key, or the value before was not stored in time.
    Lost,
}

/// The entries of an instance: which put is due, by what is known of the own key.
#[derive(Drop)]
pub struct OwnEntries {
    /// The value that is put before the first entry.
    pub fence: Payload,
    /// The value that was offered last.
    pub value: Payload,
    pub state: OwnState,
}

// Returns the revision at which the outcome has the value stored.
fn stored_at(value: &[u8], outcome: &PutOutcome) -> Option<u64>
    ensures { result ≡ stored_at value.now outcome.now }
{
    match outcome {
        PutOutcome::Stored(revision) => Some(*revision),
        PutOutcome::Refused(None) => None,
        PutOutcome::Refused(Some(other)) => {
            if other.value.bytes() == value {
                Some(other.revision)
            } else {
                None
            }
        }
    }
}

// Returns the state once the fence that settles the outcome of a value was stored or refused. The
// last own change before the value is at this revision.
fn settled(revision: u64, value: &[u8], outcome: &PutOutcome) -> OwnState
    ensures { result ≡ settled_in revision value.now outcome.now }
{
    match outcome {
        PutOutcome::Stored(place) => OwnState::Unmade(*place),
        PutOutcome::Refused(_) => match stored_at(value, outcome) {
            Some(stored) if revision < stored => OwnState::Idle(stored),
            _ => OwnState::Lost,
        },
    }
}

// Returns why the log is lost if the key has this value in place of the last own one.
fn loss_by(revision: u64, fence: &[u8], other: &StoredValue) -> Loss
    ensures { result ≡ loss_by revision fence.now other.now }
{
    if revision >= other.revision {
        Loss::Shortened
    } else if other.value.bytes() == fence {
        Loss::Unmade
    } else {
        Loss::Replaced
    }
}

// Returns why the log is lost if a put was refused whose key had its last own change at this
// revision: the own fence was stored in place of a value, another process wrote, the key was
// deleted, or etcd has lost that change.
fn loss_of(revision: u64, fence: &[u8], response: &PutResponse) -> Option<Loss>
    ensures { result ≡ loss_of revision fence.now response.now.store response.now.outcome }
{
    match &response.outcome {
        PutOutcome::Stored(_) => None,
        PutOutcome::Refused(None) => Some(if response.store < revision {
            Loss::Shortened
        } else {
            Loss::Deleted
        }),
        PutOutcome::Refused(Some(other)) => Some(loss_by(revision, fence, other)),
    }
}

impl OwnEntries {
    /// Creates the entries of an instance that has written none.
    pub fn new(fence: Payload, empty: Payload) -> OwnEntries
        ensures fence { result.fence ≡ fence }
        ensures state { result.state ≡ OwnState.Unknown }
    {
        OwnEntries {
            fence,
            value: empty,
            state: OwnState::Unknown,
        }
    }

    /// Returns true if the revision of the own key has to be asked.
    pub fn asks_revision(&self) -> bool
        ensures { IsTrue result ↔ (self.now.state ≡ OwnState.Unknown) }
    {
        self.state == OwnState::Unknown
    }

    /// Returns true if nothing is on its way, so that `offer` takes a value.
    pub fn is_idle(&self) -> bool
        ensures { IsTrue result ↔ IsIdle self.now.state }
    {
        matches!(self.state, OwnState::Idle(_))
    }

    /// Returns the revision of the last own change before a value whose outcome is open.
    pub fn open_revision(&self) -> Option<u64>
        ensures { result ≡ open_in self.now.state }
    {
        match self.state {
            OwnState::Sending(revision) => Some(revision),
            OwnState::Settling(revision) => Some(revision),
            _ => None,
        }
    }

    /// Returns the put that is due. It stays the same until its outcome is known.
    pub fn due(&self) -> Option<DuePut<'_>>
        ensures { option_map put_of result ≡ due_of self.now }
    {
        match self.state {
            OwnState::Unknown => None,
            OwnState::Fencing(revision) => Some(DuePut {
                value: self.fence.bytes(),
                revision,
            }),
            OwnState::Idle(_) => None,
            OwnState::Sending(revision) => Some(DuePut {
                value: self.value.bytes(),
                revision,
            }),
            OwnState::Settling(revision) => Some(DuePut {
                value: self.fence.bytes(),
                revision,
            }),
            OwnState::Unmade(_) => None,
            OwnState::Lost => None,
        }
    }

    /// Takes the next value, if nothing is on its way.
    pub fn offer(&mut self, value: Payload) -> Result<(), NotTaken>
        ensures taken { IsOk result ↔ IsIdle self.old.state }
        ensures value { OnOk result (self.new.value ≡ value) }
        ensures next { OnOk result (Takes self.old.state self.new.state) }
        ensures fence { self.new.fence ≡ self.old.fence }
        ensures same { OnErr result (self.new ≡ self.old) }
    {
        match self.state {
            OwnState::Idle(revision) => {
                self.value = value;
                self.state = OwnState::Sending(revision);
                Ok(())
            }
            OwnState::Lost => Err(NotTaken::Lost),
            OwnState::Unmade(_) => Err(NotTaken::Lost),
            OwnState::Unknown => Err(NotTaken::Busy),
            OwnState::Fencing(_) => Err(NotTaken::Busy),
            OwnState::Sending(_) => Err(NotTaken::Busy),
            OwnState::Settling(_) => Err(NotTaken::Busy),
        }
    }

    /// Puts the fence in place of the value that is on its way, if there is one, to settle its
    /// outcome. The value is not put again.
    ///
    /// Call it only if no response to a put is awaited.
    pub fn settle(&mut self)
        ensures { self.new ≡ record self.old { state = after_settle self.old.state } }
    {
        if let OwnState::Sending(revision) = self.state {
            self.state = OwnState::Settling(revision);
        }
    }

    /// Learns the revision of the last change of the own key, which is 0 if it has no value.
    pub fn learn_revision(&mut self, revision: u64)
        ensures { self.new ≡ record self.old { state = after_revision self.old.state revision } }
    {
        if self.state == OwnState::Unknown {
            self.state = OwnState::Fencing(revision);
        }
    }

    /// Learns the outcome of the put that is due. Returns why the log is lost for the process, if a
    /// value is open that is not stored and cannot be any more.
    pub fn learn_put(&mut self, response: &PutResponse) -> Option<Loss>
        ensures state { self.new
            ≡ record self.old { state = after_outcome self.old response.now.outcome } }
        ensures loss { result ≡ loss_after self.old response.now }
    {
        let before = self.open_revision();
        self.learn_outcome(&response.outcome);
        match (before, self.state) {
            (Some(revision), OwnState::Lost) => loss_of(revision, self.fence.bytes(), response),
            (Some(_), OwnState::Unmade(_)) => Some(Loss::Unmade),
            _ => None,
        }
    }

    // Learns the outcome of the put that is due.
    fn learn_outcome(&mut self, outcome: &PutOutcome)
        ensures { self.new ≡ record self.old { state = after_outcome self.old outcome.now } }
    {
        let stored = match self.due() {
            Some(due) => stored_at(due.value, outcome),
            None => None,
        };
        self.state = match (self.state, stored) {
            (OwnState::Fencing(_), None) => OwnState::Unknown,
            (OwnState::Sending(_), None) => OwnState::Lost,
            (OwnState::Fencing(_), Some(revision)) => OwnState::Idle(revision),
            (OwnState::Sending(_), Some(revision)) => OwnState::Idle(revision),
            (OwnState::Settling(revision), _) => settled(revision, self.value.bytes(), outcome),
            (state, _) => state,
        };
    }
}
