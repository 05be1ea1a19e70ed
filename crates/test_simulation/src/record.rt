//! What simulated sockets accepted, received and sent, in order.
ghost use Rattle.std.specs.Prelude.{◌≡◌, ◌++◌, ◌∷◌, [], IfOk, IsTrue, map};
ghost use Rattle.std.specs.List.{Contains};
ghost use Rattle.server_base.specs.History.{Accepted, Sent, read_events};
ghost use Rattle.test_simulation.specs.Record.{event_of};

use std::alloc::{AllocError, Global};

/// An event of the sockets, as a history has it. A client is known by its name.
#[derive(Debug, Drop)]
pub(crate) enum Noted {
    /// The client was accepted.
    Accepted(usize),
    /// These bytes arrived from it.
    Received(usize, Vec<u8>),
    /// It sends no more bytes.
    ReceivedEnd(usize),
    /// These bytes were sent to it.
    Sent(usize, Vec<u8>),
}

/// Returns the event of a read that returned these bytes. No bytes mean that no more arrive.
pub(crate) fn noted_read(alloc: Global, name: usize, bytes: &[u8]) -> Result<Noted, AllocError>
    ensures { IfOk result (λ event. event_of event ∷ [] ≡ read_events name bytes.now) }
{
    if bytes.is_empty() {
        return Ok(Noted::ReceivedEnd(name));
    }
    Ok(Noted::Received(name, Vec::from_slice(alloc, bytes)?))
}

/// Returns the event of a write that took these bytes.
pub(crate) fn noted_write(alloc: Global, name: usize, bytes: &[u8]) -> Result<Noted, AllocError>
    ensures { IfOk result (λ event. event_of event ≡ Sent name bytes.now) }
{
    Ok(Noted::Sent(name, Vec::from_slice(alloc, bytes)?))
}

/// Returns true if no client of that name was accepted.
pub(crate) fn is_new(events: &[Noted], name: usize) -> bool
    ensures { IsTrue result → Contains (map event_of events.now) (Accepted name) → ⊥ }
{
    let Some((first, rest)) = events.split_first() else {
        return true;
    };
    if let Noted::Accepted(other) = first
        && *other == name
    {
        return false;
    }
    is_new(rest, name)
}
