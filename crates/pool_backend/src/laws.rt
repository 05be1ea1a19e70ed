//! Laws of an instance of a pool as a backend. Each is the contract of a function that does nothing.
ghost use Rattle.pool_backend.specs.Served.{EventsAreThePools, OutcomesAreGiven};

use pool_core::log::Log;
use pool_core::log_io::LogIo;
use space_core::purge_ended::PurgeEnded;

/// States that the events of a backend are those of an instance of a pool.
///
/// Each request that is received is one of its events, with the call of the request. What it offers,
/// reads and denies has the times of these events. It serves on as one of a pool, whatever it did
/// before and whatever its log had.
pub fn events_are_the_pools<L: Log, I: LogIo<L>, S: PurgeEnded>()
    ensures { EventsAreThePools I L.Log S.Space }
{}

/// States that a reply is given only after the instance answered so, and a reason for status 503
/// only after the request failed. A request that is reported as not made was never offered.
pub fn outcomes_are_given<L: Log, I: LogIo<L>, S: PurgeEnded>()
    ensures { OutcomesAreGiven I L.Log S.Space }
{}
