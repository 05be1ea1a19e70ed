//! The metrics and the health of a service.
ghost use Rattle.std.specs.Prelude.{◌≡◌};
ghost use Rattle.admin_http.specs.ServiceMetrics.{health_of, shown_health, when_broken, when_failing, when_kept, when_silent};
ghost use Rattle.admin_http.specs.declared.admin_route.Health.TheVariants as health;

use crate::admin_route::Health;
use crate::clock::ClockMetrics;
use crate::connections::{ConnectionFailure, ConnectionMetrics};
use crate::faults::FailureMetrics;
use crate::machine::MachineMetrics;
use crate::pool_metrics::PoolMetrics;
use crate::purged::PurgeMetrics;
use crate::requests::RequestMetrics;
use crate::store_metrics::StoreMetrics;
use crate::tokens::TokenMetrics;
use crate::uss_metrics::UssMetrics;
use std::alloc::Global;

/// Converts a number from any address width.
pub(crate) fn wide(number: usize) -> u64 {
    match u64::try_from(number) {
        Ok(number) => number,
        Err(_) => u64::MAX,
    }
}

/// The metrics and the health of a service. Each group of metrics has a module of its own, with its
/// lines.
#[derive(Debug, Drop)]
pub struct ServiceMetrics {
    /// The metrics of clients' connections.
    pub connections: ConnectionMetrics,
    /// The metrics of requests and their responses.
    pub requests: RequestMetrics,
    /// The metrics of requests by USS.
    pub suppliers: UssMetrics,
    /// The metrics of failures of the machine.
    pub faults: FailureMetrics,
    /// The metrics of the stored airspace.
    pub kept: StoreMetrics,
    /// The metrics of purges.
    pub purged: PurgeMetrics,
    /// The metrics of the clock.
    pub clock: ClockMetrics,
    /// The metrics that the system has of the process.
    pub machine: MachineMetrics,
    /// The metrics of the token file.
    pub tokens: TokenMetrics,
    /// The metrics of the pool, if the service is an instance of one.
    pub pool: Option<PoolMetrics>,
    pub(crate) health: Health,
}

impl ServiceMetrics {
    /// Creates metrics of zero, for a service that answers calls.
    pub fn new(alloc: Global) -> ServiceMetrics
        ensures { health_of result ≡ health.Serving }
    {
        ServiceMetrics {
            connections: ConnectionMetrics::new(),
            requests: RequestMetrics::new(),
            suppliers: UssMetrics::new(alloc),
            faults: FailureMetrics::new(),
            kept: StoreMetrics::unknown(),
            purged: PurgeMetrics::new(),
            clock: ClockMetrics::new(),
            machine: MachineMetrics::unknown(),
            tokens: TokenMetrics::new(),
            pool: None,
            health: Health::Serving,
        }
    }

    /// Returns the health as operators see it: a service that answers calls is degraded while
    /// purges are held.
    pub fn shown_health(&self) -> Health
        ensures { result ≡ shown_health self.now }
    {
        match self.health {
            Health::Serving if self.clock.is_held => Health::Degraded,
            health => health,
        }
    }

    /// Counts an aborted connection.
    pub fn fail(&mut self, cause: ConnectionFailure)
        ensures { health_of self.new ≡ health_of self.old }
    {
        self.connections.fail(cause);
        match cause {
            ConnectionFailure::Memory => self.faults.note_memory(),
            ConnectionFailure::Clock => self.faults.note_clock(),
            ConnectionFailure::Read | ConnectionFailure::Write | ConnectionFailure::Turns => {}
        }
    }

    /// Counts a failed commit after which the database goes on.
    pub fn fail_store(&mut self)
        ensures { health_of self.new ≡ when_failing (health_of self.old) }
    {
        self.faults.note_store();
        if self.health == Health::Serving {
            self.health = Health::Failing;
        }
    }

    /// Records a successful commit.
    pub fn keep(&mut self)
        ensures { health_of self.new ≡ when_kept (health_of self.old) }
    {
        if self.health == Health::Failing {
            self.health = Health::Serving;
        }
    }

    /// Records that the database failed for good, so that no call is answered any more. It is
    /// counted once.
    pub fn break_store(&mut self)
        ensures { health_of self.new ≡ when_broken (health_of self.old) }
    {
        match self.health {
            Health::Serving | Health::Degraded | Health::Failing | Health::Silent => {
                self.faults.note_store();
                self.health = Health::Stopped;
            }
            Health::Stopped | Health::Stopping => {}
        }
    }

    /// Records whether the log of the pool does not answer.
    pub fn show_silence(&mut self, is_silent: bool)
        ensures { health_of self.new ≡ when_silent is_silent (health_of self.old) }
    {
        match self.health {
            Health::Serving if is_silent => self.health = Health::Silent,
            Health::Silent if !is_silent => self.health = Health::Serving,
            _ => {}
        }
    }

    /// Records that an operator requested the stop of the service.
    pub fn stop(&mut self)
        ensures { health_of self.new ≡ health.Stopping }
    {
        self.health = Health::Stopping;
    }
}
