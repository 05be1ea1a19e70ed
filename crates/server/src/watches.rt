//! What a server watches besides its clients: the clock, the token file, and whether it stops.
ghost use Rattle.std.specs.Prelude.{◌≡◌, IfSome, false};
ghost use Rattle.server_clients.specs.ClientEvents.{ReadsOnceAs};
ghost use Rattle.server_clients.specs.ServerEvents.{KnowsAfter};
ghost use Rattle.server_watch.specs.ClockWatch.{is_held_in};
ghost use Rattle.server_watch.specs.TokenWatch.{LooksOnce};
ghost use Rattle.server_watch.specs.Tokens.{IsTakenAfter};
ghost use Rattle.server.specs.Watches.{BeginsStop, ConfirmsClock, clock_of, stops_in, tokens_of};

use admin_http::clock::ClockMetrics;
use admin_http::tokens::TokenMetrics;
use server_base::limits::STOPPING;
use server_base::server_log::ServerLog;
use server_base::trusted_time::TrustedTime;
use server_watch::clock_watch::ClockWatch;
use server_watch::token_watch::{TokenSource, TokenWatch};
use std::alloc::Global;
use std::time::Duration;
use token_conf::token_table::TokenTable;
use wire_http::Moments;

/// The watch over the clock, the watch on the token file, and the deadline of a stop that an
/// operator requested.
#[derive(Drop)]
pub(crate) struct Watches<T: TokenSource> {
    clock: ClockWatch,
    tokens: TokenWatch<T>,
    stopping: Option<Duration>,
}

impl<T: TokenSource> Watches<T> {
    /// Creates the watches of a start.
    pub(crate) fn new(clock: ClockWatch, tokens: TokenWatch<T>) -> Watches<T>
        ensures clock { clock_of result ≡ clock }
        ensures tokens { tokens_of result ≡ tokens }
        ensures stops { stops_in result ≡ false }
    {
        Watches {
            clock,
            tokens,
            stopping: None,
        }
    }

    /// Returns true if an operator stopped the server.
    pub(crate) fn stops(&self) -> bool
        ensures { result ≡ stops_in self.now }
    {
        self.stopping.is_some()
    }

    /// Returns true if the deadline of the stop has passed.
    pub(crate) fn is_overdue(&self, now: Duration) -> bool {
        match self.stopping {
            Some(until) => until < now,
            None => false,
        }
    }

    /// Begins the stop.
    pub(crate) fn stop(&mut self, now: Duration)
        ensures { BeginsStop self.old self.new }
    {
        self.stopping = Some(now.saturating_add(Duration::from_millis(STOPPING)));
    }

    /// Looks at the token file if that is due. Returns the table to load, if there is one.
    pub(crate) fn look<J: ServerLog>(
        &mut self,
        alloc: Global,
        first: &TokenTable,
        now: Duration,
        journal: &mut J,
    ) -> Option<TokenTable>
        ensures looks { LooksOnce T.TokenSource first.now now
            (tokens_of self.old) (tokens_of self.new) result }
        ensures taken { IfSome result (IsTakenAfter T.gives first.now) }
        ensures clock { clock_of self.new ≡ clock_of self.old }
        ensures stops { stops_in self.new ≡ stops_in self.old }
    {
        self.tokens.look(alloc, first, now, journal)
    }

    /// Returns the metrics of the token file.
    pub(crate) fn token_metrics(&self) -> TokenMetrics {
        self.tokens.tokens()
    }

    /// Reads the clock, records the time, and logs what became known of the clock, if it is watched.
    /// Returns the time, if the clock returned one.
    pub(crate) fn read_clock<M: Moments, J: ServerLog>(
        &mut self,
        moments: &mut M,
        now: Duration,
        journal: &mut J,
    ) -> Option<u64>
        ensures reads { ReadsOnceAs M.Moments result moments.old moments.new }
        ensures knows { KnowsAfter result now (clock_of self.old) (clock_of self.new) }
        ensures tokens { tokens_of self.new ≡ tokens_of self.old }
        ensures stops { stops_in self.new ≡ stops_in self.old }
    {
        let Ok(moment) = moments.next() else {
            return None;
        };
        if let Some(news) = self.clock.look(moment, now)
            && self.clock.is_watched()
        {
            journal.clock_event(news);
        }
        Some(moment)
    }

    /// Returns true if the clock is held as wrong.
    pub(crate) fn is_held(&self) -> bool
        ensures { result ≡ is_held_in (clock_of self.now) }
    {
        self.clock.is_held()
    }

    /// Returns the metrics of the clock.
    pub(crate) fn clock_metrics(&self) -> ClockMetrics {
        self.clock.metrics()
    }

    /// Returns the time to store for the next start, if there is one.
    pub(crate) fn trusted_time(&self) -> Option<TrustedTime> {
        self.clock.trusted()
    }

    /// Records that an operator confirms the clock.
    pub(crate) fn confirm_clock(&mut self)
        ensures { ConfirmsClock self.old self.new }
    {
        self.clock.confirm();
    }
}
