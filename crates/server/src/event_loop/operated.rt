//! The admin port.
ghost use Rattle.std.specs.Prelude.{◌≡◌};
ghost use Rattle.server_clients.specs.ClientSet.{KeepsClients};

use super::EventLoop;
use crate::watches::Watches;
use admin_http::build::BuildInfo;
use admin_http::store_metrics::StoreMetrics;
use server_admin::admin_context::AdminContext;
use server_backend::backend::Backend;
use server_base::backups::MakeBackups;
use server_base::limits::LOOKS_SOON;
use server_base::sockets::Sockets;
use server_watch::token_watch::TokenSource;
use std::time::Duration;

impl<N: Sockets + Drop, K: Drop> EventLoop<N, K> {
    // Sets the metrics of the server and its backend.
    fn show<B: Backend, T: TokenSource>(
        &mut self,
        sockets: &N,
        watches: &Watches<T>,
        backend: &B,
        now: Duration,
    )
        ensures { KeepsClients N.Client.name self.old.clients self.new.clients }
    {
        self.metrics.tokens = watches.token_metrics();
        self.metrics.clock = watches.clock_metrics();
        self.metrics.connections.open = self.clients.len();
        self.metrics.connections.waiting = self.clients.waiting_for_buffers();
        self.metrics.kept = StoreMetrics::of(backend.snapshot());
        backend.show(&mut self.metrics, now);
        if self.measured_until < now {
            self.measured_until = now.saturating_add(Duration::from_millis(LOOKS_SOON));
            self.metrics.machine = sockets.machine();
        }
    }

    /// Answers the admin port, from a snapshot that does not change the backend, and makes a step
    /// of a requested backup.
    pub(crate) fn answer_operators<B: Backend, T: TokenSource>(
        &mut self,
        sockets: &N,
        build: BuildInfo<'_>,
        watches: &Watches<T>,
        backend: &B,
        now: Duration,
    )
    where
        K: MakeBackups<B>,
        ensures { KeepsClients N.Client.name self.old.clients self.new.clients }
    {
        if self.operators.is_idle() {
            return;
        }
        self.show(sockets, watches, backend, now);
        let admin_context = AdminContext {
            alloc: self.alloc,
            metrics: &self.metrics,
            build,
            backs_up: self.operators.backup_route::<B>(),
            shown: backend.snapshot(),
        };
        self.operators.run_once(admin_context, backend, now);
    }

    /// Returns true if an operator confirms the clock, once for each confirmation.
    pub(crate) fn take_confirmation(&mut self) -> bool
        ensures { KeepsClients N.Client.name self.old.clients self.new.clients }
    {
        self.operators.take_confirmation()
    }

    /// Returns true if an operator requested the stop.
    pub(crate) fn is_stop_requested(&self) -> bool {
        self.operators.stops()
    }

    /// Returns true if all clients are gone, and the operators have their responses.
    pub(crate) fn is_served(&self) -> bool {
        self.clients.is_empty() && self.operators.are_served()
    }

    /// Aborts a backup in progress, since the server ends.
    pub(crate) fn abort_backup<B>(&mut self)
    where
        K: MakeBackups<B>,
        ensures { KeepsClients N.Client.name self.old.clients self.new.clients }
    {
        self.operators.abort::<B>();
    }
}
