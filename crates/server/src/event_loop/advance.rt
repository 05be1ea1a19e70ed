//! What the backend does besides answering requests.
ghost use Rattle.std.specs.Prelude.{◌≡◌};
ghost use Rattle.server_backend.specs.BackendEvent.{Advances};
ghost use Rattle.server_clients.specs.ClientSet.{KeepsClients};
ghost use Rattle.server.specs.Numbers.{ForgetsAll};

use super::EventLoop;
use server_backend::backend::Backend;
use server_base::server_log::ServerLog;
use server_base::sockets::Sockets;
use server_clients::request_context::RequestContext;
use std::time::Duration;

impl<N: Sockets + Drop, K: Drop> EventLoop<N, K> {
    /// Lets the backend do what is due besides requests, at a time of the clock, and records what
    /// it did. `is_held` says that the clock is held as wrong.
    pub(crate) fn advance<B: Backend, J: ServerLog>(
        &mut self,
        context: RequestContext<'_>,
        backend: &mut B,
        moment: Option<u64>,
        is_held: bool,
        now: Duration,
        journal: &mut J,
    )
        ensures steps { B.Backend.steps backend.old (Advances moment is_held now) backend.new }
        ensures clients { KeepsClients N.Client.name self.old.clients self.new.clients }
    {
        let progress = backend.advance(
            context.alloc,
            context.routes,
            moment,
            is_held,
            now,
            journal,
        );
        if let Some(count) = progress.removed {
            self.metrics.purged.note_purge();
            journal.purged(count);
        }
        match progress.purged {
            Some(Ok(count)) => self.metrics.purged.note_purged(count),
            Some(Err(_)) => self.metrics.purged.note_fault(),
            None => {}
        }
        self.record_store(progress.store, now, journal);
    }

    /// Tells the backend which requests have lost their client.
    pub(crate) fn forget_gone<B: Backend>(&mut self, backend: &mut B)
        ensures forgets { ForgetsAll B.Backend backend.old backend.new }
        ensures clients { KeepsClients N.Client.name self.old.clients self.new.clients }
    {
        for _ in 0..self.gone.len() {
            let Some(ticket) = self.gone.pop_front() else {
                return;
            };
            backend.forget(ticket);
        }
    }
}
