//! All connections to the admin port.
ghost use Rattle.std.specs.Prelude.{◌≡◌};

use crate::admin_connection::{AdminConnection, AdminTurnOutcome};
use crate::admin_context::AdminContext;
use crate::backup_job::BackupJob;
use admin_http::admin_route::AdminRoute;
use admin_http::backup::BackupResult;
use server_base::backups::MakeBackups;
use server_base::limits::{
    ADMIN_CROWDED_GRACE, ADMIN_IDLE_GRACE, ADMIN_SLOTS, FULL, LOOKS, LOOKS_SOON,
    MAX_ADMIN_CONNECTIONS, MAX_IDLE_ADMIN_CONNECTIONS,
};
use server_base::sockets::{AcceptFault, SocketEvent, Sockets};
use slab::Slab;
use std::alloc::{AllocError, Global};
use std::mem;
use std::time::Duration;

/// All connections to the admin port.
#[derive(Drop)]
pub struct AdminConnections<N: Sockets, K> {
    alloc: Global,
    all: Slab<AdminConnection<N::Admin>>,
    // True if one may wait to be accepted, and the time until which the system has no room for it.
    waiting: bool,
    full_until: Duration,
    // True if one of them can go on at once, and true if one requested the stop of the service.
    again: bool,
    stops: bool,
    // True if one confirmed the clock, until that is taken.
    confirms: bool,
    // The maker of backups, if there is a directory for them, and the backup in progress.
    backups: Option<K>,
    backing_up: BackupJob,
}

impl<N: Sockets + Drop, K: Drop> AdminConnections<N, K> {
    /// Creates an empty set. Connections may come only if there is an admin port, and backups are
    /// made only if there is a maker of backups.
    pub fn new(
        alloc: Global,
        may_come: bool,
        backups: Option<K>,
    ) -> Result<AdminConnections<N, K>, AllocError> {
        let room = if may_come { ADMIN_SLOTS } else { 0 };
        Ok(AdminConnections {
            alloc,
            all: Slab::with_capacity(alloc, room)?,
            waiting: may_come,
            full_until: Duration::from_millis(0),
            again: false,
            stops: false,
            confirms: false,
            backups,
            backing_up: BackupJob::new(),
        })
    }

    // Returns true if one more can be accepted, if the system has room for it.
    fn has_room(&self) -> bool {
        self.waiting && self.all.len() <= MAX_ADMIN_CONNECTIONS
    }

    // Returns true if one of them waits for its client to close.
    fn is_any_ending(&self) -> bool {
        for key in 0..ADMIN_SLOTS {
            if let Some(operator) = self.all.get(key)
                && operator.is_ending()
            {
                return true;
            }
        }
        false
    }

    /// Returns how long the system may wait for events.
    pub fn patience(&self, now: Duration) -> Option<Duration> {
        if self.again {
            return Some(Duration::from_millis(0));
        }
        if self.has_room() {
            return Some(self.full_until.saturating_sub(now));
        }
        if self.all.is_empty() {
            return None;
        }
        Some(Duration::from_millis(if self.waiting {
            ADMIN_CROWDED_GRACE
        } else if self.is_any_ending() {
            LOOKS_SOON
        } else {
            LOOKS
        }))
    }

    /// Returns true if each client that was answered has read its response.
    pub fn are_served(&self) -> bool {
        for key in 0..ADMIN_SLOTS {
            if let Some(operator) = self.all.get(key)
                && operator.is_owed()
            {
                return false;
            }
        }
        true
    }

    /// Returns true if there is no connection, and no backup is in progress.
    pub fn is_idle(&self) -> bool {
        self.all.is_empty() && !self.backing_up.is_running()
    }

    /// Returns true if one requested the stop of the service.
    pub fn stops(&self) -> bool {
        self.stops
    }

    /// Returns true if one confirmed the clock, once.
    pub fn take_confirmation(&mut self) -> bool {
        mem::replace(&mut self.confirms, false)
    }

    /// Records that one may wait to be accepted.
    pub fn note_waiting(&mut self) {
        self.waiting = true;
    }

    /// Records a socket event of one connection.
    pub fn note(&mut self, key: usize, told: SocketEvent) {
        if let Some(operator) = self.all.get_mut(key) {
            operator.note(told);
        }
    }

    // Adds a connection. Closes it if it cannot be watched or stored.
    fn take_in(&mut self, sockets: &mut N, mut socket: N::Admin, now: Duration)
        ensures { N.history sockets.new ≡ N.history sockets.old }
    {
        let key = self.all.vacant_key();
        if sockets.watch_admin(&mut socket, key).is_ok() {
            let _ = self
                .all
                .insert(AdminConnection::new(self.alloc, socket, now));
        }
    }

    // Closes the connection that has been idle for the longest, if more than `most` have been idle
    // for `grace` milliseconds.
    fn close_oldest_idle(&mut self, most: usize, grace: u64, now: Duration) {
        let latest = now.saturating_sub(Duration::from_millis(grace));
        let mut idle = 0_usize;
        let mut oldest = None;
        for key in 0..ADMIN_SLOTS {
            if let Some(operator) = self.all.get(key)
                && let Some(begun) = operator.idle_since()
                && begun <= latest
            {
                idle = idle.saturating_add(1);
                oldest = match oldest {
                    Some((_, least)) if least <= begun => oldest,
                    _ => Some((key, begun)),
                };
            }
        }
        if idle > most
            && let Some((key, _)) = oldest
        {
            let _ = self.all.try_remove(key);
        }
    }

    /// Returns the endpoint at which backups are requested, if there is a maker of backups.
    pub fn backup_route<B>(&self) -> Option<AdminRoute>
    where
        K: MakeBackups<B>,
    {
        match &self.backups {
            Some(backups) => Some(backups.route()),
            None => None,
        }
    }

    /// Accepts waiting connections, as far as there is room: one more than the maximum, so that
    /// stalled connections do not keep a new one out. Idle connections make room for them. Returns
    /// true if the system had no room.
    pub fn accept(&mut self, sockets: &mut N, now: Duration) -> bool
        ensures { N.history sockets.new ≡ N.history sockets.old }
    {
        for _ in 0..ADMIN_SLOTS {
            if self.waiting && self.all.len() > MAX_ADMIN_CONNECTIONS {
                self.close_oldest_idle(0, ADMIN_CROWDED_GRACE, now);
            }
            if !self.has_room() || now < self.full_until {
                return false;
            }
            match sockets.accept_admin() {
                Ok(socket) => {
                    self.take_in(sockets, socket, now);
                    self.close_oldest_idle(MAX_IDLE_ADMIN_CONNECTIONS, ADMIN_IDLE_GRACE, now);
                }
                Err(AcceptFault::NoneWaits) => self.waiting = false,
                Err(AcceptFault::Gone) => {}
                Err(AcceptFault::Full | AcceptFault::Failed(_)) => {
                    self.full_until = now.saturating_add(Duration::from_millis(FULL));
                    return true;
                }
            }
        }
        false
    }

    // Runs the turn of one connection, and closes the connection if it has ended.
    fn turn(&mut self, key: usize, admin_context: AdminContext<'_>, now: Duration) {
        let Some(operator) = self.all.get_mut(key) else {
            return;
        };
        let moved = operator.turn(admin_context, now);
        self.stops = self.stops || operator.stops();
        self.confirms = operator.take_confirmation() || self.confirms;
        let is_late = operator.is_late(now);
        if moved == AdminTurnOutcome::Again {
            self.again = true;
        } else if moved == AdminTurnOutcome::Gone || is_late {
            let _ = self.all.try_remove(key);
        }
    }

    /// Runs the turn of each connection, and one step of the requested backup.
    pub fn run_once<B>(&mut self, admin_context: AdminContext<'_>, backend: &B, now: Duration)
    where
        K: MakeBackups<B>,
    {
        self.again = false;
        for key in 0..ADMIN_SLOTS {
            self.turn(key, admin_context, now);
            self.begin_wanted(key, backend, now);
        }
        if let Some((key, backup)) = self.backing_up.go_on(backend, self.backups.as_mut()) {
            self.tell(key, backup, now);
        }
        self.again = self.again || self.backing_up.is_running();
    }

    // Begins the backup that a connection requested.
    fn begin_wanted<B>(&mut self, key: usize, backend: &B, now: Duration)
    where
        K: MakeBackups<B>,
    {
        let Some(operator) = self.all.get_mut(key) else {
            return;
        };
        let Some(name) = operator.take_requested_backup() else {
            return;
        };
        let told = self
            .backing_up
            .begin(key, backend, name.as_str(), self.backups.as_mut());
        if let Some(backup) = told {
            self.tell(key, backup, now);
        }
    }

    // Answers a connection with the result of its backup. A later connection under the same key
    // waits for none: it would have received `Busy`.
    fn tell(&mut self, key: usize, backup: BackupResult, now: Duration) {
        if let Some(operator) = self.all.get_mut(key) {
            operator.tell(self.alloc, backup, now);
            self.again = true;
        }
    }

    /// Aborts the backup in progress, because the service ends.
    pub fn abort<B>(&mut self)
    where
        K: MakeBackups<B>,
    {
        self.backing_up.abort::<B, K>(self.backups.as_mut());
    }
}
