//! One connection to the admin port: one request, one response, and the end. It has no access to
//! the service.
use crate::admin_context::AdminContext;
use admin_http::admin_route::{AdminRequest, AdminRoute};
use admin_http::airspace::airspace_answer;
use admin_http::answer::{answer, backup_answer, forbidden_answer, refusal};
use admin_http::backup::{BackupResult, name_in};
use admin_http::request::{RequestParse, parse_admin_request};
use server_base::limits::{ADMIN_CHUNK, ADMIN_REQUEST_BYTES, LAST_CHUNKS, OPERATOR_STEPS};
use server_base::phase::Phase;
use server_base::sockets::{AdminSocket, SocketEvent};
use std::alloc::{AllocError, Global};
use std::io::ErrorKind;
use std::mem;
use std::time::Duration;

/// What a connection does next.
#[derive(Clone, Copy, Debug, PartialEq, Eq)]
pub(crate) enum AdminTurnOutcome {
    /// It can go on at once.
    Again,
    /// It waits for its socket.
    Rests,
    /// It is to be closed.
    Gone,
}

/// A connection to the admin port.
#[derive(Drop)]
pub(crate) struct AdminConnection<T> {
    socket: T,
    held: Vec<u8>,
    answer: Vec<u8>,
    sent: usize,
    phase: Phase,
    until: Duration,
    last_chunks: u32,
    // The state of its socket. Each flag stays set until a call finds otherwise.
    readable: bool,
    writable: bool,
    reset: bool,
    // True if it requested the stop of the service.
    stops: bool,
    // True if it confirmed the clock, until that is taken.
    confirms: bool,
    // The name of the backup that it requested, until the backup begins, and whether it waits for
    // one.
    wanted: Option<String>,
    waits: bool,
}

impl<T: AdminSocket> AdminConnection<T> {
    /// Creates a connection that has received nothing.
    pub(crate) fn new(alloc: Global, socket: T, now: Duration) -> AdminConnection<T> {
        AdminConnection {
            socket,
            held: Vec::new(alloc),
            answer: Vec::new(alloc),
            sent: 0,
            phase: Phase::Idle,
            until: now.saturating_add(Phase::Idle.patience()),
            last_chunks: 0,
            readable: false,
            writable: true,
            reset: false,
            stops: false,
            confirms: false,
            wanted: None,
            waits: false,
        }
    }

    /// Records a socket event.
    pub(crate) fn note(&mut self, told: SocketEvent) {
        self.readable = self.readable || told.readable || told.ended || told.reset;
        self.writable = self.writable || told.writable;
        self.reset = self.reset || told.reset;
    }

    /// Returns true if its timeout has passed.
    pub(crate) fn is_late(&self, now: Duration) -> bool {
        self.until < now && !self.waits
    }

    /// Returns the time since which it waits for the first byte of a request, or `None` if it waits
    /// for something else or bytes have arrived.
    pub(crate) fn idle_since(&self) -> Option<Duration> {
        match self.phase {
            Phase::Idle if !self.readable => {
                Some(self.until.saturating_sub(Phase::Idle.patience()))
            }
            _ => None,
        }
    }

    /// Returns true if it waits for the client to close, after its response.
    pub(crate) fn is_ending(&self) -> bool {
        self.phase == Phase::Ending
    }

    /// Returns true if it waits for a response, or may not have read it.
    pub(crate) fn is_owed(&self) -> bool {
        self.phase == Phase::Taking || self.is_ending() || self.waits
    }

    /// Returns true if it requested the stop of the service.
    pub(crate) fn stops(&self) -> bool {
        self.stops
    }

    /// Returns true if it confirmed the clock, once.
    pub(crate) fn take_confirmation(&mut self) -> bool {
        mem::replace(&mut self.confirms, false)
    }

    /// Returns the name of the backup that it requested, once.
    pub(crate) fn take_requested_backup(&mut self) -> Option<String> {
        self.wanted.take()
    }

    // Makes it wait for a backup of that name.
    fn want(&mut self, name: String) -> AdminTurnOutcome {
        self.wanted = Some(name);
        self.waits = true;
        AdminTurnOutcome::Rests
    }

    /// Answers with the result of the backup that it waits for.
    pub(crate) fn tell(&mut self, alloc: Global, backup: BackupResult, now: Duration) {
        if self.waits {
            self.waits = false;
            let _ = self.give(backup_answer(alloc, backup), now);
        }
    }

    // Sets its response.
    fn give(&mut self, made: Result<Vec<u8>, AllocError>, now: Duration) -> AdminTurnOutcome {
        match made {
            Ok(text) => {
                self.answer = text;
                self.wait(Phase::Taking, now);
                AdminTurnOutcome::Again
            }
            Err(_) => {
                self.reset = true;
                AdminTurnOutcome::Gone
            }
        }
    }

    // Enters a phase and restarts its timeout.
    fn wait(&mut self, phase: Phase, now: Duration) {
        self.phase = phase;
        self.until = now.saturating_add(phase.patience());
    }

    // Buffers bytes of the request, and prepares the response once the request is complete.
    fn take_in(
        &mut self,
        bytes: &[u8],
        admin_context: AdminContext<'_>,
        now: Duration,
    ) -> AdminTurnOutcome {
        if self.held.extend_from_slice(bytes).is_err() {
            return AdminTurnOutcome::Gone;
        }
        if self.phase == Phase::Idle {
            self.wait(Phase::Sending, now);
        }
        let hosts = admin_context.build.hosts;
        let made = match parse_admin_request(hosts, self.held.as_slice()) {
            RequestParse::Incomplete => return AdminTurnOutcome::Again,
            RequestParse::Request(AdminRequest::Does(AdminRoute::Backup), query)
                if admin_context.backs_up == Some(AdminRoute::Backup) => {
                let Some(name) = name_in(query) else {
                    return self.give(
                        backup_answer(admin_context.alloc, BackupResult::InvalidName),
                        now,
                    );
                };
                let Ok(name) = String::from_str(admin_context.alloc, name) else {
                    return AdminTurnOutcome::Gone;
                };
                return self.want(name);
            }
            RequestParse::Request(AdminRequest::Does(AdminRoute::File), _)
                if admin_context.backs_up == Some(AdminRoute::File) => {
                return self.want(String::new(admin_context.alloc));
            }
            RequestParse::Request(AdminRequest::Does(AdminRoute::Airspace), query) => {
                airspace_answer(admin_context.alloc, query, admin_context.shown)
            }
            RequestParse::Request(asked, _) => {
                self.stops = asked == AdminRequest::Does(AdminRoute::Stop);
                self.confirms = asked == AdminRequest::Does(AdminRoute::ResumePurges);
                answer(
                    admin_context.alloc,
                    asked,
                    admin_context.metrics,
                    admin_context.build,
                )
            }
            RequestParse::Forbidden(why) => forbidden_answer(admin_context.alloc, why),
            RequestParse::Invalid(rule) => refusal(admin_context.alloc, rule),
        };
        self.give(made, now)
    }

    // Reads one chunk of the request.
    fn receive(&mut self, admin_context: AdminContext<'_>, now: Duration) -> AdminTurnOutcome {
        if !self.readable {
            return AdminTurnOutcome::Rests;
        }
        let mut chunk = [0; ADMIN_CHUNK];
        let most = ADMIN_REQUEST_BYTES
            .saturating_sub(self.held.len())
            .min(ADMIN_CHUNK);
        match self.socket.receive(&mut chunk[..most]) {
            Ok(0) => AdminTurnOutcome::Gone,
            Ok(count) => self.take_in(&chunk[..count], admin_context, now),
            Err(cause) => self.rests_after(cause.kind()),
        }
    }

    // Returns the outcome of a failed read.
    fn rests_after(&mut self, kind: ErrorKind) -> AdminTurnOutcome {
        match kind {
            ErrorKind::WouldBlock => {
                self.readable = false;
                AdminTurnOutcome::Rests
            }
            _ => AdminTurnOutcome::Gone,
        }
    }

    // Ends sending. The rest of the client's bytes is read, so that the client gets its response.
    fn end(&mut self, now: Duration) -> AdminTurnOutcome {
        if self.socket.end_sending().is_err() {
            return AdminTurnOutcome::Gone;
        }
        self.wait(Phase::Ending, now);
        self.readable = true;
        AdminTurnOutcome::Again
    }

    // Sends as much of the response as the socket takes.
    fn send(&mut self, now: Duration) -> AdminTurnOutcome {
        if !self.writable {
            return AdminTurnOutcome::Rests;
        }
        let from = self.sent.min(self.answer.len());
        match self.socket.send(&self.answer[from..]) {
            Ok(0) => AdminTurnOutcome::Gone,
            Ok(count) => {
                self.sent = from.saturating_add(count);
                if self.sent < self.answer.len() {
                    self.wait(Phase::Taking, now);
                    return AdminTurnOutcome::Again;
                }
                self.end(now)
            }
            Err(cause) => match cause.kind() {
                ErrorKind::WouldBlock => {
                    self.writable = false;
                    AdminTurnOutcome::Rests
                }
                _ => AdminTurnOutcome::Gone,
            },
        }
    }

    // Reads and discards one chunk of what the client still sends.
    fn skip(&mut self, now: Duration) -> AdminTurnOutcome {
        if !self.readable {
            return AdminTurnOutcome::Rests;
        }
        let mut chunk = [0; ADMIN_CHUNK];
        match self.socket.receive(&mut chunk) {
            Ok(0) => AdminTurnOutcome::Gone,
            Ok(_) => {
                self.last_chunks = self.last_chunks.saturating_add(1);
                if self.last_chunks >= LAST_CHUNKS {
                    return AdminTurnOutcome::Gone;
                }
                self.wait(Phase::Ending, now);
                AdminTurnOutcome::Again
            }
            Err(cause) => self.rests_after(cause.kind()),
        }
    }

    // Makes one step: reads a chunk or sends. Does nothing while it waits for a backup.
    fn step(&mut self, admin_context: AdminContext<'_>, now: Duration) -> AdminTurnOutcome {
        if self.waits {
            return AdminTurnOutcome::Rests;
        }
        match self.phase {
            Phase::Idle | Phase::Sending => self.receive(admin_context, now),
            Phase::Taking => self.send(now),
            Phase::Ending => self.skip(now),
        }
    }

    /// Runs one turn: a few steps.
    pub(crate) fn turn(
        &mut self,
        admin_context: AdminContext<'_>,
        now: Duration,
    ) -> AdminTurnOutcome {
        if self.reset {
            return AdminTurnOutcome::Gone;
        }
        for _ in 0..OPERATOR_STEPS {
            match self.step(admin_context, now) {
                AdminTurnOutcome::Again => {}
                AdminTurnOutcome::Rests => return AdminTurnOutcome::Rests,
                AdminTurnOutcome::Gone => return AdminTurnOutcome::Gone,
            }
        }
        AdminTurnOutcome::Again
    }
}
