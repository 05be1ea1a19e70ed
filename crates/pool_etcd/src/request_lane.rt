//! The requests to etcd, one after the other.
use crate::connection::Arrived;
use crate::etcd_fault::{EtcdFault, Loss};
use crate::etcd_log::LogState;
use crate::exchange::{Request, Step};
use crate::lane::Lane;
use crate::request::{
    PUT_PATH, RANGE_PATH, TOKEN_PATH, counts_body, end_body, list_body, own_body, put_body,
    token_body,
};
use crate::response::{
    StoreEnd, read_counts, read_end, read_put, read_range, read_revision_fault, read_token,
    read_value,
};
use crate::response_fault::ResponseFault;
use crate::times::later;
use mio::{Registry, Token};
use std::alloc::AllocError;
use std::net::{Net, SocketAddr};
use std::time::Duration;

// The time limit of a request, in milliseconds.
const TIME_LIMIT: u64 = 2000;

// The end of the log is asked for after this time without a sign of etcd, in milliseconds.
const PROBE_AFTER: u64 = 1000;

// The maximum length of a response: the value of a key, in base64.
const MAX_RESPONSE: usize = 4_000_000;

// The maximum number of parts read before others get their turn.
const MAX_STEPS: usize = 1_000;

// A request.
#[derive(Clone, Copy, Debug, PartialEq, Eq)]
enum Kind {
    Token,
    Suppliers,
    Counts,
    Revision,
    End,
    Put,
}

/// The connection for requests.
#[derive(Drop)]
pub(crate) struct RequestLane {
    lane: Lane,
    // The request whose response is awaited, and until when.
    pending: Option<(Kind, Duration)>,
    // The last request that was no end: puts and ends take turns.
    end_was_last: bool,
    // The status of the response.
    status: u16,
    // What the watch had reached when the end was asked for.
    reached: u64,
    // True if there may be more to read.
    partly_read: bool,
}

impl RequestLane {
    /// Creates a lane without a connection.
    pub(crate) fn new(token: Token) -> RequestLane {
        RequestLane {
            lane: Lane::new(token),
            pending: None,
            end_was_last: false,
            status: 0,
            reached: 0,
            partly_read: false,
        }
    }

    // Returns the request that is due.
    fn due(&self, state: &LogState, now: Duration) -> Option<Kind> {
        if state.needs_token() {
            return Some(Kind::Token);
        }
        if !state.has_list {
            return Some(Kind::Suppliers);
        }
        if !state.has_counts {
            return Some(Kind::Counts);
        }
        let silent = now.saturating_sub(state.checked) >= Duration::from_millis(PROBE_AFTER);
        let end = state.questions.is_due() || silent;
        if state.own.asks_revision() {
            return Some(Kind::Revision);
        }
        let put = state.own.due().is_some();
        match (end, put) {
            (true, true) if self.end_was_last => Some(Kind::Put),
            (true, _) => Some(Kind::End),
            (false, true) => Some(Kind::Put),
            (false, false) => None,
        }
    }

    /// Sends and receives what is there.
    pub(crate) fn advance(
        &mut self,
        net: &impl Net,
        registry: &Registry,
        state: &mut LogState,
        now: Duration,
    ) -> Result<(), EtcdFault> {
        self.receive(state, now)?;
        if let Some((_, limit)) = self.pending
            && now >= limit
        {
            return Err(EtcdFault::TimeLimit);
        }
        if self.pending.is_none() && state.loss.is_none() {
            state.settle_in_time(now);
            self.begin_next(net, registry, state, now)?;
        }
        Ok(())
    }

    // Begins the next request, if one is due.
    fn begin_next(
        &mut self,
        net: &impl Net,
        registry: &Registry,
        state: &mut LogState,
        now: Duration,
    ) -> Result<(), EtcdFault> {
        let Some(kind) = self.due(state, now) else {
            return Ok(());
        };
        if self.lane.connection.is_none() {
            if now < self.lane.resume {
                return Ok(());
            }
            self.lane
                .open(net, state.alloc, registry, state.endpoints.as_slice())?;
        }
        let Ok(body) = body_of(kind, state) else {
            return Err(EtcdFault::Memory);
        };
        let request = Request {
            host: self.lane.host(state.endpoints.as_slice()),
            path: path_of(kind),
            token: state.token.as_ref().map(|token| token.bytes()),
            body: body.as_str(),
        };
        if kind == Kind::End {
            state.questions.send();
            self.reached = state.following.revision;
        }
        self.end_was_last = kind == Kind::End;
        self.status = 0;
        self.pending = Some((kind, later(now, TIME_LIMIT)));
        match &mut self.lane.connection {
            Some(connection) => connection.begin(&request),
            None => Err(EtcdFault::Connection),
        }
    }

    // Sends the rest of the request, and reads what has arrived of the response.
    fn receive(&mut self, state: &mut LogState, now: Duration) -> Result<(), EtcdFault> {
        let Some(connection) = &mut self.lane.connection else {
            return Ok(());
        };
        connection.send()?;
        let arrived = connection.receive()?;
        self.partly_read = true;
        for _ in 0..MAX_STEPS {
            let step = self.step(state, now)?;
            if step == Step::Closed {
                self.lane.close();
            }
            if step == Step::NeedsInput || step == Step::Closed {
                self.partly_read = arrived == Arrived::Part;
                break;
            }
        }
        if arrived != Arrived::Ended || self.lane.connection.is_none() {
            return Ok(());
        }
        if self.pending.is_some() {
            return Err(EtcdFault::Connection);
        }
        self.lane.close();
        Ok(())
    }

    // Reads the next part of the response.
    fn step(&mut self, state: &mut LogState, now: Duration) -> Result<Step, EtcdFault> {
        let pending = self.pending;
        let Some(connection) = &mut self.lane.connection else {
            return Ok(Step::NeedsInput);
        };
        let step = connection.step()?;
        match step {
            Step::Head(status) => self.status = status,
            Step::Data => {
                if connection.body().len() > MAX_RESPONSE {
                    return Err(EtcdFault::TooLong);
                }
            }
            Step::End => {
                let Some((kind, _)) = pending else {
                    return Err(EtcdFault::Http);
                };
                if self.status == 200 {
                    learn(kind, state, connection.body(), self.reached, now)?;
                } else {
                    learn_refusal(kind, state, connection.body(), self.status)?;
                }
                self.pending = None;
                self.lane.succeed();
            }
            _ => {}
        }
        Ok(step)
    }

    /// Extends the limit by a time in which the process did not run.
    pub(crate) fn extend_limit(&mut self, missed: Duration) {
        if let Some((kind, limit)) = self.pending {
            self.pending = Some((kind, limit.saturating_add(missed)));
        }
    }

    /// Returns the address of the endpoint that is used, or tried next.
    pub(crate) fn address(&self, state: &LogState) -> Option<SocketAddr> {
        self.lane.address(state.endpoints.as_slice())
    }

    /// Drops the connection, and with it the request whose response is awaited. The next endpoint
    /// has its turn.
    pub(crate) fn fail(&mut self, now: Duration, state: &LogState) {
        self.pending = None;
        self.partly_read = false;
        self.lane.fail(now, state.endpoints.len());
    }

    /// Drops the connection.
    pub(crate) fn close(&mut self) {
        self.pending = None;
        self.partly_read = false;
        self.lane.close();
    }

    /// Returns the time within which `advance` has to be called again.
    pub(crate) fn patience(&self, state: &LogState, now: Duration) -> Duration {
        if self.partly_read {
            return Duration::ZERO;
        }
        let next = match self.pending {
            Some((_, limit)) => limit,
            None => match self.due(state, now) {
                Some(_) => self.lane.resume,
                None => later(state.checked, PROBE_AFTER),
            },
        };
        next.saturating_sub(now)
    }
}

// Returns the path of a request.
fn path_of(kind: Kind) -> &'static str {
    match kind {
        Kind::Token => TOKEN_PATH,
        Kind::Suppliers => RANGE_PATH,
        Kind::Counts => RANGE_PATH,
        Kind::Revision => RANGE_PATH,
        Kind::End => RANGE_PATH,
        Kind::Put => PUT_PATH,
    }
}

// Returns the body of a request.
fn body_of(kind: Kind, state: &LogState) -> Result<String, AllocError> {
    let key = state.key.as_str();
    match kind {
        Kind::Token => match &state.user {
            Some(user) => token_body(state.alloc, user.name.as_str(), user.password.as_str()),
            None => token_body(state.alloc, "", ""),
        },
        Kind::Suppliers => list_body(state.alloc, state.following.revision),
        Kind::Counts => counts_body(state.alloc, state.following.revision),
        Kind::Revision => own_body(state.alloc, key),
        Kind::End => end_body(state.alloc),
        Kind::Put => match state.own.due() {
            Some(due) => put_body(state.alloc, key, due.value, due.revision),
            None => Err(AllocError),
        },
    }
}

// Takes what the response to a request says.
fn learn(
    kind: Kind,
    state: &mut LogState,
    body: &[u8],
    reached: u64,
    now: Duration,
) -> Result<(), EtcdFault> {
    match kind {
        Kind::Token => state.token = Some(read_token(state.alloc, body)?),
        Kind::Suppliers => state.learn_list(read_value(state.alloc, body)?),
        Kind::Counts => state.learn_counts(read_counts(state.alloc, body)?),
        Kind::Revision => {
            let revision = read_range(state.alloc, body)?;
            state.own.learn_revision(revision);
        }
        Kind::End => learn_end(state, read_end(state.alloc, body)?, reached, now),
        Kind::Put => {
            let response = read_put(state.alloc, body)?;
            if let Some(loss) = state.own.learn_put(&response) {
                state.loss = Some(loss);
            }
        }
    }
    Ok(())
}

// Takes what a response with another status than 200 says: that etcd has no keys of the revision at
// the start, or else nothing.
fn learn_refusal(
    kind: Kind,
    state: &mut LogState,
    body: &[u8],
    status: u16,
) -> Result<(), EtcdFault> {
    if (kind == Kind::Suppliers || kind == Kind::Counts) && status == 400 {
        match read_revision_fault(state.alloc, body) {
            Ok(fault) => {
                state.learn_revision_fault(fault);
                return Ok(());
            }
            Err(ResponseFault::Memory) => return Err(EtcdFault::Memory),
            Err(_) => {}
        }
    }
    state.check_token(status);
    Err(EtcdFault::Status(status))
}

// Takes the end of the log. etcd has lost changes if the revision of its store is before a change
// that was received when the end was asked for.
fn learn_end(state: &mut LogState, end: StoreEnd, reached: u64, now: Duration) {
    if end.store < reached {
        state.loss = Some(Loss::Shortened);
        return;
    }
    state.checked = now;
    state.questions.learn(end.last);
    if end.last > state.following.revision && state.ahead.is_none() {
        state.ahead = Some((end.last, now));
    }
}
