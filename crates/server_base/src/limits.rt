//! Limits of a service to many clients.

/// The maximum number of clients served at once.
pub const MAX_CONNECTIONS: usize = 1_000;

/// The bytes that one read requests.
pub const CHUNK: usize = 16_384;

/// The bytes that each client may have buffered. A request has at most a megabyte, so all clients
/// together buffer at most about 130 megabytes.
pub const SMALL: usize = 65_536;

/// How many clients may have more than `SMALL` bytes buffered at once.
pub const LARGE_BUFFERS: usize = 64;

/// The timeout of an idle client in milliseconds.
pub const IDLE_TIMEOUT: u64 = 75_000;

/// The timeout of the bytes of one request in milliseconds.
pub const REQUEST_TIMEOUT: u64 = 30_000;

/// The timeout of a client that takes no bytes of its responses, in milliseconds.
pub const RESPONSE_TIMEOUT: u64 = 30_000;

/// The timeout of a client that sends nothing more after the last response, in milliseconds.
pub const CLOSE_TIMEOUT: u64 = 200;

/// The maximum number of chunks that are read after the last response.
pub const LAST_CHUNKS: u32 = 64;

/// The interval in milliseconds between checks for late clients while one has its last response.
pub const LOOKS_SOON: u64 = 50;

/// The interval in milliseconds between checks for late clients otherwise, and of the token file.
pub const LOOKS: u64 = 1_000;

/// The maximum number of deferred clients in a batch. More clients save almost nothing of a shared
/// sync, and each waits for the calls of all.
pub const MAX_DEFERRED: usize = 64;

/// About how many bytes the responses of deferred clients have together.
pub const DEFERRED_BYTES: usize = 1_048_576;

/// The time in milliseconds after which no more requests are answered in a round, so that the
/// events of the system are read between two expensive calls.
pub const ROUND_TIME: u64 = 5;

/// The maximum number of bytes that one write offers.
pub const SEND_CHUNK: usize = 131_072;

/// How many of the large buffers requests without a valid token may have.
pub const LARGE_BUFFERS_WITHOUT_TOKEN: usize = 8;

/// How many of the large buffers the requests of one USS may have.
pub const LARGE_BUFFERS_OF_USS: usize = 32;

/// The timeout of a connection that has sent nothing yet, in milliseconds.
pub const FIRST_REQUEST_TIMEOUT: u64 = 10_000;

/// The minimum rate of a large request in bytes per second.
pub const MIN_REQUEST_RATE: u64 = 4_096;

/// The time in milliseconds before that rate applies.
pub const REQUEST_RATE_GRACE: u64 = 5_000;

/// The pause in milliseconds before the next accept, after the system had no room for a connection.
pub const FULL: u64 = 100;

/// How long further failed accepts are not logged, in milliseconds.
pub const ACCEPT_SILENCE: u64 = 60_000;

/// The maximum number of connections to the admin port at once.
pub const MAX_ADMIN_CONNECTIONS: usize = 16;

/// The slots of admin connections: one more than the maximum, so that a new connection is served
/// beside stalled ones.
pub const ADMIN_SLOTS: usize = 17;

/// How many of them stay idle when another is accepted.
pub const MAX_IDLE_ADMIN_CONNECTIONS: usize = 8;

/// How long a new admin connection counts as not idle, in milliseconds.
pub const ADMIN_IDLE_GRACE: u64 = 1_000;

/// The same while another one waits for its place.
pub const ADMIN_CROWDED_GRACE: u64 = 20;

/// The maximum number of bytes of an admin request.
pub const ADMIN_REQUEST_BYTES: usize = 9_216;

/// The bytes that one read of an admin request requests.
pub const ADMIN_CHUNK: usize = 4_096;

/// The steps of a turn of an admin connection.
pub const OPERATOR_STEPS: u32 = 8;

/// How long a stopping service waits for its clients, in milliseconds.
pub const STOPPING: u64 = 3_000;

/// Limits on the connections that are accepted, on the clients served at once, and on the memory of
/// responses.
#[derive(Clone, Copy, Debug, PartialEq, Eq)]
pub struct Limits {
    /// The total number of connections to accept; unlimited if `None`.
    pub count: Option<u64>,
    /// The maximum number of connections open at once.
    pub clients: usize,
    /// The budget for unsent bytes of responses of all classes together; that of one class is half
    /// of it. While it is used up, a class that has unsent bytes waits.
    pub response_memory: usize,
}
