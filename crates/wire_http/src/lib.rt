//! Serving HTTP/1.x requests of a stream or a connection by a service.
#![tactic(auto)]

mod buffered;
mod call;
mod connection;
mod counted;
mod end;
mod explaining;
mod fault;
pub mod laws;
mod moments;
mod notes;
mod request;
mod request_info;
mod request_parts;
mod serve;
mod source;
mod target;
mod text;
mod texts;
mod unavailable;
mod write;

pub use connection::{Connection, NextRequest, NextStep, Peeked, Step};
pub use counted::Counted;
pub use end::{End, Served};
pub use explaining::Explaining;
pub use fault::StreamFault;
pub use moments::{ClockFault, FixedClock, Moments};
pub use request_info::{Outcome, RequestInfo};
pub use request_parts::RequestParts;
pub use serve::serve_stream;
pub use texts::Texts;
pub use unavailable::Unavailable;
