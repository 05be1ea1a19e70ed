//! Faults of requests to etcd.
use crate::exchange::ExchangeFault;
use crate::response_fault::ResponseFault;
use std::net::SocketAddr;

/// The reason why a request, or a watch, had no result. The next endpoint is tried.
#[derive(Clone, Copy, Debug, PartialEq, Eq)]
pub enum EtcdFault {
    /// Memory ran out.
    Memory,
    /// No connection to the endpoint, or it was cut.
    Connection,
    /// No whole response came within the time limit.
    TimeLimit,
    /// The response is no HTTP.
    Http,
    /// The response has another status than 200.
    Status(u16),
    /// The response is longer than any of etcd's.
    TooLong,
    /// The response is no JSON.
    NotJson,
    /// The response lacks a member, or a member is not what etcd says there.
    Unexpected,
    /// The watch gave a change that was not made after those before.
    OutOfOrder,
    /// The watch ended.
    WatchEnded,
    /// The watch does not give changes that were made.
    WatchBehind,
}

/// A fault, and the address at which it happened, if there was one.
#[derive(Clone, Copy, Debug, PartialEq, Eq)]
pub struct EndpointFault {
    pub fault: EtcdFault,
    pub address: Option<SocketAddr>,
}

impl EtcdFault {
    /// Returns the name of the fault.
    pub fn name(self) -> &'static str {
        match self {
            EtcdFault::Memory => "memory",
            EtcdFault::Connection => "connection",
            EtcdFault::TimeLimit => "time limit",
            EtcdFault::Http => "no HTTP",
            EtcdFault::Status(_) => "status",
            EtcdFault::TooLong => "too long",
            EtcdFault::NotJson => "no JSON",
            EtcdFault::Unexpected => "unexpected",
            EtcdFault::OutOfOrder => "out of order",
            EtcdFault::WatchEnded => "watch ended",
            EtcdFault::WatchBehind => "watch behind",
        }
    }
}

impl From<ResponseFault> for EtcdFault {
    fn from(fault: ResponseFault) -> EtcdFault {
        match fault {
            ResponseFault::Memory => EtcdFault::Memory,
            ResponseFault::NotJson => EtcdFault::NotJson,
            ResponseFault::Unexpected => EtcdFault::Unexpected,
        }
    }
}

impl From<ExchangeFault> for EtcdFault {
    fn from(fault: ExchangeFault) -> EtcdFault {
        match fault {
            ExchangeFault::Memory => EtcdFault::Memory,
            ExchangeFault::Response(_) => EtcdFault::Http,
            ExchangeFault::Request(_) => EtcdFault::Http,
        }
    }
}

/// The reason why the log is lost for this instance.
#[derive(Clone, Copy, Debug, PartialEq, Eq)]
pub enum Loss {
    /// Another process writes under the name of this instance.
    Replaced,
    /// Entries that were not received have been removed: all before this revision.
    Compacted(u64),
    /// The key of this process was deleted.
    Deleted,
    /// The log ends before a change that was received, or changes before one are missing.
    Shortened,
    /// The pool has other settings: the known ones, or those in the first fence.
    Settings,
    /// The supplier list does not admit an entry of this process.
    Suppliers,
    /// An entry of this process was stored too many changes behind its link.
    Unlinked,
    /// More organizations were given other changes than the same ones.
    Diverged,
    /// A batch of this process was not stored in time. Its fence is in its place, so it never is.
    Unmade,
}

impl Loss {
    /// Returns the name of the loss.
    pub fn name(self) -> &'static str {
        match self {
            Loss::Replaced => "replaced",
            Loss::Compacted(_) => "compacted",
            Loss::Deleted => "deleted",
            Loss::Shortened => "shortened",
            Loss::Settings => "settings",
            Loss::Suppliers => "suppliers",
            Loss::Unlinked => "unlinked",
            Loss::Diverged => "diverged",
            Loss::Unmade => "unmade",
        }
    }
}
