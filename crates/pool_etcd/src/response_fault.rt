//! Faults in a response.

/// The reason why a response of etcd has no value.
#[derive(Clone, Copy, Debug, PartialEq, Eq)]
pub enum ResponseFault {
    /// Memory ran out.
    Memory,
    /// The text is no JSON.
    NotJson,
    /// The JSON lacks a member, or a member is not what etcd says there.
    Unexpected,
}
