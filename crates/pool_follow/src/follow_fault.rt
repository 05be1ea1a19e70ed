//! Reasons why a follower failed.

/// The reason why a follower failed.
#[derive(Clone, Copy, Debug, PartialEq, Eq)]
pub enum FollowFault {
    /// Memory ran out, other than in a call.
    Memory,
    /// The log is lost: entries that it did not give were removed, for example.
    Lost,
    /// The space failed, or memory ran out in a call.
    Space,
    /// The log has not answered for too long.
    Silent,
    /// The wait for the connections of the log failed.
    Wait,
}
