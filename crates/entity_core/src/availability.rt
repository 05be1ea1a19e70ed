//! Availabilities of USSs.

/// The availability of a USS, as last reported to the service.
#[derive(Clone, Copy, Debug, PartialEq, Eq)]
pub enum Availability {
    /// It was never set, or was set to `Unknown`.
    Unknown,
    Normal,
    Down,
}
