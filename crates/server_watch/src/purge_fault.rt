//! Why nothing was purged.
use space_core::space::SpaceFault;

/// The reason why nothing was purged.
#[derive(Clone, Copy, Debug, PartialEq, Eq)]
pub enum PurgeFault {
    /// The clock failed.
    Clock,
    /// The service failed.
    Space(SpaceFault),
}
