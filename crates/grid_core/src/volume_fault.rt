//! The faults of volumes and areas.

/// The first fault of a volume or an area.
#[derive(Clone, Copy, Debug, PartialEq, Eq)]
pub enum VolumeFault {
    /// There are no cells.
    Empty,
    /// There are more than 512 cells.
    TooMany,
    /// An altitude is outside -100,000 to 1,000,000 decimetres, or the lower is above the upper.
    Altitude,
    /// A time is after 253,402,300,799 seconds since 1970, or the first is after the last.
    Time,
}

impl VolumeFault {
    ghost use Rattle.std.specs.Prelude.{◌≡◌};
    ghost use Rattle.grid_core.specs.VolumeFault.{fault_number, fault_name};

    /// Returns the number of the fault, from 1 to 4.
    pub fn number(self) -> u8
        ensures { result ≡ fault_number self }
    {
        match self {
            VolumeFault::Empty => 1,
            VolumeFault::TooMany => 2,
            VolumeFault::Altitude => 3,
            VolumeFault::Time => 4,
        }
    }

    /// Returns the name of the fault.
    pub fn name(self) -> &'static str
        ensures { result.now ≡ fault_name self }
    {
        match self {
            VolumeFault::Empty => "Empty",
            VolumeFault::TooMany => "TooMany",
            VolumeFault::Altitude => "Altitude",
            VolumeFault::Time => "Time",
        }
    }
}
