//! Reasons to abort a call.

use space_core::space::SpaceFault;
use std::alloc::{AllocError, AllocFailed};

/// A reason to abort a call.
#[derive(Debug, Drop)]
pub enum CallFault {
    NoMemory,
    Space(SpaceFault),
}

impl From<AllocError> for CallFault {
    ghost use Rattle.service_step.specs.declared.call_fault.CallFault.TheVariants.{NoMemory};
    ghost use Rattle.std.specs.Prelude.{◌≡◌};

    ghost from_gives = { λ _ h. h ≡ NoMemory };

    fn from(_refused: AllocError) -> CallFault {
        CallFault::NoMemory
    }
}

impl<T: Drop> From<AllocFailed<T>> for CallFault {
    ghost use Rattle.service_step.specs.declared.call_fault.CallFault.TheVariants.{NoMemory};
    ghost use Rattle.std.specs.Prelude.{◌≡◌};

    ghost from_gives = { λ _ h. h ≡ NoMemory };

    fn from(_refused: AllocFailed<T>) -> CallFault {
        CallFault::NoMemory
    }
}

impl From<SpaceFault> for CallFault {
    ghost use Rattle.service_step.specs.declared.call_fault.CallFault.TheVariants.{Space};
    ghost use Rattle.std.specs.Prelude.{◌≡◌};

    ghost from_gives = { λ fault h. h ≡ Space fault };

    fn from(fault: SpaceFault) -> CallFault {
        CallFault::Space(fault)
    }
}
