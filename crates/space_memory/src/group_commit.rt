//! Commits in an in-memory space. No change is ever pending.
ghost use Rattle.std.specs.Prelude.{◌≡◌, false};
ghost use Rattle.space_memory.specs.Memory.{content_of};

use crate::memory::MemorySpace;
use space_core::group_commit::GroupCommit;
use space_core::space::SpaceFault;

impl GroupCommit for MemorySpace {
    ghost use Rattle.std.specs.Prelude.{◌≡◌, false};
    ghost use Rattle.space_memory.specs.Memory.{content_of};
    ghost use Rattle.space_memory.specs.GroupCommit.{never};

    ghost persists = { λ s a. a ≡ content_of s };

    ghost is_pending = { λ _. false };

    ghost persists_held = { λ s a off. ((λ h. h), (λ h. h)) };

    ghost persists_while_pending = { λ s t a same on. never on };

    ghost unbroken_while_pending = { λ s t same on. never on };

    ghost pending_is_unbroken = { λ s sound on. never on };

    fn has_pending(&self) -> bool {
        false
    }

    fn commit(&mut self) -> Result<(), SpaceFault> {
        Ok(())
    }
}
