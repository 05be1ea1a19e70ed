//! The trait of storage backends that can be loaded into memory.
ghost use Rattle.std.specs.Prelude.{◌≡◌};
ghost use Rattle.space_core.specs.Space.{Reads, ReportsFault};
ghost use Rattle.space_memory.specs.Memory.{content_of};

use crate::memory::MemorySpace;
use space_core::space::{Space, SpaceFault};
use std::alloc::Global;

/// A storage backend that can be loaded into memory.
pub trait ToMemory: Space {
    /// Returns a copy of the whole content as an in-memory space.
    ///
    /// Reads as any other call does, and changes nothing. Returns `Unchanged` if the content cannot
    /// be read or if memory runs out; a later call can succeed. After `Broken`, every call of the
    /// space returns `Broken`.
    fn to_memory(&mut self, alloc: Global) -> Result<MemorySpace, SpaceFault>
        ensures fixed { Self.fixed self.new ≡ Self.fixed self.old }
        ensures tells { ReportsFault (Self.refusals self.old) (Self.refusals self.new)
            (Self.is_broken self.old) (Self.is_broken self.new) result }
        ensures reads { Reads Self.holds Self.is_sound Self.is_whole self.old self.new result
            (λ a list. content_of list ≡ a) };
}
