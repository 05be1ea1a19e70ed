//! Purges of what has ended, in an in-memory space.
use crate::memory::MemorySpace;
use entity_purge::purge_item::PurgeItem;
use space_core::purge_ended::PurgeEnded;
use space_core::space::SpaceFault;

impl PurgeEnded for MemorySpace {
    fn find_ended(&mut self, until: u64, most: usize) -> Result<Vec<PurgeItem>, SpaceFault> {
        match MemorySpace::find_ended(self, until, most) {
            Ok(gone) => Ok(gone),
            Err(_) => Err(self.refuse()),
        }
    }

    fn purge(&mut self, gone: &[PurgeItem]) -> Result<(), SpaceFault> {
        MemorySpace::purge(self, gone);
        Ok(())
    }
}
