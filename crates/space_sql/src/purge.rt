//! Purging of what has ended in a space over tables.
use crate::answers::answer_of;
use crate::space::SqlSpace;
use entity_purge::purge_item::PurgeItem;
use space_core::purge::Purge;
use space_core::space::SpaceFault;
use space_sql_write::purge::purge_all;
use sqlite::Alter;

impl<S: Alter> Purge for SqlSpace<S> {
    fn purge(&mut self, gone: &[PurgeItem]) -> Result<(), SpaceFault> {
        if self.broken {
            return Err(SpaceFault::Broken);
        }
        match gone.split_first() {
            Some((first, rest)) => {
                let made = purge_all(self.alloc, &mut self.conn, first, rest);
                answer_of(&mut self.conn, &mut self.refusals, &mut self.broken, made)
            }
            None => Ok(()),
        }
    }
}
