//! Batches of changes in a space over tables.
use crate::answers::answer_of;
use crate::space::SqlSpace;
use space_core::batch::{ApplyBatch, BatchChange};
use space_core::space::SpaceFault;
use space_sql_write::batch::commit_batch;
use sqlite::Alter;

impl<S: Alter> ApplyBatch for SqlSpace<S> {
    fn apply_batch(&mut self, batch: &[BatchChange]) -> Result<(), SpaceFault> {
        if self.broken {
            return Err(SpaceFault::Broken);
        }
        match batch.split_first() {
            Some((first, rest)) => {
                let made = commit_batch(self.alloc, &mut self.conn, first, rest);
                answer_of(&mut self.conn, &mut self.refusals, &mut self.broken, made)
            }
            None => Ok(()),
        }
    }
}
