//! A copy of an airspace in the tables of a database.
use crate::copying::Copying;
use space_snapshot::snapshot::Snapshot;
use sqlite::{Alter, Connection, Error, ErrorCode};
use std::alloc::Global;

/// A copy of an airspace in the tables of a database.
///
/// Each step is a transaction, so the tables have no whole airspace before the last one.
#[derive(Drop)]
pub struct AirspaceCopy<S: Alter> {
    conn: Connection<S>,
    copying: Copying,
}

impl<S: Alter + Drop> AirspaceCopy<S> {
    /// Begins a copy. The database must have the tables of an empty airspace.
    pub fn new(alloc: Global, conn: Connection<S>) -> AirspaceCopy<S> {
        AirspaceCopy {
            conn,
            copying: Copying::new(alloc),
        }
    }

    /// Runs a step, given a snapshot of the airspace, and a stamp that differs after each of its
    /// changes. Returns true if the tables have the airspace.
    ///
    /// A step compares and writes few items. If the airspace changes all the time, later steps do
    /// more.
    ///
    /// Returns an error if the database fails or memory runs out. Then the copy is over.
    pub fn step(&mut self, shown: Snapshot<'_>, stamp: u64) -> Result<bool, Error> {
        if !self.conn.is_autocommit() {
            return Err(Error::SqliteFailure(ErrorCode::TransactionState));
        }
        let mut tx = self.conn.transaction();
        let is_whole = self.copying.step(&mut tx, shown, stamp)?;
        tx.commit()?;
        Ok(is_whole)
    }

    /// Returns the database.
    pub fn into_connection(self) -> Connection<S> {
        self.conn
    }
}
