//! Drawn entries of other organizations in the log of a simulated pool.
use crate::draws::Draws;
use crate::pool_log::Coming;
use crate::requests::{Drawn, ROOT, Script, Writer, token_at};
use crate::shared::{SECOND, START};
use entity_core::salt::Salt;
use entity_core::text::Text;
use policy_core::scope::Caller;
use pool_entry::batch::Batch;
use pool_entry::bytes::Bytes;
use pool_entry::pool_call::PoolCall;
use pool_entry::purge::purge_bytes;
use std::alloc::Global;
use token_conf::token_table::TokenTable;

// An entry that is neither a batch nor a purge.
const NONSENSE: &str = "dss-batch 0\n";

// How many entries of others there are at most.
const MOST_ENTRIES: usize = 40;

// The most nanoseconds between two of them, in most cases.
const GAP: u64 = 400_000_000;

/// What writes the entries of other organizations.
#[derive(Drop)]
pub(crate) struct Others<'a> {
    pub(crate) alloc: Global,
    pub(crate) tokens: &'a TokenTable,
    pub(crate) salt: &'a Salt,
    pub(crate) draws: Draws,
}

impl<'a> Others<'a> {
    // Returns what draws a change.
    fn writer(&mut self, mark: u64) -> Writer<'a> {
        Writer {
            alloc: self.alloc,
            salt: self.salt,
            draws: self.draws.split(),
            token: 0,
            mark,
            script: Script::new(self.alloc),
        }
    }

    // Returns a drawn caller.
    fn caller(&mut self) -> Option<Caller> {
        let token = token_at(self.draws.below(4) as usize);
        let caller = self.tokens.caller(token)?;
        Some(Caller {
            uss: caller.uss.clone().ok()?,
            scopes: caller.scopes,
        })
    }

    // Returns a drawn call at a time of day.
    fn call(&mut self, moment: u64, mark: u64) -> Option<PoolCall> {
        let caller = self.caller()?;
        let Drawn { method, path, body } = self.writer(mark).draw_change().ok()?;
        let path = format!(in self.alloc; "{ROOT}{path}").ok()?;
        let body = match &body {
            Some(body) => Bytes::copy(self.alloc, body.as_str().as_bytes()).ok()?,
            None => Bytes::copy(self.alloc, b"").ok()?,
        };
        Some(PoolCall {
            moment,
            caller,
            method: Bytes::copy(self.alloc, method.as_bytes()).ok()?,
            path: Text::from_string(path),
            body,
        })
    }

    // Returns the bytes of a drawn batch.
    fn batch(&mut self, moment: u64, mark: u64) -> Option<Vec<u8>> {
        let mut batch = Batch::new(self.alloc).ok()?;
        for index in 0..self.draws.up_to(4) {
            let call = self.call(moment, mark.saturating_add(index as u64))?;
            batch.push(self.alloc, call).ok()?;
        }
        Vec::from_slice(self.alloc, batch.bytes()).ok()
    }

    // Returns the bytes of a drawn entry that is written at a time of the simulation.
    fn bytes(&mut self, at: u64, mark: u64) -> Option<Vec<u8>> {
        let wall = START.saturating_add(at / SECOND);
        let moment = wall
            .saturating_add(self.draws.below(100))
            .saturating_sub(50);
        match self.draws.below(20) {
            0 => Vec::from_slice(self.alloc, NONSENSE.as_bytes()).ok(),
            1 | 2 => {
                let until = wall
                    .saturating_add(self.draws.below(150))
                    .saturating_sub(100);
                purge_bytes(self.alloc, until).ok()
            }
            _ => self.batch(moment, mark),
        }
    }

    // Draws the time between two entries.
    fn gap(&mut self) -> u64 {
        if self.draws.chance(20) {
            self.draws.below(10 * SECOND)
        } else {
            self.draws.below(GAP)
        }
    }

    /// Draws entries from a time on, with changes from a number on. If there is one that a process
    /// left behind, it is the first.
    pub(crate) fn draw(
        &mut self,
        since: u64,
        mark: u64,
        left: Option<Coming>,
    ) -> Option<Vec<Coming>> {
        let mut coming = Vec::new(self.alloc);
        let mut at = since;
        if let Some(left) = left {
            at = left.at.max(at);
            coming.push(left).ok()?;
        }
        for index in 0..self.draws.below(MOST_ENTRIES as u64) {
            at = at.saturating_add(self.gap());
            let bytes = self.bytes(at, mark.saturating_add(index.saturating_mul(4)))?;
            let writer = self.draws.below(3).saturating_add(1);
            coming
                .push(Coming {
                    at,
                    writer,
                    bytes,
                    has_other_clock: writer < 3,
                })
                .ok()?;
        }
        Some(coming)
    }
}
