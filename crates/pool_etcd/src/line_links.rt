//! The links in a line of changes, compared with the own chain.
ghost use Rattle.std.specs.Prelude.{◌≡◌, ◌++◌, ◌||◌, [], ◌∷◌, false, IfOk, OnOk};
ghost use Rattle.pool_chain.specs.Known.{joined, kept_behind, kept_more};
ghost use Rattle.pool_etcd.specs.Linked.{item_of, linked};
ghost use Rattle.pool_etcd.specs.LineLinks.{Judges};

use crate::log_value::{LogEntry, LogLink, LogValue};
use crate::payload::Payload;
use crate::watch_line::Change;
use pool_chain::chain::Chain;
use pool_chain::link::{Judgement, Link};
use std::alloc::{AllocError, Global};
use std::collections::VecDeque;

/// The link under a key, and how the own chain judged it.
#[derive(Drop)]
pub struct Verdict {
    pub key: Payload,
    pub link: Link,
    pub judgement: Judgement,
    /// True if the link is that of an entry.
    pub is_entry: bool,
}

/// The links in a line.
#[derive(Drop)]
pub struct LineLinks {
    /// The chain over the changes of the line. It goes on behind the one before the line.
    pub chain: Chain,
    /// The verdicts on the links in the line.
    pub verdicts: VecDeque<Verdict>,
    /// True if the link of an entry of the own process is not judged to be the same.
    pub is_unlinked: bool,
}

// Returns a verdict.
fn verdict_of(
    alloc: Global,
    key: &[u8],
    link: Link,
    judgement: Judgement,
    is_entry: bool,
) -> Result<Verdict, AllocError>
    ensures { IfOk result (λ v. v ≡ record {
      key = key.now;
      link = link;
      judgement = judgement;
      is_entry = is_entry;
    }) }
{
    let key = Payload::from_vec(Vec::from_slice(alloc, key)?);
    Ok(Verdict {
        key,
        link,
        judgement,
        is_entry,
    })
}

// Returns true if one of the two is.
fn is_either(first: bool, second: bool) -> bool
    ensures { result ≡ (first || second) }
{
    first || second
}

impl LineLinks {
    /// Creates the links of a line without changes, behind the link of a chain.
    pub fn new(alloc: Global, link: Link) -> LineLinks
        ensures chain { result.chain ≡ kept_behind link }
        ensures verdicts { result.verdicts.items ≡ [] }
        ensures unlinked { result.is_unlinked ≡ false }
    {
        LineLinks {
            chain: Chain::behind(alloc, link),
            verdicts: VecDeque::new(alloc),
            is_unlinked: false,
        }
    }

    // Adds a verdict.
    fn push(&mut self, verdict: Verdict) -> Result<(), AllocError>
        ensures added { OnOk result
            (self.new.verdicts.items ≡ self.old.verdicts.items ++ verdict ∷ []) }
        ensures unlinked { self.new.is_unlinked ≡ self.old.is_unlinked }
        ensures chain { self.new.chain ≡ self.old.chain }
    {
        match self.verdicts.push_back(verdict) {
            Ok(()) => Ok(()),
            Err(_) => Err(AllocError),
        }
    }

    // Judges the link of an entry. Returns the entry if the link is the same.
    #[tactic(auto, using(crate::proofs::Judgings::judges_other, crate::proofs::Judgings::linked_other))]
    fn judge_entry(
        &mut self,
        alloc: Global,
        known: &Chain,
        writer: u64,
        entry: LogEntry,
    ) -> Result<LogValue, AllocError>
        ensures value { IfOk result
            (λ v. v ≡ linked (joined known.now self.old.chain) (LogValue.Entry entry)) }
        ensures judged { OnOk result
            (Judges known.now writer (LogValue.Entry entry) self.old self.new) }
    {
        let judgement = known.judge(&self.chain, &entry.link);
        let verdict = verdict_of(alloc, entry.key.bytes(), entry.link, judgement, true)?;
        self.push(verdict)?;
        match judgement {
            Judgement::Same => Ok(LogValue::Entry(entry)),
            _ => {
                let is_own = entry.writer == writer;
                self.is_unlinked = is_either(self.is_unlinked, is_own);
                Ok(LogValue::Other)
            }
        }
    }

    // Judges a link without an entry.
    fn judge_link(
        &mut self,
        alloc: Global,
        known: &Chain,
        writer: u64,
        link: LogLink,
    ) -> Result<LogValue, AllocError>
        ensures value { IfOk result (λ v. v ≡ LogValue.Link link) }
        ensures judged { OnOk result
            (Judges known.now writer (LogValue.Link link) self.old self.new) }
    {
        let judgement = known.judge(&self.chain, &link.link);
        let verdict = verdict_of(alloc, link.key.bytes(), link.link, judgement, false)?;
        self.push(verdict)?;
        Ok(LogValue::Link(link))
    }

    /// Judges the link of a value, if it has one, behind the changes of a chain and of the line. An
    /// entry whose link is not the same is passed over.
    ///
    /// Returns `AllocError` if memory runs out.
    pub fn judge_value(
        &mut self,
        alloc: Global,
        known: &Chain,
        writer: u64,
        value: LogValue,
    ) -> Result<LogValue, AllocError>
        ensures value { IfOk result (λ v. v ≡ linked (joined known.now self.old.chain) value) }
        ensures judged { OnOk result (Judges known.now writer value self.old self.new) }
    {
        match value {
            LogValue::Entry(entry) => self.judge_entry(alloc, known, writer, entry),
            LogValue::Link(link) => self.judge_link(alloc, known, writer, link),
            LogValue::Fence(agreed) => Ok(LogValue::Fence(agreed)),
            LogValue::Suppliers(list) => Ok(LogValue::Suppliers(list)),
            LogValue::Other => Ok(LogValue::Other),
        }
    }

    /// Takes a change.
    ///
    /// Returns `AllocError` if memory runs out, or there are too many changes to count.
    pub fn take_change(&mut self, change: &Change) -> Result<(), AllocError>
        ensures chain { OnOk result
            (self.new.chain ≡ kept_more self.old.chain (item_of change.now)) }
        ensures verdicts { self.new.verdicts.items ≡ self.old.verdicts.items }
        ensures unlinked { self.new.is_unlinked ≡ self.old.is_unlinked }
    {
        match change {
            Change::Put(put) => self.chain.put(put.key.bytes(), put.stored.value.bytes()),
            Change::Deleted(deletion) => self.chain.delete(deletion.key.bytes()),
        }
    }
}
