//! The entries that a watch gave, until the instance takes them.
ghost use Rattle.std.specs.Prelude.{◌≡◌, ◌↔◌, ◌++◌, ℕ, List, [], ◌⊎◌, length, take, OnOk, OnErr, IfErr, IfOk, IsErrOf, IsTrue, option_to_list, unwrap_or};
ghost use Rattle.pool_etcd.specs.Counts.{AreNext, count_of};
ghost use Rattle.pool_etcd.specs.OwnFence.{DeletesOwn};
ghost use Rattle.pool_etcd.specs.Following.{Adds, AddsChange, AddsLine, Ascends, Differs, HasLine, HasValue, IsOther, IsSame, ReceivesValues};
ghost use Rattle.pool_etcd.specs.Following.{Refuses, TakesEntries, Unlinks, chain_in, last_revision, list_in, revision_of, value_of_deletion};

use crate::counts::{CountFault, Counts};
use crate::line_links::{LineLinks, Verdict};
use crate::log_value::{LogEntry, LogValue, read_value};
use crate::names::list_key;
use crate::own_fence::OwnFence;
use crate::payload::Payload;
use crate::suppliers::is_admitted;
use crate::watch_line::Change;
use pool_chain::chain::Chain;
use std::alloc::{AllocError, Global};
use std::collections::VecDeque;

/// The reason why the changes of a line were not taken.
#[derive(Clone, Copy, Debug, PartialEq, Eq)]
pub enum FollowFault {
    /// Memory ran out, or there are too many entries to count.
    Memory,
    /// A change was not made after those that the watch gave already.
    OutOfOrder,
    /// The own key was deleted behind the own fence.
    Deleted,
    /// A change cannot be the next one of its key, so others before it are missing.
    Gap,
    /// The pool has other settings.
    Settings,
    /// An entry of the own process is not admitted.
    Suppliers,
    /// An entry of the own process has a link that is not judged to be the same.
    Unlinked,
}

/// The entries that a watch gave, how far it has come, the settings of the pool, the supplier list,
/// the counts of all keys, the own fence, and the chain over all changes.
#[derive(Drop)]
pub struct Following {
    /// The revision of the last change.
    pub revision: u64,
    /// The number of all entries up to there.
    pub count: u64,
    /// The entries that were not taken yet.
    pub entries: VecDeque<LogEntry>,
    /// The number of the own settings.
    pub settings: u64,
    /// The number of the pool's settings, if it is known: the one that was known at the start, or
    /// else the one in the first fence.
    pub pool: Option<u64>,
    /// The supplier list after the last change.
    pub suppliers: Payload,
    /// The number of the own process as a writer.
    pub writer: u64,
    /// The counts of the keys after the last change.
    pub counts: Counts,
    /// The own fence, as far as the watch gave it.
    pub own: OwnFence,
    /// The chain over all changes.
    pub chain: Chain,
    /// The verdicts on links that were not taken yet.
    pub verdicts: VecDeque<Verdict>,
}

/// What a line has.
#[derive(Drop)]
pub struct LineValues {
    /// The admitted entries.
    pub entries: VecDeque<LogEntry>,
    /// The number in the first fence.
    pub fence: Option<u64>,
    /// The last supplier list.
    pub suppliers: Option<Payload>,
    /// True if an entry of the own process is not admitted.
    pub is_refused: bool,
    /// The links.
    pub links: LineLinks,
}

// Puts another supplier list in the place of one, if there is another.
fn replace_list(list: &mut Payload, next: Option<Payload>)
    ensures { list.new ≡ unwrap_or next list.old }
{
    if let Some(next) = next {
        *list = next;
    }
}

// Returns the revision of a change.
fn revision_of(change: &Change) -> u64
    ensures { result ≡ revision_of change.now }
{
    match change {
        Change::Put(put) => put.stored.revision,
        Change::Deleted(deletion) => deletion.revision,
    }
}

// Returns what the deletion of a key is.
fn value_of_deletion(alloc: Global, key: &[u8]) -> LogValue
    ensures { result ≡ value_of_deletion key.now }
{
    if key == list_key().as_bytes() {
        LogValue::Suppliers(Payload::from_vec(Vec::new(alloc)))
    } else {
        LogValue::Other
    }
}

// Returns what a change is in the log.
fn value_of(alloc: Global, change: &Change) -> Result<LogValue, AllocError>
    ensures { IfOk result (λ value. HasValue change.now value) }
{
    match change {
        Change::Put(put) => read_value(alloc, put.key.bytes(), put.stored.value.bytes()),
        Change::Deleted(deletion) => Ok(value_of_deletion(alloc, deletion.key.bytes())),
    }
}

impl Following {
    /// Creates the state of an instance with these settings that knows the log up to a revision,
    /// how many entries it has up to there, and maybe the settings of the pool. The supplier list
    /// is empty, and no key has a value. The number is that of the own process as a writer. The
    /// chain is that over the changes up to the revision.
    pub fn new(
        alloc: Global,
        revision: u64,
        count: u64,
        settings: u64,
        pool: Option<u64>,
        writer: u64,
        own: OwnFence,
        chain: Chain,
    ) -> Following
        ensures revision { result.revision ≡ revision }
        ensures count { result.count ≡ count }
        ensures entries { result.entries.items ≡ [] }
        ensures settings { result.settings ≡ settings }
        ensures pool { result.pool ≡ pool }
        ensures suppliers { result.suppliers ≡ [] }
        ensures writer { result.writer ≡ writer }
        ensures counts { result.counts ≡ [] }
        ensures own { result.own ≡ own }
        ensures chain { result.chain ≡ chain }
        ensures verdicts { result.verdicts.items ≡ [] }
    {
        Following {
            revision,
            count,
            entries: VecDeque::new(alloc),
            settings,
            pool,
            suppliers: Payload::from_vec(Vec::new(alloc)),
            writer,
            counts: Counts::from_vec(Vec::new(alloc)),
            own,
            chain,
            verdicts: VecDeque::new(alloc),
        }
    }

    /// Returns true if the settings of the pool are known, and are other ones.
    pub fn is_other(&self) -> bool
        ensures { IsTrue result ↔ IsOther self.now }
    {
        match self.pool {
            Some(pool) => pool != self.settings,
            None => false,
        }
    }

    // Returns the supplier list behind the values of a line.
    fn list_in<'a>(&'a self, line: &'a LineValues) -> &'a [u8]
        ensures { result.now ≡ list_in self.now line.now }
    {
        match &line.suppliers {
            Some(list) => list.bytes(),
            None => self.suppliers.bytes(),
        }
    }

    // Adds an entry if it is admitted. Otherwise it matters only if it is of the own process.
    fn add_entry(
        &self,
        alloc: Global,
        line: &mut LineValues,
        entry: LogEntry,
    ) -> Result<(), FollowFault>
        ensures added { OnOk result (Adds self.now (LogValue.Entry entry) line.old line.new) }
        ensures links { line.new.links ≡ line.old.links }
        ensures fault { IfErr result (λ fault. fault ≡ FollowFault.Memory) }
    {
        match is_admitted(alloc, self.list_in(line), &entry) {
            Ok(true) => match line.entries.push_back(entry) {
                Ok(()) => Ok(()),
                Err(_) => Err(FollowFault::Memory),
            },
            Ok(false) => {
                line.is_refused = line.is_refused || entry.writer == self.writer;
                Ok(())
            }
            Err(_) => Err(FollowFault::Memory),
        }
    }

    // Adds a value whose link was judged.
    fn add_value(
        &self,
        alloc: Global,
        line: &mut LineValues,
        value: LogValue,
    ) -> Result<(), FollowFault>
        ensures added { OnOk result (Adds self.now value line.old line.new) }
        ensures links { line.new.links ≡ line.old.links }
        ensures fault { IfErr result (λ fault. fault ≡ FollowFault.Memory) }
    {
        match value {
            LogValue::Entry(entry) => self.add_entry(alloc, line, entry),
            LogValue::Link(_) => Ok(()),
            LogValue::Fence(agreed) => {
                line.fence = line.fence.or(Some(agreed));
                Ok(())
            }
            LogValue::Suppliers(list) => {
                line.suppliers = Some(list);
                Ok(())
            }
            LogValue::Other => Ok(()),
        }
    }

    // Adds what a change is.
    fn add_change(
        &self,
        alloc: Global,
        line: &mut LineValues,
        change: &Change,
    ) -> Result<(), FollowFault>
        ensures added { OnOk result (AddsChange self.now change.now line.old line.new) }
        ensures fault { IfErr result (λ fault. fault ≡ FollowFault.Memory) }
    {
        let Ok(value) = value_of(alloc, change) else {
            return Err(FollowFault::Memory);
        };
        let Ok(value) = line
            .links
            .judge_value(alloc, &self.chain, self.writer, value)
        else {
            return Err(FollowFault::Memory);
        };
        self.add_value(alloc, line, value)?;
        match line.links.take_change(change) {
            Ok(()) => Ok(()),
            Err(_) => Err(FollowFault::Memory),
        }
    }

    // Reads the values of changes, each of which was made after the one before.
    fn line_values(
        &self,
        alloc: Global,
        changes: &[Change],
    ) -> Result<(LineValues, u64), FollowFault>
        ensures values { IfOk result (λ line. HasLine self.now changes.now line.0) }
        ensures after { OnOk result (Ascends self.now.revision changes.now) }
        ensures revision { IfOk result
            (λ line. line.1 ≡ last_revision self.now.revision changes.now) }
        ensures settings { IsErrOf result FollowFault.Settings → ⊥ }
        ensures suppliers { IsErrOf result FollowFault.Suppliers → ⊥ }
        ensures unlinked { IsErrOf result FollowFault.Unlinked → ⊥ }
        ensures deleted { IsErrOf result FollowFault.Deleted → ⊥ }
        ensures gap { IsErrOf result FollowFault.Gap → ⊥ }
    {
        let mut line = LineValues {
            entries: VecDeque::new(alloc),
            fence: None,
            suppliers: None,
            is_refused: false,
            links: LineLinks::new(alloc, self.chain.link()),
        };
        let mut revision = self.revision;
        for change in changes {
            let next = revision_of(change);
            if next <= revision {
                return Err(FollowFault::OutOfOrder);
            }
            self.add_change(alloc, &mut line, change)?;
            revision = next;
        }
        Ok((line, revision))
    }

    // Adds the entries, the verdicts and the chain of a line, or else the first ones of these.
    fn add_values(&mut self, line: &mut LineValues) -> Result<(), AllocError>
        ensures entries { OnOk result
            (self.new.entries.items ≡ self.old.entries.items ++ line.old.entries.items) }
        ensures verdicts { OnOk result (self.new.verdicts.items
            ≡ self.old.verdicts.items ++ line.old.links.verdicts.items) }
        ensures chain { OnOk result (self.new.chain ≡ chain_in self.old line.old) }
        ensures front { take (length self.old.entries.items) self.new.entries.items
            ≡ self.old.entries.items }
        ensures first { take (length self.old.verdicts.items) self.new.verdicts.items
            ≡ self.old.verdicts.items }
        ensures same { OnErr result (self.new.chain ≡ self.old.chain) }
        ensures others { self.new ≡ record self.old {
          entries = self.new.entries;
          verdicts = self.new.verdicts;
          chain = self.new.chain;
        } }
        ensures left { line.new
            ≡ record line.old { entries = line.new.entries; links = line.new.links } }
    {
        self.entries.append(&mut line.entries)?;
        self.verdicts.append(&mut line.links.verdicts)?;
        self.chain.append(&mut line.links.chain)
    }

    // Adds the entries of a line, and counts its changes, or does neither.
    fn add_line(
        &mut self,
        alloc: Global,
        line: &mut LineValues,
        changes: &[Change],
    ) -> Result<(), FollowFault>
        ensures added { OnOk result (AddsLine self.old self.new line.old line.new changes.now) }
        ensures gap { IsErrOf result FollowFault.Gap
            → AreNext (count_of self.old.counts) changes.now → ⊥ }
        ensures known { IfErr result (λ fault. (fault ≡ FollowFault.Gap)
            ⊎ (fault ≡ FollowFault.Memory)) }
        ensures err { OnErr result (IsSame self.old self.new) }
    {
        let known = self.counts.len();
        match self.counts.count_changes(alloc, changes) {
            Ok(()) => {}
            Err(CountFault::Memory) => return Err(FollowFault::Memory),
            Err(CountFault::Gap) => return Err(FollowFault::Gap),
        }
        let (entries, verdicts) = (self.entries.len(), self.verdicts.len());
        if self.add_values(line).is_ok() {
            return Ok(());
        }
        self.counts.truncate(known);
        self.entries.truncate(entries);
        self.verdicts.truncate(verdicts);
        Err(FollowFault::Memory)
    }

    /// Takes the changes of a line: all of them, or none. Each must have been made after all changes
    /// before. If the settings of the pool are not known, the first fence tells them. They must be
    /// the own ones.
    ///
    /// Each entry is checked by its link and by the supplier list at its place. Entries whose link
    /// is not the same as the own chain, entries that the list does not admit, later fences, and
    /// values that are none of these are passed over. Returns `Suppliers` if an entry of the own
    /// process is not admitted, `Unlinked` if it has such a link, and the settings do not differ.
    ///
    /// A deletion is a change like others. Returns `Deleted` if it deletes the own key behind the
    /// own fence, and `Gap` if a change cannot be the next one of its key.
    pub fn receive(&mut self, alloc: Global, changes: &[Change]) -> Result<(), FollowFault>
        ensures values { OnOk result (ReceivesValues self.old self.new changes.now) }
        ensures differs { IsErrOf result FollowFault.Settings → Differs self.old changes.now }
        ensures refuses { IsErrOf result FollowFault.Suppliers → Refuses self.old changes.now }
        ensures unlinks { IsErrOf result FollowFault.Unlinked → Unlinks self.old changes.now }
        ensures deletes { IsErrOf result FollowFault.Deleted
            → DeletesOwn self.old.own changes.now }
        ensures gap { IsErrOf result FollowFault.Gap
            → AreNext (count_of self.old.counts) changes.now → ⊥ }
        ensures after { OnOk result (Ascends self.old.revision changes.now) }
        ensures revision { OnOk result
            (self.new.revision ≡ last_revision self.old.revision changes.now) }
        ensures err { OnErr result (IsSame self.old self.new) }
    {
        let (mut line, revision) = self.line_values(alloc, changes)?;
        let pool = self.pool.or(line.fence);
        if let Some(pool) = pool
            && pool != self.settings
        {
            return Err(FollowFault::Settings);
        }
        if line.is_refused {
            return Err(FollowFault::Suppliers);
        }
        if line.links.is_unlinked {
            return Err(FollowFault::Unlinked);
        }
        let news = self.own.news(changes);
        if news.is_deleted {
            return Err(FollowFault::Deleted);
        }
        let Some(count) = self.count.checked_add(line.entries.len() as u64) else {
            return Err(FollowFault::Memory);
        };
        self.add_line(alloc, &mut line, changes)?;
        self.count = count;
        self.revision = revision;
        self.pool = pool;
        self.own.is_given = news.is_given;
        self.counts.shorten(alloc);
        self.chain.shorten();
        replace_list(&mut self.suppliers, line.suppliers.take());
        Ok(())
    }

    /// Takes the next entry.
    pub fn next(&mut self) -> Option<LogEntry>
        ensures entries { self.old.entries.items ≡ option_to_list result ++ self.new.entries.items }
        ensures revision { self.new.revision ≡ self.old.revision }
        ensures count { self.new.count ≡ self.old.count }
        ensures settings { TakesEntries self.old self.new }
    {
        self.entries.pop_front()
    }

    /// Takes the next verdict.
    pub fn next_verdict(&mut self) -> Option<Verdict>
        ensures verdicts { self.old.verdicts.items
            ≡ option_to_list result ++ self.new.verdicts.items }
        ensures entries { self.new.entries.items ≡ self.old.entries.items }
        ensures revision { self.new.revision ≡ self.old.revision }
        ensures count { self.new.count ≡ self.old.count }
        ensures settings { TakesEntries self.old self.new }
    {
        self.verdicts.pop_front()
    }
}
