//! The counts of the puts of keys, as etcd keeps them.
ghost use Rattle.std.specs.Prelude.{◌≡◌, ◌↔◌, ◌++◌, [], ◌∷◌, ℕ, List, length, take, map, IfOk, IsErrOf, IsTrue, OnErr, OnOk};
ghost use Rattle.pool_etcd.specs.Counts.{AreNext, IsNext, changed_key, count_by, count_of, counts_after, has_key, key_count, last_count, no_puts};

use crate::payload::Payload;
use crate::watch_line::Change;
use std::alloc::{AllocError, Global};
use std::marker::Model;

// The maximum number of counts before those that are not the last ones of their keys are dropped.
const MAX_COUNTS: usize = 64;

/// The revision of the creation of a key, and the number of its puts since. Both are 0 if the key
/// has no value.
#[derive(Clone, Copy, Debug, PartialEq, Eq)]
pub struct PutCount {
    pub created: u64,
    pub version: u64,
}

/// A key with its count.
#[derive(Drop)]
pub struct KeyCount {
    pub key: Payload,
    pub puts: PutCount,
}

/// The reason why changes were not counted.
#[derive(Clone, Copy, Debug, PartialEq, Eq)]
pub enum CountFault {
    /// Memory ran out.
    Memory,
    /// A change cannot be the next one of its key.
    Gap,
}

/// The counts of keys. The last one of a key counts. A key that is not among them has no value.
///
/// Contracts see their list.
#[derive(Drop)]
pub struct Counts {
    items: Vec<KeyCount>,
}

impl Model for Counts {
    ghost use Rattle.std.specs.Prelude.{List};
    ghost use Rattle.pool_etcd.specs.declared.counts.KeyCount.{KeyCount};

    ghost Value = { List KeyCount };

    ghost view = { λ a. a.items.items };
}

// Returns the count of a key without a value.
fn no_puts() -> PutCount
    ensures { result ≡ no_puts }
{
    PutCount {
        created: 0,
        version: 0,
    }
}

// Returns the key of a change.
fn changed_key(change: &Change) -> &[u8]
    ensures { result.now ≡ changed_key change.now }
{
    match change {
        Change::Put(put) => put.key.bytes(),
        Change::Deleted(deletion) => deletion.key.bytes(),
    }
}

// Returns the count of the key of a change after it.
fn count_by(change: &Change) -> PutCount
    ensures { result ≡ count_by change.now }
{
    match change {
        Change::Put(put) => put.puts,
        Change::Deleted(_) => no_puts(),
    }
}

// Returns true if the change can be the next one of a key with this count.
fn is_next(before: PutCount, change: &Change) -> bool
    ensures { IsTrue result ↔ IsNext before change.now }
{
    match change {
        Change::Put(put) => {
            let created = if before.version == 0 {
                put.stored.revision
            } else {
                before.created
            };
            put.puts.version > before.version
                && put.puts.version - before.version == 1
                && put.puts.created == created
        }
        Change::Deleted(_) => before.version > 0,
    }
}

// Returns true if the key is among these.
fn has_key(counts: &[KeyCount], key: &[u8]) -> bool
    ensures { result ≡ has_key key.now counts.now }
{
    for count in counts {
        if count.key.bytes() == key {
            return true;
        }
    }
    false
}

// Returns the key, with its count.
fn key_count(alloc: Global, key: &[u8], puts: PutCount) -> Result<KeyCount, AllocError>
    ensures key { IfOk result (λ count. count.key ≡ key.now) }
    ensures puts { IfOk result (λ count. count.puts ≡ puts) }
{
    let key = Payload::from_vec(Vec::from_slice(alloc, key)?);
    Ok(KeyCount { key, puts })
}

// Adds a count, unless its key is among the later ones.
fn add_last(
    alloc: Global,
    last: &mut Vec<KeyCount>,
    count: &KeyCount,
    later: &[KeyCount],
) -> Result<(), AllocError>
    ensures { OnOk result ((key : List ℕ) → last_count key no_puts (last.new.items ++ later.now)
        ≡ last_count key no_puts (last.old.items ++ count.now ∷ later.now)) }
{
    if has_key(later, count.key.bytes()) {
        return Ok(());
    }
    let copy = key_count(alloc, count.key.bytes(), count.puts)?;
    match last.push(copy) {
        Ok(()) => Ok(()),
        Err(_) => Err(AllocError),
    }
}

impl Counts {
    /// Converts a vector of counts.
    ///
    /// Allocates nothing.
    pub fn from_vec(items: Vec<KeyCount>) -> Counts
        ensures { result ≡ items.items }
    {
        Counts { items }
    }

    // Returns the count of a key.
    fn count(&self, key: &[u8]) -> PutCount
        ensures { result ≡ count_of self.now key.now }
    {
        let items = self.items.as_slice();
        let mut puts = no_puts();
        for count in items {
            if count.key.bytes() == key {
                puts = count.puts;
            }
        }
        puts
    }

    // Adds the count of the key of a change.
    fn add(&mut self, alloc: Global, change: &Change) -> Result<(), AllocError>
        ensures added { OnOk result (self.new ≡ self.old ++ key_count change.now ∷ []) }
        ensures same { OnErr result (self.new ≡ self.old) }
    {
        let count = key_count(alloc, changed_key(change), count_by(change))?;
        match self.items.push(count) {
            Ok(()) => Ok(()),
            Err(_) => Err(AllocError),
        }
    }

    // Adds the counts of the keys of changes, until one cannot be the next one of its key.
    fn add_each(&mut self, alloc: Global, changes: &[Change]) -> Result<(), CountFault>
        ensures added { OnOk result (self.new ≡ self.old ++ map key_count changes.now) }
        ensures next { OnOk result (AreNext (count_of self.old) changes.now) }
        ensures gap { IsErrOf result CountFault.Gap → AreNext (count_of self.old) changes.now → ⊥ }
        ensures front { OnErr result (take (length self.old) self.new ≡ self.old) }
    {
        for change in changes {
            if !is_next(self.count(changed_key(change)), change) {
                return Err(CountFault::Gap);
            }
            if self.add(alloc, change).is_err() {
                return Err(CountFault::Memory);
            }
        }
        Ok(())
    }

    /// Counts changes, if each can be the next one of its key.
    pub fn count_changes(&mut self, alloc: Global, changes: &[Change]) -> Result<(), CountFault>
        ensures counts { OnOk result ((key : List ℕ)
            → count_of self.new key ≡ counts_after (count_of self.old) changes.now key) }
        ensures next { OnOk result (AreNext (count_of self.old) changes.now) }
        ensures gap { IsErrOf result CountFault.Gap → AreNext (count_of self.old) changes.now → ⊥ }
        ensures added { OnOk result (self.new ≡ self.old ++ map key_count changes.now) }
        ensures err { OnErr result (self.new ≡ self.old) }
    {
        let known = self.items.len();
        match self.add_each(alloc, changes) {
            Ok(()) => Ok(()),
            Err(fault) => {
                self.items.truncate(known);
                Err(fault)
            }
        }
    }

    /// Drops the last counts, so that so many are left.
    pub fn truncate(&mut self, count: usize)
        ensures { self.new ≡ take count self.old }
    {
        self.items.truncate(count);
    }

    /// Returns the number of counts.
    pub fn len(&self) -> usize
        ensures { result ≡ length self.now }
    {
        self.items.len()
    }

    // Returns the last count of each key.
    fn last_ones(&self, alloc: Global) -> Result<Vec<KeyCount>, AllocError>
        ensures { IfOk result (λ last. (key : List ℕ)
            → count_of last.items key ≡ count_of self.now key) }
    {
        let items = self.items.as_slice();
        let mut last = Vec::new(alloc);
        for index in 0..items.len() {
            add_last(alloc, &mut last, &items[index], &items[index + 1..])?;
        }
        Ok(last)
    }

    /// Drops counts that are not the last ones of their keys, if there are many and memory is left.
    pub fn shorten(&mut self, alloc: Global)
        ensures { (key : List ℕ) → count_of self.new key ≡ count_of self.old key }
    {
        if self.items.len() > MAX_COUNTS
            && let Ok(last) = self.last_ones(alloc)
        {
            self.items = last;
        }
    }
}
