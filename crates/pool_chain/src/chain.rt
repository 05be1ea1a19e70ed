//! The chain of digests over the changes that a process was given.
ghost use Rattle.std.specs.Prelude.{◌≡◌, ◌+◌, ◌<◌, ◌++◌, [], ◌∷◌, length, drop, slice_index_or, ◌↔◌, IfSome, IsSome, OnOk, OnErr, Some, None};
ghost use Rattle.pool_chain.specs.Judged.{judgement_by_kept, judgement_in};
ghost use Rattle.pool_chain.specs.Known.{digest_behind, joined, kept_behind, kept_first, kept_more, link_in, shortened};

use crate::digest::{digest_after_deletion, digest_after_put};
use crate::link::{Judgement, Link, MAX_BEHIND};
use std::alloc::{AllocError, Global};
use std::collections::VecDeque;
use std::marker::Model;

/// The number of the changes, the digest over them, and the digests before.
///
/// Contracts see what it keeps.
#[derive(Drop)]
pub struct Chain {
    count: u64,
    digest: [u8; 32],
    // The digests over fewer changes, in order. The last one is over all but the last change.
    earlier: VecDeque<[u8; 32]>,
}

impl Model for Chain {
    ghost use Rattle.pool_chain.specs.Known.{Known};

    ghost Value = { Known };

    ghost view = { λ a. record { count = a.count; digest = a.digest; earlier = a.earlier.items } };
}

// Drops the first digests.
fn drop_front(digests: &mut VecDeque<[u8; 32]>, count: usize)
    ensures { digests.new.items ≡ drop count digests.old.items }
{
    for _dropped in 0..count {
        let _ = digests.pop_front();
    }
}

// Returns a digest of those.
fn digest_in(digests: &VecDeque<[u8; 32]>, index: usize) -> Option<[u8; 32]>
    requires { index < length digests.now.items }
    ensures { result ≡ Some (slice_index_or digests.now.items index []) }
{
    match digests.get(index) {
        Some(found) => {
            let digest = *found;
            Some(digest)
        }
        None => None,
    }
}

// Judges a digest by the own one, if that is kept.
fn judge_by_kept(own: Option<[u8; 32]>, other: &[u8; 32]) -> Judgement
    ensures { result ≡ judgement_by_kept own other.now }
{
    match own {
        None => Judgement::Old,
        Some(own) => {
            if own.as_slice() == other.as_slice() {
                Judgement::Same
            } else {
                Judgement::Differs(own)
            }
        }
    }
}

impl Chain {
    /// Creates the chain over no changes.
    ///
    /// Allocates nothing.
    pub fn new(alloc: Global) -> Chain
        ensures { result ≡ kept_first }
    {
        let digest = [0; 32];
        Chain {
            count: 0,
            digest,
            earlier: VecDeque::new(alloc),
        }
    }

    /// Creates a chain that goes on behind a link and keeps no earlier digests.
    ///
    /// Allocates nothing.
    pub fn behind(alloc: Global, link: Link) -> Chain
        ensures { result ≡ kept_behind link }
    {
        let digest = link.digest;
        Chain {
            count: link.count,
            digest,
            earlier: VecDeque::new(alloc),
        }
    }

    /// Returns the link of all changes.
    pub fn link(&self) -> Link
        ensures { result ≡ link_in self.now }
    {
        let digest = self.digest;
        Link {
            count: self.count,
            digest,
        }
    }

    /// Takes the digest over one more change, as it was stored.
    ///
    /// Returns `AllocError` if memory runs out, or there are too many changes to count.
    pub fn push(&mut self, digest: [u8; 32]) -> Result<(), AllocError>
        ensures ok { OnOk result (self.new ≡ record {
          count = self.old.count + 1;
          digest = digest;
          earlier = self.old.earlier ++ self.old.digest ∷ [];
        }) }
        ensures err { OnErr result (self.new ≡ self.old) }
    {
        let Some(count) = self.count.checked_add(1) else {
            return Err(AllocError);
        };
        let before = self.digest;
        match self.earlier.push_back(before) {
            Ok(()) => {
                self.count = count;
                self.digest = digest;
                Ok(())
            }
            Err(_) => Err(AllocError),
        }
    }

    /// Takes a change: a key got a value.
    ///
    /// Returns `AllocError` if memory runs out, or there are too many changes to count.
    pub fn put(&mut self, key: &[u8], value: &[u8]) -> Result<(), AllocError>
        ensures ok { OnOk result (self.new
            ≡ kept_more self.old (record { key = key.now; value = Some value.now })) }
        ensures err { OnErr result (self.new ≡ self.old) }
    {
        let digest = digest_after_put(&self.digest, key, value);
        self.push(digest)
    }

    /// Takes a change: a key was deleted.
    ///
    /// Returns `AllocError` if memory runs out, or there are too many changes to count.
    pub fn delete(&mut self, key: &[u8]) -> Result<(), AllocError>
        ensures ok { OnOk result (self.new
            ≡ kept_more self.old (record { key = key.now; value = None })) }
        ensures err { OnErr result (self.new ≡ self.old) }
    {
        let digest = digest_after_deletion(&self.digest, key);
        self.push(digest)
    }

    /// Returns the number of the earlier digests that are kept.
    pub fn kept(&self) -> usize
        ensures { result ≡ length self.now.earlier }
    {
        self.earlier.len()
    }

    /// Returns an earlier digest, in order.
    pub fn earlier(&self, index: usize) -> Option<[u8; 32]>
        ensures digest { IfSome result (λ digest. digest ≡ slice_index_or self.now.earlier index []) }
        ensures some { IsSome result ↔ (index < length self.now.earlier) }
    {
        if index >= self.earlier.len() {
            return None;
        }
        digest_in(&self.earlier, index)
    }

    /// Takes the changes of another chain, which goes on behind this one.
    ///
    /// Returns `AllocError` if memory runs out.
    pub fn append(&mut self, more: &mut Chain) -> Result<(), AllocError>
        ensures ok { OnOk result (self.new ≡ joined self.old more.old) }
        ensures err { OnErr result (self.new ≡ self.old) }
    {
        self.earlier.append(&mut more.earlier)?;
        self.count = more.count;
        let digest = more.digest;
        self.digest = digest;
        Ok(())
    }

    /// Drops the digests that are too many changes behind to be compared.
    pub fn shorten(&mut self)
        ensures { self.new ≡ shortened self.old }
    {
        let extra = self.earlier.len().saturating_sub(MAX_BEHIND as usize);
        drop_front(&mut self.earlier, extra);
    }

    // Returns the digest that is so many changes behind, if it is kept here or by another chain,
    // which goes on behind this one.
    fn digest_behind(&self, more: &Chain, behind: usize) -> Option<[u8; 32]>
        ensures { result ≡ digest_behind (joined self.now more.now) behind }
    {
        if behind == 0 {
            let digest = more.digest;
            return Some(digest);
        }
        let later = more.earlier.len();
        if behind <= later {
            return digest_in(&more.earlier, later - behind);
        }
        let rest = behind - later;
        let len = self.earlier.len();
        if rest > len {
            return None;
        }
        digest_in(&self.earlier, len - rest)
    }

    /// Judges a link by the changes of this chain and of another one, which goes on behind this one.
    pub fn judge(&self, more: &Chain, link: &Link) -> Judgement
        ensures { result ≡ judgement_in (joined self.now more.now) link.now }
    {
        if link.count > more.count {
            return Judgement::Ahead;
        }
        let behind = more.count - link.count;
        if behind > MAX_BEHIND {
            return Judgement::Old;
        }
        judge_by_kept(self.digest_behind(more, behind as usize), &link.digest)
    }
}
