//! The own fence, as far as a watch gave it.
ghost use Rattle.std.specs.Prelude.{◌≡◌, ◌↔◌, ◌||◌, ◌&&◌, IsTrue, false};
ghost use Rattle.pool_etcd.specs.OwnFence.{DeletesOwn, is_deletion, is_fence, is_given_by};

use crate::payload::Payload;
use crate::watch_line::Change;

/// The own key, the fence that this process puts under it, and whether a watch gave the fence.
#[derive(Drop)]
pub struct OwnFence {
    pub key: Payload,
    /// The value of the fence. No other process puts it.
    pub value: Payload,
    /// True once the watch gave the fence, and so all changes before it.
    pub is_given: bool,
}

/// What changes say of the own key.
#[derive(Clone, Copy, Debug, PartialEq, Eq)]
pub struct FenceNews {
    /// True if the fence was given with these changes, or before.
    pub is_given: bool,
    /// True if one of the changes deletes the own key behind the fence.
    pub is_deleted: bool,
}

impl OwnFence {
    /// Creates the state before the watch gave anything.
    pub fn new(key: Payload, value: Payload) -> OwnFence
        ensures key { result.key ≡ key }
        ensures value { result.value ≡ value }
        ensures given { result.is_given ≡ false }
    {
        OwnFence {
            key,
            value,
            is_given: false,
        }
    }

    // Returns true if the change puts the own fence under the own key.
    fn is_fence(&self, change: &Change) -> bool
        ensures { result ≡ is_fence self.now change.now }
    {
        match change {
            Change::Put(put) => {
                put.key.bytes() == self.key.bytes()
                    && put.stored.value.bytes() == self.value.bytes()
            }
            Change::Deleted(_) => false,
        }
    }

    // Returns true if the change deletes the own key.
    fn is_deletion(&self, change: &Change) -> bool
        ensures { result ≡ is_deletion self.now change.now }
    {
        match change {
            Change::Put(_) => false,
            Change::Deleted(deletion) => deletion.key.bytes() == self.key.bytes(),
        }
    }

    // Returns what changes say with one more.
    fn news_with(&self, news: FenceNews, change: &Change) -> FenceNews
        ensures given { result.is_given ≡ (news.is_given || is_fence self.now change.now) }
        ensures deleted { result.is_deleted
            ≡ (news.is_deleted || (news.is_given && is_deletion self.now change.now)) }
    {
        FenceNews {
            is_given: news.is_given || self.is_fence(change),
            is_deleted: news.is_deleted || (news.is_given && self.is_deletion(change)),
        }
    }

    /// Returns what changes say of the own key.
    pub fn news(&self, changes: &[Change]) -> FenceNews
        ensures given { result.is_given ≡ is_given_by self.now changes.now }
        ensures deleted { IsTrue result.is_deleted ↔ DeletesOwn self.now changes.now }
    {
        let mut news = FenceNews {
            is_given: self.is_given,
            is_deleted: false,
        };
        for change in changes {
            news = self.news_with(news, change);
        }
        news
    }
}
