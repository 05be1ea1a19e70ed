//! Keys of puts.
ghost use Rattle.std.specs.Prelude.{◌≡◌};

use entity_core::ovn::Ovn;
use std::marker::Model;

/// The key of a put: the OVNs of the entities that a USS knows.
///
/// Contracts see their list.
#[derive(Debug, Drop)]
pub struct Key {
    items: Vec<Ovn>,
}

impl Model for Key {
    ghost use Rattle.std.specs.Prelude.{List, ℕ};

    ghost Value = { List (List ℕ) };

    ghost view = { λ a. a.items.items };
}

impl Key {
    /// Creates a key of these OVNs.
    ///
    /// Allocates nothing.
    pub fn from_vec(items: Vec<Ovn>) -> Key
        ensures { result ≡ items.items }
    {
        Key { items }
    }

    /// Returns the OVNs, in the order in which they were given.
    pub fn items(&self) -> &[Ovn]
        ensures { result.now ≡ self.now }
    {
        self.items.as_slice()
    }

    /// Converts the key into a vector of its OVNs.
    ///
    /// Allocates nothing.
    pub fn into_vec(self) -> Vec<Ovn>
        ensures { result.items ≡ self }
    {
        let Key { items } = self;
        items
    }
}
