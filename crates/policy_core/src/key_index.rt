//! An index for looking up OVNs in a key.
ghost use Rattle.std.specs.Prelude.{◌≡◌, IfOk};
ghost use Rattle.std.specs.List.Sorted.{IsPermutation};
ghost use Rattle.policy_core.specs.Missing.{in_key};

use entity_core::ovn::Ovn;
use std::alloc::{AllocError, Global};
use std::marker::Model;

/// The OVNs of a key, sorted by their texts for binary search.
///
/// Contracts see their list.
#[derive(Debug, Drop)]
pub struct KeyIndex<'a> {
    texts: Vec<&'a str>,
}

impl<'a> Model for KeyIndex<'a> {
    ghost use Rattle.std.specs.Prelude.{List, ℕ, map};
    ghost use Rattle.std.specs.Ordering.{nat_cmp};
    ghost use Rattle.std.specs.Cmp.Lexicographic.{slice_cmp};
    ghost use Rattle.std.specs.List.Sorted.{IsSorted};

    ghost Value = { List (List ℕ) };

    ghost view = { λ a. map (λ t. t.now) a.texts.items };

    ghost invariant = { λ a. IsSorted (λ x y. slice_cmp nat_cmp x.now y.now) a.texts.items };
}

impl<'a> KeyIndex<'a> {
    /// Creates the index of a key.
    ///
    /// Takes O(k log k) comparisons for k OVNs. Returns `AllocError` if memory runs out. Allocates
    /// nothing for an empty key.
    pub fn new(alloc: Global, key: &'a [Ovn]) -> Result<KeyIndex<'a>, AllocError>
        ensures { IfOk result (λ index. IsPermutation key.now index) }
    {
        let mut texts: Vec<&str> = key.iter().map(|own| own.text()).collect(alloc)?;
        texts.sort_unstable();
        Ok(KeyIndex { texts })
    }

    /// Returns true if the key has the OVN.
    ///
    /// Takes O(log k) comparisons.
    pub fn has(&self, ovn: &Ovn) -> bool
        ensures { result ≡ in_key self.now ovn.now }
    {
        self.texts.binary_search(&ovn.text()).is_ok()
    }
}
