//! The last comparable links of other organizations.
ghost use Rattle.std.specs.Prelude.{◌≡◌, ◌↔◌, [], IsTrue, OnOk};
ghost use Rattle.pool_etcd.specs.Comparisons.{IsDiverged, differing, noted, without};

use crate::payload::Payload;
use std::alloc::{AllocError, Global};
use std::marker::Model;

/// An organization, and whether its last comparable link differs from the own chain.
#[derive(Drop)]
pub struct Comparison {
    pub organization: Payload,
    pub differs: bool,
}

/// The comparisons with other organizations, one for each.
///
/// Contracts see their list.
#[derive(Drop)]
pub struct Comparisons {
    items: Vec<Comparison>,
}

impl Model for Comparisons {
    ghost use Rattle.std.specs.Prelude.{List};
    ghost use Rattle.pool_etcd.specs.declared.comparisons.Comparison.{Comparison};

    ghost Value = { List Comparison };

    ghost view = { λ a. a.items.items };
}

// Removes the comparison with an organization.
#[tactic(auto, using(crate::proofs::Comparing::without_more, crate::proofs::Comparing::without_here))]
fn remove(items: &mut Vec<Comparison>, organization: &[u8])
    ensures { items.new.items ≡ without organization.now items.old.items }
{
    for index in 0..items.len() {
        if items[index].organization.bytes() == organization {
            let _ = items.remove(index);
            return;
        }
    }
}

// Returns how many organizations differ.
fn differing(items: &[Comparison]) -> usize
    ensures { result ≡ differing items.now }
{
    let mut differing: usize = 0;
    for comparison in items {
        if comparison.differs {
            differing += 1;
        }
    }
    differing
}

// Returns true if more organizations differ than agree, with the own one.
fn is_diverged(items: &[Comparison]) -> bool
    ensures { IsTrue result ↔ IsDiverged items.now }
{
    let mut agreeing: usize = 0;
    let mut differing: usize = 0;
    for comparison in items {
        if comparison.differs {
            differing += 1;
        } else {
            agreeing += 1;
        }
    }
    differing > agreeing && differing - agreeing > 1
}

impl Comparisons {
    /// Creates an empty list.
    ///
    /// Allocates nothing.
    pub fn new(alloc: Global) -> Comparisons
        ensures { result ≡ [] }
    {
        Comparisons {
            items: Vec::new(alloc),
        }
    }

    /// Notes whether the last comparable link of an organization differs.
    ///
    /// Returns `AllocError` if memory runs out. Then the organization may have no comparison.
    pub fn note(
        &mut self,
        alloc: Global,
        organization: &[u8],
        differs: bool,
    ) -> Result<(), AllocError>
        ensures { OnOk result (self.new ≡ noted organization.now differs self.old) }
    {
        let copy = Payload::from_vec(Vec::from_slice(alloc, organization)?);
        remove(&mut self.items, organization);
        match self.items.push(Comparison {
            organization: copy,
            differs,
        }) {
            Ok(()) => Ok(()),
            Err(_) => Err(AllocError),
        }
    }

    /// Returns true if more organizations differ than agree. The own one agrees.
    pub fn is_diverged(&self) -> bool
        ensures { IsTrue result ↔ IsDiverged self.now }
    {
        is_diverged(self.items.as_slice())
    }

    /// Returns the number of organizations that differ.
    pub fn differing(&self) -> usize
        ensures { result ≡ differing self.now }
    {
        differing(self.items.as_slice())
    }
}
