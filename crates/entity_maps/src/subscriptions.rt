//! Subscriptions ordered by id.
ghost use Rattle.std.specs.Prelude.{◌≡◌, ◌<◌, ◌↔◌, [], ◌∷◌, OnOk, OnErr, IfOk, IsOk, IfSome, IsSome, IsNone, IsTrue, filter, length, nat_eq};
ghost use Rattle.std.specs.List.{list_any};
ghost use Rattle.std.specs.List.Sorted.{IsStrictlyIncreasing};
ghost use Rattle.std.specs.BTreeMap as trees;
ghost use Rattle.std.specs.Map.{values_of};
ghost use Rattle.std.specs.Ordering.{nat_cmp};
ghost use Rattle.std.specs.Option.{option_copied};
ghost use Rattle.std.specs.FinMap.{get, insert, remove};
ghost use Rattle.entity_core.specs.Airspace.{is_one_of, notified_where};
ghost use Rattle.entity_core.specs.Search.{is_for_near, is_own_near, subscribers_in, subscriptions_in};
ghost use Rattle.entity_core.specs.Serial.{max_serial};
ghost use Rattle.entity_maps.specs.Subscriptions.{AreKeyed, CanNotify, comes_from, pair_of, subscription_map, Notifies, TreeCanNotify, InOrder};

use entity_core::entity_id::EntityId;
use entity_core::nature::Kind;
use entity_core::subscription::Sub;
use entity_core::uss_id::UssId;
use grid_core::sorted_area::{SortedArea, meets_some_sorted, sorted};
use grid_core::volume::Area;
use std::alloc::{AllocError, Global};
use std::collections::BTreeMap;
use std::collections::btree_map::{Range, Values};
use std::marker::Model;

/// Subscriptions ordered by id, one for each id.
///
/// They are stored in a tree, so that inserting or removing a subscription does not move the
/// others. Contracts see their list.
#[derive(Debug, Drop)]
pub struct Subscriptions {
    tree: BTreeMap<u128, Sub>,
}

impl Model for Subscriptions {
    ghost use Rattle.std.specs.Prelude.{List};
    ghost use Rattle.std.specs.BTreeMap.{values};
    ghost use Rattle.entity_core.specs.declared.subscription.Sub.{Sub};
    ghost use Rattle.entity_maps.specs.Subscriptions.{AreKeyed};

    ghost Value = { List Sub };

    ghost view = { λ a. values a.tree };

    ghost invariant = { λ a. AreKeyed a.tree.entries };
}

// Returns true if a subscription belongs to the USS and its volume meets the area.
fn is_own_near(sub: &Sub, uss: &UssId, area: &SortedArea) -> bool
    ensures { result ≡ is_own_near uss.now area.now (pair_of sub.now) }
{
    sub.manager.text() == uss.text() && sub.volume.meets_sorted(area)
}

// Returns true if a subscription is for the kind and its volume meets some area.
fn is_for_near(sub: &Sub, kind: Kind, areas: &[SortedArea]) -> bool
    ensures { result ≡ is_for_near kind areas.now (pair_of sub.now) }
{
    sub.interest.wants(kind) && meets_some_sorted(&sub.volume, areas)
}

fn is_among(ids: &[EntityId], id: EntityId) -> bool
    ensures { result ≡ list_any (λ other. nat_eq other id) ids.now }
{
    ids.iter().any(|other| other.is(id))
}

fn are_rising(ids: &[EntityId]) -> bool
    ensures { IsTrue result ↔ IsStrictlyIncreasing ids.now }
{
    ids.is_sorted_by(|id, next| id.number() < next.number())
}

// Notifies the subscription with this id, if it exists.
fn notify_one(tree: &mut BTreeMap<u128, Sub>, id: EntityId)
    requires keyed { AreKeyed tree.old.entries }
    requires rises { IfSome (trees.get nat_cmp tree.old id) (λ s. s.index < max_serial) }
    ensures keyed { AreKeyed tree.new.entries }
    ensures told { Notifies (id ∷ []) tree.old tree.new }
{
    if let Some(sub) = tree.get_mut(&id.number()) {
        sub.notify();
    }
}

// Notifies the subscriptions with these ids, each once. Looks for repeated ids only if the ids are
// not ascending.
fn notify_ids(tree: &mut BTreeMap<u128, Sub>, ids: &[EntityId])
    requires keyed { AreKeyed tree.old.entries }
    requires rises { TreeCanNotify tree.old }
    ensures keyed { AreKeyed tree.new.entries }
    ensures told { Notifies ids.now tree.old tree.new }
{
    let rising = are_rising(ids);
    for i in 0..ids.len() {
        let id = ids[i];
        if rising || !is_among(&ids[..i], id) {
            notify_one(tree, id);
        }
    }
}

impl Subscriptions {
    /// Returns an empty map.
    ///
    /// Allocates nothing.
    pub fn new(alloc: Global) -> Subscriptions
        ensures { result ≡ [] }
    {
        Subscriptions {
            tree: BTreeMap::new(alloc),
        }
    }

    /// Returns the number of subscriptions.
    pub fn len(&self) -> usize
        ensures { result ≡ length self.now }
    {
        self.tree.len()
    }

    /// Returns an iterator over the subscriptions, by ascending id.
    pub fn iter(&self) -> Values<'_, u128, Sub>
        ensures items { result ≡ self.now }
        ensures order { InOrder self.now }
    {
        self.tree.values()
    }

    /// Returns an iterator over the subscriptions with the numbers of their ids, by ascending id.
    pub fn entries(&self) -> Range<'_, u128, Sub>
        ensures items { values_of result ≡ self.now }
        ensures order { InOrder self.now }
    {
        self.tree.range(..)
    }

    /// Returns an iterator over the subscriptions from this id on, with the numbers of their ids,
    /// by ascending id.
    pub fn range_from(&self, id: EntityId) -> Range<'_, u128, Sub>
        ensures items { values_of result ≡ filter (comes_from id) self.now }
        ensures order { InOrder self.now }
    {
        self.tree.range(id.number()..)
    }

    /// Returns the subscription with the number of its id.
    ///
    /// An index stores only the number.
    pub fn get(&self, number: u128) -> Option<&Sub>
        ensures { option_copied result ≡ get (subscription_map self.now) number }
    {
        self.tree.get(&number)
    }

    /// Returns a copy of the subscription with this id, if any.
    ///
    /// Returns `AllocError` if memory runs out. Allocates nothing if there is none.
    pub fn subscription(&self, id: EntityId) -> Result<Option<Sub>, AllocError>
        ensures found { IfOk result (λ found. found ≡ get (subscription_map self.now) id) }
        ensures none { IsNone (get (subscription_map self.now) id) → IsOk result }
    {
        match self.get(id.number()) {
            Some(sub) => Ok(Some(sub.clone()?)),
            None => Ok(None),
        }
    }

    /// Returns copies of a USS's subscriptions whose volumes meet an area, by ascending id.
    ///
    /// Returns `AllocError` if memory runs out.
    pub fn subscriptions_of(
        &self,
        alloc: Global,
        uss: &UssId,
        area: &Area,
    ) -> Result<Vec<Sub>, AllocError>
        ensures { IfOk result (λ found. found.items
            ≡ subscriptions_in (subscription_map self.now) uss.now area.now) }
    {
        let sorted_area = SortedArea::new(alloc, area)?;
        self.own_sorted(alloc, uss, &sorted_area)
    }

    fn own_sorted(
        &self,
        alloc: Global,
        uss: &UssId,
        area: &SortedArea,
    ) -> Result<Vec<Sub>, AllocError>
        ensures { IfOk result (λ found. found.items
            ≡ subscriptions_in (subscription_map self.now) uss.now area.now) }
    {
        let mut own = Vec::new(alloc);
        for sub in self.tree.values() {
            if is_own_near(sub, uss, area) {
                own.push(sub.clone()?)?;
            }
        }
        Ok(own)
    }

    /// Returns copies of the subscriptions that are for a kind and whose volumes meet some area, by
    /// ascending id.
    ///
    /// Returns `AllocError` if memory runs out.
    pub fn subscribers(
        &self,
        alloc: Global,
        kind: Kind,
        areas: &[Area],
    ) -> Result<Vec<Sub>, AllocError>
        ensures { IfOk result (λ found. found.items
            ≡ subscribers_in (subscription_map self.now) kind areas.now) }
    {
        let sorted_areas = sorted(alloc, areas)?;
        self.for_sorted(alloc, kind, &sorted_areas)
    }

    fn for_sorted(
        &self,
        alloc: Global,
        kind: Kind,
        areas: &[SortedArea],
    ) -> Result<Vec<Sub>, AllocError>
        ensures { IfOk result (λ found. found.items
            ≡ subscribers_in (subscription_map self.now) kind areas.now) }
    {
        let mut wanted = Vec::new(alloc);
        for sub in self.tree.values() {
            if is_for_near(sub, kind, areas) {
                wanted.push(sub.clone()?)?;
            }
        }
        Ok(wanted)
    }

    /// Notifies each subscription with one of these ids once: increments its notification index.
    ///
    /// Each index must be below its maximum. Allocates nothing.
    pub fn notify(&mut self, ids: &[EntityId])
        requires { CanNotify self.old }
        ensures { subscription_map self.new
            ≡ notified_where (is_one_of ids.now) (subscription_map self.old) }
    {
        notify_ids(&mut self.tree, ids);
    }

    /// Puts a subscription, replacing the one with the same id.
    ///
    /// Returns `AllocError` and changes nothing if memory runs out. Replacing one does not fail.
    pub fn put(&mut self, sub: Sub) -> Result<(), AllocError>
        ensures ok { OnOk result (subscription_map self.new
            ≡ insert (subscription_map self.old) sub.id sub) }
        ensures err { OnErr result (self.new ≡ self.old) }
        ensures over { IsSome (get (subscription_map self.old) sub.id) → IsOk result }
    {
        match self.tree.insert(sub.id.number(), sub) {
            Ok(_) => Ok(()),
            Err(failed) => Err(AllocError::from(failed)),
        }
    }

    /// Removes the subscription with this id.
    ///
    /// Changes nothing if it does not exist.
    pub fn remove(&mut self, id: EntityId)
        ensures { subscription_map self.new ≡ remove (subscription_map self.old) id }
    {
        let _gone = self.tree.remove(&id.number());
    }
}
