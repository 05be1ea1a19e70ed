//! Subscriptions with an index by the cells of their volumes. The cost of a search depends on what
//! it finds.
ghost use Rattle.std.specs.Prelude.{◌≡◌, [], filter_map, is_some, OnOk, OnErr, IfOk, IsOk, IsNone, IsSome};
ghost use Rattle.std.specs.FinMap.{get, insert, remove};
ghost use Rattle.std.specs.BTreeSet.{IsOrdered, keys};
ghost use Rattle.std.specs.Ordering.{nat_cmp};
ghost use Rattle.entity_core.specs.Airspace.{is_one_of, notified_where};
ghost use Rattle.entity_core.specs.IdTexts.{same_text};
ghost use Rattle.entity_core.specs.Search.{is_for_near, subscribers_in, subscriptions_in};
ghost use Rattle.entity_maps.specs.Subscriptions.{CanNotify, InOrder, subscription_map};
ghost use Rattle.space_memory.specs.CellIndex.{Grows};
ghost use Rattle.space_memory.specs.Found.{is_own_of, AllPassing, Judges, OnlyPassing};
ghost use Rattle.space_memory.specs.IndexedSubscriptions.{AllMarked, IsIndexBut, IsIndexIfAny, IsIndexOf, holder_of, volumes_of};

use crate::cell_index::{Holder, Mark, mark_cells, unmark_cells};
use crate::found::add_at;
use crate::near::{Near, Part, meets_one_of, near};
use entity_core::entity_id::EntityId;
use entity_core::nature::Kind;
use entity_core::subscription::Sub;
use entity_core::uss_id::UssId;
use entity_maps::subscriptions::Subscriptions;
use grid_core::sorted_area::{SortedArea, sorted};
use grid_core::volume::Area;
use std::alloc::{AllocError, Global};
use std::collections::BTreeSet;
use std::marker::Model;
use std::slice::from_ref;

/// Subscriptions ordered by id, with an index of their cells.
///
/// The index is dropped if memory runs out for a put that must not fail. Contracts see their list.
#[derive(Debug, Drop)]
pub(crate) struct IndexedSubscriptions {
    subscriptions: Subscriptions,
    marks: Option<BTreeSet<Mark>>,
}

impl Model for IndexedSubscriptions {
    ghost use Rattle.std.specs.Prelude.{List};
    ghost use Rattle.entity_core.specs.declared.subscription.Sub.{Sub};
    ghost use Rattle.entity_maps.specs.Subscriptions.{subscription_map};
    ghost use Rattle.space_memory.specs.IndexedSubscriptions.{IsIndexIfAny};

    ghost Value = { List Sub };

    ghost view = { λ a. a.subscriptions };

    ghost invariant = { λ a. IsIndexIfAny (subscription_map a.subscriptions) a.marks };
}

// ---- one subscription

fn sub_holder(sub: &Sub) -> Holder
    ensures { result ≡ holder_of sub.now }
{
    (sub.serial.number(), sub.id.number())
}

fn mark_sub(marks: &mut BTreeSet<Mark>, sub: &Sub) -> Result<(), AllocError>
    ensures kept { Grows marks.old marks.new }
    ensures marked { OnOk result (AllMarked marks.new sub.now) }
{
    mark_cells(marks, sub_holder(sub), 0, sub.volume.cells())
}

// ---- additions and removals

// Marks the subscription with this id, if it exists. On an error some of its cells can be marked.
fn enter_sub(
    marks: &mut Option<BTreeSet<Mark>>,
    subscriptions: &Subscriptions,
    id: EntityId,
) -> Result<(), AllocError>
    ensures kept { IsIndexBut id (subscription_map subscriptions.now) marks.old
        → IsIndexBut id (subscription_map subscriptions.now) marks.new }
    ensures marked { OnOk result (IsIndexBut id (subscription_map subscriptions.now) marks.old
        → IsIndexIfAny (subscription_map subscriptions.now) marks.new) }
{
    match marks {
        Some(marks) => match subscriptions.get(id.number()) {
            Some(sub) => mark_sub(marks, sub),
            None => Ok(()),
        },
        None => Ok(()),
    }
}

// Removes the marks of the subscription with this id. Returns true if it exists.
fn forget_sub(
    marks: &mut Option<BTreeSet<Mark>>,
    subscriptions: &Subscriptions,
    id: EntityId,
) -> bool
    ensures there { result ≡ is_some (get (subscription_map subscriptions.now) id) }
    ensures kept { IsIndexBut id (subscription_map subscriptions.now) marks.old
        → IsIndexBut id (subscription_map subscriptions.now) marks.new }
{
    match subscriptions.get(id.number()) {
        Some(sub) => {
            if let Some(marks) = marks {
                unmark_cells(marks, sub_holder(sub), 0, sub.volume.cells());
            }
            true
        }
        None => false,
    }
}

fn remove_sub(subscriptions: &mut Subscriptions, marks: &mut Option<BTreeSet<Mark>>, id: EntityId)
    requires { IsIndexBut id (subscription_map subscriptions.old) marks.old }
    ensures index { IsIndexIfAny (subscription_map subscriptions.new) marks.new }
    ensures removed { subscription_map subscriptions.new
        ≡ remove (subscription_map subscriptions.old) id }
    ensures order { InOrder subscriptions.new }
{
    forget_sub(marks, subscriptions, id);
    subscriptions.remove(id);
    let _left = subscriptions.iter();
}

// Puts a subscription and then marks it. If memory runs out for the marks, it removes a new
// subscription again. A put that replaces one must not fail, so it drops the index instead.
fn put_sub(
    subscriptions: &mut Subscriptions,
    marks: &mut Option<BTreeSet<Mark>>,
    sub: Sub,
) -> Result<(), AllocError>
    requires { IsIndexIfAny (subscription_map subscriptions.old) marks.old }
    ensures index { IsIndexIfAny (subscription_map subscriptions.new) marks.new }
    ensures ok { OnOk result (subscription_map subscriptions.new
        ≡ insert (subscription_map subscriptions.old) sub.id sub) }
    ensures err { OnErr result (subscriptions.new ≡ subscriptions.old) }
    ensures over { IsSome (get (subscription_map subscriptions.old) sub.id) → IsOk result }
{
    let _before = subscriptions.iter();
    let id = sub.id;
    let is_over = forget_sub(marks, subscriptions, id);
    subscriptions.put(sub)?;
    match enter_sub(marks, subscriptions, id) {
        Ok(()) => Ok(()),
        Err(fault) => {
            if is_over {
                *marks = None;
                Ok(())
            } else {
                remove_sub(subscriptions, marks, id);
                Err(fault)
            }
        }
    }
}

// ---- searches

fn is_of(sub: &Sub, uss: &UssId) -> bool
    ensures { result ≡ same_text sub.now.manager uss.now }
{
    sub.manager.text() == uss.text()
}

// Returns true if the subscription of a candidate belongs to the USS and meets an area whose bit is
// set.
fn is_own(
    subscriptions: &Subscriptions,
    uss: &UssId,
    part: Part,
    bits: u64,
    areas: &[SortedArea],
) -> bool
    ensures { Judges (get (subscription_map subscriptions.now)) volumes_of
        (is_own_of uss.now areas.now) areas.now part bits result }
{
    match subscriptions.get(part.0) {
        Some(sub) => is_of(sub, uss) && meets_one_of(&sub.volume, bits, areas),
        None => false,
    }
}

// Returns the ids of a USS's subscriptions that meet some area, given the candidates.
fn own_ids(
    alloc: Global,
    subscriptions: &Subscriptions,
    near: &Near,
    uss: &UssId,
    areas: &[SortedArea],
) -> Result<BTreeSet<u128>, AllocError>
    ensures only { IfOk result (λ ids. OnlyPassing (get (subscription_map subscriptions.now))
        (is_own_of uss.now areas.now) ids) }
    ensures all { IfOk result (λ ids. AllPassing (get (subscription_map subscriptions.now))
        volumes_of (is_own_of uss.now areas.now) areas.now near.now ids) }
{
    let mut ids = BTreeSet::new(alloc);
    for (part, bits) in near {
        let answer = is_own(subscriptions, uss, *part, *bits, areas);
        add_at(&mut ids, part.0, answer)?;
    }
    Ok(ids)
}

// Returns true if the subscription of a candidate is for the kind and meets an area whose bit is
// set.
fn is_wanted(
    subscriptions: &Subscriptions,
    kind: Kind,
    part: Part,
    bits: u64,
    areas: &[SortedArea],
) -> bool
    ensures { Judges (get (subscription_map subscriptions.now)) volumes_of
        (is_for_near kind areas.now) areas.now part bits result }
{
    match subscriptions.get(part.0) {
        Some(sub) => sub.interest.wants(kind) && meets_one_of(&sub.volume, bits, areas),
        None => false,
    }
}

// Returns the ids of the subscriptions that are for a kind and meet some area, given the
// candidates.
fn wanted_ids(
    alloc: Global,
    subscriptions: &Subscriptions,
    near: &Near,
    kind: Kind,
    areas: &[SortedArea],
) -> Result<BTreeSet<u128>, AllocError>
    ensures only { IfOk result (λ ids. OnlyPassing (get (subscription_map subscriptions.now))
        (is_for_near kind areas.now) ids) }
    ensures all { IfOk result (λ ids. AllPassing (get (subscription_map subscriptions.now))
        volumes_of (is_for_near kind areas.now) areas.now near.now ids) }
{
    let mut ids = BTreeSet::new(alloc);
    for (part, bits) in near {
        let answer = is_wanted(subscriptions, kind, *part, *bits, areas);
        add_at(&mut ids, part.0, answer)?;
    }
    Ok(ids)
}

// Returns copies of the subscriptions with these ids, by ascending id.
fn all_of(
    alloc: Global,
    subscriptions: &Subscriptions,
    ids: &BTreeSet<u128>,
) -> Result<Vec<Sub>, AllocError>
    ensures found { IfOk result (λ found. found.items
        ≡ filter_map (get (subscription_map subscriptions.now)) (keys ids.now)) }
    ensures rise { IsOrdered nat_cmp ids.now }
{
    let mut found = Vec::new(alloc);
    for id in ids {
        if let Some(sub) = subscriptions.get(*id) {
            found.push(sub.clone()?)?;
        }
    }
    Ok(found)
}

// Finds a USS's subscriptions. Checks only those that have a cell near the area.
fn own_by_index(
    alloc: Global,
    subscriptions: &Subscriptions,
    marks: &BTreeSet<Mark>,
    uss: &UssId,
    area: &Area,
) -> Result<Vec<Sub>, AllocError>
    requires { IsIndexOf (subscription_map subscriptions.now) marks.now }
    ensures { IfOk result (λ found. found.items
        ≡ subscriptions_in (subscription_map subscriptions.now) uss.now area.now) }
{
    let areas = sorted(alloc, from_ref(area))?;
    let near = near(alloc, marks, &areas)?;
    let ids = own_ids(alloc, subscriptions, &near, uss, &areas)?;
    all_of(alloc, subscriptions, &ids)
}

fn wanted_by_index(
    alloc: Global,
    subscriptions: &Subscriptions,
    marks: &BTreeSet<Mark>,
    kind: Kind,
    areas: &[Area],
) -> Result<Vec<Sub>, AllocError>
    requires { IsIndexOf (subscription_map subscriptions.now) marks.now }
    ensures { IfOk result (λ found. found.items
        ≡ subscribers_in (subscription_map subscriptions.now) kind areas.now) }
{
    let areas = sorted(alloc, areas)?;
    let near = near(alloc, marks, &areas)?;
    let ids = wanted_ids(alloc, subscriptions, &near, kind, &areas)?;
    all_of(alloc, subscriptions, &ids)
}

impl IndexedSubscriptions {
    /// Returns an empty map.
    ///
    /// Allocates nothing.
    pub(crate) fn new(alloc: Global) -> IndexedSubscriptions
        ensures { result ≡ [] }
    {
        IndexedSubscriptions {
            subscriptions: Subscriptions::new(alloc),
            marks: Some(BTreeSet::new(alloc)),
        }
    }

    /// Indexes the subscriptions of a tree.
    ///
    /// Returns `AllocError` if memory runs out.
    pub(crate) fn of(
        alloc: Global,
        subscriptions: Subscriptions,
    ) -> Result<IndexedSubscriptions, AllocError>
        ensures { IfOk result (λ indexed. indexed ≡ subscriptions) }
    {
        let mut marks = BTreeSet::new(alloc);
        for sub in subscriptions.iter() {
            mark_sub(&mut marks, sub)?;
        }
        Ok(IndexedSubscriptions {
            subscriptions,
            marks: Some(marks),
        })
    }

    /// Returns the subscriptions, in their order.
    pub(crate) fn subscriptions(&self) -> &Subscriptions
        ensures { result.now ≡ self.now }
    {
        &self.subscriptions
    }

    /// Returns a copy of the subscription with this id, if any.
    ///
    /// Returns `AllocError` if memory runs out. Allocates nothing if there is none.
    pub(crate) fn subscription(&self, id: EntityId) -> Result<Option<Sub>, AllocError>
        ensures found { IfOk result (λ found. found ≡ get (subscription_map self.now) id) }
        ensures none { IsNone (get (subscription_map self.now) id) → IsOk result }
    {
        self.subscriptions.subscription(id)
    }

    /// Returns copies of a USS's subscriptions whose volumes meet an area, by ascending id.
    ///
    /// Returns `AllocError` if memory runs out.
    pub(crate) fn own(
        &self,
        alloc: Global,
        uss: &UssId,
        area: &Area,
    ) -> Result<Vec<Sub>, AllocError>
        ensures { IfOk result (λ found. found.items
            ≡ subscriptions_in (subscription_map self.now) uss.now area.now) }
    {
        match &self.marks {
            Some(marks) => own_by_index(alloc, &self.subscriptions, marks, uss, area),
            None => self.subscriptions.subscriptions_of(alloc, uss, area),
        }
    }

    /// Returns copies of the subscriptions that are for a kind and whose volumes meet some area, by
    /// ascending id.
    ///
    /// Returns `AllocError` if memory runs out.
    pub(crate) fn for_kind(
        &self,
        alloc: Global,
        kind: Kind,
        areas: &[Area],
    ) -> Result<Vec<Sub>, AllocError>
        ensures { IfOk result (λ found. found.items
            ≡ subscribers_in (subscription_map self.now) kind areas.now) }
    {
        match &self.marks {
            Some(marks) => wanted_by_index(alloc, &self.subscriptions, marks, kind, areas),
            None => self.subscriptions.subscribers(alloc, kind, areas),
        }
    }

    /// Notifies each subscription with one of these ids once: increments its notification index.
    ///
    /// Each index must be below its maximum. Allocates nothing.
    pub(crate) fn tell(&mut self, ids: &[EntityId])
        requires { CanNotify self.old }
        ensures { subscription_map self.new
            ≡ notified_where (is_one_of ids.now) (subscription_map self.old) }
    {
        self.subscriptions.notify(ids)
    }

    /// Puts a subscription, replacing the one with the same id.
    ///
    /// Returns `AllocError` and changes nothing if memory runs out. Replacing one does not fail.
    pub(crate) fn put(&mut self, sub: Sub) -> Result<(), AllocError>
        ensures ok { OnOk result (subscription_map self.new
            ≡ insert (subscription_map self.old) sub.id sub) }
        ensures err { OnErr result (self.new ≡ self.old) }
        ensures over { IsSome (get (subscription_map self.old) sub.id) → IsOk result }
    {
        put_sub(&mut self.subscriptions, &mut self.marks, sub)
    }

    /// Removes the subscription with this id.
    ///
    /// Changes nothing if it does not exist.
    pub(crate) fn remove(&mut self, id: EntityId)
        ensures { subscription_map self.new ≡ remove (subscription_map self.old) id }
    {
        remove_sub(&mut self.subscriptions, &mut self.marks, id)
    }
}
