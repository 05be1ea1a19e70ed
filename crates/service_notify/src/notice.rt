//! The notices of a change.
ghost use Rattle.std.specs.Prelude.{◌≡◌, ◌<◌, List, [], ◌∷◌, ◌++◌, IfOk, OnOk, map};
ghost use Rattle.std.specs.List.{AllByRecursion};
ghost use Rattle.entity_core.specs.Airspace.{notified_again};
ghost use Rattle.entity_core.specs.Serial.{max_serial};
ghost use Rattle.entity_core.specs.declared.subscription.Sub.{Sub};
ghost use Rattle.service_notify.specs.Notices.{notices_of};
ghost use Rattle.service_notify.specs.Notified.{IsNotifiedAt};

use entity_core::base_url::BaseUrl;
use entity_core::entity_id::EntityId;
use entity_core::subscription::Sub;
use policy_core::sub_view::EntityIds;
use std::alloc::{AllocError, Global};
use std::collections::BTreeMap;
use std::marker::Model;

/// The ids of subscriptions, each with its index, in their order. Contracts see its list.
#[derive(Debug, Drop)]
pub struct SubIndexes {
    items: Vec<(EntityId, u64)>,
}

impl Model for SubIndexes {
    ghost use Rattle.std.specs.Prelude.{List, ℕ};

    ghost Value = { List (ℕ × ℕ) };

    ghost view = { λ a. a.items.items };
}

impl SubIndexes {
    // Returns a list with only this one.
    fn one(alloc: Global, state: (EntityId, u64)) -> Result<SubIndexes, AllocError>
        ensures { IfOk result (λ states. states ≡ state ∷ []) }
    {
        let items = vec![in alloc; state]?;
        Ok(SubIndexes { items })
    }

    // Appends one to the end.
    fn push(&mut self, state: (EntityId, u64)) -> Result<(), AllocError>
        ensures { OnOk result (self.new ≡ self.old ++ state ∷ []) }
    {
        Ok(self.items.push(state)?)
    }

    /// Returns the ids and indexes, in their order.
    pub fn items(&self) -> &[(EntityId, u64)]
        ensures { result.now ≡ self.now }
    {
        self.items.as_slice()
    }
}

/// The notice at a URL: the subscriptions that have it, in ascending order of ids, with their new
/// indexes.
#[derive(Debug, Drop)]
pub struct Notify {
    pub url: BaseUrl,
    pub states: SubIndexes,
}

/// The notices of a change, in the order of the bytes of their URLs. Contracts see its list.
#[derive(Debug, Drop)]
pub struct Notices {
    items: Vec<Notify>,
}

impl Model for Notices {
    ghost use Rattle.std.specs.Prelude.{List};
    ghost use Rattle.service_notify.specs.declared.notice.Notify.{Notify};

    ghost Value = { List Notify };

    ghost view = { λ a. a.items.items };
}

impl Notices {
    // Creates it from these notices. It allocates nothing.
    fn from_vec(items: Vec<Notify>) -> Notices
        ensures { result ≡ items.items }
    {
        Notices { items }
    }

    /// Returns the notices, in their order.
    pub fn items(&self) -> &[Notify]
        ensures { result.now ≡ self.now }
    {
        self.items.as_slice()
    }
}

/// Notifies each subscription of one more change, if its index can increase.
pub fn notify_each(subs: &mut [Sub])
    ensures { AllByRecursion (λ s. s.index < max_serial) subs.old
        → subs.new ≡ map notified_again subs.old }
{
    for sub in subs.iter_mut() {
        sub.notify();
    }
}

/// Returns the ids of some subscriptions, in their order.
pub fn sub_ids(alloc: Global, subs: &[Sub]) -> Result<EntityIds, AllocError>
    ensures { IfOk result (λ ids. ids ≡ map (λ s. s.id) subs.now) }
{
    let mut items = Vec::with_capacity(alloc, subs.len())?;
    for sub in subs {
        items.push(sub.id)?;
    }
    Ok(EntityIds::from_vec(items))
}

// The notices gathered so far, by URL.
type Notified<'a> = BTreeMap<&'a str, Notify>;

// Adds the state of one more subscription at its URL.
fn add_notified<'a>(told: &mut Notified<'a>, alloc: Global, sub: &'a Sub) -> Result<(), AllocError>
    ensures { OnOk result ((before : List Sub) → IsNotifiedAt before told.old
        → IsNotifiedAt (before ++ sub.now ∷ []) told.new) }
{
    let url = sub.url.text();
    let state = (sub.id, sub.index.number());
    match told.get_mut(url) {
        Some(notify) => notify.states.push(state),
        None => {
            let states = SubIndexes::one(alloc, state)?;
            let notify = Notify {
                url: sub.url.clone()?,
                states,
            };
            told.insert(url, notify)?;
            Ok(())
        }
    }
}

// Returns the notices of some subscriptions, by URL.
fn notified_of<'a>(alloc: Global, subs: &'a [Sub]) -> Result<Notified<'a>, AllocError>
    ensures { IfOk result (IsNotifiedAt subs.now) }
{
    let mut told = BTreeMap::new(alloc);
    for sub in subs {
        add_notified(&mut told, alloc, sub)?;
    }
    Ok(told)
}

/// Returns the notices of some subscriptions, one for each URL.
pub fn notices_of(alloc: Global, subs: &[Sub]) -> Result<Notices, AllocError>
    ensures { IfOk result (λ told. told ≡ notices_of subs.now) }
{
    let told = notified_of(alloc, subs)?;
    let mut items = Vec::with_capacity(alloc, told.len())?;
    for (_, notify) in told {
        items.push(notify)?;
    }
    Ok(Notices::from_vec(items))
}
