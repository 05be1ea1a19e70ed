//! A USS's view of its subscriptions.
ghost use Rattle.std.specs.Prelude.{◌≡◌, IfOk, []};
ghost use Rattle.policy_core.specs.SubView.{sub_view_of};

use entity_core::base_url::BaseUrl;
use entity_core::entity_id::EntityId;
use entity_core::interest::Interest;
use entity_core::notification_index::NotificationIndex;
use entity_core::ovn::Ovn;
use entity_core::subscription::Sub;
use std::alloc::{AllocError, Global};
use std::marker::Model;

/// Ids of entities, in their order.
///
/// Contracts see their list.
#[derive(Debug, Drop)]
pub struct EntityIds {
    items: Vec<EntityId>,
}

impl Model for EntityIds {
    ghost use Rattle.std.specs.Prelude.{List, ℕ};

    ghost Value = { List ℕ };

    ghost view = { λ a. a.items.items };
}

impl EntityIds {
    /// Creates a list of these ids.
    ///
    /// Allocates nothing.
    pub fn from_vec(items: Vec<EntityId>) -> EntityIds
        ensures { result ≡ items.items }
    {
        EntityIds { items }
    }

    /// Returns the ids, in their order.
    pub fn items(&self) -> &[EntityId]
        ensures { result.now ≡ self.now }
    {
        self.items.as_slice()
    }

    /// Copies these ids.
    ///
    /// Returns `AllocError` if memory runs out.
    pub fn copied(alloc: Global, ids: &[EntityId]) -> Result<EntityIds, AllocError>
        ensures { IfOk result (λ copy. copy ≡ ids.now) }
    {
        Ok(EntityIds {
            items: Vec::from_slice(alloc, ids)?,
        })
    }
}

/// A USS's view of a subscription. No subscription is implicit.
#[derive(Debug, Drop)]
pub struct SubView {
    pub id: EntityId,
    pub version: Ovn,
    pub index: NotificationIndex,
    pub interest: Interest,
    /// The start of its volume, in Unix seconds.
    pub time_start: u64,
    /// The end of its volume, in Unix seconds.
    pub time_end: u64,
    pub url: BaseUrl,
    /// The ids of the intents that reference it, ascending.
    pub dependents: EntityIds,
}

/// Returns the view of a subscription that the intents with these ids reference.
///
/// Returns `AllocError` if memory runs out.
pub fn sub_view(alloc: Global, sub: &Sub, dependents: &[EntityId]) -> Result<SubView, AllocError>
    ensures { IfOk result (λ view. view ≡ sub_view_of sub.now dependents.now) }
{
    let (time_start, time_end) = sub.volume.time();
    Ok(SubView {
        id: sub.id,
        version: sub.version.clone()?,
        index: sub.index,
        interest: sub.interest,
        time_start,
        time_end,
        url: sub.url.clone()?,
        dependents: EntityIds::copied(alloc, dependents)?,
    })
}

/// Views of subscriptions, in their order.
///
/// Contracts see their list.
#[derive(Debug, Drop)]
pub struct SubViews {
    items: Vec<SubView>,
}

impl Model for SubViews {
    ghost use Rattle.std.specs.Prelude.{List};
    ghost use Rattle.policy_core.specs.declared.sub_view.SubView.{SubView};

    ghost Value = { List SubView };

    ghost view = { λ a. a.items.items };
}

impl SubViews {
    /// Creates a list of these views.
    ///
    /// Allocates nothing.
    pub fn from_vec(items: Vec<SubView>) -> SubViews
        ensures { result ≡ items.items }
    {
        SubViews { items }
    }

    /// Returns the views, in their order.
    pub fn items(&self) -> &[SubView]
        ensures { result.now ≡ self.now }
    {
        self.items.as_slice()
    }
}
