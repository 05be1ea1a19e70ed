//! The usage that a change adds and the usage that it takes away.
ghost use Rattle.std.specs.Prelude.{◌≡◌, None};
ghost use Rattle.space_core.specs.Space.{Reads, ReportsFault};
ghost use Rattle.space_quota.specs.QuotaSpace.{IsPut};

use crate::usage::Usage;
use entity_core::entity::Entity;
use entity_core::entity_id::EntityId;
use entity_core::nature::Kind;
use entity_core::subscription::Sub;
use entity_core::uss_id::UssId;
use entity_purge::purge_item::PurgeItem;
use space_core::space::{Change, Space, SpaceFault};
use space_snapshot::snapshot::Snapshot;

/// The usage of one item, and its USS.
#[derive(Debug, Drop)]
pub(crate) struct UssUsage {
    pub manager: UssId,
    pub size: Usage,
}

fn part_of_entity(entity: Entity) -> UssUsage {
    let size = Usage::of_entity(&entity);
    UssUsage {
        manager: entity.manager,
        size,
    }
}

fn part_of_sub(sub: Sub) -> UssUsage {
    let size = Usage::of_sub(&sub);
    UssUsage {
        manager: sub.manager,
        size,
    }
}

/// The key of the item that a change puts or removes.
#[derive(Clone, Copy, Debug)]
pub(crate) enum ItemKey {
    Entity(Kind, EntityId),
    Sub(EntityId),
}

/// Returns the key of the item that a change puts or removes, if any.
pub(crate) fn item_of(change: &Change) -> Option<ItemKey> {
    match change {
        Change::Put(entity) => Some(ItemKey::Entity(entity.nature.kind(), entity.id)),
        Change::Remove(kind, id) => Some(ItemKey::Entity(*kind, *id)),
        Change::Avail(_, _, _) => None,
        Change::PutSub(sub) => Some(ItemKey::Sub(sub.id)),
        Change::RemoveSub(id) => Some(ItemKey::Sub(*id)),
    }
}

/// Returns the usage of the stored item with this key, if it exists.
pub(crate) fn usage_at<S: Space>(
    space: &mut S,
    place: ItemKey,
) -> Result<Option<UssUsage>, SpaceFault>
    ensures fixed { S.fixed space.new ≡ S.fixed space.old }
    ensures tells { ReportsFault (S.refusals space.old) (S.refusals space.new)
        (S.is_broken space.old) (S.is_broken space.new) result }
    ensures reads { Reads S.holds S.is_sound S.is_whole space.old space.new result
        (λ _ _. Unit {0}) }
{
    match place {
        ItemKey::Entity(kind, id) => Ok(space.entity(kind, id)?.map(part_of_entity)),
        ItemKey::Sub(id) => Ok(space.subscription(id)?.map(part_of_sub)),
    }
}

/// Returns the USS of the item that a change puts, and its usage.
pub(crate) fn usage_added(change: &Change) -> Option<(&UssId, Usage)>
    ensures { ¬ IsPut change.now → result ≡ None }
{
    match change {
        Change::Put(entity) => Some((&entity.manager, Usage::of_entity(entity))),
        Change::PutSub(sub) => Some((&sub.manager, Usage::of_sub(sub))),
        Change::Remove(_, _) | Change::Avail(_, _, _) | Change::RemoveSub(_) => None,
    }
}

/// Returns the USS of an item that is purged, and its usage, if the snapshot has the item.
pub(crate) fn usage_purged<'a>(
    shown: &Snapshot<'a>,
    thing: PurgeItem,
) -> Option<(&'a UssId, Usage)> {
    match thing {
        PurgeItem::Entity(kind, id) => {
            let entity = shown.entities.get(kind, id.number())?;
            Some((&entity.manager, Usage::of_entity(entity)))
        }
        PurgeItem::Subscription(id) => {
            let sub = shown.subscriptions.get(id.number())?;
            Some((&sub.manager, Usage::of_sub(sub)))
        }
    }
}
