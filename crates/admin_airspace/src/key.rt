//! The order of all items of the airspace.
ghost use Rattle.std.specs.Prelude.{◌≡◌};
ghost use Rattle.admin_airspace.specs.Cursor.{comes_after, key_of_entity, key_of_sub, sort_index};

use entity_core::entity::Entity;
use entity_core::entity_id::EntityId;
use entity_core::nature::Kind;
use entity_core::subscription::Sub;

/// The kind of an item. The intents come first, then the constraints, then the subscriptions.
#[derive(Clone, Copy, Debug, PartialEq, Eq)]
pub(crate) enum ItemKind {
    Intent,
    Constraint,
    Subscription,
}

impl ItemKind {
    // Returns its index in the order of kinds.
    fn index(self) -> u8
        ensures { result ≡ sort_index self }
    {
        match self {
            ItemKind::Intent => 0,
            ItemKind::Constraint => 1,
            ItemKind::Subscription => 2,
        }
    }

    /// Returns its name.
    pub(crate) fn name(self) -> &'static str {
        match self {
            ItemKind::Intent => "intent",
            ItemKind::Constraint => "constraint",
            ItemKind::Subscription => "subscription",
        }
    }

    // Returns the kind of that name.
    fn named(name: &str) -> Option<ItemKind> {
        match name {
            "intent" => Some(ItemKind::Intent),
            "constraint" => Some(ItemKind::Constraint),
            "subscription" => Some(ItemKind::Subscription),
            _ => None,
        }
    }
}

/// The position of an entity or a subscription. Items of a kind are in ascending order of their
/// ids.
#[derive(Clone, Copy, Debug)]
pub(crate) struct Cursor {
    sort: ItemKind,
    number: u128,
}

impl Cursor {
    /// Parses a cursor: the name of a kind, a colon and an id.
    pub(crate) fn read(text: &str) -> Option<Cursor> {
        let (name, id) = text.split_once(':')?;
        let sort = ItemKind::named(name)?;
        match EntityId::read(id) {
            Ok(id) => Some(Cursor {
                sort,
                number: id.number(),
            }),
            Err(_) => None,
        }
    }

    /// Returns the cursor of an entity.
    pub(crate) fn of_entity(entity: &Entity) -> Cursor
        ensures { result ≡ key_of_entity entity.now }
    {
        let sort = match entity.nature.kind() {
            Kind::Intent => ItemKind::Intent,
            Kind::Constraint => ItemKind::Constraint,
        };
        Cursor {
            sort,
            number: entity.id.number(),
        }
    }

    /// Returns the cursor of a subscription.
    pub(crate) fn of_sub(sub: &Sub) -> Cursor
        ensures { result ≡ key_of_sub sub.now }
    {
        Cursor {
            sort: ItemKind::Subscription,
            number: sub.id.number(),
        }
    }

    /// Returns true if it comes after another cursor.
    pub(crate) fn comes_after(self, other: Cursor) -> bool
        ensures { result ≡ comes_after self other }
    {
        let (own, others) = (self.sort.index(), other.sort.index());
        others < own || (own == others && other.number < self.number)
    }
}
