//! References: a USS's view of entities.
ghost use Rattle.std.specs.Prelude.{◌≡◌, IfOk, []};
ghost use Rattle.entity_core.specs.Airspace.{Airspace, availability_of};
ghost use Rattle.policy_core.specs.Missing.{is_none_of};
ghost use Rattle.policy_core.specs.View.{shown_ovn, view_of, view_with};

use entity_core::availability::Availability;
use entity_core::base_url::BaseUrl;
use entity_core::entity::Entity;
use entity_core::entity_id::EntityId;
use entity_core::nature::Nature;
use entity_core::ovn::Ovn;
use entity_core::uss_id::UssId;
use entity_core::version::Version;
use std::alloc::{AllocError, Global};
use std::marker::Model;

/// A USS's view of an entity.
#[derive(Debug, Drop)]
pub struct Reference {
    pub nature: Nature,
    pub id: EntityId,
    pub manager: UssId,
    /// The manager's current availability.
    pub availability: Availability,
    pub version: Version,
    /// The OVN. Only the manager sees it.
    pub ovn: Option<Ovn>,
    /// The earliest start of its volumes, in Unix seconds.
    pub time_start: u64,
    /// The latest end of its volumes, in Unix seconds.
    pub time_end: u64,
    pub url: BaseUrl,
}

fn shown_ovn(uss: &UssId, entity: &Entity) -> Result<Option<Ovn>, AllocError>
    ensures { IfOk result (λ ovn. ovn ≡ shown_ovn uss.now entity.now) }
{
    if entity.manager.text() == uss.text() {
        Ok(Some(entity.ovn.clone()?))
    } else {
        Ok(None)
    }
}

/// Returns the reference of an entity in a USS's view, given the availability of its manager.
///
/// Returns `AllocError` if memory runs out.
#[tactic(auto, unfolding(crate::specs::View::view_of))]
pub fn view(
    uss: &UssId,
    entity: &Entity,
    availability: Availability,
) -> Result<Reference, AllocError>
    ensures value { IfOk result (λ reference. reference
        ≡ view_with uss.now entity.now availability) }
    ensures in_airspace { (a : Airspace) → availability ≡ (availability_of a entity.now.manager).0
        → IfOk result (λ reference. reference ≡ view_of a uss.now entity.now) }
{
    let (time_start, time_end) = entity.times();
    Ok(Reference {
        nature: entity.nature,
        id: entity.id,
        manager: entity.manager.clone()?,
        availability,
        version: entity.version,
        ovn: shown_ovn(uss, entity)?,
        time_start,
        time_end,
        url: entity.url.clone()?,
    })
}

/// References, in their order.
///
/// Contracts see their list.
#[derive(Debug, Drop)]
pub struct References {
    items: Vec<Reference>,
}

impl Model for References {
    ghost use Rattle.std.specs.Prelude.{List};
    ghost use Rattle.policy_core.specs.declared.reference.Reference.{Reference};

    ghost Value = { List Reference };

    ghost view = { λ a. a.items.items };
}

impl References {
    /// Returns an empty list.
    ///
    /// Allocates nothing.
    pub fn new(alloc: Global) -> References
        ensures { result ≡ [] }
    {
        References {
            items: Vec::new(alloc),
        }
    }

    /// Creates a list of these references.
    ///
    /// Allocates nothing.
    pub fn from_vec(items: Vec<Reference>) -> References
        ensures { result ≡ items.items }
    {
        References { items }
    }

    /// Returns true if there are no references.
    pub fn is_empty(&self) -> bool
        ensures { result ≡ is_none_of self.now }
    {
        self.items.is_empty()
    }

    /// Returns the references, in their order.
    pub fn items(&self) -> &[Reference]
        ensures { result.now ≡ self.now }
    {
        self.items.as_slice()
    }

    /// Converts the list into a vector of its references.
    ///
    /// Allocates nothing.
    pub fn into_vec(self) -> Vec<Reference>
        ensures { result.items ≡ self }
    {
        let References { items } = self;
        items
    }
}

/// The entities that are missing from a key, in the caller's view: intents and constraints, each by
/// ascending id.
#[derive(Debug, Drop)]
pub struct Missing {
    pub intents: References,
    pub constraints: References,
}

impl Missing {
    ghost use Rattle.policy_core.specs.Missing.{is_nothing, nothing_missing};

    /// Returns the value in which nothing is missing.
    ///
    /// Allocates nothing.
    pub fn empty(alloc: Global) -> Missing
        ensures { result ≡ nothing_missing }
    {
        Missing {
            intents: References::new(alloc),
            constraints: References::new(alloc),
        }
    }

    /// Returns true if nothing is missing.
    pub fn is_empty(&self) -> bool
        ensures { result ≡ is_nothing self.now }
    {
        self.intents.is_empty() && self.constraints.is_empty()
    }
}
